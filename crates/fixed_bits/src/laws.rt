//! Laws of the definitions. These functions do nothing: the contract of each is the law.

ghost use Rattle.std.specs.Prelude.{◌≡◌, ◌/◌, ℕ, ℤ, Bool, List};
ghost use Rattle.fixed_word.specs.Format.{InRange, IsWidth};
ghost use Rattle.fixed_bits.specs.Digits.{IsDigitList, bit_list, byte_list};

/// The bit list is the only list of n digits 0 or 1 for the value modulo `2^n`. The byte list is the only list of n/8
/// digits from 0 to 255 for it.
pub fn list_law()
    ensures bits { (n : ℕ) (a : ℤ) → IsWidth n → IsDigitList 2 n a (bit_list n a) }
    ensures only_bits { (n : ℕ) (a : ℤ) (ds : List ℕ)
        → IsWidth n → IsDigitList 2 n a ds → bit_list n a ≡ ds }
    ensures bytes { (n : ℕ) (a : ℤ) → IsWidth n → IsDigitList 256 (n / 8) a (byte_list n a) }
    ensures only_bytes { (n : ℕ) (a : ℤ) (ds : List ℕ) → IsWidth n → IsDigitList 256 (n / 8) a ds
        → byte_list n a ≡ ds }
{}

/// Of the numbers that fit, only one has a given bit list, and only one a given byte list. So bits and bytes that are
/// read back restore the number.
pub fn read_back_law()
    ensures bits { (signed : Bool) (n : ℕ) (x y : ℤ)
        → IsWidth n → InRange signed n x → InRange signed n y
        → bit_list n x ≡ bit_list n y → x ≡ y }
    ensures bytes { (signed : Bool) (n : ℕ) (x y : ℤ)
        → IsWidth n → InRange signed n x → InRange signed n y
        → byte_list n x ≡ byte_list n y → x ≡ y }
{}
