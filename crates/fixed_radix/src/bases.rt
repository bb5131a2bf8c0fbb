//! The bases, each a power of 2.

ghost use Rattle.std.specs.Prelude.{◌≡◌, ◌≤◌, ◌<◌, ◌^◌, length};
ghost use Rattle.std.specs.Fmt.{char_count, digit_glyph, radix_prefix};
ghost use Rattle.fixed_radix.specs.Bases.{base_of, is_upper};

/// A base, and the case of its digits above 9.
#[derive(Clone, Copy, Debug, PartialEq, Eq)]
pub enum Base {
    /// Base 2.
    Binary,
    /// Base 8.
    Octal,
    /// Base 16, with the digits `a` to `f`.
    LowerHex,
    /// Base 16, with the digits `A` to `F`.
    UpperHex,
}

/// Returns how many bits a digit has.
pub(crate) fn digit_bits(base: Base) -> u32
    ensures value { 2 ^ result ≡ base_of base }
    ensures least { 1 ≤ result }
    ensures most { result ≤ 4 }
{
    match base {
        Base::Binary => 1,
        Base::Octal => 3,
        Base::LowerHex | Base::UpperHex => 4,
    }
}

/// Returns whether the digits above 9 are capital letters.
pub(crate) fn is_upper(base: Base) -> bool
    ensures { result ≡ is_upper base }
{
    match base {
        Base::UpperHex => true,
        Base::Binary | Base::Octal | Base::LowerHex => false,
    }
}

/// Returns the prefix of a number if the formatter is alternate.
pub(crate) fn prefix_of(base: Base) -> &'static str
    ensures value { result.now ≡ radix_prefix (base_of base) }
    ensures letters { char_count result.now ≡ length result.now }
{
    match base {
        Base::Binary => "0b",
        Base::Octal => "0o",
        Base::LowerHex | Base::UpperHex => "0x",
    }
}

/// Returns a digit as a character. Precondition: the digit is below 16.
pub(crate) fn glyph(digit: u8, upper: bool) -> u8
    requires { digit < 16 }
    ensures { result ≡ digit_glyph upper digit }
{
    if digit < 10 {
        b'0' + digit
    } else if upper {
        b'A' + (digit - 10)
    } else {
        b'a' + (digit - 10)
    }
}
