//! A number in units of `2^-shift`, and how many digits after the point it needs.

ghost use Rattle.std.specs.Prelude.{◌≡◌, ◌==◌, ◌+◌, ◌*◌, ◌/◌, ◌%◌, ◌^◌, ◌<◌, ◌≤◌, Bool, true};
ghost use Rattle.fixed_word.specs.declared.rounding.Rounding.TheVariants.{Even};
ghost use Rattle.fixed_decimal.specs.inside.Stepped.{stepped};
ghost use Rattle.fixed_radix.specs.Bases.{exact_places};

/// Returns a magnitude of units of `2^-frac` in units of `2^-shift`, rounded to the nearest, ties to even.
pub(crate) fn in_units(magnitude: u64, frac: u32, shift: u32) -> u128
    requires frac { frac ≤ 64 }
    requires shift { shift ≤ frac + 4 }
    ensures units { (below : Bool) → result ≡ stepped Even below (magnitude * 2 ^ shift) (2 ^ frac) }
    ensures whole { result / 2 ^ shift ≤ magnitude }
{
    let units = u128::from(magnitude);
    if shift >= frac {
        return units << (shift - frac);
    }
    let behind = frac - shift;
    let whole = units >> behind;
    let rest = units % (1 << behind);
    if 2 * rest + whole % 2 > 1 << behind {
        whole + 1
    } else {
        whole
    }
}

/// Returns whether a magnitude in units of `2^-frac` is a whole number of units of `2^-shift`.
fn is_exact(magnitude: u64, frac: u32, shift: u32) -> bool
    requires { frac ≤ 64 }
    ensures value { result ≡ (magnitude * 2 ^ shift % 2 ^ frac == 0) }
    ensures enough { frac ≤ shift → result ≡ true }
{
    shift >= frac || u128::from(magnitude) % (1 << (frac - shift)) == 0
}

/// Returns how many digits after the point the exact text of a magnitude has, in a base of `2^bits`.
pub(crate) fn exact_places(magnitude: u64, frac: u32, bits: u32) -> u32
    requires frac { frac ≤ 64 }
    requires bits { (1 ≤ bits) × (bits ≤ 4) }
    ensures places { result ≡ exact_places (2 ^ bits) magnitude frac }
    ensures shift { bits * result < frac + bits }
    ensures exact { magnitude * 2 ^ (bits * result) % 2 ^ frac ≡ 0 }
    ensures bound { result ≤ 64 }
{
    let mut places = 0;
    while places < frac && !is_exact(magnitude, frac, bits * places) {
        places += 1;
    }
    places
}
