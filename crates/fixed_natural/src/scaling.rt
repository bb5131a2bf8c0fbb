//! Numbers in units of `2^-places`, and products by a constant.

ghost use Rattle.std.specs.Prelude.{◌≡◌, ◌≤◌, ◌<◌, ◌+◌, ◌-◌, ◌*◌, ◌^◌, Some, None};
ghost use Rattle.fixed_natural.specs.Logs.{log_room};
ghost use Rattle.fixed_natural.specs.inside.Scaling.{IsQuotient};

use fixed_elementary::wide::product;

/// Returns how many more fraction bits than its result a logarithm is computed with.
pub(crate) fn guard_of(bits: u32) -> u32
    ensures { result ≡ log_room bits + 1 }
{
    if bits <= 32 { 25 } else { 33 }
}

/// Returns a whole number in units of `2^-places`.
pub(crate) fn in_places(whole: u32, places: u32) -> u128
    requires whole { whole ≤ 64 }
    requires places { places ≤ 121 }
    ensures { result ≡ whole * 2 ^ places }
{
    u128::from(whole) << places
}

/// Returns `units * factor / 2^(128+guard)`, rounded down.
pub(crate) fn scaled(units: u128, factor: u128, guard: u32) -> u128
    requires { guard ≤ 64 }
    ensures { IsQuotient (units * factor) (2 ^ 128 * 2 ^ guard) result }
{
    product(units, factor).high >> guard
}

/// Returns `units - less`, or `None` if it is below 0.
pub(crate) fn difference(units: u128, less: u128) -> Option<u128>
    ensures below { units < less → result ≡ None }
    ensures above { less ≤ units → result ≡ Some (units - less) }
{
    if units < less {
        None
    } else {
        Some(units - less)
    }
}
