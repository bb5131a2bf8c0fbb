//! Powers of ten.

ghost use Rattle.std.specs.Prelude.{◌≡◌, ◌<◌, ◌^◌};

/// The powers of ten that fit into 64 bits.
static TENS: [u64; 20] = [
    1,
    10,
    100,
    1_000,
    10_000,
    100_000,
    1_000_000,
    10_000_000,
    100_000_000,
    1_000_000_000,
    10_000_000_000,
    100_000_000_000,
    1_000_000_000_000,
    10_000_000_000_000,
    100_000_000_000_000,
    1_000_000_000_000_000,
    10_000_000_000_000_000,
    100_000_000_000_000_000,
    1_000_000_000_000_000_000,
    10_000_000_000_000_000_000,
];

/// Returns `10^power`. Precondition: `power` is below 20.
#[inline(always)]
pub const fn ten_to(power: usize) -> u64
    requires { power < 20 }
    ensures { result ≡ 10 ^ power }
{
    TENS[power]
}
