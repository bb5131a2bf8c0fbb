//! The first lines of code that the README shows.

use fixed_num::FixedI32;
use fixed_policy::Checked;
use fixed_strict::Saturating;

#[test]
fn first_lines(rt: HostRuntime) {
    let gain = FixedI32::<16> { bits: 98304 };
    let level = FixedI32::<16> { bits: 131072 };
    let product = gain.checked_mul(level);
    let held = level.saturating_mul_int(1_000_000);
    let sum = gain * level + 2 * level;
    assert!(rt; product == Some(FixedI32::<16> { bits: 196608 }));
    assert!(rt; held.bits == i32::MAX && sum.bits == 458752);
}
