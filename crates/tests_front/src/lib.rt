//! A user who lists `fixed` alone: calls, generic code, and contracts that cite its definitions.
#![tactic(auto)]

ghost use Rattle.std.specs.Prelude.{◌≡◌, Some, true, ◌+ℤ◌};
ghost use Rattle.fixed.specs.Policies.{saturating};

use fixed::{Checked, FixedI32, Saturating};

/// A level and a step, held at the ends of the format.
pub fn moved(level: FixedI32<16>, step: FixedI32<16>) -> FixedI32<16>
    ensures { Some result.bits ≡ saturating true 32 (Some (level.bits +ℤ step.bits)) }
{
    level.saturating_add(step)
}

/// Three times a number, where that fits, in whatever format.
pub fn thrice<N: Checked>(number: N) -> Option<N> {
    let twice = number.checked_add(number)?;
    twice.checked_add(number)
}

#[cfg(test)]
mod calls {
    use super::{moved, thrice};
    use fixed::example::scaled;
    use fixed::kernel::{Rounding, checked_of, div_int_round_of};
    use fixed::{Checked, Fixed, FixedI32, Saturating};

    #[test]
    fn one_name(rt: HostRuntime) {
        let sample = FixedI32::<16> { bits: 98304 };
        assert_eq!(rt; scaled(sample, sample), Some(FixedI32 { bits: 147456 }));
        assert_eq!(rt; thrice(sample), Some(FixedI32 { bits: 294912 }));
        let most = Fixed::<i32, 16> { bits: i32::MAX };
        assert_eq!(rt; scaled(most, sample), None);
        assert_eq!(rt; moved(most, sample), most);
        assert_eq!(rt;
            checked_of(div_int_round_of(7_i8, 2, Rounding::Even)),
            Some(4)
        );
    }

    /// The first lines of code that the README shows.
    #[test]
    fn first_lines(rt: HostRuntime) {
        let gain = FixedI32::<16> { bits: 98304 };
        let level = FixedI32::<16> { bits: 131072 };
        assert_eq!(rt; gain.checked_mul(level), Some(FixedI32 { bits: 196608 }));
        let held = level.saturating_mul_int(1_000_000);
        assert_eq!(rt; held.bits, i32::MAX);
        let sum = gain * level + level * 2;
        assert_eq!(rt; sum.bits, 458752);
    }
}
