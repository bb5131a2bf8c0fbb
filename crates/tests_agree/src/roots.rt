//! Roots of the greatest number and of two, of every word, by all calls.

ghost use Rattle.std.specs.Prelude.{◌≤◌};

use super::exact::{answers_of, number, word};
use fixed_num::{
    Fixed, FixedI8, FixedI16, FixedI32, FixedI64, FixedU8, FixedU16, FixedU32, FixedU64,
};
use fixed_ops::Plain;
use fixed_policy::{Checked, Overflowing, Wrapping};
use fixed_strict::{Saturating, Strict};
use fixed_word::{SignedWord, UnsignedWord, Word};
use std::process::Abort;

/// The root by the plain call, which asks that it fits, where the checked call answers it.
#[tactic(auto, using(fixed_agree::proofs::Guarded::guarded))]
fn plain_root<T: Word, const F: u32>(a: Fixed<T, F>) -> Option<Fixed<T, F>>
    requires { F ≤ T.BITS }
{
    match a.checked_sqrt() {
        Some(_) => Some(a.sqrt()),
        None => None,
    }
}

/// Asserts that the root has the answers of the number `exact`.
fn has_root<T: Word, const F: u32>(rt: &impl Abort, a: Fixed<T, F>, exact: i128)
    requires { F ≤ T.BITS }
{
    if !a.bits.is_below_zero() {
        let expected = answers_of(exact);
        let answers = (a.checked_sqrt(), a.overflowing_sqrt(), a.wrapping_sqrt());
        let plain = plain_root(a) == expected.0;
        assert!(rt; answers == expected && plain, "{exact} at {F}");
    }
}

/// Whether `root` squared is at most `number`, and the square of the next number is above.
fn is_root(root: u128, number: u128) -> bool {
    let at_most = match root.checked_mul(root) {
        Some(square) => square <= number,
        None => false,
    };
    match root.checked_add(1) {
        Some(next) => match next.checked_mul(next) {
            Some(square) => at_most && number < square,
            None => at_most,
        },
        None => at_most,
    }
}

/// The root of the greatest number: none in a signed word of all fraction bits.
fn of_greatest<T: Word, const F: u32>(rt: &impl Abort, greatest: Fixed<T, F>)
    requires { F ≤ T.BITS }
{
    match greatest.checked_sqrt() {
        Some(root) => {
            if F <= 64 {
                let scaled = (greatest.bits.magnitude() as u128) << F;
                assert!(rt; is_root(root.bits.magnitude() as u128, scaled), "{F}");
                has_root(rt, greatest, number(root.bits));
            }
        }
        None => assert!(rt; T::SIGNED && F == T::BITS, "{F}"),
    }
}

/// The root of two, wherever two is a number.
fn of_two<T: Word, const F: u32>(rt: &impl Abort, greatest: Fixed<T, F>)
    requires { F ≤ T.BITS }
{
    if F < 63 {
        let units = 2 << F;
        if units <= number(greatest.bits) {
            let root = 0xB504_F333_F9DE_6484_u64 >> (63 - F);
            has_root::<T, F>(rt, Fixed { bits: word(units) }, root as i128);
        }
    }
}

/// Both roots, in the signed and the unsigned word of one width.
fn both<S: SignedWord, U: UnsignedWord, const F: u32>(
    rt: &impl Abort,
    signed: Fixed<S, F>,
    unsigned: Fixed<U, F>,
)
    requires signed { F ≤ S.BITS }
    requires unsigned { F ≤ U.BITS }
{
    of_greatest(rt, signed);
    of_greatest(rt, unsigned);
    of_two(rt, signed);
    of_two(rt, unsigned);
}

fn both_8<const F: u32>(rt: &impl Abort)
    requires { F ≤ 8 }
{
    let signed = FixedI8::<F> { bits: i8::MAX };
    both(rt, signed, FixedU8::<F> { bits: u8::MAX });
}

fn both_16<const F: u32>(rt: &impl Abort)
    requires { F ≤ 16 }
{
    let signed = FixedI16::<F> { bits: i16::MAX };
    both(rt, signed, FixedU16::<F> { bits: u16::MAX });
}

fn both_32<const F: u32>(rt: &impl Abort)
    requires { F ≤ 32 }
{
    let signed = FixedI32::<F> { bits: i32::MAX };
    both(rt, signed, FixedU32::<F> { bits: u32::MAX });
}

fn both_64<const F: u32>(rt: &impl Abort)
    requires { F ≤ 64 }
{
    let signed = FixedI64::<F> { bits: i64::MAX };
    both(rt, signed, FixedU64::<F> { bits: u64::MAX });
}

#[test]
fn eight_bits(rt: HostRuntime) {
    both_8::<0>(&rt);
    both_8::<1>(&rt);
    both_8::<3>(&rt);
    both_8::<4>(&rt);
    both_8::<5>(&rt);
    both_8::<6>(&rt);
    both_8::<7>(&rt);
    both_8::<8>(&rt);
}

#[test]
fn sixteen_bits(rt: HostRuntime) {
    both_16::<0>(&rt);
    both_16::<1>(&rt);
    both_16::<7>(&rt);
    both_16::<8>(&rt);
    both_16::<9>(&rt);
    both_16::<14>(&rt);
    both_16::<15>(&rt);
    both_16::<16>(&rt);
}

#[test]
fn thirty_two_bits(rt: HostRuntime) {
    both_32::<0>(&rt);
    both_32::<1>(&rt);
    both_32::<15>(&rt);
    both_32::<16>(&rt);
    both_32::<17>(&rt);
    both_32::<30>(&rt);
    both_32::<31>(&rt);
    both_32::<32>(&rt);
}

#[test]
fn sixty_four_bits(rt: HostRuntime) {
    both_64::<0>(&rt);
    both_64::<1>(&rt);
    both_64::<31>(&rt);
    both_64::<32>(&rt);
    both_64::<33>(&rt);
    both_64::<62>(&rt);
    both_64::<63>(&rt);
    both_64::<64>(&rt);
}

/// The root of 1.5, squared, is two units below 1.5.
#[test]
fn root_and_square(rt: HostRuntime) {
    let number = FixedI32::<12> { bits: 6144 };
    let root = FixedI32::<12> { bits: 5016 };
    let square = root.strict_mul(root);
    let apart = number.saturating_dist(square);
    let found = match plain_root(number) {
        Some(root) => Some(root.bits),
        None => None,
    };
    assert!(rt; found == Some(5016), "{found:?}");
    assert!(rt; square.bits == 6142 && apart.bits == 2);
}
