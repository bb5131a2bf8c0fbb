//! Multiply-add and quotients at the ends of every word.

ghost use Rattle.std.specs.Prelude.{◌≤◌};

use super::exact::{number, stand, word};
use fixed_num::{
    Fixed, FixedI8, FixedI16, FixedI32, FixedI64, FixedU8, FixedU16, FixedU32, FixedU64,
};
use fixed_policy::{
    Checked, CheckedMulAdd, Overflowing, OverflowingMulAdd, Wrapping, WrappingMulAdd,
};
use fixed_word::{SignedWord, Word};
use std::process::Abort;

/// Asserts that `a` times `factor` plus `add` has the answers of the number `exact`.
fn adds<T: Word, const F: u32>(
    rt: &impl Abort,
    a: Fixed<T, F>,
    factor: Fixed<T, F>,
    add: Fixed<T, F>,
    exact: i128,
)
    requires { F ≤ T.BITS }
{
    let answers = (
        a.checked_mul_add(factor, add),
        a.overflowing_mul_add(factor, add),
        a.wrapping_mul_add(factor, add),
    );
    assert!(rt; stand(answers, exact), "{exact} at {F}");
}

/// The greatest number and its half, by one and three, with a fraction that leaves room for three.
fn inside<T: Word, const F: u32>(rt: &impl Abort, greatest: Fixed<T, F>)
    requires { F ≤ T.BITS }
{
    let most = number(greatest.bits);
    let half = most / 2;
    for (a, times, add) in [
        (most, 1, 0),
        (most, 1, 1),
        (most, 1, -1),
        (most, 3, most),
        (half, 3, half.wrapping_neg()),
    ] {
        if F < 63 {
            let a = Fixed { bits: word(a) };
            let factor = Fixed {
                bits: T::residue(false, times << F),
            };
            let add = Fixed { bits: word(add) };
            let exact = number(a.bits)
                .wrapping_mul(times as i128)
                .wrapping_add(number(add.bits));
            adds::<T, F>(rt, a, factor, add, exact);
        }
    }
}

/// The greatest number by a quarter and by itself, where the fraction `N` is the width.
fn outside<T: Word, const N: u32>(rt: &impl Abort, greatest: Fixed<T, N>)
    requires { N ≤ T.BITS }
{
    let most = number(greatest.bits);
    let zero = Fixed { bits: T::ZERO };
    let square = if T::SIGNED {
        most / 2
    } else {
        most.wrapping_sub(1)
    };
    if 2 <= N && N <= 64 {
        let quarter = Fixed {
            bits: T::residue(false, 1 << (N - 2)),
        };
        adds(rt, greatest, quarter, zero, most / 4);
    }
    adds(rt, greatest, greatest, zero, square);
    adds(rt, greatest, greatest, greatest, square.wrapping_add(most));
}

/// The greatest number of a word, with a fraction that is the width or leaves room for three.
fn at_the_end<T: Word, const F: u32>(rt: &impl Abort, greatest: Fixed<T, F>)
    requires { F ≤ T.BITS }
{
    if F == T::BITS {
        outside(rt, greatest);
    } else {
        inside(rt, greatest);
    }
}

fn signed_8<const F: u32>(rt: &impl Abort)
    requires { F ≤ 8 }
{
    at_the_end(rt, FixedI8::<F> { bits: i8::MAX });
}

fn signed_16<const F: u32>(rt: &impl Abort)
    requires { F ≤ 16 }
{
    at_the_end(rt, FixedI16::<F> { bits: i16::MAX });
}

fn signed_32<const F: u32>(rt: &impl Abort)
    requires { F ≤ 32 }
{
    at_the_end(rt, FixedI32::<F> { bits: i32::MAX });
}

fn signed_64<const F: u32>(rt: &impl Abort)
    requires { F ≤ 64 }
{
    at_the_end(rt, FixedI64::<F> { bits: i64::MAX });
}

fn unsigned_8<const F: u32>(rt: &impl Abort)
    requires { F ≤ 8 }
{
    at_the_end(rt, FixedU8::<F> { bits: u8::MAX });
}

fn unsigned_16<const F: u32>(rt: &impl Abort)
    requires { F ≤ 16 }
{
    at_the_end(rt, FixedU16::<F> { bits: u16::MAX });
}

fn unsigned_32<const F: u32>(rt: &impl Abort)
    requires { F ≤ 32 }
{
    at_the_end(rt, FixedU32::<F> { bits: u32::MAX });
}

fn unsigned_64<const F: u32>(rt: &impl Abort)
    requires { F ≤ 64 }
{
    at_the_end(rt, FixedU64::<F> { bits: u64::MAX });
}

#[test]
fn multiply_add_of_signed_words(rt: HostRuntime) {
    signed_8::<0>(&rt);
    signed_8::<4>(&rt);
    signed_8::<5>(&rt);
    signed_16::<0>(&rt);
    signed_16::<8>(&rt);
    signed_16::<13>(&rt);
    signed_32::<0>(&rt);
    signed_32::<16>(&rt);
    signed_32::<29>(&rt);
    signed_64::<0>(&rt);
    signed_64::<32>(&rt);
    signed_64::<61>(&rt);
}

#[test]
fn multiply_add_of_unsigned_words(rt: HostRuntime) {
    unsigned_8::<0>(&rt);
    unsigned_8::<4>(&rt);
    unsigned_8::<6>(&rt);
    unsigned_16::<0>(&rt);
    unsigned_16::<8>(&rt);
    unsigned_16::<14>(&rt);
    unsigned_32::<0>(&rt);
    unsigned_32::<16>(&rt);
    unsigned_32::<30>(&rt);
    unsigned_64::<0>(&rt);
    unsigned_64::<32>(&rt);
    unsigned_64::<62>(&rt);
}

#[test]
fn multiply_add_of_all_fraction(rt: HostRuntime) {
    signed_8::<8>(&rt);
    signed_16::<16>(&rt);
    signed_32::<32>(&rt);
    signed_64::<64>(&rt);
    unsigned_8::<8>(&rt);
    unsigned_16::<16>(&rt);
    unsigned_32::<32>(&rt);
    unsigned_64::<64>(&rt);
}

/// Asserts that nothing is left of `a` over `b`, where the fraction `N` is the width, and that it does not fit.
fn leaves_nothing<T: SignedWord, const N: u32>(rt: &impl Abort, a: Fixed<T, N>, b: Fixed<T, N>)
    requires { N ≤ T.BITS }
{
    let zero = Fixed { bits: T::ZERO };
    if b.bits != T::ZERO {
        let answers = (a.checked_div(b), a.overflowing_div(b), a.wrapping_div(b));
        assert!(rt; answers == (None, (zero, true), zero), "{N}");
    }
}

#[test]
fn quotients_by_one_unit(rt: HostRuntime) {
    leaves_nothing(&rt, FixedI8::<8> { bits: i8::MIN }, Fixed { bits: -1 });
    leaves_nothing(&rt, FixedI16::<16> { bits: i16::MIN }, Fixed { bits: -1 });
    leaves_nothing(&rt, FixedI64::<64> { bits: i64::MIN }, Fixed { bits: -1 });
    for (a, b) in [(i32::MIN, -1), (-2147483647, -1), (-2147483647, 1)] {
        leaves_nothing(&rt, FixedI32::<32> { bits: a }, Fixed { bits: b });
    }
}
