//! Sums, products, quotients and remainders of the crate's tests, against their rows by plain arithmetic.

ghost use Rattle.std.specs.Prelude.{◌≤◌};

use super::exact::{number, stand, word};
use super::same::all_hold;
use fixed_num::{Fixed, FixedI16, FixedI32, FixedU16, FixedU32};
use fixed_policy::{Checked, Overflowing, Wrapping};
use fixed_word::Word;
use std::process::Abort;

/// The quotient of numbers, rounded toward zero.
fn quotient(a: i128, b: i128) -> i128 {
    if b == 0 { 0 } else { a.wrapping_div(b) }
}

/// The remainder of that quotient.
fn remainder(a: i128, b: i128) -> i128 {
    a.wrapping_sub(b.wrapping_mul(quotient(a, b)))
}

/// The remainder that is at least 0.
fn least_remainder(a: i128, b: i128) -> i128 {
    let left = remainder(a, b);
    if left < 0 {
        left.wrapping_add(b.wrapping_abs())
    } else {
        left
    }
}

/// The sums of `x` and `y`, which are 128 a and 128 b, and moves of `x`.
fn sums<T: Word, const F: u32>(rt: &impl Abort, x: Fixed<T, F>, y: Fixed<T, F>, a: i128, b: i128) {
    let (units, other) = (a.wrapping_mul(128), b.wrapping_mul(128));
    let sum = (x.checked_add(y), x.overflowing_add(y), x.wrapping_add(y));
    let difference = (x.checked_sub(y), x.overflowing_sub(y), x.wrapping_sub(y));
    let negated = (x.checked_neg(), x.overflowing_neg(), x.wrapping_neg());
    let above = (x.checked_shl(4), x.overflowing_shl(4), x.wrapping_shl(4));
    let below = (x.checked_shr(4), x.overflowing_shr(4), x.wrapping_shr(4));
    let rows = [
        ("the sum", stand(sum, units.wrapping_add(other))),
        (
            "the difference",
            stand(difference, units.wrapping_sub(other)),
        ),
        ("the negated first", stand(negated, units.wrapping_neg())),
        ("the first by 4 up", stand(above, a.wrapping_mul(2048))),
        ("the first by 4 down", stand(below, a.wrapping_mul(8))),
    ];
    all_hold(rt, (a, b), &rows);
}

/// Asserts that the product and the quotient of `x` and `y` have the answers of these numbers, and the remainder is
/// the third.
fn products<T: Word, const F: u32>(
    rt: &impl Abort,
    x: Fixed<T, F>,
    y: Fixed<T, F>,
    numbers: [i128; 3],
)
    requires { F ≤ T.BITS }
{
    let [times, over, left] = numbers;
    let products = (x.checked_mul(y), x.overflowing_mul(y), x.wrapping_mul(y));
    let divided = if y.bits == T::ZERO {
        true
    } else {
        let quotients = (x.checked_div(y), x.overflowing_div(y), x.wrapping_div(y));
        stand(quotients, over)
    };
    let remainder = x.checked_rem(y) == Some(Fixed { bits: word(left) });
    let rows = [
        ("the product", stand(products, times)),
        ("the quotient", divided),
        ("the remainder", remainder),
    ];
    all_hold(rt, (number(x.bits), number(y.bits)), &rows);
}

/// The same by an integer.
fn by_integer<T: Word, const F: u32>(rt: &impl Abort, x: Fixed<T, F>, k: T, numbers: [i128; 3])
    requires { F ≤ T.BITS }
{
    let [times, over, left] = numbers;
    let products = (
        x.checked_mul_int(k),
        x.overflowing_mul_int(k),
        x.wrapping_mul_int(k),
    );
    let divided = if k == T::ZERO {
        true
    } else {
        let quotients = (
            x.checked_div_int(k),
            x.overflowing_div_int(k),
            x.wrapping_div_int(k),
        );
        stand(quotients, over)
    };
    let remainder = x.checked_rem_int(k) == Some(Fixed { bits: word(left) });
    let rows = [
        ("the product", stand(products, times)),
        ("the quotient", divided),
        ("the remainder", remainder),
    ];
    all_hold(rt, (number(x.bits), number(k)), &rows);
}

/// The operations on 128 a and 128 b, and on 128 a and the whole number b, at seven places.
fn seven_places<T: Word, const F: u32>(rt: &impl Abort, zero: Fixed<T, F>, a: i128, b: i128)
    requires { F ≤ T.BITS }
{
    let units = a.wrapping_mul(128);
    let x = Fixed { bits: word(units) };
    let y = Fixed {
        bits: word(b.wrapping_mul(128)),
    };
    let numbers = [
        units.wrapping_mul(b),
        quotient(units, b),
        remainder(a, b).wrapping_mul(128),
    ];
    assert!(rt; x.checked_sub(x) == Some(zero), "{a}");
    sums(rt, x, y, a, b);
    products(rt, x, y, numbers);
    by_integer(rt, x, word(b), numbers);
}

#[test]
fn sixteen_bits(rt: HostRuntime) {
    for (a, b) in [(12_i128, 5_i128), (5, 12)] {
        seven_places(&rt, FixedU16::<7> { bits: 0 }, a, b);
        for (up, down) in [(1_i128, 1_i128), (1, -1), (-1, 1), (-1, -1)] {
            seven_places(
                &rt,
                FixedI16::<7> { bits: 0 },
                a.wrapping_mul(up),
                b.wrapping_mul(down),
            );
        }
    }
}

/// The operations by an integer, against their rows.
fn each_by_integer<T: Word, const F: u32>(rt: &impl Abort, x: Fixed<T, F>, k: T)
    requires { F ≤ T.BITS }
{
    let (units, by) = (number(x.bits), number(k));
    if k == T::ZERO {
        let none = x.checked_div_int(k).is_none() && x.checked_rem_int(k).is_none();
        assert!(rt; none && x.checked_rem_euclid_int(k).is_none(), "{units}");
    } else if F <= 64 {
        let moved = by.wrapping_mul(1 << F);
        let numbers = [
            units.wrapping_mul(by),
            quotient(units, by),
            remainder(units, moved),
        ];
        by_integer(rt, x, k, numbers);
        let remainders = (
            x.checked_rem_euclid_int(k),
            x.overflowing_rem_euclid_int(k),
            x.wrapping_rem_euclid_int(k),
        );
        let least = least_remainder(units, moved);
        assert!(rt; stand(remainders, least), "{units} by {by} at {F}");
    }
}

/// The same of a word of 32 bits with a sign.
fn bits_by_integer<const F: u32>(rt: &impl Abort, bits: i32, k: i32)
    requires { F ≤ 32 }
{
    each_by_integer(rt, FixedI32::<F> { bits }, k);
}

#[test]
fn remainders_by_integers(rt: HostRuntime) {
    for a in [-32768_i32, -32767, 32767] {
        for k in [-32768, -32767, 32767, 32768] {
            let bits = a.wrapping_mul(65536);
            bits_by_integer::<16>(&rt, bits, k);
        }
    }
    bits_by_integer::<16>(&rt, i32::MIN, -1);
    for bits in [
        i32::MIN,
        -1610612736,
        -1073741824,
        -536870912,
        0,
        536870912,
        1073741824,
        1610612736,
    ] {
        bits_by_integer::<31>(&rt, bits, 1);
        bits_by_integer::<31>(&rt, bits, 3);
        bits_by_integer::<32>(&rt, bits, 1);
    }
}

/// Each of these words as a number by each as an integer, with a fraction.
fn unsigned_divisors<const F: u32>(rt: &impl Abort)
    requires { F ≤ 32 }
{
    let words = [0, 1, 100, 5555, 65534, 65535, 65536, 4294967294, 4294967295];
    for bits in words {
        for k in words {
            each_by_integer(rt, FixedU32::<F> { bits }, k);
        }
    }
}

/// The same of signed words.
fn signed_divisors<const F: u32>(rt: &impl Abort)
    requires { F ≤ 32 }
{
    let words = [
        i32::MIN,
        -2147483647,
        -5555,
        -80,
        -1,
        0,
        1,
        100,
        5555,
        2147483646,
        2147483647,
    ];
    for bits in words {
        for k in words {
            bits_by_integer::<F>(rt, bits, k);
        }
    }
}

#[test]
fn whole_divisors(rt: HostRuntime) {
    unsigned_divisors::<0>(&rt);
    unsigned_divisors::<1>(&rt);
    unsigned_divisors::<16>(&rt);
    unsigned_divisors::<31>(&rt);
    unsigned_divisors::<32>(&rt);
    signed_divisors::<0>(&rt);
    signed_divisors::<1>(&rt);
    signed_divisors::<16>(&rt);
    signed_divisors::<31>(&rt);
    signed_divisors::<32>(&rt);
}
