//! Families of the crate's own tests, by the operators and the plain calls.
//!
//! An operator asks that its number fits, which no table of values shows. So each is called where
//! the checked call of its row answers a number; where that answers none, there is no answer here.

ghost use Rattle.std.specs.Prelude.{◌≤◌, ◌<◌};

use super::same::all_hold;
use fixed_bits::BitWord;
use fixed_num::{Fixed, FixedI16, FixedI32, FixedU16, FixedU32};
use fixed_ops::Plain;
use fixed_policy::Checked;
use fixed_word::{SignedWord, Word};
use std::process::Abort;

/// The number with these bits, as far as the word holds them.
fn number<T: Word, const F: u32>(bits: i64) -> Fixed<T, F> {
    Fixed {
        bits: T::residue(bits < 0, bits.unsigned_abs() as u128),
    }
}

/// The negated number by `-`.
#[tactic(auto, using(fixed_agree::proofs::Guarded::guarded))]
fn negated<T: SignedWord, const F: u32>(x: Fixed<T, F>) -> Option<Fixed<T, F>> {
    match x.checked_neg() {
        Some(_) => Some(-x),
        None => None,
    }
}

/// The sum by `+`.
#[tactic(auto, using(fixed_agree::proofs::Guarded::guarded))]
fn sum<T: Word, const F: u32>(x: Fixed<T, F>, y: Fixed<T, F>) -> Option<Fixed<T, F>> {
    match x.checked_add(y) {
        Some(_) => Some(x + y),
        None => None,
    }
}

/// The difference by `-`.
#[tactic(auto, using(fixed_agree::proofs::Guarded::guarded))]
fn difference<T: Word, const F: u32>(x: Fixed<T, F>, y: Fixed<T, F>) -> Option<Fixed<T, F>> {
    match x.checked_sub(y) {
        Some(_) => Some(x - y),
        None => None,
    }
}

/// The product by `*`.
#[tactic(auto, using(fixed_agree::proofs::Guarded::guarded))]
fn product<T: Word, const F: u32>(x: Fixed<T, F>, y: Fixed<T, F>) -> Option<Fixed<T, F>>
    requires { F ≤ T.BITS }
{
    match x.checked_mul(y) {
        Some(_) => Some(x * y),
        None => None,
    }
}

/// The quotient by `/`.
#[tactic(auto, using(fixed_agree::proofs::Guarded::guarded))]
fn quotient<T: Word, const F: u32>(x: Fixed<T, F>, y: Fixed<T, F>) -> Option<Fixed<T, F>>
    requires { F ≤ T.BITS }
{
    match x.checked_div(y) {
        Some(_) => Some(x / y),
        None => None,
    }
}

/// The remainder by `%`.
#[tactic(auto, using(fixed_agree::proofs::Guarded::guarded))]
fn remainder<T: Word, const F: u32>(x: Fixed<T, F>, y: Fixed<T, F>) -> Option<Fixed<T, F>> {
    match x.checked_rem(y) {
        Some(_) => Some(x % y),
        None => None,
    }
}

/// The product by an integer.
#[tactic(auto, using(fixed_agree::proofs::Guarded::guarded))]
fn multiple<T: Word, const F: u32>(x: Fixed<T, F>, k: T) -> Option<Fixed<T, F>> {
    match x.checked_mul_int(k) {
        Some(_) => Some(x * k),
        None => None,
    }
}

/// The product of an integer and a signed number.
#[tactic(auto, using(fixed_agree::proofs::Guarded::guarded))]
fn multiple_signed<const F: u32>(k: i16, x: FixedI16<F>) -> Option<FixedI16<F>> {
    match x.checked_mul_int(k) {
        Some(_) => Some(k * x),
        None => None,
    }
}

/// The product of an integer and an unsigned number.
#[tactic(auto, using(fixed_agree::proofs::Guarded::guarded))]
fn multiple_unsigned<const F: u32>(k: u16, x: FixedU16<F>) -> Option<FixedU16<F>> {
    match x.checked_mul_int(k) {
        Some(_) => Some(k * x),
        None => None,
    }
}

/// The quotient by an integer.
#[tactic(auto, using(fixed_agree::proofs::Guarded::guarded))]
fn part<T: Word, const F: u32>(x: Fixed<T, F>, k: T) -> Option<Fixed<T, F>> {
    match x.checked_div_int(k) {
        Some(_) => Some(x / k),
        None => None,
    }
}

/// The remainder by an integer.
#[tactic(auto, using(fixed_agree::proofs::Guarded::guarded))]
fn rest<T: Word, const F: u32>(x: Fixed<T, F>, k: T) -> Option<Fixed<T, F>>
    requires { F ≤ T.BITS }
{
    match x.checked_rem_int(k) {
        Some(_) => Some(x % k),
        None => None,
    }
}

/// The Euclidean remainder by an integer.
#[tactic(auto, using(fixed_agree::proofs::Guarded::guarded))]
fn rest_from_zero<T: Word, const F: u32>(x: Fixed<T, F>, k: T) -> Option<Fixed<T, F>>
    requires { F ≤ T.BITS }
{
    match x.checked_rem_euclid_int(k) {
        Some(_) => Some(x.rem_euclid_int(k)),
        None => None,
    }
}

/// The quotient of whole numbers, rounded toward zero; 0 for a divisor of 0.
fn over(x: i64, d: i64) -> i64 {
    x.checked_div(d).unwrap_or(0)
}

/// Whether the number with these bits was found.
fn is_number<T: Word, const F: u32>(found: Option<Fixed<T, F>>, bits: i64) -> bool {
    found == Some(number(bits))
}

/// The operators on 128 a and 128 b, or on 128 a and the integer b, at seven places of a word.
fn seven_places<T: Word, const F: u32>(rt: &impl Abort, zero: Fixed<T, F>, a: i64, b: i64)
    requires { F ≤ T.BITS }
{
    let (x, y) = (a.wrapping_mul(128), b.wrapping_mul(128));
    let (p, q, k) = (number(x), number(y), number::<T, F>(b).bits);
    let left = x.wrapping_sub(y.wrapping_mul(over(a, b)));
    let falls = T::SIGNED || b < a;
    let apart = !falls || is_number(difference(p, q), x.wrapping_sub(y));
    let rows = [
        ("difference of one number", difference(p, p) == Some(zero)),
        ("sum", is_number(sum(p, q), x.wrapping_add(y))),
        ("difference", apart),
        ("product", is_number(product(p, q), x.wrapping_mul(b))),
        ("quotient", is_number(quotient(p, q), over(x, b))),
        ("remainder", is_number(remainder(p, q), left)),
        (
            "product by an integer",
            is_number(multiple(p, k), x.wrapping_mul(b)),
        ),
        ("quotient by an integer", is_number(part(p, k), over(x, b))),
        ("remainder by an integer", is_number(rest(p, k), left)),
    ];
    all_hold(rt, (a as i128, b as i128), &rows);
}

fn signed_places(rt: &impl Abort, a: i64, b: i64) {
    seven_places(rt, FixedI16::<7> { bits: 0 }, a, b);
    let units = a.wrapping_mul(128);
    let (x, k) = (number::<i16, 7>(units), number::<i16, 7>(b).bits);
    let rows = [
        ("negated first", is_number(negated(x), units.wrapping_neg())),
        (
            "product",
            is_number(multiple_signed(k, x), units.wrapping_mul(b)),
        ),
    ];
    all_hold(rt, (a as i128, b as i128), &rows);
}

fn unsigned_places(rt: &impl Abort, a: i64, b: i64) {
    seven_places(rt, FixedU16::<7> { bits: 0 }, a, b);
    let units = a.wrapping_mul(128);
    let (x, k) = (number::<u16, 7>(units), number::<u16, 7>(b).bits);
    let product = is_number(multiple_unsigned(k, x), units.wrapping_mul(b));
    assert!(rt; product, "{a} and {b}");
}

#[test]
fn sixteen_bits(rt: HostRuntime) {
    for (a, b) in [(12, 5), (5, 12)] {
        unsigned_places(&rt, a, b);
        for (up, down) in [(1_i64, 1_i64), (1, -1), (-1, 1), (-1, -1)] {
            signed_places(&rt, up.wrapping_mul(a), down.wrapping_mul(b));
        }
    }
}

/// The operators on bits, and the shifts by four places, as bits.
fn on_bits<T: BitWord, const F: u32>(p: Fixed<T, F>, q: Fixed<T, F>) -> [T; 6]
    requires { 4 < T.BITS }
{
    [
        (!p).bits,
        (p & q).bits,
        (p | q).bits,
        (p ^ q).bits,
        (p << 4).bits,
        (p >> 4).bits,
    ]
}

fn on_signed_bits(a: i16, b: i16) -> [i16; 6] {
    on_bits(FixedI16::<7> { bits: a }, FixedI16::<7> { bits: b })
}

fn on_unsigned_bits(a: u16, b: u16) -> [u16; 6] {
    on_bits(FixedU16::<7> { bits: a }, FixedU16::<7> { bits: b })
}

#[test]
fn bits_of_sixteen(rt: HostRuntime) {
    for (a, b) in [
        (1536_i16, 640),
        (1536, -640),
        (-1536, 640),
        (-1536, -640),
        (640, 1536),
        (640, -1536),
        (-640, 1536),
        (-640, -1536),
    ] {
        let wanted = [!a, a & b, a | b, a ^ b, a.wrapping_mul(16), a >> 4];
        assert!(rt; on_signed_bits(a, b) == wanted, "{a} and {b}");
    }
    for (a, b) in [(1536_u16, 640), (640, 1536)] {
        let wanted = [!a, a & b, a | b, a ^ b, a.wrapping_mul(16), a >> 4];
        assert!(rt; on_unsigned_bits(a, b) == wanted, "{a} and {b}");
    }
}

/// The bits of a signed number, where there is one.
fn bits_of<const F: u32>(number: Option<FixedI32<F>>) -> Option<i32> {
    match number {
        Some(number) => Some(number.bits),
        None => None,
    }
}

/// The bits of an unsigned number, where there is one.
fn unsigned_bits_of<const F: u32>(number: Option<FixedU32<F>>) -> Option<u32> {
    match number {
        Some(number) => Some(number.bits),
        None => None,
    }
}

/// `%` and the Euclidean remainder of bits by an integer, at a fraction.
fn rests<const F: u32>(bits: i32, k: i32) -> (Option<i32>, Option<i32>)
    requires { F ≤ 32 }
{
    let x = FixedI32::<F> { bits };
    (bits_of(rest(x, k)), bits_of(rest_from_zero(x, k)))
}

/// Bits and an integer, with both remainders.
type Rests = (i32, i32, (Option<i32>, Option<i32>));

/// Asserts that each row has its remainders at that fraction.
fn all_leave<const F: u32>(rt: &impl Abort, rows: &[Rests])
    requires { F ≤ 32 }
{
    for (bits, k, want) in rows {
        let found = rests::<F>(*bits, *k);
        assert!(rt; found == *want, "{bits} by {k} at {F}: {found:?}");
    }
}

#[test]
fn remainders_by_integers(rt: HostRuntime) {
    for a in [-32768_i32, -32767, 32767] {
        for k in [-32768_i32, -32767, 32767, 32768] {
            let left = a.checked_rem(k).unwrap_or(0);
            let up = if left < 0 {
                left.wrapping_add(k.wrapping_abs())
            } else {
                left
            };
            let (left, up) = (left.wrapping_mul(65536), up.wrapping_mul(65536));
            let row = (a.wrapping_mul(65536), k, (Some(left), Some(up)));
            all_leave::<16>(&rt, &[row]);
        }
    }
    all_leave::<16>(&rt, &[(i32::MIN, -1, (Some(0), Some(0)))]);
    all_leave::<31>(
        &rt,
        &[
            (i32::MIN, 1, (Some(0), Some(0))),
            (-1610612736, 1, (Some(-1610612736), Some(536870912))),
            (-1073741824, 1, (Some(-1073741824), Some(1073741824))),
            (-536870912, 1, (Some(-536870912), Some(1610612736))),
            (0, 1, (Some(0), Some(0))),
            (536870912, 1, (Some(536870912), Some(536870912))),
            (1073741824, 1, (Some(1073741824), Some(1073741824))),
            (1610612736, 1, (Some(1610612736), Some(1610612736))),
            (-1073741824, 3, (Some(-1073741824), None)),
            (-536870912, 3, (Some(-536870912), None)),
        ],
    );
    all_leave::<32>(
        &rt,
        &[
            (i32::MIN, 1, (Some(i32::MIN), None)),
            (-1610612736, 1, (Some(-1610612736), None)),
            (-1073741824, 1, (Some(-1073741824), None)),
            (0, 1, (Some(0), Some(0))),
            (1073741824, 1, (Some(1073741824), Some(1073741824))),
        ],
    );
}

/// The quotient and the remainder of unsigned bits by an integer.
fn divided<const F: u32>(rt: &impl Abort, a: u32, k: u32)
    requires { F ≤ 32 }
{
    let x = FixedU32::<F> { bits: a };
    let moved = (k as u64) << F;
    let quotient = unsigned_bits_of(part(x, k));
    assert!(rt;
        quotient == a.checked_div(k),
        "{a} over {k} at {F}: {quotient:?}"
    );
    let left = match rest(x, k) {
        Some(left) => Some(left.bits as u64),
        None => None,
    };
    let wanted = (a as u64).checked_rem(moved);
    assert!(rt; left == wanted, "left of {a} by {k} at {F}: {left:?}");
}

/// The quotient and the remainder of signed bits by an integer.
fn divided_signed<const F: u32>(rt: &impl Abort, a: i32, k: i32)
    requires { F ≤ 32 }
{
    let x = FixedI32::<F> { bits: a };
    let moved = (k as i128).wrapping_mul(1 << F);
    let quotient = bits_of(part(x, k));
    assert!(rt;
        quotient == a.checked_div(k),
        "{a} over {k} at {F}: {quotient:?}"
    );
    let left = match rest(x, k) {
        Some(left) => Some(left.bits as i128),
        None => None,
    };
    let wanted = (a as i128).checked_rem(moved);
    assert!(rt; left == wanted, "left of {a} by {k} at {F}: {left:?}");
}

#[test]
fn whole_divisors(rt: HostRuntime) {
    let values = [
        0_u32, 1, 100, 5555, 65534, 65535, 65536, 4294967294, 4294967295,
    ];
    for a in values {
        for k in values {
            divided::<0>(&rt, a, k);
            divided::<1>(&rt, a, k);
            divided::<16>(&rt, a, k);
            divided::<31>(&rt, a, k);
            divided::<32>(&rt, a, k);
        }
    }
}

#[test]
fn whole_divisors_with_a_sign(rt: HostRuntime) {
    let values = [
        i32::MIN,
        -2147483647,
        -5555,
        -80,
        -1,
        0,
        1,
        100,
        5555,
        2147483646,
        i32::MAX,
    ];
    for a in values {
        for k in values {
            divided_signed::<0>(&rt, a, k);
            divided_signed::<1>(&rt, a, k);
            divided_signed::<16>(&rt, a, k);
            divided_signed::<31>(&rt, a, k);
            divided_signed::<32>(&rt, a, k);
        }
    }
}
