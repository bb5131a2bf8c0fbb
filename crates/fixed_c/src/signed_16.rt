//! The calls of `i16`.
//!
//! Operands and results are bits, in units of `2^-frac` unless a comment names another unit. Operands named `k` are
//! integers. A call returns 0 and writes its result, or it fails: it returns the number of a [`Code`] and leaves the
//! result unchanged, unless its comment says otherwise. If several codes apply, it returns the first one that its
//! comment names. [`fixed_face::block_calls`] states what calls over blocks leave.

ghost use Rattle.std.specs.Prelude.{◌≡◌, ℤ, Result, Ok, true, pos, neg_ℤ, ◌*ℤ◌, ◌+ℤ◌, ◌-ℤ◌, map};
ghost use Rattle.std.specs.Float.{binary64};
ghost use Rattle.fixed_word.specs.declared.rounding.Rounding.TheVariants.{Even};
ghost use Rattle.fixed_word.specs.Quotient.{euclidean_remainder, truncated_quotient};
ghost use Rattle.fixed_kernel.specs.Root.{root_of};
ghost use Rattle.fixed_kernel.specs.Rounded.{rounded};
ghost use Rattle.fixed_kernel.specs.RoundedRows.{rounded_add_prod, rounded_div, rounded_mul, rounded_mul_add, rounded_recip};
ghost use Rattle.fixed_kernel.specs.Rows.{by_divisor, by_sign, exact_abs, exact_add_prod, exact_div, exact_div_euclid, exact_mul, exact_mul_add, exact_next_multiple_of, exact_recip, exact_rem, exact_signum, units};
ghost use Rattle.fixed_convert.specs.Convert.{rounded_convert};
ghost use Rattle.fixed_decimal.specs.Decimal.{decimal_row};
ghost use Rattle.fixed_decimal.specs.Text.{shortest, text_of};
ghost use Rattle.fixed_float.specs.Rows.{nearest_float, units_of_float};
ghost use Rattle.fixed_face.specs.declared.answer.Code.{Code};
ghost use Rattle.fixed_face.specs.declared.answer.Code.TheVariants.{ZeroDivisor, NegativeRoot, NotFinite};
ghost use Rattle.fixed_block.specs.Blocks.{of_pairs};
ghost use Rattle.fixed_face.specs.Answers.{ValueAnswers, at_fraction, row_or};
ghost use Rattle.fixed_face.specs.BlockCalls.{each_in, pairs_in};
ghost use Rattle.fixed_face.specs.Blocks.{BlockAnswers, at_policy};
ghost use Rattle.fixed_face.specs.Calls.{IsResultOf, given};
ghost use Rattle.fixed_face.specs.EndsCalls.{ends_in};
ghost use Rattle.fixed_face.specs.TextCalls.{text_in};
ghost use Rattle.fixed_face.specs.Dots.{IsDot};
ghost use Rattle.fixed_face.specs.Intervals.{difference_in, from_to, product_in, quotient_in, root_in, sum_in};
ghost use Rattle.fixed_face.specs.Near.{allowed};
ghost use Rattle.fixed_face.specs.Places.{with_as_many};
ghost use Rattle.fixed_face.specs.Roundings.{at_rounding};
ghost use Rattle.fixed_face.specs.Texts.{TextAnswers, at_places, or_code};
ghost use Rattle.fixed_c.specs.Words.{AnswersI16, EndsI16Answers};

use fixed_face::answer::Code;
use fixed_face::block_calls::{EachCall, PairsCall, put_each, put_pairs};
use fixed_face::calls::{Call, put, put_result};
use fixed_face::ends_calls::{EndsCall, ends_of};
use fixed_face::texts::{TextCall, put_text};
use fixed_face::{conversions, dots, one_sign, texts};
use fixed_word::Outcome;

/// The result of an operation.
#[repr(C)]
#[derive(Clone, Copy)]
pub struct AnswerI16 {
    /// The wrapped number. It differs from the exact result by a multiple of `2^16` units, and is the exact result if
    /// that fits.
    pub bits: i16,
    /// The side: 0 if the exact result fits, 1 if it is above the range, and -1 if it is below.
    pub side: i32,
}

/// The result of an operation on intervals.
#[repr(C)]
#[derive(Clone, Copy)]
pub struct EndsI16 {
    /// The smallest number of the interval.
    pub low: i16,
    /// The largest number of the interval.
    pub high: i16,
}

impl AnswerI16 {
    /// Writes the outcome and returns 0; or returns the number of the code, and leaves the result unchanged.
    #[inline(always)]
    fn leave(&mut self, answer: Result<Outcome<i16>, Code>) -> i32
        ensures { (given : Result ℤ Code) → IsResultOf (λ x. x) true 16 given answer → AnswersI16 given self.old self.new result }
    {
        put(answer, &mut self.bits, &mut self.side)
    }

    /// Writes the outcome of a call, or returns the number of its code, as `leave` does.
    #[inline(always)]
    fn take(&mut self, call: Call<i16>) -> i32
        ensures { AnswersI16 (given (λ x. x) 16 call) self.old self.new result }
    {
        put_result(call, &mut self.bits, &mut self.side)
    }
}

impl EndsI16 {
    /// Writes the ends of the result of a call, or returns the number of its code.
    #[inline(always)]
    fn take(&mut self, call: EndsCall<i16>) -> i32
        ensures { EndsI16Answers (ends_in (λ x. x) true 16 call) self.old self.new result }
    {
        ends_of(call, &mut self.low, &mut self.high)
    }
}

/// Writes the text of a call, or returns the number of its code.
#[inline(always)]
fn write(call: TextCall<i16>, buffer: &mut [u8], length: &mut usize) -> i32
    ensures { TextAnswers (text_in (λ x. x) 16 call)
        (buffer.old, length.old) (buffer.new, length.new) result }
{
    put_text(call, buffer, length)
}

/// Writes the results of a call over a block, or returns the number of its code.
#[inline(always)]
fn each(call: EachCall<i16>, policy: u32, block: &mut [i16], place: &mut usize) -> i32
    ensures { BlockAnswers (λ x. x) true 16 (each_in (λ x. x) 16 call policy block.old)
        (block.old, place.old) (block.new, place.new) result }
{
    put_each(call, policy, block, place)
}

/// Writes the results of a call over two blocks, or returns the number of its code.
#[inline(always)]
fn pairs(
    call: PairsCall<i16>,
    policy: u32,
    block: &mut [i16],
    others: &[i16],
    place: &mut usize,
) -> i32
    ensures { BlockAnswers (λ x. x) true 16 (pairs_in (λ x. x) 16 call policy block.old others.now)
        (block.old, place.old) (block.new, place.new) result }
{
    put_pairs(call, policy, block, others, place)
}

/// Writes `-a`. Always returns 0.
#[unsafe(no_mangle)]
pub extern "C" fn fixed_i16_neg(a: i16, answer: &mut AnswerI16) -> i32
    ensures { AnswersI16 (Ok (neg_ℤ a)) answer.old answer.new result }
{
    answer.take(Call::Neg(a))
}

/// Writes `a + b`. Always returns 0.
#[unsafe(no_mangle)]
pub extern "C" fn fixed_i16_add(a: i16, b: i16, answer: &mut AnswerI16) -> i32
    ensures { AnswersI16 (Ok (a +ℤ b)) answer.old answer.new result }
{
    answer.take(Call::Add(a, b))
}

/// Writes `a - b`. Always returns 0.
#[unsafe(no_mangle)]
pub extern "C" fn fixed_i16_sub(a: i16, b: i16, answer: &mut AnswerI16) -> i32
    ensures { AnswersI16 (Ok (a -ℤ b)) answer.old answer.new result }
{
    answer.take(Call::Sub(a, b))
}

/// Writes the magnitude of `a - b`. Always returns 0.
#[unsafe(no_mangle)]
pub extern "C" fn fixed_i16_dist(a: i16, b: i16, answer: &mut AnswerI16) -> i32
    ensures { AnswersI16 (Ok (exact_abs (a -ℤ b))) answer.old answer.new result }
{
    answer.take(Call::Dist(a, b))
}

/// Writes the magnitude of `a`. Always returns 0.
#[unsafe(no_mangle)]
pub extern "C" fn fixed_i16_abs(a: i16, answer: &mut AnswerI16) -> i32
    ensures { AnswersI16 (Ok (exact_abs a)) answer.old answer.new result }
{
    answer.leave(one_sign::abs(a))
}

/// Writes `2^frac` if `a` is positive, 0 if it is 0, and `-2^frac` if it is negative. Fails with `FractionPastWidth`.
#[unsafe(no_mangle)]
pub extern "C" fn fixed_i16_signum(a: i16, frac: u32, answer: &mut AnswerI16) -> i32
    ensures { AnswersI16 (at_fraction 16 frac (Ok (exact_signum a frac))) answer.old answer.new result }
{
    answer.leave(one_sign::signum(a, frac))
}

/// Writes `a b / 2^frac`, rounded down. Fails with `FractionPastWidth`.
#[unsafe(no_mangle)]
pub extern "C" fn fixed_i16_mul(a: i16, b: i16, frac: u32, answer: &mut AnswerI16) -> i32
    ensures { AnswersI16 (at_fraction 16 frac (Ok (exact_mul a b frac))) answer.old answer.new result }
{
    answer.take(Call::Mul(a, b, frac))
}

/// Writes `a k`, for an integer `k`. Always returns 0.
#[unsafe(no_mangle)]
pub extern "C" fn fixed_i16_mul_int(a: i16, k: i16, answer: &mut AnswerI16) -> i32
    ensures { AnswersI16 (Ok (a *ℤ k)) answer.old answer.new result }
{
    answer.take(Call::MulInt(a, k))
}

/// Writes `a mul / 2^mul_frac`, rounded down, plus `add`, in the unit of `a` and `add`. Fails with `FractionPastWidth`.
#[unsafe(no_mangle)]
pub extern "C" fn fixed_i16_mul_add(
    a: i16,
    mul: i16,
    add: i16,
    mul_frac: u32,
    answer: &mut AnswerI16,
) -> i32
    ensures { AnswersI16
        (at_fraction 16 mul_frac (Ok (exact_mul_add a mul add mul_frac)))
        answer.old answer.new result }
{
    answer.take(Call::MulAdd(a, mul, add, mul_frac))
}

/// Writes `c` plus the product of `a` and `b`, which is rounded down to the fraction bits of `c`. Each operand has its
/// own number of fraction bits. Fails with `FractionPastWidth`.
#[unsafe(no_mangle)]
pub extern "C" fn fixed_i16_add_prod(
    c: i16,
    a: i16,
    b: i16,
    c_frac: u32,
    a_frac: u32,
    b_frac: u32,
    answer: &mut AnswerI16,
) -> i32
    ensures { AnswersI16
        (at_fraction 16 c_frac (at_fraction 16 a_frac (at_fraction 16 b_frac
        (Ok (exact_add_prod c a b c_frac a_frac b_frac)))))
        answer.old answer.new result }
{
    answer.take(Call::AddProd(c, a, b, c_frac, a_frac, b_frac))
}

/// Writes `a 2^frac / b`, rounded toward zero. Fails with `FractionPastWidth` or `ZeroDivisor`.
#[unsafe(no_mangle)]
pub extern "C" fn fixed_i16_div(a: i16, b: i16, frac: u32, answer: &mut AnswerI16) -> i32
    ensures { AnswersI16
        (at_fraction 16 frac (row_or ZeroDivisor (by_divisor b (exact_div a b frac))))
        answer.old answer.new result }
{
    answer.take(Call::Div(a, b, frac))
}

/// Writes `a / k`, rounded toward zero, for an integer `k`. Fails with `ZeroDivisor`.
#[unsafe(no_mangle)]
pub extern "C" fn fixed_i16_div_int(a: i16, k: i16, answer: &mut AnswerI16) -> i32
    ensures { AnswersI16 (row_or ZeroDivisor (by_divisor k (truncated_quotient a k))) answer.old answer.new result }
{
    answer.take(Call::DivInt(a, k))
}

/// Writes `2^(2 frac) / a`, rounded toward zero. Fails with `FractionPastWidth` or `ZeroDivisor`.
#[unsafe(no_mangle)]
pub extern "C" fn fixed_i16_recip(a: i16, frac: u32, answer: &mut AnswerI16) -> i32
    ensures { AnswersI16
        (at_fraction 16 frac (row_or ZeroDivisor (by_divisor a (exact_recip a frac))))
        answer.old answer.new result }
{
    answer.take(Call::Recip(a, frac))
}

/// Writes the Euclidean quotient of `a` and `b`, which is an integer, times `2^frac`. Fails with `FractionPastWidth` or
/// `ZeroDivisor`.
#[unsafe(no_mangle)]
pub extern "C" fn fixed_i16_div_euclid(a: i16, b: i16, frac: u32, answer: &mut AnswerI16) -> i32
    ensures { AnswersI16
        (at_fraction 16 frac (row_or ZeroDivisor (by_divisor b (exact_div_euclid a b frac))))
        answer.old answer.new result }
{
    answer.take(Call::DivEuclid(a, b, frac))
}

/// Writes the Euclidean quotient of `a` and `k 2^frac`, which is an integer, times `2^frac`. Fails with
/// `FractionPastWidth` or `ZeroDivisor`.
#[unsafe(no_mangle)]
pub extern "C" fn fixed_i16_div_euclid_int(a: i16, k: i16, frac: u32, answer: &mut AnswerI16) -> i32
    ensures { AnswersI16
        (at_fraction 16 frac (row_or ZeroDivisor (by_divisor k (exact_div_euclid a (units k frac) frac))))
        answer.old answer.new result }
{
    answer.take(Call::DivEuclidInt(a, k, frac))
}

/// Writes `a - b q`, where q is the quotient of `a` and `b`, rounded toward zero. Fails with `ZeroDivisor`.
#[unsafe(no_mangle)]
pub extern "C" fn fixed_i16_rem(a: i16, b: i16, answer: &mut AnswerI16) -> i32
    ensures { AnswersI16 (row_or ZeroDivisor (by_divisor b (exact_rem a b))) answer.old answer.new result }
{
    answer.take(Call::Rem(a, b))
}

/// Writes `a - d q` for `d = k 2^frac`, where q is the quotient of `a` and d, rounded toward zero. Fails with
/// `FractionPastWidth` or `ZeroDivisor`.
#[unsafe(no_mangle)]
pub extern "C" fn fixed_i16_rem_int(a: i16, k: i16, frac: u32, answer: &mut AnswerI16) -> i32
    ensures { AnswersI16
        (at_fraction 16 frac (row_or ZeroDivisor (by_divisor k (exact_rem a (units k frac)))))
        answer.old answer.new result }
{
    answer.take(Call::RemInt(a, k, frac))
}

/// Writes the Euclidean remainder of `a` and `b`, which is never negative. Fails with `ZeroDivisor`.
#[unsafe(no_mangle)]
pub extern "C" fn fixed_i16_rem_euclid(a: i16, b: i16, answer: &mut AnswerI16) -> i32
    ensures { AnswersI16
        (row_or ZeroDivisor (by_divisor b (euclidean_remainder a b)))
        answer.old answer.new result }
{
    answer.take(Call::RemEuclid(a, b))
}

/// Writes the Euclidean remainder of `a` and `k 2^frac`, which is never negative. Fails with `FractionPastWidth` or
/// `ZeroDivisor`.
#[unsafe(no_mangle)]
pub extern "C" fn fixed_i16_rem_euclid_int(a: i16, k: i16, frac: u32, answer: &mut AnswerI16) -> i32
    ensures { AnswersI16
        (at_fraction 16 frac (row_or ZeroDivisor (by_divisor k (euclidean_remainder a (units k frac)))))
        answer.old answer.new result }
{
    answer.take(Call::RemEuclidInt(a, k, frac))
}

/// Writes the smallest multiple of `b` that is at least `a` if `b` is positive, and the largest one that is at most `a`
/// if `b` is negative. Fails with `ZeroDivisor`.
#[unsafe(no_mangle)]
pub extern "C" fn fixed_i16_next_multiple_of(a: i16, b: i16, answer: &mut AnswerI16) -> i32
    ensures { AnswersI16
        (row_or ZeroDivisor (by_divisor b (exact_next_multiple_of a b)))
        answer.old answer.new result }
{
    answer.take(Call::NextMultipleOf(a, b))
}

/// Writes the root of `a 2^frac`, rounded down. Fails with `FractionPastWidth` or `NegativeRoot`.
#[unsafe(no_mangle)]
pub extern "C" fn fixed_i16_sqrt(a: i16, frac: u32, answer: &mut AnswerI16) -> i32
    ensures { AnswersI16
        (at_fraction 16 frac (row_or NegativeRoot (by_sign a (root_of a frac))))
        answer.old answer.new result }
{
    answer.take(Call::Sqrt(a, frac))
}

/// Writes `a b / 2^frac`, rounded as named. Fails with `FractionPastWidth` or `NoRounding`.
#[unsafe(no_mangle)]
pub extern "C" fn fixed_i16_mul_round(
    a: i16,
    b: i16,
    frac: u32,
    rounding: u32,
    answer: &mut AnswerI16,
) -> i32
    ensures { AnswersI16
        (at_fraction 16 frac (at_rounding rounding (λ r. Ok (rounded_mul a b frac r))))
        answer.old answer.new result }
{
    answer.take(Call::MulRound(a, b, frac, rounding))
}

/// Writes `a mul / 2^mul_frac`, rounded as named, plus `add`, in the unit of `a` and `add`. Fails with
/// `FractionPastWidth` or `NoRounding`.
#[unsafe(no_mangle)]
pub extern "C" fn fixed_i16_mul_add_round(
    a: i16,
    mul: i16,
    add: i16,
    mul_frac: u32,
    rounding: u32,
    answer: &mut AnswerI16,
) -> i32
    ensures { AnswersI16
        (at_fraction 16 mul_frac (at_rounding rounding (λ r. Ok (rounded_mul_add a mul add mul_frac r))))
        answer.old answer.new result }
{
    answer.take(Call::MulAddRound(a, mul, add, mul_frac, rounding))
}

/// Writes `c` plus the product of `a` and `b`, which is rounded as named to the fraction bits of `c`. Each operand has
/// its own number of fraction bits. Fails with `FractionPastWidth` or `NoRounding`.
#[unsafe(no_mangle)]
pub extern "C" fn fixed_i16_add_prod_round(
    c: i16,
    a: i16,
    b: i16,
    c_frac: u32,
    a_frac: u32,
    b_frac: u32,
    rounding: u32,
    answer: &mut AnswerI16,
) -> i32
    ensures { AnswersI16
        (at_fraction 16 c_frac (at_fraction 16 a_frac (at_fraction 16 b_frac (at_rounding rounding
        (λ r. Ok (rounded_add_prod c a b c_frac a_frac b_frac r))))))
        answer.old answer.new result }
{
    answer.take(Call::AddProdRound(c, a, b, c_frac, a_frac, b_frac, rounding))
}

/// Writes `a 2^frac / b`, rounded as named. Fails with `FractionPastWidth`, `NoRounding` or `ZeroDivisor`.
#[unsafe(no_mangle)]
pub extern "C" fn fixed_i16_div_round(
    a: i16,
    b: i16,
    frac: u32,
    rounding: u32,
    answer: &mut AnswerI16,
) -> i32
    ensures { AnswersI16
        (at_fraction 16 frac (at_rounding rounding
        (λ r. row_or ZeroDivisor (by_divisor b (rounded_div a b frac r)))))
        answer.old answer.new result }
{
    answer.take(Call::DivRound(a, b, frac, rounding))
}

/// Writes `a / divisor`, rounded as named, for an integer `divisor`. Fails with `NoRounding` or `ZeroDivisor`.
#[unsafe(no_mangle)]
pub extern "C" fn fixed_i16_div_int_round(
    a: i16,
    divisor: i16,
    rounding: u32,
    answer: &mut AnswerI16,
) -> i32
    ensures { AnswersI16
        (at_rounding rounding
        (λ r. row_or ZeroDivisor (by_divisor divisor (rounded a divisor r))))
        answer.old answer.new result }
{
    answer.take(Call::DivIntRound(a, divisor, rounding))
}

/// Writes `2^(2 frac) / a`, rounded as named. Fails with `FractionPastWidth`, `NoRounding` or `ZeroDivisor`.
#[unsafe(no_mangle)]
pub extern "C" fn fixed_i16_recip_round(
    a: i16,
    frac: u32,
    rounding: u32,
    answer: &mut AnswerI16,
) -> i32
    ensures { AnswersI16
        (at_fraction 16 frac (at_rounding rounding
        (λ r. row_or ZeroDivisor (by_divisor a (rounded_recip a frac r)))))
        answer.old answer.new result }
{
    answer.take(Call::RecipRound(a, frac, rounding))
}

/// Writes `number / 2^from` in units of `2^-to`, rounded as named, for a number of any signed word; `from` is at most
/// 64. Fails with `FractionPastWidth` or `NoRounding`.
#[unsafe(no_mangle)]
pub extern "C" fn fixed_i16_convert(
    number: i64,
    from: u32,
    to: u32,
    rounding: u32,
    answer: &mut AnswerI16,
) -> i32
    ensures { AnswersI16
        (at_fraction 64 from (at_fraction 16 to (at_rounding rounding (λ r. Ok (rounded_convert number from to r)))))
        answer.old answer.new result }
{
    answer.take(Call::Convert(number, from, to, rounding))
}

/// Writes `number / 2^from` in units of `2^-to`, rounded as named, for a number of any unsigned word; `from` is at most
/// 64. Fails with `FractionPastWidth` or `NoRounding`.
#[unsafe(no_mangle)]
pub extern "C" fn fixed_i16_convert_unsigned(
    number: u64,
    from: u32,
    to: u32,
    rounding: u32,
    answer: &mut AnswerI16,
) -> i32
    ensures { AnswersI16
        (at_fraction 64 from (at_fraction 16 to (at_rounding rounding
        (λ r. Ok (rounded_convert (pos number) from to r)))))
        answer.old answer.new result }
{
    answer.take(Call::ConvertUnsigned(number, from, to, rounding))
}

/// Writes the number of a double in units of `2^-frac`, rounded as named. Fails with `FractionPastWidth`, `NoRounding`
/// or `NotFinite`.
#[unsafe(no_mangle)]
pub extern "C" fn fixed_i16_from_double(
    number: f64,
    frac: u32,
    rounding: u32,
    answer: &mut AnswerI16,
) -> i32
    ensures { AnswersI16
        (at_fraction 16 frac (at_rounding rounding (λ r. row_or NotFinite (units_of_float number frac r))))
        answer.old answer.new result }
{
    answer.take(Call::FromDouble(number, frac, rounding))
}

/// Writes the double nearest to `a / 2^frac`, ties to even. Fails with `FractionPastWidth`.
#[unsafe(no_mangle)]
pub extern "C" fn fixed_i16_to_double(a: i16, frac: u32, value: &mut f64) -> i32
    ensures { ValueAnswers
        (at_fraction 16 frac (Ok (nearest_float binary64 a frac)))
        value.old value.new result }
{
    conversions::to_double(a, frac, value)
}

/// Writes the number of a decimal in units of `2^-frac`, rounded as named. Fails with `FractionPastWidth`,
/// `NoRounding`, or `NoDigits`, `InvalidDigit` or `TooManyPoints` if the text is not a decimal.
#[unsafe(no_mangle)]
pub extern "C" fn fixed_i16_parse(
    decimal: &[u8],
    frac: u32,
    rounding: u32,
    answer: &mut AnswerI16,
) -> i32
    ensures { AnswersI16
        (at_fraction 16 frac (at_rounding rounding (λ r. or_code (decimal_row decimal.now frac r))))
        answer.old answer.new result }
{
    answer.leave(texts::parse(decimal, frac, rounding))
}

/// Writes the text of `a / 2^frac`, rounded as named to `places` digits after the point, the byte 0 after it, and its
/// length. Fails with `FractionPastWidth`, `TooManyPlaces`, `NoRounding` or `NoRoom`, which writes the length.
#[unsafe(no_mangle)]
pub extern "C" fn fixed_i16_print(
    a: i16,
    frac: u32,
    places: u32,
    rounding: u32,
    buffer: &mut [u8],
    length: &mut usize,
) -> i32
    ensures { TextAnswers
        (at_fraction 16 frac (at_places places (at_rounding rounding (λ r. Ok (text_of a frac places r)))))
        (buffer.old, length.old) (buffer.new, length.new) result }
{
    write(TextCall::Print(a, frac, places, rounding), buffer, length)
}

/// Writes the shortest text that is read back as `a / 2^frac`, to the nearest, the byte 0 after it, and its length.
/// Fails with `FractionPastWidth` or `NoRoom`, which writes the length.
#[unsafe(no_mangle)]
pub extern "C" fn fixed_i16_print_shortest(
    a: i16,
    frac: u32,
    buffer: &mut [u8],
    length: &mut usize,
) -> i32
    ensures { TextAnswers
        (at_fraction 16 frac (Ok (text_of a frac (shortest a frac) Even)))
        (buffer.old, length.old) (buffer.new, length.new) result }
{
    write(TextCall::Shortest(a, frac), buffer, length)
}

/// Writes the ends of the sums of a number in `a` and one in `b`. Fails with `EndsExchanged` or `OutOfRange`.
#[unsafe(no_mangle)]
pub extern "C" fn fixed_i16_add_in(
    a_low: i16,
    a_high: i16,
    b_low: i16,
    b_high: i16,
    answer: &mut EndsI16,
) -> i32
    ensures { EndsI16Answers
        (sum_in true 16 (from_to a_low a_high) (from_to b_low b_high))
        answer.old answer.new result }
{
    answer.take(EndsCall::Add(a_low, a_high, b_low, b_high))
}

/// Writes the ends of the differences of a number in `a` and one in `b`. Fails with `EndsExchanged` or `OutOfRange`.
#[unsafe(no_mangle)]
pub extern "C" fn fixed_i16_sub_in(
    a_low: i16,
    a_high: i16,
    b_low: i16,
    b_high: i16,
    answer: &mut EndsI16,
) -> i32
    ensures { EndsI16Answers
        (difference_in true 16 (from_to a_low a_high) (from_to b_low b_high))
        answer.old answer.new result }
{
    answer.take(EndsCall::Sub(a_low, a_high, b_low, b_high))
}

/// Writes the ends of the products of a number in `a` and one in `b`, each over `2^frac`, rounded outward. Fails with
/// `FractionPastWidth`, `EndsExchanged` or `OutOfRange`.
#[unsafe(no_mangle)]
pub extern "C" fn fixed_i16_mul_in(
    a_low: i16,
    a_high: i16,
    b_low: i16,
    b_high: i16,
    frac: u32,
    answer: &mut EndsI16,
) -> i32
    ensures { EndsI16Answers
        (product_in true 16 (from_to a_low a_high) (from_to b_low b_high) frac)
        answer.old answer.new result }
{
    answer.take(EndsCall::Mul(a_low, a_high, b_low, b_high, frac))
}

/// Writes the ends of the quotients of a number in `a` by one in `b`, each times `2^frac`, rounded outward. Fails with
/// `FractionPastWidth`, `EndsExchanged`, `ZeroDivisor` or `OutOfRange`.
#[unsafe(no_mangle)]
pub extern "C" fn fixed_i16_div_in(
    a_low: i16,
    a_high: i16,
    b_low: i16,
    b_high: i16,
    frac: u32,
    answer: &mut EndsI16,
) -> i32
    ensures { EndsI16Answers
        (quotient_in true 16 (from_to a_low a_high) (from_to b_low b_high) frac)
        answer.old answer.new result }
{
    answer.take(EndsCall::Div(a_low, a_high, b_low, b_high, frac))
}

/// Writes the ends of the roots of `x 2^frac` for the numbers x in `a`, rounded outward. Fails with
/// `FractionPastWidth`, `EndsExchanged`, `NegativeRoot` or `OutOfRange`.
#[unsafe(no_mangle)]
pub extern "C" fn fixed_i16_sqrt_in(a_low: i16, a_high: i16, frac: u32, answer: &mut EndsI16) -> i32
    ensures { EndsI16Answers (root_in true 16 (from_to a_low a_high) frac) answer.old answer.new result }
{
    answer.take(EndsCall::Sqrt(a_low, a_high, frac))
}

/// Writes `-x` over each x of the block. Fails with `NoPolicy` or `OutOfRange`.
#[unsafe(no_mangle)]
pub extern "C" fn fixed_i16_neg_block(block: &mut [i16], policy: u32, place: &mut usize) -> i32
    ensures { BlockAnswers (λ x. x) true 16
        (at_policy policy (map neg_ℤ (map (λ x. x) block.old)))
        (block.old, place.old) (block.new, place.new) result }
{
    each(EachCall::Neg, policy, block, place)
}

/// Writes the magnitude of x over each x of the block. Fails with `NoPolicy` or `OutOfRange`.
#[unsafe(no_mangle)]
pub extern "C" fn fixed_i16_abs_block(block: &mut [i16], policy: u32, place: &mut usize) -> i32
    ensures { BlockAnswers (λ x. x) true 16
        (at_policy policy (map exact_abs (map (λ x. x) block.old)))
        (block.old, place.old) (block.new, place.new) result }
{
    one_sign::abs_block(block, policy, place)
}

/// Writes `x k` over each x of the block, for an integer `k`. Fails with `NoPolicy` or `OutOfRange`.
#[unsafe(no_mangle)]
pub extern "C" fn fixed_i16_mul_int_block(
    block: &mut [i16],
    k: i16,
    policy: u32,
    place: &mut usize,
) -> i32
    ensures { BlockAnswers (λ x. x) true 16
        (at_policy policy (map (λ x. x *ℤ k) (map (λ x. x) block.old)))
        (block.old, place.old) (block.new, place.new) result }
{
    each(EachCall::MulInt(k), policy, block, place)
}

/// Writes `x by / 2^frac`, rounded down, over each x of the block. Fails with `FractionPastWidth`, `NoPolicy` or
/// `OutOfRange`.
#[unsafe(no_mangle)]
pub extern "C" fn fixed_i16_scale_block(
    block: &mut [i16],
    by: i16,
    frac: u32,
    policy: u32,
    place: &mut usize,
) -> i32
    ensures { BlockAnswers (λ x. x) true 16
        (at_fraction 16 frac (at_policy policy (map (λ x. exact_mul x by frac) (map (λ x. x) block.old))))
        (block.old, place.old) (block.new, place.new) result }
{
    each(EachCall::Scale(by, frac), policy, block, place)
}

/// Writes `x / 2^from` in units of `2^-to`, rounded as named, over each x of the block. Fails with `FractionPastWidth`,
/// `NoRounding`, `NoPolicy` or `OutOfRange`.
#[unsafe(no_mangle)]
pub extern "C" fn fixed_i16_convert_block(
    block: &mut [i16],
    from: u32,
    to: u32,
    rounding: u32,
    policy: u32,
    place: &mut usize,
) -> i32
    ensures { BlockAnswers (λ x. x) true 16
        (at_fraction 16 from (at_fraction 16 to (at_rounding rounding
        (λ r. at_policy policy (map (λ x. rounded_convert x from to r) (map (λ x. x) block.old))))))
        (block.old, place.old) (block.new, place.new) result }
{
    each(EachCall::Convert(from, to, rounding), policy, block, place)
}

/// Writes `x + y` over each x of the block, where y is the other number at its index. Fails with `CountsDiffer`,
/// `NoPolicy` or `OutOfRange`.
#[unsafe(no_mangle)]
pub extern "C" fn fixed_i16_add_block(
    block: &mut [i16],
    others: &[i16],
    policy: u32,
    place: &mut usize,
) -> i32
    ensures { BlockAnswers (λ x. x) true 16
        (with_as_many block.old others.now (at_policy policy (of_pairs (λ x y. x +ℤ y) (map (λ x. x) block.old) (map (λ x. x) others.now))))
        (block.old, place.old) (block.new, place.new) result }
{
    pairs(PairsCall::Add, policy, block, others, place)
}

/// Writes `x - y` over each x of the block, where y is the other number at its index. Fails with `CountsDiffer`,
/// `NoPolicy` or `OutOfRange`.
#[unsafe(no_mangle)]
pub extern "C" fn fixed_i16_sub_block(
    block: &mut [i16],
    others: &[i16],
    policy: u32,
    place: &mut usize,
) -> i32
    ensures { BlockAnswers (λ x. x) true 16
        (with_as_many block.old others.now (at_policy policy (of_pairs (λ x y. x -ℤ y) (map (λ x. x) block.old) (map (λ x. x) others.now))))
        (block.old, place.old) (block.new, place.new) result }
{
    pairs(PairsCall::Sub, policy, block, others, place)
}

/// Writes `x y / 2^frac`, rounded down, over each x of the block, where y is the other number at its index. Fails with
/// `FractionPastWidth`, `CountsDiffer`, `NoPolicy` or `OutOfRange`.
#[unsafe(no_mangle)]
pub extern "C" fn fixed_i16_mul_block(
    block: &mut [i16],
    others: &[i16],
    frac: u32,
    policy: u32,
    place: &mut usize,
) -> i32
    ensures { BlockAnswers (λ x. x) true 16
        (at_fraction 16 frac (with_as_many block.old others.now (at_policy policy (of_pairs (λ x y. exact_mul x y frac) (map (λ x. x) block.old) (map (λ x. x) others.now)))))
        (block.old, place.old) (block.new, place.new) result }
{
    pairs(PairsCall::Mul(frac), policy, block, others, place)
}

/// Writes x plus `y by / 2^frac`, which is rounded down, over each x of the block, where y is the other number at its
/// index. Fails with `FractionPastWidth`, `CountsDiffer`, `NoPolicy` or `OutOfRange`.
#[unsafe(no_mangle)]
pub extern "C" fn fixed_i16_mul_add_block(
    block: &mut [i16],
    others: &[i16],
    by: i16,
    frac: u32,
    policy: u32,
    place: &mut usize,
) -> i32
    ensures { BlockAnswers (λ x. x) true 16
        (at_fraction 16 frac (with_as_many block.old others.now (at_policy policy (of_pairs (λ x y. exact_mul_add y by x frac) (map (λ x. x) block.old) (map (λ x. x) others.now)))))
        (block.old, place.old) (block.new, place.new) result }
{
    pairs(PairsCall::MulAdd(by, frac), policy, block, others, place)
}

/// Writes the sum of the products of the numbers at the same index, over `2^frac` and rounded down once. Fails with
/// `FractionPastWidth` or `CountsDiffer`; or with `OutOfRange` if a partial sum is far too large, as [`dots`] states.
#[unsafe(no_mangle)]
pub extern "C" fn fixed_i16_dot(a: &[i16], b: &[i16], frac: u32, answer: &mut AnswerI16) -> i32
    ensures { (found : Result ℤ Code)
        × IsDot true (at_fraction 16 frac (with_as_many a.now b.now allowed)) (map (λ x. x) a.now) (map (λ x. x) b.now) frac found
        × AnswersI16 found answer.old answer.new result }
{
    answer.leave(dots::dot(a, b, frac))
}
