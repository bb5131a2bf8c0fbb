//! The sum of the products of words of at most 16 bits, by chunks whose sums fit in 32 bits.

ghost use Rattle.std.specs.Prelude.{◌≡◌, ◌≤◌, ◌<◌, ◌*◌, ◌^◌, ◌+ℤ◌, ◌*ℤ◌, ◌≤ℤ◌, true, false, length, map, nat_abs, pos};
ghost use Rattle.fixed_block.specs.Dots.{partial_sum};

use fixed_convert::Castable;
use fixed_word::Integer;

/// Returns the value of a word. Precondition: the word has at most 16 bits.
#[inline(always)]
fn short<T: Castable>(word: T) -> i32
    requires { T.BITS ≤ 16 }
    ensures value { result ≡ T.value word }
    ensures byte { T.BITS ≤ 8 → nat_abs result ≤ 255 }
    ensures signed { T.SIGNED ≡ true → nat_abs result ≤ 32768 }
    ensures unsigned { T.SIGNED ≡ false → pos 0 ≤ℤ result }
    ensures size { nat_abs result < 65536 }
{
    word.to_wide() as i32
}

/// Returns the product of two words as two numbers: the first one times `2^16`, plus the second. Precondition: the
/// words have at most 16 bits.
#[inline(always)]
fn halves<T: Castable>(x: T, y: T) -> (i32, i32)
    requires { T.BITS ≤ 16 }
    ensures value { result.0 *ℤ pos 65536 +ℤ result.1 ≡ T.value x *ℤ T.value y }
    ensures high { nat_abs result.0 ≤ 65536 }
    ensures low { nat_abs result.1 ≤ 65536 }
{
    if T::BITS <= 8 {
        byte_halves(short(x), short(y))
    } else if T::SIGNED {
        signed_halves(signed_product(short(x), short(y)))
    } else {
        unsigned_halves(short(x).unsigned_abs(), short(y).unsigned_abs())
    }
}

/// Returns the product of two numbers of 8 bits as the second number.
#[inline(always)]
fn byte_halves(x: i32, y: i32) -> (i32, i32)
    requires x { nat_abs x ≤ 255 }
    requires y { nat_abs y ≤ 255 }
    ensures value { result.0 *ℤ pos 65536 +ℤ result.1 ≡ x *ℤ y }
    ensures high { nat_abs result.0 ≤ 65536 }
    ensures low { nat_abs result.1 ≤ 65536 }
{
    (0, x * y)
}

/// Returns the product of two signed numbers of 16 bits.
#[inline(always)]
fn signed_product(x: i32, y: i32) -> i32
    requires x { nat_abs x ≤ 32768 }
    requires y { nat_abs y ≤ 32768 }
    ensures { result ≡ x *ℤ y }
{
    x * y
}

/// Returns an integer over `2^16`, rounded down, and the remainder.
#[inline(always)]
fn signed_halves(product: i32) -> (i32, i32)
    ensures value { result.0 *ℤ pos 65536 +ℤ result.1 ≡ product }
    ensures high { nat_abs result.0 ≤ 65536 }
    ensures low { nat_abs result.1 ≤ 65536 }
{
    let high = product.floored(16);
    (high, product - high * 65536)
}

/// Returns the same for the product of two unsigned numbers of 16 bits.
#[inline(always)]
fn unsigned_halves(x: u32, y: u32) -> (i32, i32)
    requires x { x < 65536 }
    requires y { y < 65536 }
    ensures value { result.0 *ℤ pos 65536 +ℤ result.1 ≡ pos (x * y) }
    ensures high { nat_abs result.0 ≤ 65536 }
    ensures low { nat_abs result.1 ≤ 65536 }
{
    let product = x * y;
    ((product / 65536) as i32, (product % 65536) as i32)
}

/// Returns the first number times `2^16`, plus the second.
#[inline(always)]
fn joined(high: i32, low: i32) -> i64
    requires high { nat_abs high ≤ 2 ^ 30 }
    requires low { nat_abs low ≤ 2 ^ 30 }
    ensures value { result ≡ high *ℤ pos 65536 +ℤ low }
    ensures size { nat_abs result ≤ 2 ^ 47 }
{
    i64::from(high) * 65536 + i64::from(low)
}

/// Returns the sum of the products of at most `2^14` words of at most 16 bits. Sums of halves fit in 32 bits, so that
/// the loop takes several words at a time.
#[inline(always)]
fn chunk_sum<T: Castable>(a: &[T], b: &[T]) -> i64
    requires width { T.BITS ≤ 16 }
    requires lengths { length a.now ≡ length b.now }
    requires few { length a.now ≤ 16384 }
    ensures sum { result ≡ partial_sum (map T.value a.now) (map T.value b.now) (length a.now) }
    ensures size { nat_abs result ≤ 2 ^ 47 }
{
    let mut high: i32 = 0;
    let mut low: i32 = 0;
    for at in 0..a.len() {
        let (more_high, more_low) = halves(a[at], b[at]);
        high += more_high;
        low += more_low;
    }
    joined(high, low)
}

/// Returns the sum of the products of words of at most 16 bits.
#[inline(always)]
pub(crate) fn short_sum<T: Castable>(a: &[T], b: &[T]) -> i128
    requires width { T.BITS ≤ 16 }
    requires lengths { length a.now ≡ length b.now }
    ensures { result ≡ partial_sum (map T.value a.now) (map T.value b.now) (length a.now) }
{
    let mut sum: i128 = 0;
    let mut at = 0;
    while at < a.len() {
        let end = at + (a.len() - at).min(16384);
        sum += i128::from(chunk_sum(&a[at..end], &b[at..end]));
        at = end;
    }
    sum
}
