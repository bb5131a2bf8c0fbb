//! Loops over two blocks, of which the first is written.

ghost use Rattle.std.specs.Prelude.{◌↔◌, IsTrue, ◌≡◌, ◌≤◌, ℤ, length, map};
ghost use Rattle.std.specs.List.{list_all};
ghost use Rattle.fixed_word.specs.Format.{fits, wrap};
ghost use Rattle.fixed_word.specs.Standing.{StandsFor};
ghost use Rattle.fixed_block.specs.Blocks.{checked_block, fitting, misfit, of_pairs, saturating_block, wrapping_block};

use crate::each::fits_of;
use fixed_word::{Outcome, Word, checked_of, saturating_of};

/// An operation on two numbers, with what it needs besides the numbers, such as a fraction.
pub trait Pairs<T: Word> {
    // The exact result, from the units of both numbers.
    ghost exact: { Self → ℤ → ℤ → ℤ };

    // What the operation requires, such as a fraction of at most the width.
    ghost pairs_ready: { Self → Type 0 };

    /// Returns whether the operation is ready: whether it has what it requires.
    fn is_ready(&self) -> bool
        ensures { IsTrue result ↔ pairs_ready self.now };

    /// Returns the outcome that stands for the exact result. Precondition: the operation is ready.
    fn outcome(&self, x: T, y: T) -> Outcome<T>
        requires { pairs_ready self.now }
        ensures { StandsFor T.value T.SIGNED T.BITS (exact self.now (T.value x) (T.value y)) result };

    /// Returns whether checked loops are faster where they test many numbers before they write them. The answer changes
    /// nothing else.
    #[inline(always)]
    fn is_tested_first(&self) -> bool {
        T::BITS <= 16
    }

    /// Returns whether loops that write every number are faster by four numbers at a time. The answer changes nothing
    /// else.
    #[inline(always)]
    fn is_by_fours(&self) -> bool {
        false
    }

    /// Returns whether the exact result fits. Precondition: the operation is ready.
    #[inline(always)]
    fn fits(&self, x: T, y: T) -> bool
        requires { pairs_ready self.now }
        ensures { result ≡ fits T.SIGNED T.BITS (exact self.now (T.value x) (T.value y)) }
    {
        fits_of(self.outcome(x, y))
    }

    /// Returns the number of the word that differs from the exact result by a multiple of `2^n` units, where n is the
    /// width. Precondition: the operation is ready.
    #[inline(always)]
    fn wrapped(&self, x: T, y: T) -> T
        requires { pairs_ready self.now }
        ensures { T.value result ≡ wrap T.SIGNED T.BITS (exact self.now (T.value x) (T.value y)) }
    {
        self.outcome(x, y).wrapped
    }
}

/// Replaces each number of the first block by the number of the word that is nearest to the exact result for it and the
/// number at the same place of the other block. Preconditions: the operation is ready, and both blocks have the same
/// length.
pub fn saturating_pairs<T: Word, O: Pairs<T>>(operation: &O, block: &mut [T], others: &[T])
    requires ready { O.pairs_ready operation.now }
    requires lengths { length block.old ≡ length others.now }
    ensures { map T.value block.new
        ≡ saturating_block T.SIGNED T.BITS (of_pairs (O.exact operation.now) (map T.value block.old) (map T.value others.now)) }
{
    if operation.is_by_fours() {
        saturating_by_fours(operation, block, others);
    } else {
        saturating_singly(operation, block, others);
    }
}

/// Does what `saturating_pairs` does, number by number.
#[inline(always)]
fn saturating_singly<T: Word, O: Pairs<T>>(operation: &O, block: &mut [T], others: &[T])
    requires ready { O.pairs_ready operation.now }
    requires lengths { length block.old ≡ length others.now }
    ensures { map T.value block.new
        ≡ saturating_block T.SIGNED T.BITS (of_pairs (O.exact operation.now) (map T.value block.old) (map T.value others.now)) }
{
    for at in 0..block.len() {
        block[at] = saturating_of(operation.outcome(block[at], others[at]));
    }
}

/// Does what `saturating_pairs` does, by four numbers at a time.
#[inline(always)]
fn saturating_by_fours<T: Word, O: Pairs<T>>(operation: &O, block: &mut [T], others: &[T])
    requires ready { O.pairs_ready operation.now }
    requires lengths { length block.old ≡ length others.now }
    ensures { map T.value block.new
        ≡ saturating_block T.SIGNED T.BITS (of_pairs (O.exact operation.now) (map T.value block.old) (map T.value others.now)) }
{
    let mut at = 0;
    while block.len() - at >= 4 {
        saturating_singly(operation, &mut block[at..at + 4], &others[at..at + 4]);
        at += 4;
    }
    saturating_singly(operation, &mut block[at..], &others[at..]);
}

/// Replaces each number of the first block by the number of the word that differs from the exact result for it and the
/// number at the same place of the other block by a multiple of `2^n` units, where n is the width. Preconditions: the
/// operation is ready, and both blocks have the same length.
pub fn wrapping_pairs<T: Word, O: Pairs<T>>(operation: &O, block: &mut [T], others: &[T])
    requires ready { O.pairs_ready operation.now }
    requires lengths { length block.old ≡ length others.now }
    ensures { map T.value block.new
        ≡ wrapping_block T.SIGNED T.BITS (of_pairs (O.exact operation.now) (map T.value block.old) (map T.value others.now)) }
{
    if operation.is_by_fours() {
        wrapping_by_fours(operation, block, others);
    } else {
        wrapping_singly(operation, block, others);
    }
}

/// Does what `wrapping_pairs` does, number by number.
#[inline(always)]
fn wrapping_singly<T: Word, O: Pairs<T>>(operation: &O, block: &mut [T], others: &[T])
    requires ready { O.pairs_ready operation.now }
    requires lengths { length block.old ≡ length others.now }
    ensures { map T.value block.new
        ≡ wrapping_block T.SIGNED T.BITS (of_pairs (O.exact operation.now) (map T.value block.old) (map T.value others.now)) }
{
    for at in 0..block.len() {
        block[at] = operation.wrapped(block[at], others[at]);
    }
}

/// Does what `wrapping_pairs` does, by four numbers at a time.
#[inline(always)]
fn wrapping_by_fours<T: Word, O: Pairs<T>>(operation: &O, block: &mut [T], others: &[T])
    requires ready { O.pairs_ready operation.now }
    requires lengths { length block.old ≡ length others.now }
    ensures { map T.value block.new
        ≡ wrapping_block T.SIGNED T.BITS (of_pairs (O.exact operation.now) (map T.value block.old) (map T.value others.now)) }
{
    let mut at = 0;
    while block.len() - at >= 4 {
        wrapping_singly(operation, &mut block[at..at + 4], &others[at..at + 4]);
        at += 4;
    }
    wrapping_singly(operation, &mut block[at..], &others[at..]);
}

/// Replaces the numbers of the first block by the exact results for them and the numbers at the same places of the
/// other block, up to the first exact result that does not fit. Returns the index of that result, or `None` if all fit.
/// The number at that index and all after it are unchanged. Preconditions: the operation is ready, and both blocks have
/// the same length.
pub fn checked_pairs<T: Word, O: Pairs<T>>(
    operation: &O,
    block: &mut [T],
    others: &[T],
) -> Option<usize>
    requires ready { O.pairs_ready operation.now }
    requires lengths { length block.old ≡ length others.now }
    ensures place { result
        ≡ misfit T.SIGNED T.BITS (of_pairs (O.exact operation.now) (map T.value block.old) (map T.value others.now)) }
    ensures block { map T.value block.new
        ≡ checked_block T.SIGNED T.BITS (of_pairs (O.exact operation.now) (map T.value block.old) (map T.value others.now)) (map T.value block.old) }
{
    if operation.is_tested_first() {
        checked_after_test(operation, block, others)
    } else {
        checked_singly(operation, block, others)
    }
}

/// Does what `checked_pairs` does, and writes each number before it looks at the next.
#[inline(always)]
fn checked_singly<T: Word, O: Pairs<T>>(
    operation: &O,
    block: &mut [T],
    others: &[T],
) -> Option<usize>
    requires ready { O.pairs_ready operation.now }
    requires lengths { length block.old ≡ length others.now }
    ensures place { result
        ≡ misfit T.SIGNED T.BITS (of_pairs (O.exact operation.now) (map T.value block.old) (map T.value others.now)) }
    ensures block { map T.value block.new
        ≡ checked_block T.SIGNED T.BITS (of_pairs (O.exact operation.now) (map T.value block.old) (map T.value others.now)) (map T.value block.old) }
{
    for at in 0..block.len() {
        match checked_of(operation.outcome(block[at], others[at])) {
            Some(number) => block[at] = number,
            None => return Some(at),
        }
    }
    None
}

/// Does what `checked_pairs` does, and writes all numbers after the tests.
#[inline(always)]
fn checked_after_test<T: Word, O: Pairs<T>>(
    operation: &O,
    block: &mut [T],
    others: &[T],
) -> Option<usize>
    requires ready { O.pairs_ready operation.now }
    requires lengths { length block.old ≡ length others.now }
    ensures place { result
        ≡ misfit T.SIGNED T.BITS (of_pairs (O.exact operation.now) (map T.value block.old) (map T.value others.now)) }
    ensures block { map T.value block.new
        ≡ checked_block T.SIGNED T.BITS (of_pairs (O.exact operation.now) (map T.value block.old) (map T.value others.now)) (map T.value block.old) }
{
    let fit = fitting_of(operation, block, others);
    wrapping_pairs(operation, &mut block[..fit], &others[..fit]);
    if fit == block.len() { None } else { Some(fit) }
}

/// Returns how many exact results at the front of two blocks fit. It tests 64 at once, since a loop that stops at none
/// of them takes many in one instruction. Preconditions: the operation is ready, and both blocks have the same length.
#[inline(always)]
fn fitting_of<T: Word, O: Pairs<T>>(operation: &O, block: &[T], others: &[T]) -> usize
    requires ready { O.pairs_ready operation.now }
    requires lengths { length block.now ≡ length others.now }
    ensures value { result ≡ fitting T.SIGNED T.BITS (of_pairs (O.exact operation.now) (map T.value block.now) (map T.value others.now)) }
    ensures within { result ≤ length block.now }
{
    let mut at = 0;
    while block.len() - at >= 64 && all_fit(operation, &block[at..at + 64], &others[at..at + 64]) {
        at += 64;
    }
    at + fitting_singly(operation, &block[at..], &others[at..])
}

/// Returns whether all exact results of two blocks fit. Preconditions: the operation is ready, and both blocks have the
/// same length.
#[inline(always)]
fn all_fit<T: Word, O: Pairs<T>>(operation: &O, block: &[T], others: &[T]) -> bool
    requires ready { O.pairs_ready operation.now }
    requires lengths { length block.now ≡ length others.now }
    ensures { result ≡ list_all (fits T.SIGNED T.BITS) (of_pairs (O.exact operation.now) (map T.value block.now) (map T.value others.now)) }
{
    let mut all = true;
    for at in 0..block.len() {
        all &= operation.fits(block[at], others[at]);
    }
    all
}

/// Does what `fitting_of` does, number by number.
#[inline]
fn fitting_singly<T: Word, O: Pairs<T>>(operation: &O, block: &[T], others: &[T]) -> usize
    requires ready { O.pairs_ready operation.now }
    requires lengths { length block.now ≡ length others.now }
    ensures value { result ≡ fitting T.SIGNED T.BITS (of_pairs (O.exact operation.now) (map T.value block.now) (map T.value others.now)) }
    ensures within { result ≤ length block.now }
{
    for at in 0..block.len() {
        if !fits_of(operation.outcome(block[at], others[at])) {
            return at;
        }
    }
    block.len()
}
