//! Loops over one block.

ghost use Rattle.std.specs.Prelude.{◌↔◌, IsTrue, ◌≡◌, ◌≤◌, ℤ, length, map};
ghost use Rattle.std.specs.List.{list_all};
ghost use Rattle.fixed_word.specs.Format.{clamp, fits, wrap};
ghost use Rattle.fixed_word.specs.Standing.{StandsFor};
ghost use Rattle.fixed_block.specs.Blocks.{checked_block, fitting, misfit, saturating_block, wrapping_block};

use fixed_word::{Outcome, Word, checked_of, nearest_of, overflowing_of};

/// An operation on one number, with what it needs besides the number, such as a factor.
pub trait Each<T: Word> {
    // The exact result, from the units of the number.
    ghost exact: { Self → ℤ → ℤ };

    // What the operation requires, such as a fraction of at most the width.
    ghost each_ready: { Self → Type 0 };

    /// Returns whether the operation is ready: whether it has what it requires.
    fn is_ready(&self) -> bool
        ensures { IsTrue result ↔ each_ready self.now };

    /// Returns the outcome that stands for the exact result. Precondition: the operation is ready.
    fn outcome(&self, x: T) -> Outcome<T>
        requires { each_ready self.now }
        ensures { StandsFor T.value T.SIGNED T.BITS (exact self.now (T.value x)) result };

    /// Returns whether checked loops are faster where they test many numbers before they write them. The answer changes
    /// nothing else.
    #[inline(always)]
    fn is_tested_first(&self) -> bool {
        T::BITS <= 16
    }

    /// Returns whether loops that write every number are faster by four numbers at a time. The answer changes nothing
    /// else.
    #[inline(always)]
    fn is_by_fours(&self) -> bool {
        false
    }

    /// Returns the number of the word that differs from the exact result by a multiple of `2^n` units, where n is the
    /// width. Precondition: the operation is ready.
    #[inline(always)]
    fn wrapped(&self, x: T) -> T
        requires { each_ready self.now }
        ensures { T.value result ≡ wrap T.SIGNED T.BITS (exact self.now (T.value x)) }
    {
        self.outcome(x).wrapped
    }

    /// Returns the number of the word that is nearest to the exact result. Precondition: the operation is ready.
    #[inline(always)]
    fn nearest(&self, x: T) -> T
        requires { each_ready self.now }
        ensures { T.value result ≡ clamp T.SIGNED T.BITS (exact self.now (T.value x)) }
    {
        nearest_of(self.outcome(x))
    }

    /// Returns whether the exact results of all numbers of a block fit, from the outcome of each. Precondition: the
    /// operation is ready.
    #[inline(always)]
    fn all_fit_singly(&self, block: &[T]) -> bool
        requires { each_ready self.now }
        ensures { result ≡ list_all (fits T.SIGNED T.BITS) (map (exact self.now) (map T.value block.now)) }
    {
        let mut all = true;
        for x in block {
            all &= fits_of(self.outcome(*x));
        }
        all
    }

    /// Returns whether the exact results of all numbers of a block fit. Preconditions: the operation is ready, and the
    /// block has at most 64 numbers.
    #[inline(always)]
    fn all_fit(&self, block: &[T]) -> bool
        requires ready { each_ready self.now }
        requires few { length block.now ≤ 64 }
        ensures { result ≡ list_all (fits T.SIGNED T.BITS) (map (exact self.now) (map T.value block.now)) }
    {
        self.all_fit_singly(block)
    }
}

/// Replaces each number by the number of the word that is nearest to the exact result. Precondition: the operation is
/// ready.
pub fn saturating_each<T: Word, O: Each<T>>(operation: &O, block: &mut [T])
    requires { O.each_ready operation.now }
    ensures { map T.value block.new
        ≡ saturating_block T.SIGNED T.BITS (map (O.exact operation.now) (map T.value block.old)) }
{
    if operation.is_by_fours() {
        saturating_by_fours(operation, block);
    } else {
        saturating_singly(operation, block);
    }
}

/// Does what `saturating_each` does, number by number.
#[inline(always)]
fn saturating_singly<T: Word, O: Each<T>>(operation: &O, block: &mut [T])
    requires { O.each_ready operation.now }
    ensures { map T.value block.new
        ≡ saturating_block T.SIGNED T.BITS (map (O.exact operation.now) (map T.value block.old)) }
{
    for item in block.iter_mut() {
        *item = operation.nearest(*item);
    }
}

/// Does what `saturating_each` does, by four numbers at a time.
#[inline(always)]
fn saturating_by_fours<T: Word, O: Each<T>>(operation: &O, block: &mut [T])
    requires { O.each_ready operation.now }
    ensures { map T.value block.new
        ≡ saturating_block T.SIGNED T.BITS (map (O.exact operation.now) (map T.value block.old)) }
{
    let mut at = 0;
    while block.len() - at >= 4 {
        saturating_singly(operation, &mut block[at..at + 4]);
        at += 4;
    }
    saturating_singly(operation, &mut block[at..]);
}

/// Replaces each number by the number of the word that differs from the exact result by a multiple of `2^n` units,
/// where n is the width. Precondition: the operation is ready.
pub fn wrapping_each<T: Word, O: Each<T>>(operation: &O, block: &mut [T])
    requires { O.each_ready operation.now }
    ensures { map T.value block.new
        ≡ wrapping_block T.SIGNED T.BITS (map (O.exact operation.now) (map T.value block.old)) }
{
    if operation.is_by_fours() {
        wrapping_by_fours(operation, block);
    } else {
        wrapping_singly(operation, block);
    }
}

/// Does what `wrapping_each` does, number by number.
#[inline(always)]
fn wrapping_singly<T: Word, O: Each<T>>(operation: &O, block: &mut [T])
    requires { O.each_ready operation.now }
    ensures { map T.value block.new
        ≡ wrapping_block T.SIGNED T.BITS (map (O.exact operation.now) (map T.value block.old)) }
{
    for item in block.iter_mut() {
        *item = operation.wrapped(*item);
    }
}

/// Does what `wrapping_each` does, by four numbers at a time.
#[inline(always)]
fn wrapping_by_fours<T: Word, O: Each<T>>(operation: &O, block: &mut [T])
    requires { O.each_ready operation.now }
    ensures { map T.value block.new
        ≡ wrapping_block T.SIGNED T.BITS (map (O.exact operation.now) (map T.value block.old)) }
{
    let mut at = 0;
    while block.len() - at >= 4 {
        wrapping_singly(operation, &mut block[at..at + 4]);
        at += 4;
    }
    wrapping_singly(operation, &mut block[at..]);
}

/// Replaces each number by the exact result, up to the first number whose exact result does not fit, and returns the
/// index of that number, or `None` if there is none. That number and all after it are unchanged. Precondition: the
/// operation is ready.
pub fn checked_each<T: Word, O: Each<T>>(operation: &O, block: &mut [T]) -> Option<usize>
    requires { O.each_ready operation.now }
    ensures place { result ≡ misfit T.SIGNED T.BITS (map (O.exact operation.now) (map T.value block.old)) }
    ensures block { map T.value block.new
        ≡ checked_block T.SIGNED T.BITS (map (O.exact operation.now) (map T.value block.old)) (map T.value block.old) }
{
    if operation.is_tested_first() {
        checked_after_test(operation, block)
    } else {
        checked_singly(operation, block)
    }
}

/// Does what `checked_each` does, and writes each number before it looks at the next.
#[inline(always)]
fn checked_singly<T: Word, O: Each<T>>(operation: &O, block: &mut [T]) -> Option<usize>
    requires { O.each_ready operation.now }
    ensures place { result ≡ misfit T.SIGNED T.BITS (map (O.exact operation.now) (map T.value block.old)) }
    ensures block { map T.value block.new
        ≡ checked_block T.SIGNED T.BITS (map (O.exact operation.now) (map T.value block.old)) (map T.value block.old) }
{
    for at in 0..block.len() {
        match checked_of(operation.outcome(block[at])) {
            Some(number) => block[at] = number,
            None => return Some(at),
        }
    }
    None
}

/// Does what `checked_each` does, and writes all numbers after the tests.
#[inline(always)]
fn checked_after_test<T: Word, O: Each<T>>(operation: &O, block: &mut [T]) -> Option<usize>
    requires { O.each_ready operation.now }
    ensures place { result ≡ misfit T.SIGNED T.BITS (map (O.exact operation.now) (map T.value block.old)) }
    ensures block { map T.value block.new
        ≡ checked_block T.SIGNED T.BITS (map (O.exact operation.now) (map T.value block.old)) (map T.value block.old) }
{
    let fit = fitting_of(operation, block);
    wrapping_each(operation, &mut block[..fit]);
    if fit == block.len() { None } else { Some(fit) }
}

/// Returns how many exact results at the front of a block fit. It tests 64 numbers at once, since a loop that stops at
/// none of them takes many in one instruction. Precondition: the operation is ready.
#[inline(always)]
fn fitting_of<T: Word, O: Each<T>>(operation: &O, block: &[T]) -> usize
    requires { O.each_ready operation.now }
    ensures value { result ≡ fitting T.SIGNED T.BITS (map (O.exact operation.now) (map T.value block.now)) }
    ensures within { result ≤ length block.now }
{
    let mut at = 0;
    while block.len() - at >= 64 && operation.all_fit(&block[at..at + 64]) {
        at += 64;
    }
    at + fitting_singly(operation, &block[at..])
}

/// Does what `fitting_of` does, number by number.
#[inline]
fn fitting_singly<T: Word, O: Each<T>>(operation: &O, block: &[T]) -> usize
    requires { O.each_ready operation.now }
    ensures value { result ≡ fitting T.SIGNED T.BITS (map (O.exact operation.now) (map T.value block.now)) }
    ensures within { result ≤ length block.now }
{
    for at in 0..block.len() {
        if !fits_of(operation.outcome(block[at])) {
            return at;
        }
    }
    block.len()
}

/// Returns whether the exact result of an outcome fits.
#[inline(always)]
pub(crate) fn fits_of<T: Word>(outcome: Outcome<T>) -> bool
    ensures { (x : ℤ) → StandsFor T.value T.SIGNED T.BITS x outcome → result ≡ fits T.SIGNED T.BITS x }
{
    !overflowing_of(outcome).1
}
