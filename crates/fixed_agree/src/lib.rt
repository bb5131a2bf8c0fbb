//! The typed calls and the calculator's machine agree.
//!
//! Each function of [`checked`], [`overflowing`], [`wrapping`], [`saturating`] and [`strict`] runs the typed call of
//! the given operation, on numbers of one word, and returns its result by its bits. Its contract states that the
//! machine has the same answer to the line of that policy and operation, whichever registers of the word hold these
//! bits and numbers of fraction bits. The functions of [`forms`] run the calls of all policies but strict, and their
//! contracts state how the results agree.
//!
//! Preconditions: the operation takes these operands and is offered under the policy on the word, and each number of
//! fraction bits is at most the width. Every operation is here, under each policy under which the calculator offers it.
//! No function allocates. The Rust crate `fixed` does not have these functions.
#![tactic(auto)]

mod answers;
pub mod checked;
pub mod forms;
pub mod laws;
pub mod overflowing;
pub mod saturating;
pub mod strict;
pub mod wrapping;
