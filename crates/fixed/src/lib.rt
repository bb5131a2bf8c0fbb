//! Fixed-point numbers of 8, 16, 32 and 64 bits, signed and unsigned, with every call proved. This crate is one name
//! for the whole library.
//!
//! It defines only an example, and exports the number types, the traits of their calls, the operations at run time and
//! the laws. The definitions that contracts of users cite, such as `Policies.checked` and `Rows.exact_mul`, are under
//! `Rattle.fixed.specs`. So a user depends on this crate alone.
#![tactic(auto)]

pub mod example;
pub mod kernel;
pub mod laws;
pub mod logarithms;

pub use fixed_bits::BitWord;
pub use fixed_cast::{
    Castable, FromNum, MulInto, Numeric, Order, Source, Target, ToFloat, ToNum, ToWhole,
};
pub use fixed_decimal::DecimalError;
pub use fixed_float::Binary;
pub use fixed_math::{
    CheckedMath, OverflowingMath, SaturatingMath, StrictMath, UnwrappedMath, WrappingMath,
};
pub use fixed_natural::{
    CheckedNatural, OverflowingNatural, SaturatingNatural, StrictNatural, UnwrappedNatural,
    WrappingNatural,
};
pub use fixed_num::{
    Constants, Fixed, FixedI8, FixedI16, FixedI32, FixedI64, FixedU8, FixedU16, FixedU32, FixedU64,
    FromDecimal, Held, Number,
};
pub use fixed_ops::{Plain, PlainMulAdd, PlainProducts, PlainSigned, PlainUnsigned, product, sum};
pub use fixed_policy::{
    Checked, CheckedMulAdd, CheckedProducts, CheckedRounded, CheckedSigned, CheckedUnsigned,
    Overflowing, OverflowingMulAdd, OverflowingProducts, OverflowingRounded, OverflowingSigned,
    OverflowingUnsigned, Wrapping, WrappingMulAdd, WrappingProducts, WrappingRounded,
    WrappingSigned, WrappingUnsigned,
};
pub use fixed_radix::{Base, InBase};
pub use fixed_strict::{
    Saturating, SaturatingMulAdd, SaturatingProducts, SaturatingRounded, SaturatingSigned,
    SaturatingUnsigned, Strict, StrictMulAdd, StrictProducts, StrictRounded, StrictSigned,
    StrictUnsigned, Unwrapped, UnwrappedMulAdd, UnwrappedProducts, UnwrappedRounded,
    UnwrappedSigned, UnwrappedUnsigned,
};

// Between the two lists, since `rt fmt` splits a list of more than 100 names.
pub mod roots;

pub use fixed_turns::{
    CheckedRadians, CheckedTurns, OverflowingRadians, OverflowingTurns, SaturatingRadians,
    SaturatingTurns, StrictRadians, StrictTurns, UnwrappedRadians, UnwrappedTurns, WrappingRadians,
    WrappingTurns,
};
pub use fixed_word::{Narrow, RawWord, SignedWord, UnsignedWord, Valued, Word};
