//! The operations on bits, whose numbers of fraction bits are arguments, and the policies on their outcomes.

pub use fixed_elementary::{exp2_of, hypot_of, log2_of, recip_sqrt_of};
pub use fixed_kernel::{
    abs_of, add_of, add_prod_of, add_prod_round_of, dist_of, div_euclid_int_of, div_euclid_of,
    div_int_of, div_int_round_of, div_nearest_of, div_of, div_round_of, mixed_add_of, mixed_sub_of,
    mul_add_of, mul_add_round_of, mul_int_of, mul_nearest_of, mul_of, mul_round_of, neg_of,
    next_multiple_of_of, next_power_of_two_of, overflowing_div, overflowing_mul,
    overflowing_mul_add, recip_of, recip_round_of, rem_euclid_int_of, rem_euclid_of, rem_int_of,
    rem_of, round_to_zero_of, signum_of, sqrt_of, sub_of,
};
pub use fixed_word::{
    Outcome, Rounding, Side, checked_of, outcome_of, overflowing_of, saturating_of, strict_of,
    wrapping_of,
};
