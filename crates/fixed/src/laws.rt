//! Laws of the definitions. These functions do nothing: the contract of each is the law.

pub use fixed_bits::laws::{list_law, read_back_law};
pub use fixed_elementary::laws::{exp2_law, hypot_law, log2_law, recip_sqrt_law};
pub use fixed_kernel::laws::{
    default_law, integer_law, multiple_law, power_law, remainder_law, rounded_law, row_law,
    signed_law, unsigned_law,
};
pub use fixed_logs::laws::{log_law, log_parts_law};
pub use fixed_natural::laws::{exp_law, ln_law, log10_law, pow_law};
pub use fixed_num::laws::{cast_law, mean_law, order_law};
pub use fixed_ops::laws::fold_law;
pub use fixed_policy::laws::{loss_law, order_law as sum_order_law};
pub use fixed_root::laws::root_law;
pub use fixed_turns::laws::{
    angle_law, cosine_law, pi_law, radian_angle_law, radian_law, sine_law,
};
pub use fixed_word::laws::{clamp_law, fits_law, quotient_law, return_law, wrap_law};
