//! Why a script of filters has no output.

pub use fixed_text::RunFault as FilterFault;
