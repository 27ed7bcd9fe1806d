//! Functions on bytes that several crates call: the number that digits write, and zeros.
//!
//! No crate stands below this one, so each may call it.
#![tactic(auto)]

mod digits;
mod zeros;

pub use crate::digits::{digit_value, digits_value};
pub use crate::zeros::push_zeros;
