//! Words of ARM instructions, and the immediate operands that a word can hold.
#![tactic(auto)]

mod encode;
mod operands;

pub use crate::encode::encode_arm;
pub use crate::operands::immediate;
