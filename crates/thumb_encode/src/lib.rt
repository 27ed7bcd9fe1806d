//! Half-words of Thumb instructions.
#![tactic(auto)]

mod encode;

pub use crate::encode::encode_thumb;
