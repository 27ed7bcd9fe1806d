//! What linking makes of an area's bytes: each field with what its relocation directives add, and branches that reach
//! what they name. Definitions and their laws; there is no engine.
#![tactic(auto)]

mod laws;

pub use crate::laws::{one_patched, reach_law};
