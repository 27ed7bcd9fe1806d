//! Where the areas of linked objects go: which region of a scatter description takes each, in which order
//! they stand there, at which addresses, and what may be wrong with that. The types of scatter descriptions,
//! definitions and their laws; there is no engine.
#![tactic(auto)]

mod laws;
mod scatter;

pub use crate::laws::placing_law;
pub use crate::scatter::{
    Choice, Edge, Kind, Scatter, ScatterBase, ScatterLoad, ScatterRegion, Selection,
};
