//! The veneers that a link needs, or the first branch that no veneer may serve.
#![tactic(auto)]

mod fields;
mod interworking;
mod laws;
mod needing;
mod planning;
mod targets;

pub use crate::laws::interworking_law;
pub use crate::planning::plan_veneers;
