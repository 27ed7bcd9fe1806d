//! Where regions, areas, veneers and the startup code stand, and whether they can.
#![tactic(auto)]

mod faults;
mod layouts;
mod merging;
mod parts;
mod pieces;
mod placed;
mod placing;
mod writable;

pub use crate::placed::place;
