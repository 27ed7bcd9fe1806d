//! The interrupt kit: an object with vectors and an interrupt handler, and that the handler leaves programs as they are.
#![tactic(auto)]

mod object;

pub use crate::object::kit_object;
