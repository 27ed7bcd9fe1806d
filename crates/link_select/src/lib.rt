//! Which objects are linked: those of the command line and the members of libraries that these need; and
//! whether each of their names has one meaning.
#![tactic(auto)]

mod choosing;
mod entries;
mod exports;
mod index;
mod laws;
mod limits;
mod linking;
mod members;
mod regions;
mod selecting;
mod undefined;

pub use crate::laws::{duplicate_law, undefined_law};
pub use crate::selecting::select;
