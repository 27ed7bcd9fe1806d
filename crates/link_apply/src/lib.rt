//! The bytes of a placed image's regions: areas with their fields patched, veneers, and the startup code with its
//! table.
#![tactic(auto)]

mod applying;
mod areas;
mod detours;
mod fields;
mod flaws;
mod judging;
mod laws;
mod laying;
mod numbers;
mod overlaps;
mod patching;
mod placing;
mod relocations;
mod sites;
mod starts;
mod startup;
mod targets;
mod telling;
mod veneers;
mod ways;
mod writing;

pub use crate::applying::apply;
pub use crate::flaws::Flaw;
pub use crate::laws::patched_law;
