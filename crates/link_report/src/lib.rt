//! Where everything of a link went, as a text: load regions, execution regions with what stands in them, exported
//! symbols, members that were chosen, selections that took no area, and the entry.
#![tactic(auto)]

mod lines;
mod members;
mod regions;
mod report;
mod selections;
mod symbols;

pub use crate::report::report_text;
