//! Scatter descriptions, texts that say which regions an image has and which areas go into them: read.
#![tactic(auto)]

mod cuts;
mod laws;
mod reading;
mod stops;
mod words;

pub use crate::laws::{fault_law, one_spelled, reading_law};
pub use crate::reading::read_scatter;
