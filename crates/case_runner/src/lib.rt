//! Cases as data: text files that say what a store holds, which commands are run, and what is wanted of each.
//! `docs/CASES.md` has the format.
#![tactic(auto)]

mod bench;
mod contents;
mod devices;
mod files;
mod forms;
mod sections;
mod settings;
mod steps;
mod told;
mod wishes;

pub use crate::bench::Tool;
pub use crate::files::{Report, check_files};
