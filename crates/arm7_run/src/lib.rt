//! The run of a machine: its steps, with what the host's interrupts print, up to the first stop.
#![tactic(auto)]

mod host;
mod quiet;
mod strings;

pub use crate::host::{RunEnd, run_for};
