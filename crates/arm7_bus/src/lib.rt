//! Memory and devices of the machine.
#![tactic(auto)]

mod block;
mod bus;
mod devices;
mod frames;
pub mod meets;
mod memory;
mod notes;
mod pages;
mod table;

pub use crate::bus::{Absent, Bus, NoBus, NoDevice, PagesFull};
pub use crate::frames::Frames;
pub use crate::memory::BusFault;
pub use crate::notes::Stores;
