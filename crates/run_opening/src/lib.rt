//! The opening of a run: the banks of memory that its words tell, with the files of its image in them, before the first
//! step.
#![tactic(auto)]

mod filling;
mod image;
mod judging;
mod opening;

pub use crate::image::{Image, Load, Need};
pub use crate::opening::{Closed, open};
