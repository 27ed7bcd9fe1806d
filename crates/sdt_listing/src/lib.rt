//! Listings of objects, libraries and images, and the text of each instruction.
#![tactic(auto)]

mod arm;
mod arm_names;
mod elfs;
mod images;
mod laws;
mod listing;
mod parts;
mod pieces;
mod thumb;

pub use crate::arm::print_arm;
pub use crate::elfs::list_elf;
pub use crate::images::list_aif;
pub use crate::laws::readings_law;
pub use crate::listing::{list_archive, list_object};
pub use crate::thumb::print_thumb;
