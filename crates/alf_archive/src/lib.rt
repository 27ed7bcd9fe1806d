//! ARM object libraries (ALF): a directory of names, and an object for each.
#![tactic(auto)]

mod defining;
mod entries;
mod laws;
mod libraries;
mod reading;
mod records;
mod writing;

pub use crate::defining::members_defining;
pub use crate::laws::{archive_law, one_record, spelling_law};
pub use crate::libraries::is_library;
pub use crate::reading::read_archive;
pub use crate::records::{Archive, Member};
pub use crate::writing::write_archive;
