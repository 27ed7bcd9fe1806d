//! ARM image files (AIF): the record of a file's header, and the file of a linked image.
#![tactic(auto)]

mod laws;
mod reading;
mod writing;

pub use crate::laws::{aif_law, first_failed_law, one_record, written_law};
pub use crate::reading::read_aif;
pub use crate::writing::make_aif;
