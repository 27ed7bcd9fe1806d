//! The map of a scatter image, a text that says where each written file is loaded, where its parts run and how
//! the run begins: read and written.
#![tactic(auto)]

mod fields;
mod files;
mod laws;
mod lines;
mod loads;
mod reading;
mod records;
mod writing;

pub use crate::files::{load_files, make_binary};
pub use crate::laws::{first_wrong_law, map_law, one_record, spelling_law};
pub use crate::reading::read_map;
pub use crate::records::{MapFile, MapLoad, MapRegion, OutFile};
pub use crate::writing::write_map;
