//! ARM object files (AOF): areas with their bytes and relocations, symbols, and the entry.
#![tactic(auto)]

mod areas;
mod checks;
mod copies;
mod faults;
mod flags;
mod index;
mod laws;
mod parts;
mod reading;
mod records;
mod relocations;
mod strings;
mod symbols;
mod table;
mod validity;
mod writing;

pub use crate::flags::{AreaFlags, AreaParts, Scope, SymbolFlags, SymbolParts};
pub use crate::index::note_name;
pub use crate::laws::{object_law, one_record, spelling_law};
pub use crate::parts::{Found, find};
pub use crate::reading::read_object;
pub use crate::records::{Area, Entry, Object, Reloc, Symbol};
pub use crate::relocations::{Field, FieldKind, RelocationTarget};
pub use crate::strings::terminated_name;
pub use crate::validity::object_is_valid;
pub use crate::writing::write_object;
