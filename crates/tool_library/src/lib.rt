//! The librarian's commands (a new library of objects, the names of its members, a member as an object) and `list`, the
//! listing of an object, a library, an ARM image file or an ELF executable; and what a file is to a link: an object or
//! a library. This project's, over the formats' own crates. `sdt_toolkit` calls `create_library`, `list_members`,
//! `extract_member` and `list_file` for these commands, `read_linkable` for each input of a link, and `ends` for the
//! answers to what can't be read.
#![tactic(auto)]

pub mod create;
pub mod ends;
pub mod extract;
mod linkables;
pub mod list;
pub mod listings;
pub mod members;
mod printing;

pub use crate::create::create_library;
pub use crate::extract::{extract_member, list_members};
pub use crate::linkables::{Linkable, read_linkable};
pub use crate::list::list_file;
