//! What a library holds.

use aof_object::Object;
use sdt_fault::{List, Text};

/// An object with its name in the library.
#[derive(Drop)]
pub struct Member {
    pub name: Text,
    pub object: Object,
}

/// The members in the order of the directory.
#[derive(Drop)]
pub struct Archive {
    pub members: List<Member>,
}
