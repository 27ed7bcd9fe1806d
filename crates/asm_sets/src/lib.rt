//! Names in sets and maps, found by hash. This project's. Registers and symbols use `NameSet` (names with their
//! places), they and checks `NameMap` (names with values), and symbols `NameRefs` (names that stand elsewhere).
#![tactic(auto)]

mod maps;
mod refs;
mod sets;

pub use crate::maps::NameMap;
pub use crate::refs::NameRefs;
pub use crate::sets::NameSet;
