//! What is linked, and where its names are defined.

use aof_object::Object;
use sdt_fault::{List, Text};

/// An input of the linker, with the name that reports call it by and the name of its module, which a
/// scatter description selects by. Reports call a library's member `LIB(MEMBER)`; its module is `MEMBER`.
#[derive(Drop)]
pub struct Named<T> {
    pub name: Text,
    pub module: Text,
    pub value: T,
}

/// The objects of a link in their order: those of the command line, then the chosen members in library
/// order. An object is named by its number among them, counted from 0, and so are its symbols and areas.
#[derive(Drop)]
pub struct Linked {
    pub objects: List<Named<Object>>,
    /// Each symbol that an object exports, in order. No two have one name.
    pub definitions: List<Definition>,
    pub entry: LinkedEntry,
}

/// A name, and the number of the symbol that defines it in the object of a number.
#[derive(Drop)]
pub struct Definition {
    pub name: Text,
    pub object: u32,
    pub symbol: u32,
}

/// Where the program begins: the offset in bytes in an area of an object, in Thumb state where the area
/// has Thumb code (attribute bit 20).
#[derive(Clone, Copy)]
pub struct LinkedEntry {
    pub object: u32,
    pub area: u32,
    pub offset: u32,
    pub thumb: bool,
}
