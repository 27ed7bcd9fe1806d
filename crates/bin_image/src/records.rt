//! The files of an image, and what its map says.

use sdt_fault::{Bytes, List, Text};

/// A file to be written.
#[derive(Drop)]
pub struct OutFile {
    pub name: Text,
    pub bytes: Bytes,
}

/// The map of a scatter image.
#[derive(Drop)]
pub struct MapFile {
    /// The load regions in the order of the description.
    pub loads: List<MapLoad>,
    /// The execution regions in the order of the description.
    pub regions: List<MapRegion>,
    /// The address at which the run begins, a multiple of 4.
    pub start: u32,
    /// The address of the program's entry.
    pub entry: u32,
    /// Whether the entry is in Thumb state.
    pub thumb: bool,
    /// The most steps before the entry.
    pub bound: u64,
}

/// A load region: the file that has its bytes, their address and their number.
#[derive(Drop)]
pub struct MapLoad {
    pub name: Text,
    pub base: u32,
    pub size: u32,
    pub file: Text,
}

/// An execution region: its bytes are loaded at `load` and run at `base`, and `zero` bytes of 0 follow them
/// there.
#[derive(Drop)]
pub struct MapRegion {
    pub name: Text,
    pub load: u32,
    pub base: u32,
    pub length: u32,
    pub zero: u32,
}
