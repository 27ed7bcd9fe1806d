//! Linked images.

use crate::placing::Region;
use sdt_fault::{Bytes, List, Text};

/// The form of an image: files by a scatter description, the bytes alone, or an ARM image file.
#[derive(Clone, Copy)]
pub enum ImageKind {
    Scatter,
    Plain,
    Aif { relocatable: bool },
}

/// A linked image. Addresses are those of execution.
#[derive(Drop)]
pub struct Image {
    pub kind: ImageKind,
    pub loads: List<LoadRegion>,
    pub regions: List<Region>,
    /// Where a loader enters the image.
    pub start: u32,
    /// Where the program begins.
    pub entry: u32,
    /// The entry or, in an AIF, what its header calls: the entry or the veneer of a Thumb entry.
    pub call: u32,
    /// Whether the entry is in Thumb state.
    pub thumb: bool,
    /// How many steps the startup code takes at most; 0 where there is none.
    pub bound: u64,
    /// The offsets in bytes, ascending, of the words that a relocatable AIF's relocator adds the shift to,
    /// each as often as it does so.
    pub moves: List<u32>,
}

/// A load region and its bytes. Those of an AIF begin with 0x80 zero bytes, in the place of the header.
#[derive(Drop)]
pub struct LoadRegion {
    pub name: Text,
    pub base: u32,
    pub bytes: Bytes,
}

/// What the header of an AIF says: the sizes in bytes of the read-only part (with the header), of the
/// read-write part and of the zero-initialised part, the address that it was linked for, and whether it can
/// run elsewhere.
#[derive(Clone, Copy)]
pub struct Aif {
    pub ro: u32,
    pub rw: u32,
    pub zero: u32,
    pub base: u32,
    pub relocatable: bool,
}
