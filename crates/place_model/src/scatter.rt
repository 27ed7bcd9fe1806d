//! Scatter descriptions, and the forms of images that are linked without one.

use sdt_fault::{List, Text};

/// The form of an image: files by a scatter description, the bytes alone, or an ARM image file. The last two
/// have the regions RO, RW and ZI, one directly behind the other from a base, a multiple of 4.
#[derive(Drop)]
pub enum Kind {
    Scatter(Scatter),
    Plain { base: u32 },
    Aif { base: u32, relocatable: bool },
}

/// A scatter description: its load regions in order, of which there is at least one. Their names differ, and
/// so do those of all execution regions. Bases, offsets and maxima are multiples of 4.
#[derive(Drop)]
pub struct Scatter {
    pub loads: List<ScatterLoad>,
}

/// A load region: the file of its execution regions, of which there is at least one, is loaded at `base`.
#[derive(Drop)]
pub struct ScatterLoad {
    pub name: Text,
    pub base: u32,
    pub max: Option<u32>,
    pub regions: List<ScatterRegion>,
}

/// An execution region, and which areas it takes.
#[derive(Drop)]
pub struct ScatterRegion {
    pub name: Text,
    pub base: ScatterBase,
    pub max: Option<u32>,
    pub selections: List<Selection>,
}

/// Where an execution region begins: at an address, or so many bytes behind the end of the one before it in
/// its load region, or behind the load region's base.
#[derive(Clone, Copy)]
pub enum ScatterBase {
    At(u32),
    Plus(u32),
}

/// A selector on a line of the description: of one module or, where it is `None`, of any.
#[derive(Drop)]
pub struct Selection {
    pub line: u32,
    pub module: Option<Text>,
    pub choice: Choice,
    pub edge: Edge,
}

/// Which areas a selector names: those of a name, or read-only, read-write or zero-initialised ones.
#[derive(Drop)]
pub enum Choice {
    Named(Text),
    Ro,
    Rw,
    Zi,
}

/// Whether what is selected stands before or behind the other areas of its part of a region.
#[derive(Clone, Copy)]
pub enum Edge {
    First,
    Plain,
    Last,
}
