//! What a run begins with.

ghost use Rattle.std.specs.Prelude.{◌≡◌, ◌%◌, IsTrue};

use sdt_fault::{Bytes, List};

/// A file's bytes, to be loaded from an address on.
#[derive(Drop)]
pub struct Load {
    pub base: u32,
    pub bytes: Bytes,
}

/// The `size` bytes from `base` on, which are to be memory. They may end above 2^32.
#[derive(Clone, Copy)]
pub struct Need {
    pub base: u32,
    pub size: u64,
}

/// The image of a run: its load files, the load and execution ranges with their zero parts, the address at which the
/// machine starts, and whether it starts in Thumb state.
#[derive(Drop)]
pub struct Image {
    pub loads: List<Load>,
    pub needs: List<Need>,
    pub start: u32,
    pub thumb: bool,
    pub ghost even: { IsTrue thumb → start % 2 ≡ 0 },
}
