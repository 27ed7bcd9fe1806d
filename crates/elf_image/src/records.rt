//! What an ELF executable says of how it is loaded.

use sdt_fault::List;

/// An executable: where it is entered, with bit 0 set for Thumb state, and what is loaded, in the file's order.
#[derive(Drop)]
pub struct Elf {
    pub entry: u32,
    pub segments: List<Segment>,
}

/// A segment: where its bytes stand in the file, the address that they are loaded at, how many there are, how many
/// bytes it has in memory, where zeros follow the file's, and its permissions.
#[derive(Clone, Copy)]
pub struct Segment {
    pub offset: u32,
    pub address: u32,
    pub file_size: u32,
    pub memory_size: u32,
    pub flags: u32,
}
