//! What a chunk file holds.

use sdt_fault::{Bytes, List};

/// A named chunk.
#[derive(Drop)]
pub struct Chunk {
    pub name: [u8; 8],
    pub bytes: Bytes,
}

/// The entries of a chunk file's table in their order, with their chunks. `None` is an unused entry.
#[derive(Drop)]
pub struct Chunks {
    pub list: List<Option<Chunk>>,
}

/// Where a chunk stands in its file: `size` bytes from `offset` on.
#[derive(Clone, Copy)]
pub struct Span {
    pub name: [u8; 8],
    pub offset: u32,
    pub size: u32,
}
