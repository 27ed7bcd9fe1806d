//! What an image of records is, and what a line of one says.

use sdt_fault::{Bytes, List};

/// Bytes from an address on.
#[derive(Drop)]
pub struct Piece {
    pub base: u32,
    pub bytes: Bytes,
}

/// An image: its pieces, and where it is started, with bit 0 set for Thumb state.
#[derive(Drop)]
pub struct Burn {
    pub pieces: List<Piece>,
    pub start: u32,
}

/// A form of records.
#[derive(Clone, Copy)]
pub enum Form {
    Ihex,
    Srec,
}

/// What a line says.
#[derive(Drop)]
pub enum Item {
    /// Bytes, and how far above the base they begin.
    Data { address: u32, bytes: Bytes },
    /// The base of the data behind it.
    Base(u32),
    /// The start.
    Start(u32),
    /// The end.
    End,
    /// The end, with the start.
    EndAt(u32),
    /// Nothing of the image: a header or a count.
    Nothing,
}
