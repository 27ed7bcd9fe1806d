//! What statements take up, and where they are placed.

use asm_model::Value;
use asm_pool::Pools;

/// What a statement takes up in its area.
#[derive(Drop)]
pub enum Extent {
    Block { alignment: u32, bytes: u32 },
    /// Bytes up to an offset that is a multiple plus an offset.
    Padding { multiple: u32, offset: u32 },
    /// An instruction of so many bytes, aligned to as many, that loads the literal from a pool.
    Loading { bytes: u32, literal: Value },
    /// The pool of the literals before.
    Pool,
}

/// Where a statement stands in its area.
#[derive(Clone, Copy)]
pub struct PlacedExtent {
    pub offset: u32,
    /// In bytes.
    pub size: u32,
    /// The number of its literal's entry in the pools of its area.
    pub literal: Option<u32>,
}

/// A statement would end behind the last offset that an area may have, 2^24.
#[derive(Clone, Copy)]
pub struct TooLarge;

/// An area when all its statements are placed.
#[derive(Drop)]
pub struct LaidPools {
    /// The area's size in bytes, with its pools.
    pub size: u32,
    pub pools: Pools,
}
