//! The pieces that are read so far, with their ranges in order, by which a piece that meets one is found.

ghost use Rattle.std.specs.Prelude.{◌≡◌, ◌+◌, ◌<◌, ◌≤◌, ◌^◌, ◌++◌, ◌∷◌, [], OnOk, length, true, false};
ghost use Rattle.std.specs.List.{list_any};
ghost use Rattle.std.specs.Ordering.{nat_cmp};
ghost use Rattle.std.specs.BTreeMap.{get};
ghost use Rattle.hex_image.specs.Images as images;
ghost use Rattle.hex_image.specs.Ranges.{AreEnds};

use crate::records::Piece;
use sdt_fault::NoMemory;
use std::alloc::Global;
use std::collections::BTreeMap;

/// Pieces with bytes, in the order in which they were added, none of which meets another.
#[derive(Drop)]
pub struct Pieces {
    pub pieces: Vec<Piece>,
    /// For the base of each piece where it ends.
    pub ends: BTreeMap<u64, u64>,
}

impl Pieces {
    pub fn new(alloc: Global) -> Pieces
        ensures none { result.pieces.items ≡ [] }
        ensures ends { AreEnds result.pieces.items (λ k. get nat_cmp result.ends k) }
    {
        Pieces {
            pieces: Vec::new(alloc),
            ends: BTreeMap::new(alloc),
        }
    }

    /// Whether a piece that has bytes from here up to there meets one of these.
    pub fn meets(&self, base: u64, end: u64) -> bool
        requires some { base < end }
        requires ends { AreEnds self.now.pieces.items (λ k. get nat_cmp self.now.ends k) }
        ensures { result ≡ list_any (images.meets_range base end) self.now.pieces.items }
    {
        match self.ends.range(..end).next_back() {
            Some((_, last)) => *last > base,
            None => false,
        }
    }

    /// Adds a piece with bytes that meets none of these.
    pub fn add(&mut self, piece: Piece) -> Result<(), NoMemory>
        requires some { 0 < length piece.bytes }
        requires apart { list_any (images.meets piece) self.old.pieces.items ≡ false }
        requires ends { AreEnds self.old.pieces.items (λ k. get nat_cmp self.old.ends k) }
        requires sized { piece.base + length piece.bytes ≤ 2 ^ 32 }
        ensures pieces { OnOk result (self.new.pieces.items ≡ self.old.pieces.items ++ piece ∷ []) }
        ensures ends { OnOk result (AreEnds self.new.pieces.items (λ k. get nat_cmp self.new.ends k)) }
    {
        let base = u64::from(piece.base);
        let end = base + piece.bytes.as_slice().len() as u64;
        self.ends.insert(base, end)?;
        self.pieces.push(piece)?;
        Ok(())
    }

    /// The pieces, with no copy.
    pub fn into_vec(self) -> Vec<Piece>
        ensures { result.items ≡ self.pieces.items }
    {
        let Pieces { pieces, ends: _ } = self;
        pieces
    }
}
