//! The bytes of memory, frame after frame.

ghost use Rattle.std.specs.Prelude.{◌≡◌, ℕ, ◌<◌, ◌≤◌, ◌+◌, ◌*◌, ◌%◌, List, [], ◌++◌, length, take, drop, replicate, slice_index, IfOk, IfSome};
ghost use Rattle.sdt_word.specs.Bytes.{bytes_of, number_of, written};
ghost use Rattle.sdt_word.specs.Codes.{bytes_in};
ghost use Rattle.sdt_word.specs.Numbers.{places_from, registers};
ghost use Rattle.arm7_bus.specs.Paging.{AreFrames};
ghost use Rattle.arm7_bus.specs.Picks.{four_from, picked_bytes};

use crate::block::Block;
use sdt_fault::NoMemory;
use sdt_word::{Width, field, is_set};
use std::alloc::Global;
use std::marker::Model;

/// Frames of 4,096 bytes each, at most 65,536 of them. Contracts see them as one list of bytes. There is memory for all of
/// them, but bytes are set to 0 only when a byte of their frame, or of a later one, is first written.
#[derive(Drop)]
pub struct Frames {
    block: Block,
    /// How many more bytes there are behind those that are made in the block, all of them 0.
    left: usize,
}

impl Model for Frames {
    ghost use Rattle.std.specs.Prelude.{ℕ, List, ◌++◌, replicate, length};
    ghost use Rattle.arm7_bus.specs.Paging.{AreFrames};

    ghost Value = { List ℕ };

    ghost view = { λ frames. frames.block.cells.bytes ++ replicate frames.left 0 };

    ghost invariant = { λ frames. AreFrames (length frames.block.cells.bytes) frames.block.cells.room frames.left };
}

impl Frames {
    /// No frame.
    pub fn none(alloc: Global) -> Frames
        ensures { result ≡ [] }
    {
        Frames {
            block: Block::none(alloc),
            left: 0,
        }
    }

    /// This many frames of zeros.
    pub fn make(alloc: Global, n: u32) -> Result<Frames, NoMemory>
        requires { n ≤ 65536 }
        ensures { IfOk result (λ frames. frames ≡ replicate (4096 * n) 0) }
    {
        let size = 4096 * n as usize;
        Ok(Frames {
            block: Block::make(alloc, size)?,
            left: size,
        })
    }

    /// Each byte is below 256, as bytes are.
    pub fn are_bytes(&self)
        ensures { (k : ℕ) → slice_index self.now k < 256 }
    {
        self.block.are_bytes();
    }

    pub fn read_byte(&self, at: u32) -> u8
        requires { at < length self.now }
        ensures { result ≡ slice_index self.now at }
    {
        byte_of(&self.block, self.left, at as usize)
    }

    /// The bytes from a place on, up to the end of its frame; none where they aren't made yet.
    pub fn rest(&self, at: u32) -> &[u8]
        requires { at < length self.now }
        ensures bytes { result.now ≡ take (length result.now) (drop at self.now) }
        ensures some { length result.now ≡ 0 → slice_index self.now at ≡ 0 }
        ensures within { at % 4096 + length result.now ≤ 4096 }
    {
        rest_of(&self.block, self.left, at as usize)
    }

    /// The `n` bytes from a place of a frame on; None where they aren't made yet.
    #[inline(always)]
    pub fn part(&self, at: u32, n: u32) -> Option<&[u8]>
        requires { at % 4096 + n ≤ 4096 }
        ensures { IfSome result (λ part. part.now ≡ take n (drop at self.now)) }
    {
        part_of(&self.block, self.left, at as usize, n as usize)
    }

    /// The bytes of an access, as a number.
    #[inline(always)]
    pub fn read(&self, at: u32, width: Width) -> u32
        requires aligned { at % bytes_in width ≡ 0 }
        requires room { at + bytes_in width ≤ length self.now }
        ensures { result ≡ number_of (take (bytes_in width) (drop at self.now)) }
    {
        number_at(&self.block, self.left, at as usize, width)
    }

    /// Sets the bytes of an access to the low bytes of a value.
    #[inline(always)]
    #[tactic(auto, using(crate::proofs::FrameLemmas::access_fits, crate::proofs::FrameLemmas::write_made))]
    pub fn write(&mut self, at: u32, width: Width, v: u32)
        requires aligned { at % bytes_in width ≡ 0 }
        requires room { at + bytes_in width ≤ length self.old }
        ensures { self.new ≡ written self.old at (bytes_of v (bytes_in width)) }
    {
        let at = at as usize;
        self.left = zeros_to(&mut self.block, self.left, at);
        put(&mut self.block, at, width, v);
    }

    /// Sets the words from a place of a frame on to those of a table at the places where `list` has a 1.
    #[inline(always)]
    pub fn write_picked(&mut self, at: u32, words: &[u32; 16], list: u32)
        requires within { at % 4096 + 4 * length (registers 16 list) ≤ 4096 }
        requires inside { at < length self.old }
        ensures { self.new ≡ written self.old at (picked_bytes words.now (registers 16 list)) }
    {
        let at = at as usize;
        self.left = zeros_to(&mut self.block, self.left, at);
        put_picked(&mut self.block, at, words, list);
    }
}

/// The byte at a place, where `_left` zeros follow the bytes.
#[tactic(auto, using(crate::proofs::FrameLemmas::byte_made, crate::proofs::FrameLemmas::byte_left))]
fn byte_of(block: &Block, _left: usize, at: usize) -> u8
    ensures { result ≡ slice_index (block.now.cells.bytes ++ replicate _left 0) at }
{
    if at < block.len() {
        return block.read_byte(at);
    }
    0
}

/// The bytes from a place on, up to the end of its frame, where `_left` zeros follow the bytes.
#[tactic(auto, using(crate::proofs::FrameLemmas::rest_made, crate::proofs::FrameLemmas::byte_left))]
fn rest_of(block: &Block, _left: usize, at: usize) -> &[u8]
    requires { length block.now.cells.bytes % 4096 ≡ 0 }
    ensures bytes { result.now ≡ take (length result.now) (drop at (block.now.cells.bytes ++ replicate _left 0)) }
    ensures some { length result.now ≡ 0 → slice_index (block.now.cells.bytes ++ replicate _left 0) at ≡ 0 }
    ensures within { at % 4096 + length result.now ≤ 4096 }
{
    if at >= block.len() {
        return &[];
    }
    block.slice(at, 4096 - at % 4096)
}

/// The `n` bytes from a place of a frame on, where `_left` zeros follow the bytes; None where they are among those.
#[inline(always)]
#[tactic(auto, using(crate::proofs::FrameLemmas::part_made))]
fn part_of(block: &Block, _left: usize, at: usize, n: usize) -> Option<&[u8]>
    requires whole { length block.now.cells.bytes % 4096 ≡ 0 }
    requires within { at % 4096 + n ≤ 4096 }
    ensures { IfSome result (λ part. part.now ≡ take n (drop at (block.now.cells.bytes ++ replicate _left 0))) }
{
    if at >= block.len() {
        return None;
    }
    Some(block.slice(at, n))
}

/// The bytes of an access, as a number, where `_left` zeros follow the bytes.
#[inline(always)]
#[tactic(auto, using(crate::proofs::FrameLemmas::number_made, crate::proofs::FrameLemmas::number_byte, crate::proofs::FrameLemmas::number_left))]
fn number_at(block: &Block, _left: usize, at: usize, width: Width) -> u32
    requires whole { length block.now.cells.bytes % 4096 ≡ 0 }
    requires aligned { at % bytes_in width ≡ 0 }
    ensures { result ≡ number_of (take (bytes_in width) (drop at (block.now.cells.bytes ++ replicate _left 0))) }
{
    if at >= block.len() {
        return 0;
    }
    match width {
        Width::Byte => u32::from(block.read_byte(at)),
        Width::Half => u32::from(block.read_half(at)),
        Width::Word => block.read_word(at),
    }
}

/// Sets the bytes of an access to the low bytes of a value.
#[inline(always)]
fn put(block: &mut Block, at: usize, width: Width, v: u32)
    requires { at + bytes_in width ≤ length block.old.cells.bytes }
    ensures bytes { block.new.cells.bytes ≡ written block.old.cells.bytes at (bytes_of v (bytes_in width)) }
    ensures count { length block.new.cells.bytes ≡ length block.old.cells.bytes }
    ensures room { block.new.cells.room ≡ block.old.cells.room }
{
    match width {
        Width::Byte => block.write_byte(at, (v % 256) as u8),
        Width::Half => block.write_half(at, (v % 65536) as u16),
        Width::Word => block.write_word(at, v),
    }
}

// These set the words from a place on to those of a table at the places from `k` on where `list` has a 1, and give the place
// behind them.

/// One place.
#[inline(always)]
fn put_one(block: &mut Block, at: usize, words: &[u32; 16], list: u32, k: u32) -> usize
    requires place { k < 16 }
    requires room { at + 4 * length (places_from k 1 list) ≤ length block.old.cells.bytes }
    ensures behind { result ≡ at + 4 * length (places_from k 1 list) }
    ensures bytes { block.new.cells.bytes ≡ written block.old.cells.bytes at (picked_bytes words.now (places_from k 1 list)) }
    ensures count { length block.new.cells.bytes ≡ length block.old.cells.bytes }
    ensures room { block.new.cells.room ≡ block.old.cells.room }
{
    if !is_set(list, k) {
        return at;
    }
    block.write_word(at, words[k as usize]);
    at + 4
}

/// Four places, one by one.
#[inline(always)]
fn put_each(block: &mut Block, at: usize, words: &[u32; 16], list: u32, k: u32) -> usize
    requires places { k + 4 ≤ 16 }
    requires room { at + 4 * length (places_from k 4 list) ≤ length block.old.cells.bytes }
    ensures behind { result ≡ at + 4 * length (places_from k 4 list) }
    ensures bytes { block.new.cells.bytes ≡ written block.old.cells.bytes at (picked_bytes words.now (places_from k 4 list)) }
    ensures count { length block.new.cells.bytes ≡ length block.old.cells.bytes }
    ensures room { block.new.cells.room ≡ block.old.cells.room }
{
    let second = put_one(block, at, words, list, k);
    let third = put_one(block, second, words, list, k + 1);
    let fourth = put_one(block, third, words, list, k + 2);
    put_one(block, fourth, words, list, k + 3)
}

/// Four places of which `list` has each.
#[inline(always)]
fn put_run(block: &mut Block, at: usize, words: &[u32; 16], k: u32) -> usize
    requires places { k + 4 ≤ 16 }
    requires room { at + 16 ≤ length block.old.cells.bytes }
    ensures behind { result ≡ at + 16 }
    ensures bytes { block.new.cells.bytes ≡ written block.old.cells.bytes at (picked_bytes words.now (four_from k)) }
    ensures count { length block.new.cells.bytes ≡ length block.old.cells.bytes }
    ensures room { block.new.cells.room ≡ block.old.cells.room }
{
    let k = k as usize;
    block.write_words(at, words[k], words[k + 1], words[k + 2], words[k + 3]);
    at + 16
}

/// Four places.
#[inline(always)]
fn put_four(block: &mut Block, at: usize, words: &[u32; 16], list: u32, k: u32) -> usize
    requires places { k + 4 ≤ 16 }
    requires room { at + 4 * length (places_from k 4 list) ≤ length block.old.cells.bytes }
    ensures behind { result ≡ at + 4 * length (places_from k 4 list) }
    ensures bytes { block.new.cells.bytes ≡ written block.old.cells.bytes at (picked_bytes words.now (places_from k 4 list)) }
    ensures count { length block.new.cells.bytes ≡ length block.old.cells.bytes }
    ensures room { block.new.cells.room ≡ block.old.cells.room }
{
    let some = field(list, k, 4);
    if some == 0 {
        return at;
    }
    if some == 15 {
        return put_run(block, at, words, k);
    }
    put_each(block, at, words, list, k)
}

/// All sixteen.
#[inline(never)]
fn put_picked(block: &mut Block, at: usize, words: &[u32; 16], list: u32)
    requires room { at + 4 * length (registers 16 list) ≤ length block.old.cells.bytes }
    ensures bytes { block.new.cells.bytes ≡ written block.old.cells.bytes at (picked_bytes words.now (registers 16 list)) }
    ensures count { length block.new.cells.bytes ≡ length block.old.cells.bytes }
    ensures room { block.new.cells.room ≡ block.old.cells.room }
{
    let second = put_four(block, at, words, list, 0);
    let third = put_four(block, second, words, list, 4);
    if list < 256 {
        return;
    }
    let fourth = put_four(block, third, words, list, 8);
    put_four(block, fourth, words, list, 12);
}

/// Makes the zeros up to the end of the frame of a place, where they aren't made yet, of the `left` ones that follow the
/// bytes; how many are left.
#[inline(always)]
fn zeros_to(block: &mut Block, left: usize, at: usize) -> usize
    requires frames { AreFrames (length block.old.cells.bytes) block.old.cells.room left }
    requires within { at < length block.old.cells.bytes + left }
    ensures same { block.new.cells.bytes ++ replicate result 0 ≡ block.old.cells.bytes ++ replicate left 0 }
    ensures frames { AreFrames (length block.new.cells.bytes) block.new.cells.room result }
    ensures made { at < length block.new.cells.bytes }
{
    if at < block.len() {
        return left;
    }
    more_zeros(block, left, at)
}

#[cold]
#[tactic(auto, using(crate::proofs::FrameLemmas::zeros_made))]
fn more_zeros(block: &mut Block, left: usize, at: usize) -> usize
    requires frames { AreFrames (length block.old.cells.bytes) block.old.cells.room left }
    requires behind { length block.old.cells.bytes ≤ at }
    requires within { at < length block.old.cells.bytes + left }
    ensures same { block.new.cells.bytes ++ replicate result 0 ≡ block.old.cells.bytes ++ replicate left 0 }
    ensures frames { AreFrames (length block.new.cells.bytes) block.new.cells.room result }
    ensures made { at < length block.new.cells.bytes }
{
    let more = (at / 4096 + 1) * 4096 - block.len();
    block.add_zeros(more);
    left - more
}
