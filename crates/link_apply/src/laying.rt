//! Regions that grow by pieces at addresses.

ghost use Rattle.std.specs.Prelude.{◌≡◌, ℕ, ◌∷◌, ◌++◌, ◌≤◌, ◌^◌, ◌-◌, [], List as Items, OnOk, IfOk, map};
ghost use Rattle.boot_code.specs.Startup.{zeros};
ghost use Rattle.link_apply.specs.Pieces.{grown_from, laid_from, pieces_in, with_piece};
ghost use Rattle.link_apply.specs.RegionBytes.{filled_up, laid, Piece};

use link_model::Region;
use sdt_fault::{Bytes, List, NoMemory};
use std::alloc::Global;

/// Bytes from an address on in the region of a number.
#[derive(Drop)]
pub struct RegionPiece {
    pub region: u32,
    pub address: u64,
    pub bytes: Bytes,
}

/// The first bytes of a region, up to an address, and how many it has in the end.
#[derive(Drop)]
pub struct RegionBuild {
    pub bytes: Vec<u8>,
    pub at: u64,
    pub length: u64,
}

/// Appends so many zeros.
pub fn push_zeros(bytes: &mut Vec<u8>, count: u64) -> Result<(), NoMemory>
    requires { count ≤ 2 ^ 32 }
    ensures { OnOk result (bytes.new.items ≡ bytes.old.items ++ zeros count) }
{
    let size = bytes.len() + count as usize;
    bytes.resize(size, 0)?;
    Ok(())
}

/// Appends a piece, with zeros before it.
fn put_bytes(growing: &mut RegionBuild, address: u64, bytes: &[u8]) -> Result<(), NoMemory>
    requires { address ≤ 2 ^ 32 }
    ensures length { growing.new.length ≡ growing.old.length }
    ensures bytes { OnOk result ((rest : Items Piece) → growing.new.bytes.items ++ laid growing.new.at rest
        ≡ growing.old.bytes.items ++ laid growing.old.at ((address, bytes.now) ∷ rest)) }
{
    push_zeros(&mut growing.bytes, address.saturating_sub(growing.at))?;
    growing.bytes.extend_from_slice(bytes)?;
    growing.at = address + bytes.len() as u64;
    Ok(())
}

/// Appends a piece to its region, if there is one of its number. An address beyond the end of memory, which no
/// placement has, counts as want of memory.
fn put_piece(growing: &mut Vec<RegionBuild>, piece: &RegionPiece) -> Result<(), NoMemory>
    ensures { OnOk result ((rest : ℕ → Items Piece) → grown_from rest 0 growing.new.items
        ≡ grown_from (with_piece piece.now rest) 0 growing.old.items) }
{
    let number = piece.region as usize;
    if number >= growing.len() {
        return Ok(());
    }
    if piece.address > 0x1_0000_0000 {
        return Err(NoMemory);
    }
    put_bytes(&mut growing[number], piece.address, piece.bytes.as_slice())
}

/// Regions without bytes.
fn all_started(alloc: Global, regions: &[Region]) -> Result<Vec<RegionBuild>, NoMemory>
    ensures { IfOk result (λ growing. (rest : ℕ → Items Piece)
        → grown_from rest 0 growing.items ≡ laid_from rest 0 regions.now) }
{
    let mut growing = Vec::new(alloc);
    'regions: for region in regions {
        growing.push(RegionBuild {
            bytes: Vec::new(alloc),
            at: region.base,
            length: region.length,
        })?;
    }
    Ok(growing)
}

fn put_all(growing: &mut Vec<RegionBuild>, pieces: &[RegionPiece]) -> Result<(), NoMemory>
    ensures { OnOk result (grown_from (λ region. []) 0 growing.new.items
        ≡ grown_from (pieces_in pieces.now) 0 growing.old.items) }
{
    'pieces: for piece in pieces {
        put_piece(growing, piece)?;
    }
    Ok(())
}

/// Appends zeros up to a length. One beyond the end of memory, which no placement has, counts as want of memory.
fn fill(mut bytes: Vec<u8>, length: u64) -> Result<Vec<u8>, NoMemory>
    ensures { IfOk result (λ filled. filled.items ≡ filled_up length bytes.items) }
{
    let missing = length.saturating_sub(bytes.len() as u64);
    if missing > 0x1_0000_0000 {
        return Err(NoMemory);
    }
    push_zeros(&mut bytes, missing)?;
    Ok(bytes)
}

fn all_finished(alloc: Global, growing: Vec<RegionBuild>) -> Result<List<Bytes>, NoMemory>
    ensures { IfOk result (λ all. all ≡ map (λ g. filled_up g.length g.bytes.items) growing.items) }
{
    let mut all = Vec::new(alloc);
    'growing: for one in growing {
        all.push(Bytes::from_vec(fill(one.bytes, one.length)?))?;
    }
    Ok(List::from_vec(all))
}

/// The bytes of regions by the pieces of all of them: those of each in their order, with zeros before each and up to
/// the region's length.
pub fn lay(
    alloc: Global,
    regions: &[Region],
    pieces: &[RegionPiece],
) -> Result<List<Bytes>, NoMemory>
    ensures { IfOk result (λ all. all ≡ laid_from (pieces_in pieces.now) 0 regions.now) }
{
    let mut growing = all_started(alloc, regions)?;
    put_all(&mut growing, pieces)?;
    let all = all_finished(alloc, growing)?;
    Ok(all)
}
