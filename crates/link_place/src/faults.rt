//! What is wrong with a layout, but for what lies outside RAM.

ghost use Rattle.std.specs.Prelude.{◌≡◌, ◌+◌, ◌^◌, ◌≤◌, ◌<◌, [], nat_lt, length, map, sum_by, IfOk, IfSome};
ghost use Rattle.std.specs.List.{AllByRecursion, filter};
ghost use Rattle.std.specs.Option.{option_map};
ghost use Rattle.place_model.specs.Faults.{first_told, overfull as overfull_of, shared as shared_by, met_by as meeting_of, first_meeting as first_of, as_overlap, as_conflict};
ghost use Rattle.link_place.specs.Layouts.{size_of, is_copied as is_moved};
ghost use Rattle.link_place.specs.Checks.{rootless as rootless_of, judging, judged_laid, judged_load, judged_by, overfull_by, above_by, above_maximum_by, span_of, move_of, told_by, IsLow, IsLowLoad};
ghost use Rattle.link_place.specs.Checks.{move_of_load, move_of_region, move_of_copy, overlap_of, conflict_of, too_large_by};

use crate::layouts::{Load, RegionLayout, is_copied, is_root};
use place_model::Kind;
use sdt_fault::kinds::Quantity;
use sdt_fault::refusal::Refusal;
use sdt_fault::{NoMemory, Text};
use std::alloc::Global;

/// The refusal of an image whose first region isn't loaded where it runs.
pub fn rootless(alloc: Global, regions: &[RegionLayout]) -> Result<Option<Refusal>, NoMemory>
    ensures { IfOk result (λ refusal. refusal ≡ rootless_of regions.now) }
{
    let Some(first) = regions.first() else {
        return Ok(None);
    };
    if is_root(&first.region) {
        return Ok(None);
    }
    Ok(Some(Refusal::NoRoot {
        region: first.region.name.try_clone(alloc)?,
    }))
}

// ---- Overfull

fn above(alloc: Global, name: &Text, size: u64, most: u64) -> Result<Option<Refusal>, NoMemory>
    ensures { IfOk result (λ refusal. refusal ≡ above_by name.now size most) }
{
    if size <= most {
        return Ok(None);
    }
    Ok(Some(Refusal::Overfull {
        region: name.try_clone(alloc)?,
        size,
        maximum: most,
    }))
}

fn above_maximum(
    alloc: Global,
    name: &Text,
    size: u64,
    maximum: Option<u32>,
) -> Result<Option<Refusal>, NoMemory>
    ensures { IfOk result (λ refusal. refusal ≡ above_maximum_by name.now size maximum) }
{
    match maximum {
        None => Ok(None),
        Some(most) => above(alloc, name, size, u64::from(most)),
    }
}

/// The refusal of a region that is above its maximum, or reaches past the end of memory.
fn overfull(
    alloc: Global,
    name: &Text,
    base: u64,
    size: u64,
    maximum: Option<u32>,
) -> Result<Option<Refusal>, NoMemory>
    ensures { IfOk result (λ refusal. refusal ≡ overfull_of (judging name.now base size maximum)) }
{
    const END: u64 = 0x1_0000_0000;
    if base > END {
        return Ok(Some(Refusal::Overfull {
            region: name.try_clone(alloc)?,
            size,
            maximum: 0,
        }));
    }
    let declared = above_maximum(alloc, name, size, maximum)?;
    if declared.is_some() {
        return Ok(declared);
    }
    above(alloc, name, size, END - base)
}

// The sum is below 2^64, since no memory has so many pieces.
fn overfull_laid(alloc: Global, laid: &RegionLayout) -> Result<Option<Refusal>, NoMemory>
    ensures { IfOk result (λ refusal. refusal ≡ overfull_of (judged_laid laid.now)) }
{
    let region = &laid.region;
    let Some(size) = region.length.checked_add(region.zero) else {
        return Err(NoMemory);
    };
    overfull(alloc, &region.name, region.base, size, laid.maximum)
}

fn overfull_load(alloc: Global, load: &Load) -> Result<Option<Refusal>, NoMemory>
    ensures { IfOk result (λ refusal. refusal ≡ overfull_of (judged_load load.now)) }
{
    overfull(
        alloc,
        &load.name,
        u64::from(load.base),
        load.size,
        load.maximum,
    )
}

fn first_overfull_laid(alloc: Global, regions: &[RegionLayout]) -> Result<Option<Refusal>, NoMemory>
    ensures { IfOk result (λ refusal. refusal ≡ first_told overfull_of (map judged_laid regions.now)) }
{
    for laid in regions {
        let refusal = overfull_laid(alloc, laid)?;
        if refusal.is_some() {
            return Ok(refusal);
        }
    }
    Ok(None)
}

/// The refusal of a load region, or of the first of its regions.
fn overfull_in(
    alloc: Global,
    load: &Load,
    own: &[RegionLayout],
) -> Result<Option<Refusal>, NoMemory>
    ensures { IfOk result (λ refusal. refusal ≡ overfull_by load.now own.now) }
{
    if let Some(refusal) = overfull_load(alloc, load)? {
        return Ok(Some(refusal));
    }
    first_overfull_laid(alloc, own)
}

/// The refusal of the first load region that is too large, or region of it.
pub fn first_overfull(
    alloc: Global,
    loads: &[Load],
    regions: &[RegionLayout],
) -> Result<Option<Refusal>, NoMemory>
    requires { sum_by (λ l. l.count) loads.now ≤ length regions.now }
    ensures { IfOk result (λ refusal. refusal ≡ first_told overfull_of (judged_by loads.now regions.now)) }
{
    let mut rest = regions;
    for load in loads {
        let (own, others) = rest.split_at(load.count);
        if let Some(refusal) = overfull_in(alloc, load, own)? {
            return Ok(Some(refusal));
        }
        rest = others;
    }
    first_overfull_laid(alloc, rest)
}

// ---- ranges that meet

/// So many addresses from a base on.
#[derive(Clone, Copy)]
pub struct Range {
    pub base: u64,
    pub size: u64,
}

/// What is written, and what is read, for a region of a name.
#[derive(Drop)]
pub struct Move {
    pub name: Text,
    pub written: Range,
    pub read: Range,
}

/// Two regions, and the least address that they share.
#[derive(Drop)]
pub struct Meeting {
    pub first: Text,
    pub second: Text,
    pub address: u32,
}

/// The least address that both have.
fn shared(one: Range, other: Range) -> Option<u64>
    ensures address { result ≡ shared_by (span_of [] one) (span_of [] other) }
    ensures below { IfSome result (λ a. a < one.base + one.size) }
{
    let first = one.base.max(other.base);
    if first - one.base < one.size && first - other.base < other.size {
        return Some(first);
    }
    None
}

/// The first of the moves whose source a range meets.
fn met_by(
    alloc: Global,
    name: &Text,
    written: Range,
    moves: &[Move],
) -> Result<Option<Meeting>, NoMemory>
    requires { written.base + written.size ≤ 2 ^ 32 }
    ensures { IfOk result (λ met. option_map told_by met ≡ meeting_of (span_of name.now written) (map move_of moves.now)) }
{
    for other in moves {
        if let Some(address) = shared(written, other.read) {
            return Ok(Some(Meeting {
                first: name.try_clone(alloc)?,
                second: other.name.try_clone(alloc)?,
                address: address as u32,
            }));
        }
    }
    Ok(None)
}

/// The first move that writes what a later one reads.
fn first_meeting(alloc: Global, moves: &[Move]) -> Result<Option<Meeting>, NoMemory>
    requires { AllByRecursion (λ m. m.written.base + m.written.size ≤ 2 ^ 32) moves.now }
    ensures { IfOk result (λ met. option_map told_by met ≡ first_of (map move_of moves.now)) }
{
    for (i, one) in moves.iter().enumerate() {
        let met = met_by(alloc, &one.name, one.written, &moves[i + 1..])?;
        if met.is_some() {
            return Ok(met);
        }
    }
    Ok(None)
}

fn load_move(alloc: Global, load: &Load) -> Result<Move, NoMemory>
    ensures { IfOk result (λ m. m ≡ move_of_load load.now) }
{
    let range = Range {
        base: u64::from(load.base),
        size: load.size,
    };
    Ok(Move {
        name: load.name.try_clone(alloc)?,
        written: range,
        read: range,
    })
}

fn load_moves(alloc: Global, loads: &[Load]) -> Result<Vec<Move>, NoMemory>
    ensures { IfOk result (λ moves. moves.items ≡ map move_of_load loads.now) }
{
    let mut moves = Vec::new(alloc);
    for load in loads {
        moves.push(load_move(alloc, load)?)?;
    }
    Ok(moves)
}

fn execution_move(alloc: Global, laid: &RegionLayout) -> Result<Move, NoMemory>
    requires { IsLow laid.now }
    ensures { IfOk result (λ m. m ≡ move_of_region laid.now) }
{
    let range = Range {
        base: laid.region.base,
        size: laid.region.length + laid.region.zero,
    };
    Ok(Move {
        name: laid.region.name.try_clone(alloc)?,
        written: range,
        read: range,
    })
}

fn execution_moves(alloc: Global, regions: &[RegionLayout]) -> Result<Vec<Move>, NoMemory>
    requires { AllByRecursion IsLow regions.now }
    ensures { IfOk result (λ moves. moves.items ≡ map move_of_region regions.now) }
{
    let mut moves = Vec::new(alloc);
    for laid in regions {
        moves.push(execution_move(alloc, laid)?)?;
    }
    Ok(moves)
}

fn copy_move(alloc: Global, laid: &RegionLayout) -> Result<Move, NoMemory>
    ensures { IfOk result (λ m. m ≡ move_of_copy laid.now) }
{
    let region = &laid.region;
    Ok(Move {
        name: region.name.try_clone(alloc)?,
        written: Range {
            base: region.base,
            size: region.length,
        },
        read: Range {
            base: region.load,
            size: region.length,
        },
    })
}

fn copy_moves(alloc: Global, regions: &[RegionLayout]) -> Result<Vec<Move>, NoMemory>
    ensures { IfOk result (λ moves. moves.items ≡ map move_of_copy (filter is_moved regions.now)) }
{
    let mut moves = Vec::new(alloc);
    for laid in regions {
        if is_copied(&laid.region) {
            moves.push(copy_move(alloc, laid)?)?;
        }
    }
    Ok(moves)
}

/// The first two load ranges that meet, or else the first two execution ranges.
fn overlapping(
    alloc: Global,
    loads: &[Load],
    regions: &[RegionLayout],
) -> Result<Option<Meeting>, NoMemory>
    requires loads { AllByRecursion IsLowLoad loads.now }
    requires regions { AllByRecursion IsLow regions.now }
    ensures { IfOk result (λ met. option_map told_by met ≡ overlap_of loads.now regions.now) }
{
    let met = first_meeting(alloc, load_moves(alloc, loads)?.as_slice())?;
    if met.is_some() {
        return Ok(met);
    }
    first_meeting(alloc, execution_moves(alloc, regions)?.as_slice())
}

/// The refusal of ranges that overlap.
pub fn overlap(
    alloc: Global,
    loads: &[Load],
    regions: &[RegionLayout],
) -> Result<Option<Refusal>, NoMemory>
    requires loads { AllByRecursion IsLowLoad loads.now }
    requires regions { AllByRecursion IsLow regions.now }
    ensures { IfOk result (λ refusal. refusal ≡ option_map as_overlap (overlap_of loads.now regions.now)) }
{
    match overlapping(alloc, loads, regions)? {
        None => Ok(None),
        Some(
            Meeting {
                first,
                second,
                address,
            },
        ) => Ok(Some(Refusal::Overlap {
            first,
            second,
            address,
        })),
    }
}

fn conflicting(alloc: Global, regions: &[RegionLayout]) -> Result<Option<Meeting>, NoMemory>
    requires { AllByRecursion IsLow regions.now }
    ensures { IfOk result (λ met. option_map told_by met ≡ conflict_of regions.now) }
{
    first_meeting(alloc, copy_moves(alloc, regions)?.as_slice())
}

/// The refusal of a copy that writes what a later one reads.
pub fn conflict(alloc: Global, regions: &[RegionLayout]) -> Result<Option<Refusal>, NoMemory>
    requires { AllByRecursion IsLow regions.now }
    ensures { IfOk result (λ refusal. refusal ≡ option_map as_conflict (conflict_of regions.now)) }
{
    match conflicting(alloc, regions)? {
        None => Ok(None),
        Some(
            Meeting {
                first,
                second,
                address,
            },
        ) => Ok(Some(Refusal::CopyConflict {
            first,
            second,
            address,
        })),
    }
}

// ---- TooLarge

/// Whether the regions have more bytes than a limit, zero parts counted.
fn more_bytes_than(limit: u64, regions: &[RegionLayout]) -> bool
    requires { limit < 2 ^ 63 }
    ensures { result ≡ nat_lt limit (sum_by size_of regions.now) }
{
    let mut room = limit;
    for laid in regions {
        let size = laid.region.length.saturating_add(laid.region.zero);
        if size > room {
            return true;
        }
        room -= size;
    }
    false
}

/// The refusal of an image, or of an AIF, that is too large.
pub fn too_large(kind: &Kind, regions: &[RegionLayout]) -> Option<Refusal>
    ensures { result ≡ too_large_by kind.now (sum_by size_of regions.now) }
{
    if more_bytes_than(0x400_0000, regions) {
        return Some(Refusal::TooLarge {
            quantity: Quantity::ImageBytes,
            limit: 0x400_0000,
        });
    }
    match kind {
        Kind::Aif { .. } => {
            if more_bytes_than(0x100_0000, regions) {
                return Some(Refusal::TooLarge {
                    quantity: Quantity::AifBytes,
                    limit: 0x100_0000,
                });
            }
            None
        }
        _ => None,
    }
}
