//! What is written outside RAM.

ghost use Rattle.std.specs.Prelude.{◌≡◌, ◌+◌, ◌^◌, ◌<◌, ◌≤◌, [], IfOk};
ghost use Rattle.std.specs.List.{AllByRecursion, list_any, flat_map};
ghost use Rattle.place_model.specs.Faults.{in_range, lacking, least};
ghost use Rattle.link_place.specs.Pieces.{size_in, reach, seats};
ghost use Rattle.link_place.specs.Checks.{span_of, IsLow};
ghost use Rattle.link_place.specs.Writable.{lacks, with_address, least_with, is_written as may_be_written, lacked, copy_lacking, lacked_in, unwritable_by, first_unwritable_by};
ghost use Rattle.link_place.specs.Placings.{seat_at, IsFor, AreFor};

use crate::faults::Range;
use crate::layouts::{RegionLayout, is_copied};
use crate::parts::Part;
use crate::pieces::{Piece, size_of, start_of};
use link_model::Region;
use sdt_fault::NoMemory;
use sdt_fault::refusal::Refusal;
use sdt_word::Range32;
use std::alloc::Global;

fn is_in_ram(ram: &[Range32], address: u64) -> bool
    ensures { result ≡ list_any (in_range address) ram.now }
{
    for range in ram {
        let base = u64::from(range.base);
        if address >= base && address - base < range.size {
            return true;
        }
    }
    false
}

/// The lesser of an address that was found, and one of a range, if it is outside RAM.
fn lesser(ram: &[Range32], range: Range, address: u64, best: Option<u32>) -> Option<u32>
    requires { range.base + range.size ≤ 2 ^ 32 }
    ensures { result ≡ with_address best (lacks ram.now range address) address }
{
    if address < range.base {
        return best;
    }
    if address - range.base >= range.size {
        return best;
    }
    if is_in_ram(ram, address) {
        return best;
    }
    let address = address as u32;
    match best {
        None => Some(address),
        Some(other) => Some(address.min(other)),
    }
}

/// The lesser of an address that was found and the least of a range outside RAM.
fn least_of(ram: &[Range32], range: Range, best: Option<u32>) -> Option<u32>
    requires { range.base + range.size ≤ 2 ^ 32 }
    ensures { result ≡ least_with best (lacking ram.now (span_of [] range)) }
{
    let mut best = lesser(ram, range, range.base, best);
    for other in ram {
        best = lesser(ram, range, u64::from(other.base) + other.size, best);
    }
    best
}

fn is_written(piece: Piece) -> bool
    ensures { result ≡ may_be_written piece }
{
    match piece {
        Piece::Area(area) => area.written,
        _ => false,
    }
}

/// The same of a piece at an address, if it is an area that the program may write.
fn least_at(
    ram: &[Range32],
    words: u32,
    piece: Piece,
    address: u64,
    best: Option<u32>,
) -> Option<u32>
    requires words { words < 2 ^ 30 }
    requires low { address + size_in words piece ≤ 2 ^ 32 }
    ensures { result ≡ least_with best (lacked ram.now words (seat_at 0 piece address)) }
{
    if !is_written(piece) {
        return best;
    }
    let size = size_of(piece, words);
    least_of(
        ram,
        Range {
            base: address,
            size,
        },
        best,
    )
}

/// The same of pieces that stand one behind the other.
fn least_in(
    ram: &[Range32],
    words: u32,
    origin: u32,
    at: u64,
    pieces: &[Piece],
    best: Option<u32>,
) -> Option<u32>
    requires words { words < 2 ^ 30 }
    requires low { at + reach words origin at pieces.now ≤ 2 ^ 32 }
    ensures { result ≡ least_with best (flat_map (lacked ram.now words) (seats words origin 0 at pieces.now)) }
{
    let mut best = best;
    let mut end = at;
    for piece in pieces {
        let address = start_of(*piece, origin, end);
        best = least_at(ram, words, *piece, address, best);
        end = address + size_of(*piece, words);
    }
    best
}

fn least_copied(ram: &[Range32], region: &Region) -> Option<u32>
    requires { region.now.base + (region.now.length + region.now.zero) ≤ 2 ^ 32 }
    ensures { result ≡ least (copy_lacking ram.now region.now) }
{
    if !is_copied(region) {
        return None;
    }
    let copied = Range {
        base: region.base,
        size: region.length + region.zero,
    };
    least_of(ram, copied, None)
}

/// The least address of a region that is written and lies outside RAM.
fn least_of_region(
    ram: &[Range32],
    words: u32,
    origin: u32,
    part: &Part,
    region: &Region,
) -> Option<u32>
    requires words { words < 2 ^ 30 }
    requires low { region.now.base + (region.now.length + region.now.zero) ≤ 2 ^ 32 }
    requires own { region.now.length ≡ reach words origin region.now.base part.now.things }
    ensures { result ≡ least (lacked_in ram.now words origin part.now region.now) }
{
    let best = least_copied(ram, region);
    let cleared = Range {
        base: region.base + region.length,
        size: region.zero,
    };
    let best = least_of(ram, cleared, best);
    least_in(
        ram,
        words,
        origin,
        region.base,
        part.things.as_slice(),
        best,
    )
}

/// The refusal of a region of which an address that is written lies outside RAM: the least.
fn unwritable(
    alloc: Global,
    ram: &[Range32],
    words: u32,
    origin: u32,
    part: &Part,
    laid: &RegionLayout,
) -> Result<Option<Refusal>, NoMemory>
    requires words { words < 2 ^ 30 }
    requires low { IsLow laid.now }
    requires own { IsFor words origin part.now laid.now }
    ensures { IfOk result (λ refusal. refusal ≡ unwritable_by ram.now words origin part.now laid.now) }
{
    let region = &laid.region;
    match least_of_region(ram, words, origin, part, region) {
        None => Ok(None),
        Some(address) => Ok(Some(Refusal::NotWritable {
            region: region.name.try_clone(alloc)?,
            address,
        })),
    }
}

/// The refusal of the first such region.
pub fn first_unwritable(
    alloc: Global,
    ram: &[Range32],
    words: u32,
    origin: u32,
    parts: &[Part],
    regions: &[RegionLayout],
) -> Result<Option<Refusal>, NoMemory>
    requires words { words < 2 ^ 30 }
    requires low { AllByRecursion IsLow regions.now }
    requires own { AreFor words origin parts.now regions.now }
    ensures { IfOk result (λ refusal. refusal ≡ first_unwritable_by ram.now words origin parts.now regions.now) }
{
    for (i, part) in parts.iter().enumerate() {
        if let Some(refusal) = unwritable(alloc, ram, words, origin, part, &regions[i])? {
            return Ok(Some(refusal));
        }
    }
    Ok(None)
}
