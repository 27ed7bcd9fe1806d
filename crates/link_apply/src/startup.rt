//! The startup code of a scatter image, with its table.

ghost use Rattle.std.specs.Prelude.{◌≡◌, ◌<◌, ◌∷◌, ◌++◌, ◌%◌, ◌^◌, [], slice_get, Some, IfOk, OnOk};
ghost use Rattle.std.specs.List.{AllByRecursion};
ghost use Rattle.sdt_word.specs.Numbers.{flag};
ghost use Rattle.boot_code.specs.Startup.{table_list};
ghost use Rattle.boot_code.specs.Maps.{bytes_of_words};
ghost use Rattle.link_model.specs.Members.{link_of};
ghost use Rattle.link_apply.specs.Applied.{IsRegionWithin};
ghost use Rattle.link_apply.specs.Pieces.{startup_region_piece};
ghost use Rattle.link_apply.specs.RegionBytes.{copy_rows, entry_of, startup_list, zero_rows};
ghost use Rattle.link_apply.specs.Rows.{copies_of, zeros_of};
ghost use Rattle.link_apply.specs.Sites.{Knows};

use crate::detours::address_of;
use crate::laying::{RegionPiece, push_zeros};
use crate::sites::PlacedLink;
use boot_code::{CopyRow, ZeroRow, boot_words, table};
use link_model::Region;
use link_values::AreaOffset;
use sdt_fault::{Bytes, NoMemory};
use sdt_word::push_word;
use std::alloc::Global;

fn add_copy(rows: &mut Vec<CopyRow>, region: &Region) -> Result<(), NoMemory>
    requires { IsRegionWithin region.now }
    ensures { OnOk result (rows.new.items ≡ rows.old.items ++ copies_of (region.now ∷ [])) }
{
    if region.load == region.base {
        return Ok(());
    }
    if region.length == 0 {
        return Ok(());
    }
    rows.push(CopyRow {
        source: region.load as u32,
        target: region.base as u32,
        size: region.length as u32,
    })?;
    Ok(())
}

fn all_copies(alloc: Global, regions: &[Region]) -> Result<Vec<CopyRow>, NoMemory>
    requires { AllByRecursion IsRegionWithin regions.now }
    ensures { IfOk result (λ rows. rows.items ≡ copies_of regions.now) }
{
    let mut rows = Vec::new(alloc);
    for region in regions {
        add_copy(&mut rows, region)?;
    }
    Ok(rows)
}

/// A zero part of 2^32 bytes, beside which no startup code stands, counts as want of memory.
fn add_zero(rows: &mut Vec<ZeroRow>, region: &Region) -> Result<(), NoMemory>
    requires { IsRegionWithin region.now }
    ensures { OnOk result (rows.new.items ≡ rows.old.items ++ zeros_of (region.now ∷ [])) }
{
    if region.zero == 0 {
        return Ok(());
    }
    if region.zero > u32::MAX as u64 {
        return Err(NoMemory);
    }
    rows.push(ZeroRow {
        base: (region.base + region.length) as u32,
        size: region.zero as u32,
    })?;
    Ok(())
}

fn all_zeros(alloc: Global, regions: &[Region]) -> Result<Vec<ZeroRow>, NoMemory>
    requires { AllByRecursion IsRegionWithin regions.now }
    ensures { IfOk result (λ rows. rows.items ≡ zeros_of regions.now) }
{
    let mut rows = Vec::new(alloc);
    for region in regions {
        add_zero(&mut rows, region)?;
    }
    Ok(rows)
}

fn mark(thumb: bool) -> u64
    ensures value { result ≡ flag thumb }
    ensures bound { result < 2 }
{
    if thumb { 1 } else { 0 }
}

/// The entry's address with bit 0 set for Thumb, as the low 32 bits of it.
fn entry_word(known: &PlacedLink<'_>) -> u32
    requires { Knows known.now }
    ensures { result ≡ entry_of (link_of known.now.linked.now) known.now.placement.now % 2 ^ 32 }
{
    let entry = known.linked.entry;
    let place = AreaOffset {
        object: entry.object,
        area: entry.area,
        offset: entry.offset,
    };
    ((address_of(known, place) + mark(entry.thumb)) % 0x1_0000_0000) as u32
}

fn push_words(bytes: &mut Vec<u8>, words: &[u32]) -> Result<(), NoMemory>
    ensures { OnOk result (bytes.new.items ≡ bytes.old.items ++ bytes_of_words words.now) }
{
    for word in words {
        push_word(bytes, *word)?;
    }
    Ok(())
}

/// The table behind the startup code.
fn table_words(alloc: Global, known: &PlacedLink<'_>) -> Result<Vec<u32>, NoMemory>
    requires { Knows known.now }
    ensures { IfOk result (λ words. words.items
        ≡ table_list (copy_rows known.now.placement.now) (zero_rows known.now.placement.now)
        (entry_of (link_of known.now.linked.now) known.now.placement.now % 2 ^ 32)) }
{
    let regions = known.placement.regions.as_slice();
    let copies = all_copies(alloc, regions)?;
    let zeros = all_zeros(alloc, regions)?;
    table(
        alloc,
        copies.as_slice(),
        zeros.as_slice(),
        entry_word(known),
    )
}

fn startup_bytes(alloc: Global, known: &PlacedLink<'_>) -> Result<Vec<u8>, NoMemory>
    requires { Knows known.now }
    ensures { IfOk result (λ bytes. bytes.items
        ≡ startup_list (link_of known.now.linked.now) known.now.placement.now) }
{
    let words = table_words(alloc, known)?;
    let mut bytes = Vec::new(alloc);
    push_words(&mut bytes, &boot_words())?;
    push_words(&mut bytes, words.as_slice())?;
    Ok(bytes)
}

/// The startup code at its address, which fills the first region.
fn startup_piece(
    alloc: Global,
    known: &PlacedLink<'_>,
    boot: u32,
    region: &Region,
) -> Result<RegionPiece, NoMemory>
    requires known { Knows known.now }
    requires region { IsRegionWithin region.now }
    ensures { IfOk result (λ piece. startup_region_piece (link_of known.now.linked.now)
        known.now.placement.now (Some region.now) (Some boot) ≡ piece ∷ []) }
{
    let mut bytes = startup_bytes(alloc, known)?;
    let filled = boot as u64 + bytes.len() as u64;
    push_zeros(
        &mut bytes,
        (region.base + region.length).saturating_sub(filled),
    )?;
    Ok(RegionPiece {
        region: 0,
        address: boot as u64,
        bytes: Bytes::from_vec(bytes),
    })
}

/// Appends the piece of the startup code, where a placement has one.
pub fn add_startup(
    alloc: Global,
    known: &PlacedLink<'_>,
    pieces: &mut Vec<RegionPiece>,
) -> Result<(), NoMemory>
    requires { Knows known.now }
    ensures { OnOk result (pieces.new.items ≡ pieces.old.items
        ++ startup_region_piece (link_of known.now.linked.now) known.now.placement.now
        (slice_get known.now.placement.now.regions 0) known.now.placement.now.boot) }
{
    let Some(region) = known.placement.regions.as_slice().first() else {
        return Ok(());
    };
    let Some(boot) = known.placement.boot else {
        return Ok(());
    };
    pieces.push(startup_piece(alloc, known, boot, region)?)?;
    Ok(())
}
