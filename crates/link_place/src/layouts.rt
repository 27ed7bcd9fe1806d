//! Where regions stand.

ghost use Rattle.std.specs.Prelude.{◌≡◌, ◌+◌, ◌*◌, ◌^◌, ◌<◌, ◌≤◌, ◌++◌, ◌==◌, ◌&&◌, not, nat_lt, length, sum_by, OnOk, IfOk};
ghost use Rattle.place_model.specs.Plans.{base_behind};
ghost use Rattle.link_place.specs.Parts.{piece_count};
ghost use Rattle.link_place.specs.Layouts.{laid_at, laid_from, loaded, size_of, regions_by, load_by, loads_by, row_words, has_room as has_enough, layout_for, layout_of};

use crate::merging::merged_parts;
use crate::parts::{Group, Part};
use crate::pieces::reach;
use link_model::Region;
use place_model::ScatterBase;
use sdt_fault::{List, NoMemory, Text};
use std::alloc::Global;

/// A region where it stands, with its declared maximum.
#[derive(Drop)]
pub struct RegionLayout {
    pub region: Region,
    pub maximum: Option<u32>,
}

/// A load region of a description, with the bytes that are loaded and the number of its execution regions.
#[derive(Drop)]
pub struct Load {
    pub name: Text,
    pub base: u32,
    pub size: u64,
    pub maximum: Option<u32>,
    pub count: usize,
}

/// All regions where they stand, for a table of so many words.
#[derive(Drop)]
pub struct Layout {
    pub words: u32,
    pub loads: List<Load>,
    pub regions: List<RegionLayout>,
}

fn base_of(base: ScatterBase, before: u64) -> u64
    requires { before < 2 ^ 63 }
    ensures base { result ≡ base_behind base before }
    ensures bound { result ≤ before + 2 ^ 32 }
{
    match base {
        ScatterBase::At(address) => u64::from(address),
        ScatterBase::Plus(offset) => before + u64::from(offset),
    }
}

/// A part of the load region of a number, with its load address, behind the end of the one before it.
fn lay_part(
    alloc: Global,
    words: u32,
    origin: u32,
    number: u32,
    part: &Part,
    load: u64,
    before: u64,
) -> Result<RegionLayout, NoMemory>
    requires words { words < 2 ^ 30 }
    requires room { before + 2 ^ 34 * piece_count part.now < 2 ^ 63 }
    ensures laid { IfOk result (λ l. l ≡ laid_at words origin number part.now load (base_behind part.now.base before)) }
    ensures end { IfOk result (λ l. l.region.base + size_of l + 2 ^ 33 ≤ before + 2 ^ 34 * piece_count part.now) }
    ensures short { IfOk result (λ l. l.region.length ≤ 2 ^ 34 * piece_count part.now) }
{
    let base = base_of(part.base, before);
    let length = reach(words, origin, base, part.things.as_slice());
    let zero = reach(words, origin, base + length, part.zeros.as_slice());
    Ok(RegionLayout {
        region: Region {
            name: part.name.try_clone(alloc)?,
            load_region: number,
            load,
            base,
            length,
            zero,
        },
        maximum: part.maximum,
    })
}

/// Adds the parts of the load region of a number, and gives the bytes that are loaded.
fn lay_parts(
    alloc: Global,
    out: &mut Vec<RegionLayout>,
    words: u32,
    origin: u32,
    number: u32,
    parts: &[Part],
    base: u32,
) -> Result<u64, NoMemory>
    requires words { words < 2 ^ 30 }
    requires room { sum_by piece_count parts.now ≤ 2 ^ 28 }
    ensures size { IfOk result (λ size. size ≡ loaded (laid_from words origin number parts.now base base)) }
    ensures regions { OnOk result (out.new.items ≡ out.old.items ++ laid_from words origin number parts.now base base) }
{
    let base = u64::from(base);
    let mut before = base;
    let mut size = 0;
    for part in parts {
        let laid = lay_part(alloc, words, origin, number, part, base + size, before)?;
        before = laid.region.base + laid.region.length + laid.region.zero;
        size += laid.region.length;
        out.push(laid)?;
    }
    Ok(size)
}

fn push_load(alloc: Global, out: &mut Vec<Load>, group: &Group, size: u64) -> Result<(), NoMemory>
    ensures { OnOk result (out.new.items ≡ out.old.items ++ load_by group.now.name group.now size) }
{
    match &group.name {
        None => Ok(()),
        Some(name) => {
            let name = name.try_clone(alloc)?;
            out.push(Load {
                name,
                base: group.base,
                size,
                maximum: group.maximum,
                count: group.count,
            })?;
            Ok(())
        }
    }
}

/// All regions, with a table of so many words.
pub fn lay_out(
    alloc: Global,
    words: u32,
    origin: u32,
    groups: &[Group],
    parts: &[Part],
) -> Result<Layout, NoMemory>
    requires words { words < 2 ^ 30 }
    requires room { sum_by piece_count parts.now ≤ 2 ^ 28 }
    requires counts { sum_by (λ g. g.count) groups.now ≡ length parts.now }
    requires few { length groups.now ≤ 2 ^ 31 }
    ensures { IfOk result (λ layout. layout ≡ layout_for origin groups.now parts.now words) }
{
    let mut loads = Vec::with_capacity(alloc, groups.len())?;
    let mut regions = Vec::with_capacity(alloc, parts.len())?;
    let mut rest = parts;
    for (i, group) in groups.iter().enumerate() {
        let (own, others) = rest.split_at(group.count);
        let size = lay_parts(
            alloc,
            &mut regions,
            words,
            origin,
            i as u32,
            own,
            group.base,
        )?;
        push_load(alloc, &mut loads, group, size)?;
        rest = others;
    }
    Ok(Layout {
        words,
        loads: List::from_vec(loads),
        regions: List::from_vec(regions),
    })
}

/// Whether the region runs where it is loaded.
pub fn is_root(region: &Region) -> bool
    ensures { result ≡ (region.now.load == region.now.base) }
{
    region.load == region.base
}

/// Whether the region is copied.
pub fn is_copied(region: &Region) -> bool
    ensures { result ≡ (not (region.now.load == region.now.base) && nat_lt 0 region.now.length) }
{
    !is_root(region) && region.length > 0
}

fn rows_of(laid: &RegionLayout) -> u32
    ensures words { result ≡ row_words laid.now }
    ensures bound { result ≤ 5 }
{
    let copy = if is_copied(&laid.region) { 3 } else { 0 };
    let zero = if laid.region.zero > 0 { 2 } else { 0 };
    copy + zero
}

/// Whether a table of so many words has room for the rows, two rows of zeros and the entry.
fn has_room(regions: &[RegionLayout], words: u32) -> bool
    ensures { result ≡ has_enough regions.now words }
{
    if words < 6 {
        return false;
    }
    let mut room = words - 6;
    for laid in regions {
        let rows = rows_of(laid);
        if rows > room {
            return false;
        }
        room -= rows;
    }
    true
}

/// All regions, with the least table that has room, of those that have at most so many words. Each is tried in turn.
fn search(
    alloc: Global,
    origin: u32,
    groups: &[Group],
    parts: &[Part],
    most: u32,
) -> Result<Layout, NoMemory>
    requires most { most < 2 ^ 30 }
    requires room { sum_by piece_count parts.now ≤ 2 ^ 28 }
    requires counts { sum_by (λ g. g.count) groups.now ≡ length parts.now }
    requires few { length groups.now ≤ 2 ^ 31 }
    ensures { IfOk result (λ layout. layout ≡ layout_of origin groups.now parts.now most) }
{
    for words in 0..most {
        let layout = lay_out(alloc, words, origin, groups, parts)?;
        if has_room(layout.regions.as_slice(), words) {
            return Ok(layout);
        }
    }
    lay_out(alloc, most, origin, groups, parts)
}

/// All regions, with the least table that has room, of those that have at most so many words. Regions of fewer pieces are
/// tried in their place.
pub fn least_layout(
    alloc: Global,
    origin: u32,
    groups: &[Group],
    parts: &[Part],
    most: u32,
) -> Result<Layout, NoMemory>
    requires most { most < 2 ^ 30 }
    requires room { sum_by piece_count parts.now ≤ 2 ^ 28 }
    requires counts { sum_by (λ g. g.count) groups.now ≡ length parts.now }
    requires few { length groups.now ≤ 2 ^ 31 }
    ensures { IfOk result (λ layout. layout ≡ layout_of origin groups.now parts.now most) }
{
    if origin != 0 {
        return search(alloc, origin, groups, parts, most);
    }
    let merged = merged_parts(alloc, parts)?;
    search(alloc, 0, groups, merged.as_slice(), most)
}
