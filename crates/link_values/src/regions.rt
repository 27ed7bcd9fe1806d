//! The numbers of region symbols, found by indexes of names.

ghost use Rattle.std.specs.Prelude.{◌≡◌, ℕ, List, Some, [], ◌∷◌, ◌++◌, OnOk, IfOk, if◌then◌else◌};
ghost use Rattle.std.specs.List.{flat_map};
ghost use Rattle.std.specs.Option.{option_or};
ghost use Rattle.std.specs.Str.{bytes_eq};
ghost use Rattle.link_model.specs.Members.{objects_in};
ghost use Rattle.link_model.specs.RegionValues.{plain_numbers, scatter_numbers, numbers_by, reduced_by};
ghost use Rattle.link_values.specs.Index.{found_in};
ghost use Rattle.link_values.specs.Regions.{stem_extent as stem, area_number as of_area, number_by, AreNumbers, AreSymbols};

use crate::bases::reduced;
use crate::extents::{Extent, index_extents};
use crate::names::{find, put};
use crate::objects::sum;
use aof_object::Object;
use indexmap::IndexMap;
use link_model::{Named, Placement, Region};
use sdt_fault::{NoMemory, Text};
use std::alloc::Global;

/// The region symbols of an image: the numbers of those of its regions, and the extents of its areas.
#[derive(Drop)]
pub struct RegionSymbols<'a> {
    pub numbers: IndexMap<&'a [u8], u64>,
    pub extents: IndexMap<&'a [u8], Extent>,
    pub boot: Option<u32>,
}

// ---- the numbers of regions

/// Notes the number of a name in three parts.
fn note(
    alloc: Global,
    numbers: &mut Vec<(Text, u64)>,
    before: &[u8],
    region: &Region,
    after: &[u8],
    number: u64,
) -> Result<(), NoMemory>
    ensures { OnOk result (numbers.new.items
        ≡ numbers.old.items ++ (before.now ++ (region.now.name ++ after.now), number) ∷ []) }
{
    let mut name = Vec::new(alloc);
    name.extend_from_slice(before)?;
    name.extend_from_slice(region.name.as_slice())?;
    name.extend_from_slice(after)?;
    numbers.push((Text::from_vec(name), number))?;
    Ok(())
}

fn note_scatter(
    alloc: Global,
    numbers: &mut Vec<(Text, u64)>,
    region: &Region,
) -> Result<(), NoMemory>
    ensures { OnOk result (numbers.new.items
        ≡ numbers.old.items ++ scatter_numbers region.now) }
{
    let loaded = sum(region.base, region.length)?;
    note(alloc, numbers, b"Load$$", region, b"$$Base", region.load)?;
    note(alloc, numbers, b"Image$$", region, b"$$Base", region.base)?;
    note(
        alloc,
        numbers,
        b"Image$$",
        region,
        b"$$Length",
        region.length,
    )?;
    note(alloc, numbers, b"Image$$", region, b"$$ZI$$Base", loaded)?;
    note(
        alloc,
        numbers,
        b"Image$$",
        region,
        b"$$ZI$$Length",
        region.zero,
    )?;
    Ok(())
}

fn note_plain(
    alloc: Global,
    numbers: &mut Vec<(Text, u64)>,
    region: &Region,
) -> Result<(), NoMemory>
    ensures { OnOk result (numbers.new.items
        ≡ numbers.old.items ++ plain_numbers region.now) }
{
    let limit = sum(sum(region.base, region.length)?, region.zero)?;
    note(alloc, numbers, b"Image$$", region, b"$$Base", region.base)?;
    note(alloc, numbers, b"Image$$", region, b"$$Limit", limit)
}

fn plain_image(alloc: Global, regions: &[Region]) -> Result<Vec<(Text, u64)>, NoMemory>
    ensures { IfOk result (λ numbers. numbers.items ≡ flat_map plain_numbers regions.now) }
{
    let mut numbers = Vec::new(alloc);
    for region in regions {
        note_plain(alloc, &mut numbers, region)?;
    }
    Ok(numbers)
}

fn scatter_image(alloc: Global, boot: u32, regions: &[Region]) -> Result<Vec<(Text, u64)>, NoMemory>
    ensures { IfOk result (λ numbers. numbers.items ≡ numbers_by (Some boot) regions.now) }
{
    let mut numbers = Vec::new(alloc);
    numbers.push((Text::from_slice(alloc, b"Boot$$Start")?, boot as u64))?;
    for region in regions {
        note_scatter(alloc, &mut numbers, region)?;
    }
    Ok(numbers)
}

/// The region symbols of an image's regions, with their numbers.
pub fn region_numbers(
    alloc: Global,
    boot: Option<u32>,
    regions: &[Region],
) -> Result<Vec<(Text, u64)>, NoMemory>
    ensures { IfOk result (λ numbers. numbers.items ≡ numbers_by boot regions.now) }
{
    match boot {
        None => plain_image(alloc, regions),
        Some(boot) => scatter_image(alloc, boot, regions),
    }
}

fn put_number<'a>(
    index: &mut IndexMap<&'a [u8], u64>,
    entry: &'a (Text, u64),
) -> Result<(), NoMemory>
    ensures { OnOk result ((q : List ℕ) → found_in index.new q
        ≡ (if bytes_eq entry.now.0 q then Some entry.now.1 else found_in index.old q)) }
{
    put(index, entry.0.as_slice(), entry.1)
}

/// The first number of each name.
pub fn index_numbers<'a>(
    alloc: Global,
    numbers: &'a [(Text, u64)],
) -> Result<IndexMap<&'a [u8], u64>, NoMemory>
    ensures { IfOk result (λ index. AreNumbers numbers.now index) }
{
    let mut index = IndexMap::new(alloc);
    for i in (0..numbers.len()).rev() {
        put_number(&mut index, &numbers[i])?;
    }
    Ok(index)
}

/// The region symbols of a placement, by the numbers of those of its regions.
pub fn region_symbols<'a>(
    alloc: Global,
    placement: &Placement,
    objects: &'a [Named<Object>],
    numbers: &'a [(Text, u64)],
) -> Result<RegionSymbols<'a>, NoMemory>
    requires { numbers.now ≡ numbers_by placement.now.boot placement.now.regions }
    ensures { IfOk result (λ symbols. AreSymbols (objects_in objects.now) placement.now symbols) }
{
    Ok(RegionSymbols {
        numbers: index_numbers(alloc, numbers)?,
        extents: index_extents(alloc, objects, placement.areas.as_slice())?,
        boot: placement.boot,
    })
}

// ---- the number of a name

/// The extent of the areas that what stands before the suffix names.
fn stem_extent(index: &IndexMap<&[u8], Extent>, name: &[u8], suffix: &[u8]) -> Option<Extent>
    ensures { result ≡ stem index.now suffix.now name.now }
{
    if !name.ends_with(suffix) {
        return None;
    }
    find(index, &name[..name.len() - suffix.len()])
}

fn area_number(index: &IndexMap<&[u8], Extent>, name: &[u8]) -> Option<u64>
    ensures { result ≡ of_area index.now name.now }
{
    if let Some(extent) = stem_extent(index, name, b"$$Base") {
        return Some(extent.start);
    }
    match stem_extent(index, name, b"$$Limit") {
        None => None,
        Some(extent) => Some(extent.end),
    }
}

fn full_number(symbols: &RegionSymbols, name: &[u8]) -> Option<u64>
    ensures { result ≡ option_or (found_in symbols.now.numbers name.now)
        (of_area symbols.now.extents name.now) }
{
    if let Some(number) = find(&symbols.numbers, name) {
        return Some(number);
    }
    area_number(&symbols.extents, name)
}

/// The number of a region symbol.
pub fn region_number(symbols: &RegionSymbols, name: &[u8]) -> Option<u64>
    ensures { result ≡ number_by symbols.now name.now }
{
    match full_number(symbols, name) {
        None => None,
        Some(number) => Some(reduced(symbols.boot, number)),
    }
}
