//! Region symbols: names that the linker itself defines.

ghost use Rattle.std.specs.Prelude.{◌≡◌, ℕ, List, ◌||◌, ◌&&◌, ◌≤◌, length, OnOk, IfOk, is_some};
ghost use Rattle.std.specs.List.{prefix_len};
ghost use Rattle.std.specs.Option.{option_copied};
ghost use Rattle.aof_object.specs.Names.{among};
ghost use Rattle.aof_object.specs.Spelling.{area_names};
ghost use Rattle.link_model.specs.Members.{objects_in};
ghost use Rattle.link_model.specs.RegionNames.{is_region_char, is_length_of, is_length_name, has_region_form, names_of_areas};
ghost use Rattle.link_select.specs.Index.{number_in};
ghost use Rattle.link_select.specs.Regions.{stem_in, region_by, Shows};

use crate::index::{find, put};
use aof_object::{Area, Object};
use indexmap::IndexMap;
use link_model::Named;
use sdt_fault::{NoMemory, Text};
use std::alloc::Global;

/// The region symbols of an image: all names of their form, or these names and those of the areas.
#[derive(Drop)]
pub enum RegionSymbols<'a> {
    AnyOfTheForm,
    Listed {
        names: IndexMap<&'a [u8], usize>,
        areas: IndexMap<&'a [u8], usize>,
    },
}

fn index_names<'a>(alloc: Global, names: &'a [Text]) -> Result<IndexMap<&'a [u8], usize>, NoMemory>
    ensures { IfOk result (λ index. (q : List ℕ) → is_some (number_in index q) ≡ among q names.now) }
{
    let mut index = IndexMap::new(alloc);
    for name in names {
        put(&mut index, name.as_slice(), 0)?;
    }
    Ok(index)
}

fn put_area_names<'a>(
    index: &mut IndexMap<&'a [u8], usize>,
    areas: &'a [Area],
) -> Result<(), NoMemory>
    ensures { OnOk result ((q : List ℕ) → is_some (number_in index.new q) ≡ (is_some (number_in index.old q) || among q (area_names areas.now))) }
{
    for area in areas {
        put(index, area.name.as_slice(), 0)?;
    }
    Ok(())
}

fn index_area_names<'a>(
    alloc: Global,
    objects: &'a [Named<Object>],
) -> Result<IndexMap<&'a [u8], usize>, NoMemory>
    ensures { IfOk result (λ index. (q : List ℕ) → is_some (number_in index q) ≡ among q (names_of_areas (objects_in objects.now))) }
{
    let mut index = IndexMap::new(alloc);
    for object in objects {
        put_area_names(&mut index, object.value.areas.as_slice())?;
    }
    Ok(index)
}

/// The region symbols of an image of these objects, by those that its regions have. Without such a list
/// every name of the form is one.
pub fn region_symbols<'a>(
    alloc: Global,
    regions: Option<&'a [Text]>,
    objects: &'a [Named<Object>],
) -> Result<RegionSymbols<'a>, NoMemory>
    ensures { IfOk result (λ symbols. Shows (option_copied regions.entry) (objects_in objects.now) symbols) }
{
    match regions {
        None => Ok(RegionSymbols::AnyOfTheForm),
        Some(names) => Ok(RegionSymbols::Listed {
            names: index_names(alloc, names)?,
            areas: index_area_names(alloc, objects)?,
        }),
    }
}

fn is_in_region_names(byte: u8) -> bool
    ensures { result ≡ is_region_char byte }
{
    matches!(byte, b'0'..=b'9' | b'A'..=b'Z' | b'a'..=b'z' | b'_')
}

fn region_name_len(bytes: &[u8]) -> usize
    ensures value { result ≡ prefix_len is_region_char bytes.now }
    ensures within { result ≤ length bytes.now }
{
    for (i, byte) in bytes.iter().enumerate() {
        if !is_in_region_names(*byte) {
            return i;
        }
    }
    bytes.len()
}

/// Whether a region's name stands there, and then what ends the name of a length.
fn ends_a_length(rest: &[u8]) -> bool
    ensures { result ≡ is_length_of (prefix_len is_region_char rest.now) rest.now }
{
    let len = region_name_len(rest);
    if len == 0 {
        return false;
    }
    let end = &rest[len..];
    if end == b"$$Length".as_slice() {
        return true;
    }
    end == b"$$ZI$$Length".as_slice()
}

fn names_a_length(name: &[u8]) -> bool
    ensures { result ≡ is_length_name name.now }
{
    if !name.starts_with(b"Image$$") {
        return false;
    }
    ends_a_length(&name[7..])
}

fn has_form(name: &[u8]) -> bool
    ensures { result ≡ has_region_form name.now }
{
    if name.ends_with(b"$$Base") {
        return true;
    }
    if name.ends_with(b"$$Limit") {
        return true;
    }
    if name == b"Boot$$Start".as_slice() {
        return true;
    }
    names_a_length(name)
}

/// Whether what stands before the suffix is in the index.
fn has_stem(index: &IndexMap<&[u8], usize>, name: &[u8], suffix: &[u8]) -> bool
    ensures { result ≡ stem_in index.now suffix.now name.now }
{
    if !name.ends_with(suffix) {
        return false;
    }
    find(index, &name[..name.len() - suffix.len()]).is_some()
}

/// Whether a name is a region symbol.
pub fn is_region_symbol(symbols: &RegionSymbols, name: &[u8]) -> bool
    ensures { result ≡ region_by symbols.now name.now }
{
    match symbols {
        RegionSymbols::AnyOfTheForm => has_form(name),
        RegionSymbols::Listed { names, areas } => {
            if find(names, name).is_some() {
                return true;
            }
            if has_stem(areas, name, b"$$Base") {
                return true;
            }
            has_stem(areas, name, b"$$Limit")
        }
    }
}
