//! Whether an object is valid: what its spelling needs to be read again.

ghost use Rattle.std.specs.Prelude.{◌≡◌, ℕ, List as Items, ◌&&◌, [], slice_get, length, None, IsTrue, ◌↔◌, IfOk};
ghost use Rattle.aof_object.specs.Index.{number_in};
ghost use Rattle.aof_object.specs.Tests.{is_text, reloc_ok, area_by, area_ok, home_at, home_of, symbol_by, symbol_ok, entry_at, entry_ok, all_pass, is_valid};
ghost use Rattle.aof_object.specs.Validity.{IsValid};

use crate::areas::stored_bytes;
use crate::checks::{Home, judge_area, judge_entry, judge_reloc, judge_symbol};
use crate::index::note_name;
use crate::records::{Area, Entry, Object, Reloc, Symbol};
use crate::symbols::note_exported;
use indexmap::IndexMap;
use sdt_fault::NoMemory;
use std::alloc::Global;

fn holds_no_zero(name: &[u8]) -> bool
    ensures { result ≡ is_text name.now }
{
    for byte in name {
        if *byte == 0 {
            return false;
        }
    }
    true
}

fn relocs_pass(areas: usize, symbols: usize, relocs: &[Reloc]) -> bool
    ensures { result ≡ all_pass (reloc_ok areas symbols) [] relocs.now }
{
    for reloc in relocs {
        if judge_reloc(areas, symbols, *reloc).is_some() {
            return false;
        }
    }
    true
}

#[tactic(auto, unfolding(crate::specs::Tests::area_by))]
fn area_passes(repeated: bool, areas: usize, symbols: usize, area: &Area) -> bool
    ensures { result ≡ area_by repeated areas symbols area.now }
{
    let count = area.relocs.as_slice().len().min(1) as u32;
    if judge_area(repeated, area.attributes, area.size, count, 0).is_some() {
        return false;
    }
    if !holds_no_zero(area.name.as_slice()) {
        return false;
    }
    if area.bytes.as_slice().len() != stored_bytes(area.attributes, area.size) as usize {
        return false;
    }
    relocs_pass(areas, symbols, area.relocs.as_slice())
}

/// Whether areas pass, of whose names none is taken yet.
fn each_area_passes<'a>(
    taken: &mut IndexMap<&'a [u8], u32>,
    symbols: usize,
    areas: &'a [Area],
) -> Result<bool, NoMemory>
    requires { (q : Items ℕ) → number_in taken.old q ≡ None }
    ensures { IfOk result (λ b. b ≡ all_pass (area_ok (length areas.now) symbols) [] areas.now) }
{
    for area in areas {
        let repeated = note_name(taken, area.name.as_slice(), 0)?.is_some();
        if !area_passes(repeated, areas.len(), symbols, area) {
            return Ok(false);
        }
    }
    Ok(true)
}

fn areas_pass(alloc: Global, symbols: usize, areas: &[Area]) -> Result<bool, NoMemory>
    ensures { IfOk result (λ b. b ≡ all_pass (area_ok (length areas.now) symbols) [] areas.now) }
{
    let mut taken = IndexMap::new(alloc);
    let pass = each_area_passes(&mut taken, symbols, areas);
    drop(taken);
    pass
}

fn home_in(areas: &[Area], area: Option<u32>) -> Home
    ensures { result ≡ home_of areas.now area }
{
    match area {
        None => Home::Nowhere,
        Some(number) => match areas.get(number as usize) {
            None => Home::Unknown,
            Some(area) => Home::Within(area.size),
        },
    }
}

#[tactic(auto, unfolding(crate::specs::Tests::symbol_by))]
fn symbol_passes(repeated: bool, areas: &[Area], symbol: &Symbol) -> bool
    ensures { result ≡ symbol_by repeated areas.now symbol.now }
{
    let home = home_in(areas, symbol.area);
    if judge_symbol(repeated, symbol.attributes, symbol.value, home).is_some() {
        return false;
    }
    holds_no_zero(symbol.name.as_slice())
}

/// Whether symbols pass, of whose names none is taken yet.
fn each_symbol_passes<'a>(
    taken: &mut IndexMap<&'a [u8], u32>,
    areas: &[Area],
    symbols: &'a [Symbol],
) -> Result<bool, NoMemory>
    requires { (q : Items ℕ) → number_in taken.old q ≡ None }
    ensures { IfOk result (λ b. b ≡ all_pass (symbol_ok areas.now) [] symbols.now) }
{
    for symbol in symbols {
        let repeated = note_exported(taken, symbol.attributes, symbol.name.as_slice())?;
        if !symbol_passes(repeated, areas, symbol) {
            return Ok(false);
        }
    }
    Ok(true)
}

fn symbols_pass(alloc: Global, areas: &[Area], symbols: &[Symbol]) -> Result<bool, NoMemory>
    ensures { IfOk result (λ b. b ≡ all_pass (symbol_ok areas.now) [] symbols.now) }
{
    let mut taken = IndexMap::new(alloc);
    let pass = each_symbol_passes(&mut taken, areas, symbols);
    drop(taken);
    pass
}

fn entry_passes(areas: &[Area], entry: Option<Entry>) -> bool
    ensures { result ≡ entry_ok areas.now entry }
{
    match entry {
        None => true,
        Some(entry) => match areas.get(entry.area as usize) {
            None => false,
            Some(area) => judge_entry(area.attributes, area.size, entry.offset).is_none(),
        },
    }
}

#[tactic(auto, unfolding(crate::specs::Tests::is_valid))]
fn passes(alloc: Global, o: &Object) -> Result<bool, NoMemory>
    ensures { IfOk result (λ b. b ≡ is_valid o.now) }
{
    let areas = o.areas.as_slice();
    let symbols = o.symbols.as_slice();
    if !areas_pass(alloc, symbols.len(), areas)? {
        return Ok(false);
    }
    if !symbols_pass(alloc, areas, symbols)? {
        return Ok(false);
    }
    Ok(entry_passes(areas, o.entry))
}

/// Whether an object is valid: names without zero bytes, areas and exported symbols with names of their
/// own, attributes, alignments, sizes, relocations, symbols and an entry that an object file may have.
pub fn object_is_valid(alloc: Global, o: &Object) -> Result<bool, NoMemory>
    ensures { IfOk result (λ b. IsTrue b ↔ IsValid o.now) }
{
    passes(alloc, o)
}
