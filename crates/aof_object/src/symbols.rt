//! Symbols: the rows of OBJ_SYMT.

ghost use Rattle.std.specs.Prelude.{◌≡◌, ℕ, List as Items, ◌+◌, ◌*◌, ◌^◌, ◌<◌, ◌≤◌, ◌&&◌, ◌||◌, [], length, slice_get, is_some, None, OnOk, IfOk};
ghost use Rattle.std.specs.Str.{bytes_eq};
ghost use Rattle.chunk_file.specs.Reading.{Gives, each};
ghost use Rattle.aof_object.specs.Names.{number_from};
ghost use Rattle.aof_object.specs.Index.{number_in};
ghost use Rattle.aof_object.specs.Checks.{is_exported};
ghost use Rattle.aof_object.specs.Objects.{head_names, within, told_number, told, symbol_at, next_symbol};

use crate::areas::{AreaHead, fault_of};
use crate::checks::{Home, judge_symbol};
use crate::faults::bad_object;
use crate::flags::SymbolFlags;
use crate::index::{find_name, note_name};
use crate::records::Symbol;
use crate::strings::{keep_name, read_name};
use indexmap::IndexMap;
use sdt_fault::answer::Fault;
use sdt_fault::kinds::FileKind;
use sdt_fault::{List, NoMemory, Text};
use sdt_word::word_at;
use std::alloc::Global;

/// The area that a symbol's area-name word tells.
#[derive(Clone, Copy)]
pub struct Told {
    pub area: Option<u32>,
    pub home: Home,
}

fn home_of(heads: &[AreaHead], number: u32) -> Home
    ensures { result ≡ within (slice_get heads.now number) }
{
    match heads.get(number as usize) {
        None => Home::Unknown,
        Some(head) => Home::Within(head.size),
    }
}

fn told_area(heads: &[AreaHead], number: Option<u32>) -> Told
    ensures { result ≡ told_number heads.now number }
{
    match number {
        None => Told {
            area: None,
            home: Home::Unknown,
        },
        Some(number) => Told {
            area: Some(number),
            home: home_of(heads, number),
        },
    }
}

#[tactic(auto, unfolding(crate::specs::Objects::told))]
fn tell_area(strings: &[u8], heads: &[AreaHead], areas: &IndexMap<&[u8], u32>, word: u32) -> Told
    requires { (q : Items ℕ) → number_in areas.now q ≡ number_from 0 q (head_names heads.now) }
    ensures { result ≡ told strings.now heads.now word }
{
    if word == 0 {
        return Told {
            area: None,
            home: Home::Nowhere,
        };
    }
    match read_name(strings, word) {
        None => told_area(heads, None),
        Some(name) => told_area(heads, find_name(areas, name)),
    }
}

/// Notes the name of a symbol where it is exported. Gives whether it was taken.
pub fn note_exported<'a>(
    taken: &mut IndexMap<&'a [u8], u32>,
    attributes: u32,
    name: &'a [u8],
) -> Result<bool, NoMemory>
    ensures repeated { IfOk result (λ repeated. repeated ≡ (is_exported attributes && is_some (number_in taken.old name.now))) }
    ensures noted { OnOk result ((q : Items ℕ) → is_some (number_in taken.new q) ≡ (is_some (number_in taken.old q) || (is_exported attributes && bytes_eq name.now q))) }
{
    if SymbolFlags(attributes).is_exported() {
        return Ok(note_name(taken, name, 0)?.is_some());
    }
    Ok(false)
}

/// The row of a symbol at an offset of the file, whose name is taken where it is exported. `left` is how many bytes are left for
/// names.
#[tactic(auto, unfolding(crate::specs::Objects::symbol_at))]
fn read_symbol<'a>(
    alloc: Global,
    strings: &'a [u8],
    heads: &[AreaHead],
    areas: &IndexMap<&[u8], u32>,
    taken: &mut IndexMap<&'a [u8], u32>,
    left: &mut usize,
    at: usize,
    row: &[u8],
) -> Result<Symbol, Fault>
    requires known { (q : Items ℕ) → number_in areas.now q ≡ number_from 0 q (head_names heads.now) }
    requires row { 16 ≤ length row.now }
    requires place { at + 16 < 2 ^ 32 }
    ensures exact { Gives result (symbol_at strings.now heads.now (λ q. is_some (number_in taken.old q)) at row.now) }
    ensures noted { IfOk result (λ s. (q : Items ℕ) → is_some (number_in taken.new q) ≡ (is_some (number_in taken.old q) || (is_exported s.attributes && bytes_eq s.name q))) }
{
    let Some(name) = read_name(strings, word_at(row, 0)) else {
        return Err(bad_object(alloc, at, FileKind::Name));
    };
    let attributes = word_at(row, 4);
    let value = word_at(row, 8);
    let told = tell_area(strings, heads, areas, word_at(row, 12));
    let repeated = note_exported(taken, attributes, name)?;
    if let Some(flaw) = judge_symbol(repeated, attributes, value, told.home) {
        return Err(fault_of(alloc, at, flaw));
    }
    Ok(Symbol {
        name: keep_name(alloc, left, name)?,
        attributes,
        value,
        area: told.area,
    })
}

/// The rows of the symbols in OBJ_SYMT, with the index of the areas' names. No name is taken yet.
fn read_rows<'a>(
    alloc: Global,
    strings: &'a [u8],
    heads: &[AreaHead],
    areas: &IndexMap<&[u8], u32>,
    taken: &mut IndexMap<&'a [u8], u32>,
    left: &mut usize,
    start: usize,
    content: &[u8],
    count: u32,
) -> Result<List<Symbol>, Fault>
    requires known { (q : Items ℕ) → number_in areas.now q ≡ number_from 0 q (head_names heads.now) }
    requires none { (q : Items ℕ) → number_in taken.old q ≡ None }
    requires rows { 16 * count ≤ length content.now }
    requires place { start + length content.now < 2 ^ 32 }
    ensures { Gives result (each (next_symbol strings.now heads.now start content.now) count []) }
{
    let mut symbols = Vec::with_capacity(alloc, count as usize)?;
    for i in 0..count {
        let at = 16 * i as usize;
        let symbol = read_symbol(
            alloc,
            strings,
            heads,
            areas,
            taken,
            left,
            start + at,
            &content[at..],
        )?;
        symbols.push(symbol)?;
    }
    Ok(List::from_vec(symbols))
}

/// The rows of the symbols in OBJ_SYMT, with the index of the areas' names.
pub fn read_symbols(
    alloc: Global,
    strings: &[u8],
    heads: &[AreaHead],
    areas: &IndexMap<&[u8], u32>,
    left: &mut usize,
    start: usize,
    content: &[u8],
    count: u32,
) -> Result<List<Symbol>, Fault>
    requires known { (q : Items ℕ) → number_in areas.now q ≡ number_from 0 q (head_names heads.now) }
    requires rows { 16 * count ≤ length content.now }
    requires place { start + length content.now < 2 ^ 32 }
    ensures { Gives result (each (next_symbol strings.now heads.now start content.now) count []) }
{
    let mut taken = IndexMap::with_capacity(alloc, count as usize)?;
    let symbols = read_rows(
        alloc, strings, heads, areas, &mut taken, left, start, content, count,
    );
    drop(taken);
    symbols
}
