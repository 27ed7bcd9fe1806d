//! Writing: the one spelling.

ghost use Rattle.std.specs.Prelude.{◌≡◌, ℕ, List as Items, ◌+◌, ◌++◌, [], ◌∷◌, length, slice_get, codes, None, OnOk, IfOk};
ghost use Rattle.std.specs.List.{flat_map};
ghost use Rattle.sdt_word.specs.Bytes.{bytes_of};
ghost use Rattle.chunk_file.specs.Reading.{Gives};
ghost use Rattle.aof_object.specs.Index.{number_in};
ghost use Rattle.aof_object.specs.Places.{Tells, IsTable};
ghost use Rattle.aof_object.specs.Spelling.{names_of, strings_of, ended, area_row, area_row_at, entry_row, head_row, reloc_row, content_of, area_word, symbol_row, symbol_row_at, head_bytes, symbol_bytes, chunk, chunks_from, chunks_of, written};

use crate::records::{Area, Entry, Object, Reloc, Symbol};
use crate::table::{gather_areas, gather_symbols, place_of};
use chunk_file::{Chunk, Chunks, push_word, write_chunks};
use indexmap::IndexMap;
use sdt_fault::answer::Fault;
use sdt_fault::{Bytes, List, NoMemory};
use std::alloc::Global;

/// Writes the low four bytes of a number at the end.
fn push_number(out: &mut Vec<u8>, number: usize) -> Result<(), NoMemory>
    ensures { OnOk result (out.new.items ≡ out.old.items ++ bytes_of number 4) }
{
    push_word(out, (number % (1 << 32)) as u32)
}

fn push_name_and_kind(out: &mut Vec<u8>, at: usize, area: &Area) -> Result<(), NoMemory>
    ensures { OnOk result (out.new.items ≡ out.old.items ++ (bytes_of at 4 ++ bytes_of area.now.attributes 4)) }
{
    push_number(out, at)?;
    push_word(out, area.attributes)
}

fn push_sizes(out: &mut Vec<u8>, area: &Area) -> Result<(), NoMemory>
    ensures { OnOk result (out.new.items ≡ out.old.items ++ (bytes_of area.now.size 4 ++ (bytes_of (length area.now.relocs) 4 ++ bytes_of 0 4))) }
{
    push_word(out, area.size)?;
    push_number(out, area.relocs.as_slice().len())?;
    push_word(out, 0)
}

fn push_area_at(out: &mut Vec<u8>, at: usize, area: &Area) -> Result<(), NoMemory>
    ensures { OnOk result (out.new.items ≡ out.old.items ++ area_row_at at area.now) }
{
    push_name_and_kind(out, at, area)?;
    push_sizes(out, area)
}

fn push_area(
    out: &mut Vec<u8>,
    places: &IndexMap<&[u8], usize>,
    area: &Area,
) -> Result<(), NoMemory>
    ensures { OnOk result ((ns : Items (Items ℕ)) → Tells places.now ns → out.new.items ≡ out.old.items ++ area_row ns area.now) }
{
    let at = place_of(places, &area.name);
    push_area_at(out, at, area)
}

fn push_areas(
    out: &mut Vec<u8>,
    places: &IndexMap<&[u8], usize>,
    areas: &[Area],
) -> Result<(), NoMemory>
    ensures { OnOk result ((ns : Items (Items ℕ)) → Tells places.now ns → out.new.items ≡ out.old.items ++ flat_map (area_row ns) areas.now) }
{
    for area in areas {
        push_area(out, places, area)?;
    }
    Ok(())
}

fn push_entry(out: &mut Vec<u8>, entry: Option<Entry>) -> Result<(), NoMemory>
    ensures { OnOk result (out.new.items ≡ out.old.items ++ entry_row entry) }
{
    match entry {
        None => {
            push_word(out, 0)?;
            push_word(out, 0)
        }
        Some(entry) => {
            push_number(out, entry.area as usize + 1)?;
            push_word(out, entry.offset)
        }
    }
}

fn push_head_row(out: &mut Vec<u8>, o: &Object) -> Result<(), NoMemory>
    ensures { OnOk result (out.new.items ≡ out.old.items ++ head_row o.now) }
{
    push_word(out, 0xC5E2_D080)?;
    push_word(out, 310)?;
    push_number(out, o.areas.as_slice().len())?;
    push_number(out, o.symbols.as_slice().len())?;
    push_entry(out, o.entry)
}

fn head_of_object(
    alloc: Global,
    places: &IndexMap<&[u8], usize>,
    o: &Object,
) -> Result<Vec<u8>, NoMemory>
    ensures { IfOk result (λ out. Tells places.now (names_of o.now) → out.items ≡ head_bytes o.now) }
{
    let mut out = Vec::new(alloc);
    push_head_row(&mut out, o)?;
    push_areas(&mut out, places, o.areas.as_slice())?;
    Ok(out)
}

fn push_relocs(out: &mut Vec<u8>, relocs: &[Reloc]) -> Result<(), NoMemory>
    ensures { OnOk result (out.new.items ≡ out.old.items ++ flat_map reloc_row relocs.now) }
{
    for reloc in relocs {
        push_word(out, reloc.offset)?;
        push_word(out, reloc.word)?;
    }
    Ok(())
}

fn push_content(out: &mut Vec<u8>, area: &Area) -> Result<(), NoMemory>
    ensures { OnOk result (out.new.items ≡ out.old.items ++ content_of area.now) }
{
    out.extend_from_slice(area.bytes.as_slice())?;
    push_relocs(out, area.relocs.as_slice())
}

fn contents(alloc: Global, areas: &[Area]) -> Result<Vec<u8>, NoMemory>
    ensures { IfOk result (λ out. out.items ≡ flat_map content_of areas.now) }
{
    let mut out = Vec::new(alloc);
    for area in areas {
        push_content(&mut out, area)?;
    }
    Ok(out)
}

/// The word for a symbol's area: where the area's name stands.
fn area_place(places: &IndexMap<&[u8], usize>, areas: &[Area], area: Option<u32>) -> usize
    ensures { (ns : Items (Items ℕ)) → Tells places.now ns → result ≡ area_word ns areas.now area }
{
    match area {
        None => 0,
        Some(number) => match areas.get(number as usize) {
            None => 0,
            Some(area) => place_of(places, &area.name),
        },
    }
}

fn push_symbol_at(
    out: &mut Vec<u8>,
    at: usize,
    home: usize,
    symbol: &Symbol,
) -> Result<(), NoMemory>
    ensures { OnOk result (out.new.items ≡ out.old.items ++ symbol_row_at at home symbol.now) }
{
    push_number(out, at)?;
    push_word(out, symbol.attributes)?;
    push_word(out, symbol.value)?;
    push_number(out, home)
}

fn push_symbol(
    out: &mut Vec<u8>,
    places: &IndexMap<&[u8], usize>,
    areas: &[Area],
    symbol: &Symbol,
) -> Result<(), NoMemory>
    ensures { OnOk result ((ns : Items (Items ℕ)) → Tells places.now ns → out.new.items ≡ out.old.items ++ symbol_row ns areas.now symbol.now) }
{
    let at = place_of(places, &symbol.name);
    let home = area_place(places, areas, symbol.area);
    push_symbol_at(out, at, home, symbol)
}

fn symbol_table(
    alloc: Global,
    places: &IndexMap<&[u8], usize>,
    areas: &[Area],
    symbols: &[Symbol],
) -> Result<Vec<u8>, NoMemory>
    ensures { IfOk result (λ out. (ns : Items (Items ℕ)) → Tells places.now ns → out.items ≡ flat_map (symbol_row ns areas.now) symbols.now) }
{
    let mut out = Vec::new(alloc);
    for symbol in symbols {
        push_symbol(&mut out, places, areas, symbol)?;
    }
    Ok(out)
}

fn string_table(alloc: Global, names: &[u8]) -> Result<Vec<u8>, NoMemory>
    ensures { IfOk result (λ out. out.items ≡ bytes_of (4 + length names.now) 4 ++ names.now) }
{
    let mut out = Vec::new(alloc);
    push_number(&mut out, 4 + names.len())?;
    out.extend_from_slice(names)?;
    Ok(out)
}

fn chunk_of(name: [u8; 8], bytes: Vec<u8>) -> Option<Chunk>
    ensures { result ≡ chunk name bytes.items }
{
    Some(Chunk {
        name,
        bytes: Bytes::from_vec(bytes),
    })
}

fn list_chunks(
    alloc: Global,
    head: Vec<u8>,
    content: Vec<u8>,
    table: Vec<u8>,
    strings: Vec<u8>,
) -> Result<Chunks, NoMemory>
    ensures { IfOk result (λ c. c ≡ chunks_from head.items content.items table.items strings.items) }
{
    let mut list = Vec::new(alloc);
    list.push(chunk_of(*b"OBJ_HEAD", head))?;
    list.push(chunk_of(*b"OBJ_AREA", content))?;
    list.push(chunk_of(*b"OBJ_IDFN", Vec::from_slice(alloc, b"armsdt\0")?))?;
    list.push(chunk_of(*b"OBJ_SYMT", table))?;
    list.push(chunk_of(*b"OBJ_STRT", strings))?;
    Ok(Chunks {
        list: List::from_vec(list),
    })
}

/// The chunks of an object, by the places of its names, of which none has one yet.
fn placed_chunks<'a>(
    alloc: Global,
    places: &mut IndexMap<&'a [u8], usize>,
    o: &'a Object,
) -> Result<Chunks, NoMemory>
    requires { (q : Items ℕ) → number_in places.old q ≡ None }
    ensures { IfOk result (λ c. c ≡ chunks_of o.now) }
{
    let areas = o.areas.as_slice();
    let symbols = o.symbols.as_slice();
    let mut names = Vec::new(alloc);
    gather_areas(&mut names, places, areas)?;
    gather_symbols(&mut names, places, symbols)?;
    let head = head_of_object(alloc, places, o)?;
    let content = contents(alloc, areas)?;
    let table = symbol_table(alloc, places, areas, symbols)?;
    let strings = string_table(alloc, &names)?;
    list_chunks(alloc, head, content, table, strings)
}

fn chunks_of_object(alloc: Global, o: &Object) -> Result<Chunks, NoMemory>
    ensures { IfOk result (λ c. c ≡ chunks_of o.now) }
{
    let mut places = IndexMap::new(alloc);
    let chunks = placed_chunks(alloc, &mut places, o);
    drop(places);
    chunks
}

/// The one spelling of an object: OBJ_HEAD, OBJ_AREA, OBJ_IDFN, OBJ_SYMT and OBJ_STRT. Gives `TooLarge`
/// exactly where it would have 2^32 bytes or more.
pub fn write_object(alloc: Global, o: &Object) -> Result<Bytes, Fault>
    ensures { Gives result (written o.now) }
{
    let chunks = chunks_of_object(alloc, o)?;
    write_chunks(alloc, &chunks)
}
