//! The symbols of areas: their names, and what stands at their starts.

ghost use Rattle.std.specs.Prelude.{◌≡◌, ℕ, ◌<◌, ◌++◌, ◌∷◌, [], Some, if◌then◌else◌, IfOk, OnOk, length};
ghost use Rattle.link_model.specs.Members.{objects_in};
ghost use Rattle.link_symbols.specs.Marks as starts;
ghost use Rattle.link_symbols.specs.Shown.{shown_in};
ghost use Rattle.link_symbols.specs.Starts.{told_in, AreStarts};
ghost use Rattle.link_symbols.specs.Symbols as tables;

use crate::marks::{Content, SymbolSource, content_of, first_content, push_mark};
use crate::sections::{low_word, place_of};
use aof_object::{Area, Object, Symbol};
use elf_image::{Binding, ElfSymbol, Section, SymbolKind};
use indexmap::IndexMap;
use link_model::{Named, to_u32};
use link_values::base_at;
use sdt_fault::{NoMemory, Text};
use std::alloc::Global;

// ---- what symbols tell of the starts of an object's areas, by the numbers of these

fn put_start(index: &mut IndexMap<u32, Content>, symbol: &Symbol) -> Result<(), NoMemory>
    ensures { OnOk result ((area : ℕ) → told_in index.new area
        ≡ (if starts.starts area symbol.now then Some (starts.content_of symbol.now) else told_in index.old area)) }
{
    if symbol.value != 0 || !symbol.flags().is_placed() {
        return Ok(());
    }
    let Some(area) = symbol.area else {
        return Ok(());
    };
    index.insert(area, content_of(symbol))?;
    Ok(())
}

/// The last symbol is noted first, and gives way to earlier ones.
fn index_starts(alloc: Global, symbols: &[Symbol]) -> Result<IndexMap<u32, Content>, NoMemory>
    ensures { IfOk result (λ index. AreStarts symbols.now index) }
{
    let mut index = IndexMap::new(alloc);
    for i in (0..symbols.len()).rev() {
        put_start(&mut index, &symbols[i])?;
    }
    Ok(index)
}

fn told_at(index: &IndexMap<u32, Content>, symbols: &[Symbol], area: u32) -> Option<Content>
    requires { AreStarts symbols.now index.now }
    ensures { result ≡ starts.told_at_start symbols.now area }
{
    let _symbols = symbols;
    index.get(&area).copied()
}

// ---- one area

fn push_name(
    alloc: Global,
    out: &mut Vec<ElfSymbol>,
    sections: &[Section],
    name: &Text,
    base: u64,
) -> Result<(), NoMemory>
    requires { length sections.now < 0xFEFC }
    ensures { OnOk result (out.new.items ≡ out.old.items ++ (tables.area_symbol sections.now name.now base ∷ [])) }
{
    let value = low_word(base);
    out.push(ElfSymbol {
        name: name.try_clone(alloc)?,
        value,
        binding: Binding::Local,
        kind: SymbolKind::Untyped,
        place: place_of(value, sections),
    })?;
    Ok(())
}

fn push_start(
    alloc: Global,
    out: &mut Vec<ElfSymbol>,
    sections: &[Section],
    told: Option<Content>,
    area: &Area,
    base: u64,
) -> Result<(), NoMemory>
    requires { length sections.now < 0xFEFC }
    ensures { OnOk result (out.new.items ≡ out.old.items ++ tables.start_marks sections.now told area.now base) }
{
    if area.flags().is_zero_initialised() {
        return Ok(());
    }
    push_mark(alloc, out, sections, first_content(area, told), base)
}

fn push_area(
    alloc: Global,
    out: &mut Vec<ElfSymbol>,
    sections: &[Section],
    told: Option<Content>,
    area: &Area,
    base: u64,
) -> Result<(), NoMemory>
    requires { length sections.now < 0xFEFC }
    ensures { OnOk result (out.new.items ≡ out.old.items ++ tables.area_symbols sections.now told area.now base) }
{
    if area.size == 0 {
        return Ok(());
    }
    push_name(alloc, out, sections, &area.name, base)?;
    push_start(alloc, out, sections, told, area, base)
}

// ---- all areas

fn push_areas_with(
    alloc: Global,
    out: &mut Vec<ElfSymbol>,
    source: &SymbolSource,
    index: &IndexMap<u32, Content>,
    symbols: &[Symbol],
    object: u32,
    areas: &[Area],
) -> Result<(), NoMemory>
    requires few { length source.now.sections.now < 0xFEFC }
    requires starts { AreStarts symbols.now index.now }
    ensures { OnOk result (out.new.items ≡ out.old.items
        ++ tables.areas_by (shown_in source.now) (starts.told_at_start symbols.now) object 0 areas.now) }
{
    for (k, area) in areas.iter().enumerate() {
        let number = to_u32(k)?;
        let base = base_at(source.bases, object, number);
        push_area(
            alloc,
            out,
            source.sections,
            told_at(index, symbols, number),
            area,
            base,
        )?;
    }
    Ok(())
}

fn push_object(
    alloc: Global,
    out: &mut Vec<ElfSymbol>,
    source: &SymbolSource,
    object: u32,
    symbols: &[Symbol],
    areas: &[Area],
) -> Result<(), NoMemory>
    requires { length source.now.sections.now < 0xFEFC }
    ensures { OnOk result (out.new.items ≡ out.old.items
        ++ tables.areas_in (shown_in source.now) symbols.now object areas.now) }
{
    let index = index_starts(alloc, symbols)?;
    push_areas_with(alloc, out, source, &index, symbols, object, areas)
}

fn push_objects(
    alloc: Global,
    out: &mut Vec<ElfSymbol>,
    source: &SymbolSource,
    objects: &[Named<Object>],
) -> Result<(), NoMemory>
    requires { length source.now.sections.now < 0xFEFC }
    ensures { OnOk result (out.new.items ≡ out.old.items ++ tables.areas_from (shown_in source.now) 0 (objects_in objects.now)) }
{
    for (i, object) in objects.iter().enumerate() {
        let symbols = object.value.symbols.as_slice();
        let areas = object.value.areas.as_slice();
        push_object(alloc, out, source, to_u32(i)?, symbols, areas)?;
    }
    Ok(())
}

/// Writes the symbols of the areas of all objects, in their order.
pub fn push_areas(
    alloc: Global,
    out: &mut Vec<ElfSymbol>,
    source: &SymbolSource,
) -> Result<(), NoMemory>
    requires { length source.now.sections.now < 0xFEFC }
    ensures { OnOk result (out.new.items ≡ out.old.items
        ++ tables.areas_from (shown_in source.now) 0 (shown_in source.now).objects) }
{
    push_objects(alloc, out, source, source.objects)
}
