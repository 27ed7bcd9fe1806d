//! Mapping symbols: where ARM code, Thumb code and data begin.

ghost use Rattle.std.specs.Prelude.{◌≡◌, ◌<◌, ◌++◌, ◌∷◌, [], IfOk, OnOk, length};
ghost use Rattle.std.specs.List.{flat_map};
ghost use Rattle.std.specs.Option.{option_copied, option_map};
ghost use Rattle.link_model.specs.Members.{objects_in};
ghost use Rattle.link_model.specs.RegionValues.{size_of};
ghost use Rattle.link_values.specs.Values.{home, meant};
ghost use Rattle.link_symbols.specs.Marks as symbols;
ghost use Rattle.link_symbols.specs.Shown.{shown_in};

use crate::sections::{low_word, place_of};
use aof_object::{Area, Object, Symbol};
use boot_code::boot_words;
use elf_image::{Binding, ElfSymbol, Section, SymbolKind};
use link_model::{AreaName, Named, PlacedVeneer};
use link_values::{AreaBases, AreaOffset, SymbolValue, area_at, sum};
use sdt_fault::{List, NoMemory, Text};
use std::alloc::Global;

/// What stands at an address.
#[derive(Clone, Copy)]
pub enum Content {
    Arm,
    Thumb,
    Data,
}

/// What symbols are made of: linked objects, the values of their symbols, the addresses of their areas, and the
/// sections of the image, of which there are fewer than 0xFEFC.
#[derive(Clone, Copy)]
pub struct SymbolSource<'a> {
    pub objects: &'a [Named<Object>],
    pub values: &'a [List<SymbolValue>],
    pub bases: &'a AreaBases,
    pub sections: &'a [Section],
}

// ---- one mapping symbol

fn mark_name(alloc: Global, content: Content) -> Result<Text, NoMemory>
    ensures { IfOk result (λ name. name ≡ symbols.mark_name content) }
{
    match content {
        Content::Arm => Text::from_slice(alloc, b"$a"),
        Content::Thumb => Text::from_slice(alloc, b"$t"),
        Content::Data => Text::from_slice(alloc, b"$d"),
    }
}

fn mark(
    alloc: Global,
    sections: &[Section],
    content: Content,
    address: u64,
) -> Result<ElfSymbol, NoMemory>
    requires { length sections.now < 0xFEFC }
    ensures { IfOk result (λ s. s ≡ symbols.mark sections.now content address) }
{
    let value = low_word(address);
    Ok(ElfSymbol {
        name: mark_name(alloc, content)?,
        value,
        binding: Binding::Local,
        kind: SymbolKind::Untyped,
        place: place_of(value, sections),
    })
}

pub fn push_mark(
    alloc: Global,
    out: &mut Vec<ElfSymbol>,
    sections: &[Section],
    content: Content,
    address: u64,
) -> Result<(), NoMemory>
    requires { length sections.now < 0xFEFC }
    ensures { OnOk result (out.new.items ≡ out.old.items ++ (symbols.mark sections.now content address ∷ [])) }
{
    out.push(mark(alloc, sections, content, address)?)?;
    Ok(())
}

// ---- at symbols of an object

fn content_by(datum: bool, thumb: bool) -> Content
    ensures { result ≡ symbols.content_by datum thumb }
{
    if datum {
        return Content::Data;
    }
    if thumb { Content::Thumb } else { Content::Arm }
}

fn area_of(objects: &[Named<Object>], place: AreaOffset) -> Option<&Area>
    ensures { option_copied result ≡ symbols.area_at (objects_in objects.now) (home place) }
{
    let name = AreaName {
        object: place.object,
        area: place.area,
    };
    area_at(objects, name)
}

/// Whether a place is in an area of code.
pub fn is_code(objects: &[Named<Object>], place: AreaOffset) -> bool
    ensures { result ≡ symbols.is_code_area (symbols.area_at (objects_in objects.now) (home place)) }
{
    match area_of(objects, place) {
        None => false,
        Some(area) => area.flags().is_code(),
    }
}

fn size_at(objects: &[Named<Object>], place: AreaOffset) -> u32
    ensures { result ≡ size_of (symbols.area_at (objects_in objects.now) (home place)) }
{
    match area_of(objects, place) {
        None => 0,
        Some(area) => area.size,
    }
}

fn is_marked(objects: &[Named<Object>], place: Option<AreaOffset>) -> bool
    ensures { result ≡ symbols.is_marked (objects_in objects.now) (option_map home place) }
{
    let Some(place) = place else {
        return false;
    };
    is_code(objects, place) && place.offset > 0 && place.offset < size_at(objects, place)
}

/// Writes the mapping symbol at a symbol of this value.
pub fn push_label_mark(
    alloc: Global,
    out: &mut Vec<ElfSymbol>,
    source: &SymbolSource,
    value: SymbolValue,
) -> Result<(), NoMemory>
    requires { length source.now.sections.now < 0xFEFC }
    ensures { OnOk result (out.new.items ≡ out.old.items ++ symbols.label_marks (shown_in source.now) (meant value)) }
{
    if !is_marked(source.objects, value.home) {
        return Ok(());
    }
    let content = content_by(value.datum, value.thumb);
    push_mark(alloc, out, source.sections, content, value.number)
}

// ---- at the start of an area

/// What a symbol tells of what stands from it on.
pub fn content_of(symbol: &Symbol) -> Content
    ensures { result ≡ symbols.content_of symbol.now }
{
    content_by(symbol.flags().is_datum(), symbol.flags().is_thumb())
}

/// What stands at the start of an area of these attributes, where a symbol tells this of it.
pub fn first_content(area: &Area, told: Option<Content>) -> Content
    ensures { result ≡ symbols.first_content area.now.attributes told }
{
    if !area.flags().is_code() {
        return Content::Data;
    }
    match told {
        Some(content) => content,
        None => content_by(false, area.flags().is_thumb()),
    }
}

// ---- of what the linker adds

fn push_pair(
    alloc: Global,
    out: &mut Vec<ElfSymbol>,
    sections: &[Section],
    first: (Content, u64),
    second: (Content, u64),
) -> Result<(), NoMemory>
    requires { length sections.now < 0xFEFC }
    ensures { OnOk result (out.new.items ≡ out.old.items
        ++ (symbols.mark sections.now first.0 first.1 ∷ symbols.mark sections.now second.0 second.1 ∷ [])) }
{
    push_mark(alloc, out, sections, first.0, first.1)?;
    push_mark(alloc, out, sections, second.0, second.1)
}

fn push_veneer(
    alloc: Global,
    out: &mut Vec<ElfSymbol>,
    sections: &[Section],
    placed: &PlacedVeneer,
) -> Result<(), NoMemory>
    requires { length sections.now < 0xFEFC }
    ensures { OnOk result (out.new.items ≡ out.old.items ++ symbols.veneer_marks sections.now placed.now) }
{
    let at = u64::from(placed.address);
    if placed.veneer.thumb {
        return push_pair(
            alloc,
            out,
            sections,
            (Content::Arm, at),
            (Content::Data, at + 8),
        );
    }
    push_pair(
        alloc,
        out,
        sections,
        (Content::Thumb, at),
        (Content::Arm, at + 4),
    )
}

pub fn push_veneers(
    alloc: Global,
    out: &mut Vec<ElfSymbol>,
    sections: &[Section],
    veneers: &[PlacedVeneer],
) -> Result<(), NoMemory>
    requires { length sections.now < 0xFEFC }
    ensures { OnOk result (out.new.items ≡ out.old.items ++ flat_map (symbols.veneer_marks sections.now) veneers.now) }
{
    for placed in veneers {
        push_veneer(alloc, out, sections, placed)?;
    }
    Ok(())
}

/// Writes those of the startup code and its table.
pub fn push_boot(
    alloc: Global,
    out: &mut Vec<ElfSymbol>,
    sections: &[Section],
    boot: Option<u32>,
) -> Result<(), NoMemory>
    requires { length sections.now < 0xFEFC }
    ensures { OnOk result (out.new.items ≡ out.old.items ++ symbols.boot_marks sections.now boot) }
{
    let Some(boot) = boot else {
        return Ok(());
    };
    let at = u64::from(boot);
    let table = at + 4 * boot_words().len() as u64;
    push_pair(
        alloc,
        out,
        sections,
        (Content::Arm, at),
        (Content::Data, table),
    )
}
