//! The tables of a linked image.

ghost use Rattle.std.specs.Prelude.{◌≡◌, ◌<◌, ◌++◌, ◌∷◌, [], map, IfOk, OnOk, length};
ghost use Rattle.link_model.specs.Members.{link_of};
ghost use Rattle.link_values.specs.Bases.{AreBases};
ghost use Rattle.link_values.specs.Values.{AreValues};
ghost use Rattle.link_symbols.specs.Shown.{shown_by, shown_in};
ghost use Rattle.link_symbols.specs.Symbols as tables;

use crate::areas::push_areas;
use crate::labels::{Listed, push_labels};
use crate::marks::{SymbolSource, push_boot, push_veneers};
use crate::sections::{low_word, sections_of};
use elf_image::{Binding, ElfSymbol, Section, SymbolKind, SymbolPlace, Tables};
use link_model::{Linked, Placement};
use link_values::{area_bases, region_numbers, symbol_values};
use sdt_fault::{List, NoMemory, Text};
use std::alloc::Global;

// ---- the symbols of regions

fn push_region(
    alloc: Global,
    out: &mut Vec<ElfSymbol>,
    region: &(Text, u64),
) -> Result<(), NoMemory>
    ensures { OnOk result (out.new.items ≡ out.old.items ++ (tables.region_symbol region.now ∷ [])) }
{
    out.push(ElfSymbol {
        name: region.0.try_clone(alloc)?,
        value: low_word(region.1),
        binding: Binding::Global,
        kind: SymbolKind::Untyped,
        place: SymbolPlace::Absolute,
    })?;
    Ok(())
}

fn push_regions(
    alloc: Global,
    out: &mut Vec<ElfSymbol>,
    regions: &[(Text, u64)],
) -> Result<(), NoMemory>
    ensures { OnOk result (out.new.items ≡ out.old.items ++ map tables.region_symbol regions.now) }
{
    for region in regions {
        push_region(alloc, out, region)?;
    }
    Ok(())
}

// ---- all symbols

fn push_locals(
    alloc: Global,
    out: &mut Vec<ElfSymbol>,
    source: &SymbolSource,
    placement: &Placement,
) -> Result<(), NoMemory>
    requires { length source.now.sections.now < 0xFEFC }
    ensures { OnOk result (out.new.items ≡ out.old.items ++ tables.local_symbols (shown_in source.now) placement.now) }
{
    push_areas(alloc, out, source)?;
    push_veneers(alloc, out, source.sections, placement.veneers.as_slice())?;
    push_boot(alloc, out, source.sections, placement.boot)?;
    push_labels(alloc, out, source, Listed::Marks)?;
    push_labels(alloc, out, source, Listed::Locals)
}

fn push_globals(
    alloc: Global,
    out: &mut Vec<ElfSymbol>,
    source: &SymbolSource,
    placement: &Placement,
) -> Result<(), NoMemory>
    requires { length source.now.sections.now < 0xFEFC }
    ensures { OnOk result (out.new.items ≡ out.old.items ++ tables.global_symbols (shown_in source.now) placement.now) }
{
    push_labels(alloc, out, source, Listed::Exported)?;
    let numbers = region_numbers(alloc, placement.boot, placement.regions.as_slice())?;
    push_regions(alloc, out, numbers.as_slice())
}

fn symbols_by(
    alloc: Global,
    source: &SymbolSource,
    placement: &Placement,
) -> Result<Vec<ElfSymbol>, NoMemory>
    requires { length source.now.sections.now < 0xFEFC }
    ensures { IfOk result (λ out. out.items ≡ tables.symbols_by (shown_in source.now) placement.now) }
{
    let mut out = Vec::new(alloc);
    push_locals(alloc, &mut out, source, placement)?;
    push_globals(alloc, &mut out, source, placement)?;
    Ok(out)
}

/// What the source tells is what the link and the placement tell.
fn is_shown(linked: &Linked, placement: &Placement, source: &SymbolSource)
    requires objects { source.now.objects.now ≡ linked.now.objects }
    requires values { AreValues (link_of linked.now) placement.now source.now.values.now }
    requires bases { AreBases placement.now source.now.bases.now }
    ensures { shown_in source.now ≡ shown_by linked.now placement.now source.now.sections.now }
{}

fn symbols_of(
    alloc: Global,
    linked: &Linked,
    placement: &Placement,
    sections: &[Section],
) -> Result<Vec<ElfSymbol>, NoMemory>
    requires { length sections.now < 0xFEFC }
    ensures { IfOk result (λ out. out.items
        ≡ tables.symbols_by (shown_by linked.now placement.now sections.now) placement.now) }
{
    let bases = area_bases(alloc, placement)?;
    let values = symbol_values(alloc, linked, placement, &bases)?;
    let source = SymbolSource {
        objects: linked.objects.as_slice(),
        values: values.as_slice(),
        bases: &bases,
        sections,
    };
    is_shown(linked, placement, &source);
    symbols_by(alloc, &source, placement)
}

/// The sections and the symbols of an image of so many load regions, for `elf_image::write_named_elf`: a section for
/// the bytes of each region and one for its zero part; the names of areas and what their contents are, by mapping
/// symbols; the definitions of all linked objects with their final values; and the symbols of regions. Takes time that
/// is linear in areas, symbols and regions, of each by the number of sections.
pub fn tables_of(
    alloc: Global,
    linked: &Linked,
    placement: &Placement,
    loads: u32,
) -> Result<Tables, NoMemory>
    ensures exact { IfOk result (λ t. t ≡ tables.tables_in linked.now placement.now loads) }
    ensures few { IfOk result (λ t. length t.sections < 0xFEFC) }
{
    let sections = sections_of(alloc, loads, placement.regions.as_slice())?;
    if sections.len() >= 0xFEFC {
        return Err(NoMemory);
    }
    let symbols = symbols_of(alloc, linked, placement, sections.as_slice())?;
    Ok(Tables {
        sections: List::from_vec(sections),
        symbols: List::from_vec(symbols),
    })
}
