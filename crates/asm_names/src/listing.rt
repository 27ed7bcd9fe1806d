//! The entries of lines, in the order of the source.

ghost use Rattle.std.specs.Prelude.{◌≡◌, ◌++◌, IfOk, OnOk};
ghost use Rattle.std.specs.List.{flat_map};
ghost use Rattle.asm_model.specs.Meaning.{named_in};
ghost use Rattle.asm_model.specs.Labels.{imported_entries, defined_by as definition_in, imported_in as import_in};
ghost use Rattle.asm_names.specs.Steps.{one_entry};
ghost use Rattle.asm_names.specs.Source.{own_entries, line_entries};

use crate::KnownNames;
use crate::copies::entry_copy;
use crate::defining::{Defines, defined_by, own_entry};
use crate::made::imported_entry;
use crate::placed_lines::PlacedLine;
use asm_expr::known::add_entry;
use asm_model::{LaidName, SharedText, What, imported_name};
use sdt_fault::NoMemory;
use std::alloc::Global;

/// A copy of the entry of a name.
fn entry_named(
    alloc: Global,
    known: &KnownNames,
    name: &SharedText,
) -> Result<Option<LaidName>, NoMemory>
    ensures { IfOk result (λ entry. entry ≡ named_in name.now known.now) }
{
    match known.find(name) {
        None => Ok(None),
        Some(entry) => Ok(Some(entry_copy(alloc, entry)?)),
    }
}

/// The entry of what a line defines, where names for expressions have those that are known.
fn entry_in(
    alloc: Global,
    known: &KnownNames,
    line: &PlacedLine<'_>,
) -> Result<Option<LaidName>, NoMemory>
    ensures { IfOk result (λ entry. one_entry entry
        ≡ own_entries known.now line.now (definition_in line.now.statement.now)) }
{
    match defined_by(line.statement) {
        Defines::Equal(name, _) => entry_named(alloc, known, name),
        defines => own_entry(
            alloc,
            &defines,
            line.place.area,
            line.place.offset,
            Some(line.size),
            line.place.thumb_label,
            line.place.map,
        ),
    }
}

/// The entry of the name that a statement imports.
pub fn imported_entry_of(alloc: Global, what: &What) -> Result<Option<LaidName>, NoMemory>
    ensures { IfOk result (λ entry. one_entry entry ≡ imported_entries (import_in what.now)) }
{
    match imported_name(what) {
        None => Ok(None),
        Some(name) => Ok(Some(imported_entry(alloc, name)?)),
    }
}

fn add_line(
    alloc: Global,
    names: &mut KnownNames,
    known: &KnownNames,
    line: &PlacedLine<'_>,
) -> Result<(), NoMemory>
    ensures { OnOk result (names.new ≡ names.old ++ line_entries known.now line.now) }
{
    let own = entry_in(alloc, known, line)?;
    add_entry(alloc, names, own)?;
    let imported = imported_entry_of(alloc, &line.statement.what)?;
    add_entry(alloc, names, imported)
}

/// The entries of lines, where names for expressions have those that are known.
pub fn entries_of(
    alloc: Global,
    known: &KnownNames,
    lines: &[PlacedLine<'_>],
) -> Result<KnownNames, NoMemory>
    ensures { IfOk result (λ names. names ≡ flat_map (line_entries known.now) lines.now) }
{
    let mut names = KnownNames::new(alloc);
    'lines: for line in lines {
        add_line(alloc, &mut names, known, line)?;
    }
    Ok(names)
}
