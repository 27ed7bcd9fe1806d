//! What a statement's place needs of the values of its expressions.

ghost use Rattle.std.specs.Prelude.{◌≡◌, Some, IfOk};
ghost use Rattle.std.specs.Option.{option_copied};
ghost use Rattle.asm_expr.specs.Places.{AreFirst};
ghost use Rattle.asm_expr.specs.Seeing.{seen_names};
ghost use Rattle.asm_model.specs.AtLine.{is_value};
ghost use Rattle.asm_model.specs.Entries.{equal_entry as entry_of_equal};
ghost use Rattle.asm_model.specs.Said.{IsSaid};
ghost use Rattle.asm_model.specs.Labels as labels;
ghost use Rattle.asm_names.specs.Defining.{defined_of};
ghost use Rattle.asm_laying.specs.Laying.{unsized_entry, DefinedRead, Finds, IsEquated};

use crate::extents::{SizedStatement, extent_of};
use crate::values::{map_after, said_number, value_there};
use asm_model::{LaidName, SharedText, Statement, Value};
use asm_names::defining::{Defines, defined_by, own_entry};
use asm_names::made::equal_entry;
use asm_names::{KnownNames, Seen, StatementPlace};
use asm_offsets::Extent;
use sdt_fault::kinds::LineKind;
use sdt_fault::{List as Listed, NoMemory};
use std::alloc::Global;

/// A name for an expression, where a statement defines one.
#[derive(Drop)]
pub struct Equated {
    /// Its entry, with the kind of its fault where the value isn't known.
    pub entry: Option<LaidName>,
    /// Whether the value is known; without such a name it counts as known.
    pub known: bool,
}

/// What laying a statement needs of the values of its expressions.
#[derive(Drop)]
pub struct StatementValues {
    pub extent: Result<Extent, LineKind>,
    /// The storage map behind the statement.
    pub map: Result<u32, LineKind>,
    pub equal: Equated,
    /// The number that checks ask for.
    pub number: Result<u32, LineKind>,
    /// Of each operand of DCB whether it is a string.
    pub strings: Listed<bool>,
}

/// A name for an expression with the value that is known at its line, or with the kind of its fault there.
fn equal_with(
    alloc: Global,
    declared: &KnownNames,
    area: Option<u32>,
    name: &SharedText,
    value: Result<Value, LineKind>,
) -> Result<Equated, NoMemory>
    ensures entry { IfOk result (λ equal. equal.entry
        ≡ Some (entry_of_equal declared.now area name.now value)) }
    ensures known { IfOk result (λ equal. equal.known ≡ is_value value) }
{
    match value {
        Ok(value) => Ok(Equated {
            entry: Some(equal_entry(alloc, declared, area, name, Ok(value))?),
            known: true,
        }),
        Err(kind) => Ok(Equated {
            entry: Some(equal_entry(alloc, declared, area, name, Err(kind))?),
            known: false,
        }),
    }
}

/// What a statement's name for an expression means, by what its line sees.
#[tactic(auto, using(crate::proofs::SeeLemmas::equates))]
fn equal_there(
    alloc: Global,
    declared: &KnownNames,
    seen: &Seen<'_>,
    defines: &Defines<'_>,
) -> Result<Equated, NoMemory>
    requires { DefinedRead (defined_of defines.now) }
    ensures { IfOk result
        (λ equal. IsEquated declared.now seen.now.area (seen_names seen.now)
        (defined_of defines.now) equal) }
{
    match defines {
        Defines::Equal(name, e) => {
            let value = value_there(alloc, e, seen)?;
            equal_with(alloc, declared, seen.area, name, value)
        }
        _ => Ok(Equated {
            entry: None,
            known: true,
        }),
    }
}

/// The entry of a statement's own name, as its expressions see it: without a size.
pub fn unsized_entry(
    alloc: Global,
    statement: &Statement,
    location: &StatementPlace,
) -> Result<Option<LaidName>, NoMemory>
    ensures { IfOk result (λ entry. entry
        ≡ unsized_entry (labels.defined_by statement.now) location.now) }
{
    match defined_by(statement) {
        Defines::Unnamed => Ok(None),
        defines => own_entry(
            alloc,
            &defines,
            location.area,
            location.offset,
            None,
            location.thumb_label,
            location.map,
        ),
    }
}

/// What a statement at a location needs, behind the lines that define these names.
pub fn find(
    alloc: Global,
    names: &[LaidName],
    declared: &KnownNames,
    own: Option<&LaidName>,
    location: &StatementPlace,
    statement: &Statement,
) -> Result<StatementValues, NoMemory>
    requires first { AreFirst names.now declared.now }
    requires said { IsSaid statement.now }
    ensures { IfOk result
        (λ found. Finds declared.now names.now
        (option_copied own.entry) location.now statement.now found) }
{
    let seen = Seen {
        names: declared,
        first: Some(names),
        own,
        area: location.area,
        offset: location.offset,
        map: location.map,
        thumb: location.thumb,
    };
    let defines = defined_by(statement);
    let equal = equal_there(alloc, declared, &seen, &defines)?;
    let SizedStatement { extent, strings } = extent_of(alloc, &seen, &statement.what)?;
    let map = map_after(alloc, location.map, &seen, &statement.what)?;
    let number = said_number(alloc, &statement.what, &seen)?;
    Ok(StatementValues {
        extent,
        map,
        equal,
        number,
        strings,
    })
}
