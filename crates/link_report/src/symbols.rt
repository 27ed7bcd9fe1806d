//! The names that linked objects export, by value.

ghost use Rattle.std.specs.Prelude.{◌≡◌, ◌++◌, map, OnOk, IfOk};
ghost use Rattle.std.specs.List.{flat_map};
ghost use Rattle.std.specs.Option.{option_copied, option_map};
ghost use Rattle.link_values.specs.Bases.{AreBases};
ghost use Rattle.link_values.specs.Values.{home as home_of, meant};
ghost use Rattle.link_report.specs.Shown.{shown, valued};
ghost use Rattle.link_report.specs.Symbols as symbols;

use crate::lines::{name_of_area, object_name, push, push_eight, push_field};
use aof_object::{Area, Object};
use link_model::{AreaName, Definition, Linked, Named, Placement};
use link_values::{AreaBases, AreaOffset, SymbolValue, area_at, symbol_values, value_at};
use sdt_fault::{List, NoMemory};
use std::alloc::Global;

/// A definition with the value of its symbol.
#[derive(Clone, Copy)]
pub struct Listed<'a> {
    pub definition: &'a Definition,
    pub value: SymbolValue,
}

fn listed_as<'a>(values: &[List<SymbolValue>], definition: &'a Definition) -> Listed<'a>
    ensures { shown result ≡ valued values.now definition.now }
{
    Listed {
        definition,
        value: value_at(values, definition.object, definition.symbol),
    }
}

fn all_listed<'a>(
    alloc: Global,
    values: &[List<SymbolValue>],
    definitions: &'a [Definition],
) -> Result<Vec<Listed<'a>>, NoMemory>
    ensures { IfOk result (λ all. map shown all.items ≡ map (valued values.now) definitions.now) }
{
    let mut all = Vec::new(alloc);
    for definition in definitions {
        all.push(listed_as(values, definition))?;
    }
    Ok(all)
}

/// By value, and then as they stand.
fn put_in_order(all: &mut Vec<Listed>) -> Result<(), NoMemory>
    ensures { OnOk result (map shown all.new.items ≡ symbols.by_value (map shown all.old.items)) }
{
    all.sort_by(|one, other| one.value.number.cmp(&other.value.number))?;
    Ok(())
}

fn area_of_home(objects: &[Named<Object>], home: Option<AreaOffset>) -> Option<&Area>
    ensures { option_copied result ≡ symbols.area_of_home objects.now (option_map home_of home) }
{
    match home {
        None => None,
        Some(AreaOffset { object, area, .. }) => area_at(objects, AreaName { object, area }),
    }
}

fn is_code(area: Option<&Area>) -> bool
    ensures { result ≡ symbols.is_code (option_copied area.entry) }
{
    match area {
        None => false,
        Some(area) => area.flags().is_code(),
    }
}

fn symbol_state(area: Option<&Area>, value: SymbolValue) -> &'static [u8]
    ensures { result.now ≡ symbols.symbol_state (option_copied area.entry) (meant value) }
{
    if value.datum {
        return b"-";
    }
    if value.thumb {
        return b"THUMB";
    }
    if is_code(area) {
        return b"ARM";
    }
    b"-"
}

fn push_symbol(out: &mut Vec<u8>, objects: &[Named<Object>], listed: Listed) -> Result<(), NoMemory>
    ensures { OnOk result (out.new.items ≡ out.old.items ++ symbols.symbol_line objects.now (shown listed.entry)) }
{
    let area = area_of_home(objects, listed.value.home);
    push(out, b"symbol")?;
    push_eight(out, listed.value.number)?;
    push_field(out, symbol_state(area, listed.value))?;
    push_field(out, object_name(objects, listed.definition.object))?;
    push_field(out, name_of_area(area))?;
    push_field(out, listed.definition.name.as_slice())?;
    push(out, b"\n")
}

fn push_all(out: &mut Vec<u8>, objects: &[Named<Object>], all: &[Listed]) -> Result<(), NoMemory>
    ensures { OnOk result (out.new.items ≡ out.old.items ++ flat_map (symbols.symbol_line objects.now) (map shown all.now)) }
{
    for listed in all {
        push_symbol(out, objects, *listed)?;
    }
    Ok(())
}

fn push_valued(
    alloc: Global,
    out: &mut Vec<u8>,
    linked: &Linked,
    values: &[List<SymbolValue>],
) -> Result<(), NoMemory>
    ensures { OnOk result (out.new.items ≡ out.old.items ++ flat_map (symbols.symbol_line linked.now.objects)
        (symbols.by_value (map (valued values.now) linked.now.definitions))) }
{
    let mut all = all_listed(alloc, values, linked.definitions.as_slice())?;
    put_in_order(&mut all)?;
    push_all(out, linked.objects.as_slice(), all.as_slice())
}

/// Appends the lines of the names that linked objects export.
pub fn push_symbols(
    alloc: Global,
    out: &mut Vec<u8>,
    linked: &Linked,
    placement: &Placement,
    bases: &AreaBases,
) -> Result<(), NoMemory>
    requires { AreBases placement.now bases.now }
    ensures { OnOk result (out.new.items ≡ out.old.items ++ symbols.symbols_text linked.now placement.now) }
{
    let values = symbol_values(alloc, linked, placement, bases)?;
    push_valued(alloc, out, linked, values.as_slice())?;
    Ok(())
}
