//! The symbols of objects.

ghost use Rattle.std.specs.Prelude.{◌≡◌, ◌<◌, ◌≤◌, ◌++◌, IfOk, OnOk, length};
ghost use Rattle.std.specs.Option.{option_map};
ghost use Rattle.sdt_word.specs.Numbers.{flag};
ghost use Rattle.patch_model.specs.Fields.{is_thumb_label};
ghost use Rattle.link_model.specs.Members.{objects_in};
ghost use Rattle.link_values.specs.Values.{home, meant};
ghost use Rattle.link_symbols.specs.Shown.{shown_in};
ghost use Rattle.link_symbols.specs.Symbols as tables;

use crate::marks::{SymbolSource, is_code, push_label_mark};
use crate::sections::{low_word, place_of};
use aof_object::{Object, Symbol};
use elf_image::{Binding, ElfSymbol, Section, SymbolKind, SymbolPlace};
use link_model::{Named, to_u32};
use link_values::{AreaOffset, SymbolValue, value_at};
use sdt_fault::NoMemory;
use std::alloc::Global;

/// Which of the symbols that objects give are listed.
#[derive(Clone, Copy)]
pub enum Listed {
    /// The mapping symbols at labels.
    Marks,
    /// The definitions that are known in their object alone.
    Locals,
    /// The definitions that all objects know.
    Exported,
}

// ---- one definition

/// Whether a value is that of a label of Thumb code, as 0 or 1.
fn thumb_bit(value: SymbolValue) -> u64
    ensures is { result ≡ flag (is_thumb_label (meant value)) }
    ensures small { result ≤ 1 }
{
    match value.home {
        None => 0,
        Some(_) => u64::from(value.thumb && !value.datum),
    }
}

fn final_value(value: SymbolValue) -> u32
    ensures { result ≡ tables.final_value (meant value) }
{
    let number = u64::from(low_word(value.number));
    low_word(number + thumb_bit(value))
}

fn binding_of(symbol: &Symbol) -> Binding
    ensures { result ≡ tables.binding_of symbol.now.attributes }
{
    if !symbol.flags().is_exported() {
        return Binding::Local;
    }
    if symbol.flags().is_weak() {
        Binding::Weak
    } else {
        Binding::Global
    }
}

fn kind_of(objects: &[Named<Object>], datum: bool, place: Option<AreaOffset>) -> SymbolKind
    ensures { result ≡ tables.kind_of (objects_in objects.now) datum (option_map home place) }
{
    let Some(place) = place else {
        return SymbolKind::Untyped;
    };
    if is_code(objects, place) && !datum {
        SymbolKind::Function
    } else {
        SymbolKind::Object
    }
}

fn place_in(sections: &[Section], number: u64, place: Option<AreaOffset>) -> SymbolPlace
    requires { length sections.now < 0xFEFC }
    ensures { result ≡ tables.place_in sections.now number (option_map home place) }
{
    match place {
        None => SymbolPlace::Absolute,
        Some(_) => place_of(low_word(number), sections),
    }
}

fn definition(
    alloc: Global,
    source: &SymbolSource,
    symbol: &Symbol,
    value: SymbolValue,
) -> Result<ElfSymbol, NoMemory>
    requires { length source.now.sections.now < 0xFEFC }
    ensures { IfOk result (λ s. s ≡ tables.definition (shown_in source.now) symbol.now (meant value)) }
{
    Ok(ElfSymbol {
        name: symbol.name.try_clone(alloc)?,
        value: final_value(value),
        binding: binding_of(symbol),
        kind: kind_of(source.objects, value.datum, value.home),
        place: place_in(source.sections, value.number, value.home),
    })
}

/// Writes a definition of a scope: 1 for local ones, 3 for exported ones.
fn push_scoped(
    alloc: Global,
    out: &mut Vec<ElfSymbol>,
    source: &SymbolSource,
    scope: u32,
    symbol: &Symbol,
    value: SymbolValue,
) -> Result<(), NoMemory>
    requires { length source.now.sections.now < 0xFEFC }
    ensures { OnOk result (out.new.items ≡ out.old.items ++ tables.scoped (shown_in source.now) scope symbol.now (meant value)) }
{
    if symbol.attributes % 4 != scope {
        return Ok(());
    }
    out.push(definition(alloc, source, symbol, value)?)?;
    Ok(())
}

// ---- all of them

fn push_listed(
    alloc: Global,
    out: &mut Vec<ElfSymbol>,
    source: &SymbolSource,
    which: Listed,
    symbol: &Symbol,
    value: SymbolValue,
) -> Result<(), NoMemory>
    requires { length source.now.sections.now < 0xFEFC }
    ensures { OnOk result (out.new.items ≡ out.old.items ++ tables.listed (shown_in source.now) which symbol.now (meant value)) }
{
    match which {
        Listed::Marks => push_label_mark(alloc, out, source, value),
        Listed::Locals => push_scoped(alloc, out, source, 1, symbol, value),
        Listed::Exported => push_scoped(alloc, out, source, 3, symbol, value),
    }
}

/// Writes what one object gives.
fn push_object(
    alloc: Global,
    out: &mut Vec<ElfSymbol>,
    source: &SymbolSource,
    which: Listed,
    object: u32,
    symbols: &[Symbol],
) -> Result<(), NoMemory>
    requires { length source.now.sections.now < 0xFEFC }
    ensures { OnOk result (out.new.items ≡ out.old.items ++ tables.listed_in (shown_in source.now) which object 0 symbols.now) }
{
    for (k, symbol) in symbols.iter().enumerate() {
        let value = value_at(source.values, object, to_u32(k)?);
        push_listed(alloc, out, source, which, symbol, value)?;
    }
    Ok(())
}

fn push_objects(
    alloc: Global,
    out: &mut Vec<ElfSymbol>,
    source: &SymbolSource,
    which: Listed,
    objects: &[Named<Object>],
) -> Result<(), NoMemory>
    requires { length source.now.sections.now < 0xFEFC }
    ensures { OnOk result (out.new.items ≡ out.old.items ++ tables.listed_from (shown_in source.now) which 0 (objects_in objects.now)) }
{
    for (i, object) in objects.iter().enumerate() {
        let symbols = object.value.symbols.as_slice();
        push_object(alloc, out, source, which, to_u32(i)?, symbols)?;
    }
    Ok(())
}

/// Writes the symbols of a list that the objects give, in their order.
pub fn push_labels(
    alloc: Global,
    out: &mut Vec<ElfSymbol>,
    source: &SymbolSource,
    which: Listed,
) -> Result<(), NoMemory>
    requires { length source.now.sections.now < 0xFEFC }
    ensures { OnOk result (out.new.items ≡ out.old.items
        ++ tables.listed_from (shown_in source.now) which 0 (shown_in source.now).objects) }
{
    push_objects(alloc, out, source, which, source.objects)
}
