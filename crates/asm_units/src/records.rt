//! The records of symbols.

ghost use Rattle.std.specs.Prelude.{◌≡◌, ◌+◌, ◌*◌, ◌&&◌, ◌^◌, false, get_or, IfOk};
ghost use Rattle.std.specs.List.{list_any};
ghost use Rattle.sdt_word.specs.Numbers.{flag as flag_of};
ghost use Rattle.aof_object.specs.Flags.{scope_bits};
ghost use Rattle.asm_model.specs.Meaning as meaning;
ghost use Rattle.asm_model.specs.Forms.{same};
ghost use Rattle.source_model.specs.Contexts.{sees};
ghost use Rattle.source_model.specs.Objects as objects;
ghost use Rattle.source_model.specs.Objects.{Source};
ghost use Rattle.asm_units.specs.Recording.{Shows};

use crate::named::{is_thumb, stands_at, value_named};
use aof_object::{Scope, Symbol, SymbolParts};
use asm_model::{SharedText, Value};
use asm_names::KnownNames;
use asm_sets::NameRefs;
use sdt_fault::NoMemory;
use sdt_fault::kinds::LineKind;
use std::alloc::Global;

/// What the records of symbols say of a source: which names have which flags.
#[derive(Clone, Copy)]
pub struct SymbolFlags<'a> {
    /// All names of the source.
    pub names: &'a KnownNames,
    /// The names that EXPORT has.
    pub exported: &'a NameRefs<'a>,
    /// The names that are imported as weak.
    pub weak: &'a NameRefs<'a>,
    /// The labels that are data.
    pub data: &'a NameRefs<'a>,
    /// Of each area, by number, whether it holds code.
    pub code: &'a [bool],
}

fn scope(flags: &SymbolFlags<'_>, name: &SharedText) -> Scope
    ensures { (s : Source) → Shows flags.now s → scope_bits result ≡ objects.scope s name.now }
{
    if flags.exported.has(name) {
        return Scope::Exported;
    }
    Scope::Local
}

fn holds_code(code: &[bool], area: u32) -> bool
    ensures { result ≡ get_or code.now area false }
{
    match code.get(area as usize) {
        None => false,
        Some(holds) => *holds,
    }
}

/// Whether a label is a datum in a code area.
fn is_marked(flags: &SymbolFlags<'_>, label: &SharedText, area: u32) -> bool
    ensures { result ≡ list_any (same label.now) flags.now.data.now
        && get_or flags.now.code.now area false }
{
    if flags.data.has(label) {
        return holds_code(flags.code, area);
    }
    false
}

/// The attributes of a label in an area.
fn label_word(flags: &SymbolFlags<'_>, name: &SharedText, label: &SharedText, area: u32) -> u32
    ensures { (s : Source) → Shows flags.now s → result ≡ objects.scope s name.now + objects.marks_of s label.now area }
{
    SymbolParts {
        scope: scope(flags, name),
        absolute: false,
        weak: false,
        datum: is_marked(flags, label, area),
        thumb: is_thumb(flags.names, label),
    }
    .word()
}

/// The attributes of a name that isn't defined.
fn reference_word(weak: bool) -> u32
    ensures { result ≡ 2 + flag_of weak * 2 ^ 4 }
{
    SymbolParts {
        scope: Scope::Reference,
        absolute: false,
        weak,
        datum: false,
        thumb: false,
    }
    .word()
}

fn absolute_word(scope: Scope) -> u32
    ensures { result ≡ scope_bits scope + 2 ^ 2 }
{
    SymbolParts {
        scope,
        absolute: true,
        weak: false,
        datum: false,
        thumb: false,
    }
    .word()
}

/// Where a label stands.
fn label_place(flags: &SymbolFlags<'_>, label: &SharedText) -> Option<(u32, u32)>
    ensures { (s : Source) → Shows flags.now s → result
        ≡ meaning.stands_at (sees (objects.context_in s None)) label.now }
{
    stands_at(flags.names, None, label)
}

fn undefined(alloc: Global, flags: &SymbolFlags<'_>, name: &SharedText) -> Result<Symbol, NoMemory>
    ensures { IfOk result (λ symbol. (s : Source) → Shows flags.now s → symbol
        ≡ record {
          name = name.now;
          attributes = 2 + flag_of
              (objects.is_weak s name.now) * 2 ^ 4;
          value = 0;
          area = None;
        }) }
{
    let name_copy = name.to_text(alloc)?;
    Ok(Symbol {
        name: name_copy,
        attributes: reference_word(flags.weak.has(name)),
        value: 0,
        area: None,
    })
}

fn placed(
    alloc: Global,
    flags: &SymbolFlags<'_>,
    name: &SharedText,
    label: &SharedText,
    plus: u32,
    place: Option<(u32, u32)>,
) -> Result<Symbol, NoMemory>
    ensures { IfOk result (λ symbol. (s : Source) → Shows flags.now s → symbol
        ≡ objects.symbol_placed s name.now label.now plus place) }
{
    match place {
        None => undefined(alloc, flags, name),
        Some((area, offset)) => {
            let name_copy = name.to_text(alloc)?;
            Ok(Symbol {
                name: name_copy,
                attributes: label_word(flags, name, label, area),
                value: offset.wrapping_add(plus),
                area: Some(area),
            })
        }
    }
}

/// The record of a name with no value.
fn unvalued(alloc: Global, name: &SharedText) -> Result<Symbol, NoMemory>
    ensures { IfOk result (λ symbol. symbol
        ≡ record { name = name.now; attributes = 0; value = 0; area = None }) }
{
    let name = name.to_text(alloc)?;
    Ok(Symbol {
        name,
        attributes: 0,
        value: 0,
        area: None,
    })
}

fn absolute(
    alloc: Global,
    flags: &SymbolFlags<'_>,
    name: &SharedText,
    number: u32,
) -> Result<Symbol, NoMemory>
    ensures { IfOk result (λ symbol. (s : Source) → Shows flags.now s → symbol
        ≡ record {
          name = name.now;
          attributes = objects.scope s name.now
              + 2 ^ 2;
          value = number;
          area = None;
        }) }
{
    let name_copy = name.to_text(alloc)?;
    Ok(Symbol {
        name: name_copy,
        attributes: absolute_word(scope(flags, name)),
        value: number,
        area: None,
    })
}

fn valued(
    alloc: Global,
    flags: &SymbolFlags<'_>,
    name: &SharedText,
    value: Result<Value, LineKind>,
) -> Result<Symbol, NoMemory>
    ensures { IfOk result (λ symbol. (s : Source) → Shows flags.now s → symbol
        ≡ objects.symbol_valued s name.now value) }
{
    match value {
        Ok(Value::Number(number)) => absolute(alloc, flags, name, number),
        Ok(Value::Place { symbol, plus }) => {
            let place = label_place(flags, &symbol);
            placed(alloc, flags, name, &symbol, plus, place)
        }
        _ => unvalued(alloc, name),
    }
}

/// The record of a symbol.
pub fn record_of(
    alloc: Global,
    name: &SharedText,
    flags: &SymbolFlags<'_>,
) -> Result<Symbol, NoMemory>
    ensures { IfOk result (λ symbol. (s : Source) → Shows flags.now s → symbol
        ≡ objects.symbol_named s name.now) }
{
    let value = value_named(alloc, flags.names, name)?;
    valued(alloc, flags, name, value)
}
