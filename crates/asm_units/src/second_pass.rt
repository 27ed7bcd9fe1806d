//! Pass 2 of a line.

ghost use Rattle.std.specs.Prelude.{◌≡◌, ℕ, List, Option, Some, IfOk};
ghost use Rattle.std.specs.Option.{option_copied};
ghost use Rattle.asm_model.specs.declared.names.Names.{Names};
ghost use Rattle.asm_model.specs.FaultSets as sets;
ghost use Rattle.asm_model.specs.Kinds.{told_kind};
ghost use Rattle.asm_model.specs.Extents.{Extent};
ghost use Rattle.asm_model.specs.LayoutKinds.{fault_kinds};
ghost use Rattle.asm_model.specs.declared.statements.What.{What as Said};
ghost use Rattle.asm_model.specs.Said.{WhatSaid};
ghost use Rattle.source_model.specs.Contexts.{Context};
ghost use Rattle.source_model.specs.Units.{stored};
ghost use Rattle.source_model.specs.ValueKinds as model;
ghost use Rattle.asm_instructions.specs.Lookups.{Shows};
ghost use Rattle.asm_units.specs.Literals.{literal_in};
ghost use Rattle.asm_units.specs.Passing.{AreJoined, IsNumber, IsPassTwo};
ghost use Rattle.asm_units.specs.Showing.{ShowsTables};

use crate::emitted::{Emission, LineUnits};
use crate::kinds::statement_kind;
use crate::literals::literal_value;
use crate::statements::units;
use crate::tables::LineTables;
use asm_expr::kinds::earlier;
use asm_expr::told::first_told;
use asm_instructions::{Lookup, number_in};
use asm_model::{DirectiveLine, RnOperand, Value, What};
use sdt_fault::NoMemory;
use sdt_fault::kinds::LineKind;
use std::alloc::Global;

/// The kind of the fault of a word with a value.
fn word_fault(value: &Result<Value, LineKind>) -> Option<LineKind>
    ensures { (c : Context) (data_names : List (List ℕ))
        → result ≡ told_kind (fault_kinds (stored c data_names value.now)) }
{
    match value {
        Ok(Value::Number(_)) => None,
        Ok(Value::Place { .. }) => None,
        Ok(_) => Some(LineKind::WrongType),
        Err(kind) => Some(*kind),
    }
}

/// The kind of the fault of the literal that a statement loads.
fn literal_kind(
    alloc: Global,
    tables: &LineTables<'_>,
    value: Option<&Value>,
) -> Result<Option<LineKind>, NoMemory>
    ensures { IfOk result
        (λ kind. (c : Context) (data_names : List (List ℕ)) (sizes : ℕ
        → ℕ) (s : Names) (word : Option ℕ) (said : Said) (e : Extent)
        → ShowsTables tables.now c data_names sizes s word said → literal_in e
        ≡ option_copied value.entry → kind ≡ told_kind (model.literal_kinds c data_names e)) }
{
    match value {
        None => Ok(None),
        Some(value) => {
            let word = literal_value(alloc, tables.lookup.names, value)?;
            Ok(word_fault(&word))
        }
    }
}

/// The number that RN is given.
fn given_number(
    alloc: Global,
    lookup: &Lookup<'_>,
    what: &What,
) -> Result<Result<u32, LineKind>, NoMemory>
    requires { WhatSaid what.now }
    ensures { IfOk result (λ number. (c : Context) → Shows lookup.now c
        → IsNumber c what.now number) }
{
    match what {
        What::Directive(
            DirectiveLine::Rn {
                register: RnOperand::Number(e),
            },
        ) => number_in(alloc, lookup, e),
        _ => Ok(Ok(0)),
    }
}

/// A kind, or another that is told before it.
fn kind_with(kind: LineKind, other: Option<LineKind>) -> LineKind
    ensures { Some result ≡ sets.first_told (Some kind) other }
{
    match other {
        None => kind,
        Some(other) => earlier(kind, other),
    }
}

/// What a line puts, where none of its parts has a fault; else the kind that is told.
fn joined(
    units: Result<Emission, LineKind>,
    said: Option<LineKind>,
    number: Result<u32, LineKind>,
) -> Result<LineUnits, LineKind>
    ensures { AreJoined units said number result }
{
    match (units, said) {
        (Ok(units), None) => Ok(LineUnits { units, number }),
        (Ok(_), Some(kind)) => Err(kind),
        (Err(kind), said) => Err(kind_with(kind, said)),
    }
}

/// Pass 2 of a line, whose literal, if it has one, is this: what the line puts into its area and what its RN gives, or the
/// kind that is told of the faults of its values.
pub fn pass_two(
    alloc: Global,
    tables: &LineTables<'_>,
    value: Option<&Value>,
    what: &What,
) -> Result<Result<LineUnits, LineKind>, NoMemory>
    requires { WhatSaid what.now }
    ensures { IfOk result
        (λ r. (c : Context) (data_names : List (List ℕ)) (sizes : ℕ
        → ℕ) (s : Names) (word : Option ℕ) (e : Extent)
        → ShowsTables tables.now c data_names sizes s word what.now → literal_in e
        ≡ option_copied value.entry → IsPassTwo c data_names sizes s e word what.now r) }
{
    let units = units(alloc, tables, what)?;
    let loads = literal_kind(alloc, tables, value)?;
    let said = statement_kind(alloc, tables, what)?;
    let number = given_number(alloc, &tables.lookup, what)?;
    Ok(joined(units, first_told(loads, said), number))
}
