//! The kinds of faults that values have, once all names are known.

ghost use Rattle.std.specs.Prelude.{◌≡◌, ℕ, List, Option, IfOk};
ghost use Rattle.asm_model.specs.declared.names.Names.{Names};
ghost use Rattle.asm_model.specs.Kinds.{told_kind};
ghost use Rattle.asm_model.specs.Meaning.{named_in};
ghost use Rattle.asm_model.specs.declared.statements.What.{What};
ghost use Rattle.asm_model.specs.LayoutKinds.{fault_kinds};
ghost use Rattle.asm_model.specs.Said.{DirectiveSaid, WhatSaid};
ghost use Rattle.source_model.specs.Contexts.{Context};
ghost use Rattle.source_model.specs.ValueKinds as model;
ghost use Rattle.asm_instructions.specs.Lookups.{context_of};
ghost use Rattle.asm_units.specs.Showing.{ShowsTables, sizes_of};

use crate::tables::LineTables;
use asm_expr::slots::{Slot, known};
use asm_expr::told::kind_if;
use asm_instructions::lookups::stands_at;
use asm_instructions::values::value_there;
use asm_model::{DirectiveLine, SharedText, Value, What};
use sdt_fault::NoMemory;
use sdt_fault::kinds::LineKind;
use std::alloc::Global;

/// A fault unless a test holds.
fn kind_unless(holds: bool, kind: LineKind) -> Option<LineKind>
    ensures { result ≡ told_kind (model.kinds_unless holds kind) }
{
    if holds {
        return None;
    }
    Some(kind)
}

/// The size of an area; 0 of one that isn't listed.
fn size_of(tables: &LineTables<'_>, area: u32) -> u32
    ensures { result ≡ sizes_of tables.now area }
{
    match tables.sizes.get(area as usize) {
        None => 0,
        Some(size) => *size,
    }
}

/// Whether a place of this source is in its label's area, or at its end.
fn lies_within(tables: &LineTables<'_>, place: Option<(u32, u32)>, plus: u32) -> bool
    ensures { result ≡ model.lies_within (sizes_of tables.now) place plus }
{
    match place {
        None => false,
        Some((area, offset)) => offset.wrapping_add(plus) <= size_of(tables, area),
    }
}

/// The kind of a name with a value, or with none, in EXPORT and KEEP.
fn exported_kind(tables: &LineTables<'_>, value: Result<Value, LineKind>) -> Option<LineKind>
    ensures { result ≡ told_kind
        (model.exported_kinds (context_of tables.now.lookup) (sizes_of tables.now) value) }
{
    match value {
        Ok(Value::Number(_)) => None,
        Ok(Value::Place { symbol, plus }) => {
            let place = stands_at(&tables.lookup, &symbol);
            kind_unless(lies_within(tables, place, plus), LineKind::WrongType)
        }
        _ => Some(LineKind::WrongType),
    }
}

/// The kind of a name in EXPORT and KEEP.
fn export_kind(
    alloc: Global,
    tables: &LineTables<'_>,
    name: &SharedText,
) -> Result<Option<LineKind>, NoMemory>
    ensures { IfOk result (λ kind. kind
        ≡ told_kind (model.export_kinds (context_of tables.now.lookup) (sizes_of tables.now)
        (named_in name.now tables.now.lookup.names.now))) }
{
    match tables.lookup.names.find(name) {
        None => Ok(Some(LineKind::UnknownWord)),
        Some(entry) => {
            let value = known(alloc, Slot::Name(Some(entry)))?;
            Ok(exported_kind(tables, value))
        }
    }
}

fn value_fault(value: Result<Value, LineKind>) -> Option<LineKind>
    ensures { result ≡ told_kind (fault_kinds value) }
{
    match value {
        Ok(_) => None,
        Err(kind) => Some(kind),
    }
}

/// The kind of an ASSERT.
fn assert_kind(value: Result<Value, LineKind>) -> Option<LineKind>
    ensures { result ≡ told_kind (model.assert_kinds value) }
{
    match value {
        Ok(Value::Truth(holds)) => kind_if(!holds, LineKind::Assert),
        Ok(_) => Some(LineKind::WrongType),
        Err(kind) => Some(kind),
    }
}

fn directive_there(
    alloc: Global,
    tables: &LineTables<'_>,
    line: &DirectiveLine,
) -> Result<Option<LineKind>, NoMemory>
    requires { DirectiveSaid line.now }
    ensures { IfOk result (λ kind. kind
        ≡ told_kind (model.directive_kinds (context_of tables.now.lookup)
        (sizes_of tables.now) line.now)) }
{
    match line {
        DirectiveLine::Export { name } => export_kind(alloc, tables, name),
        DirectiveLine::Keep { name } => export_kind(alloc, tables, name),
        DirectiveLine::Equ { value } => {
            let value = value_there(alloc, &tables.lookup, value)?;
            Ok(value_fault(value))
        }
        DirectiveLine::Assert { condition } => {
            let value = value_there(alloc, &tables.lookup, condition)?;
            Ok(assert_kind(value))
        }
        DirectiveLine::Area { .. }
        | DirectiveLine::Entry
        | DirectiveLine::End
        | DirectiveLine::Import { .. }
        | DirectiveLine::Extern { .. }
        | DirectiveLine::Rn { .. }
        | DirectiveLine::Rout
        | DirectiveLine::Nofp
        | DirectiveLine::Opt { .. }
        | DirectiveLine::Ttl
        | DirectiveLine::Subt
        | DirectiveLine::Constants { .. }
        | DirectiveLine::Space { .. }
        | DirectiveLine::Align { .. }
        | DirectiveLine::Ltorg
        | DirectiveLine::Data
        | DirectiveLine::Map { .. }
        | DirectiveLine::Field { .. }
        | DirectiveLine::Code16
        | DirectiveLine::Code32 => Ok(None),
    }
}

fn statement_there(
    alloc: Global,
    tables: &LineTables<'_>,
    what: &What,
) -> Result<Option<LineKind>, NoMemory>
    requires { WhatSaid what.now }
    ensures { IfOk result (λ kind. kind
        ≡ told_kind (model.statement_kinds (context_of tables.now.lookup)
        (sizes_of tables.now) what.now)) }
{
    match what {
        What::Directive(line) => directive_there(alloc, tables, line),
        What::Nothing | What::Arm(_) | What::Thumb(_) | What::Pseudo(_) => Ok(None),
    }
}

/// The kind of a statement's own values: of a name for an expression, of EXPORT, KEEP and ASSERT.
pub fn statement_kind(
    alloc: Global,
    tables: &LineTables<'_>,
    what: &What,
) -> Result<Option<LineKind>, NoMemory>
    requires { WhatSaid what.now }
    ensures { IfOk result
        (λ kind. (c : Context) (data_names : List (List ℕ)) (sizes : ℕ
        → ℕ) (s : Names) (word : Option ℕ)
        → ShowsTables tables.now c data_names sizes s word what.now → kind
        ≡ told_kind (model.statement_kinds c sizes what.now)) }
{
    statement_there(alloc, tables, what)
}
