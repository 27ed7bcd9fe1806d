//! What a statement defines, and the entry of its name.

ghost use Rattle.std.specs.Prelude.{◌≡◌, IfOk};
ghost use Rattle.asm_model.specs.Labels as labels;
ghost use Rattle.asm_names.specs.Defining.{defined_of, own_entry};

use crate::made::{field_entry, label_entry, register_entry};
use asm_model::{DirectiveLine, Expr, LaidName, RnOperand, SharedText, Statement, What};
use sdt_fault::NoMemory;
use std::alloc::Global;

/// What a statement defines by its label. A label on ROUT defines nothing.
#[derive(Clone, Copy)]
pub enum Defines<'a> {
    Unnamed,
    Label(&'a SharedText),
    /// A name for an expression.
    Equal(&'a SharedText, &'a Expr),
    /// A field of the storage map.
    MapField(&'a SharedText),
    RegisterName(&'a SharedText, &'a RnOperand),
}

fn directive_names<'a>(label: &'a SharedText, line: &'a DirectiveLine) -> Defines<'a>
    ensures { defined_of result ≡ labels.directive_defines label.now line.now }
{
    match line {
        DirectiveLine::Equ { value } => Defines::Equal(label, value),
        DirectiveLine::Rn { register } => Defines::RegisterName(label, register),
        DirectiveLine::Field { .. } => Defines::MapField(label),
        DirectiveLine::Rout => Defines::Unnamed,
        DirectiveLine::Area { .. }
        | DirectiveLine::Entry
        | DirectiveLine::End
        | DirectiveLine::Export { .. }
        | DirectiveLine::Import { .. }
        | DirectiveLine::Extern { .. }
        | DirectiveLine::Keep { .. }
        | DirectiveLine::Assert { .. }
        | DirectiveLine::Nofp
        | DirectiveLine::Opt { .. }
        | DirectiveLine::Ttl
        | DirectiveLine::Subt
        | DirectiveLine::Constants { .. }
        | DirectiveLine::Space { .. }
        | DirectiveLine::Align { .. }
        | DirectiveLine::Ltorg
        | DirectiveLine::Data
        | DirectiveLine::Map { .. }
        | DirectiveLine::Code16
        | DirectiveLine::Code32 => Defines::Label(label),
    }
}

fn named<'a>(label: &'a SharedText, what: &'a What) -> Defines<'a>
    ensures { defined_of result ≡ labels.what_defines label.now what.now }
{
    match what {
        What::Nothing | What::Arm(_) | What::Thumb(_) | What::Pseudo(_) => Defines::Label(label),
        What::Directive(line) => directive_names(label, line),
    }
}

/// What a statement defines.
pub fn defined_by(statement: &Statement) -> Defines<'_>
    ensures { defined_of result ≡ labels.defined_by statement.now }
{
    match &statement.label {
        None => Defines::Unnamed,
        Some(label) => named(label, &statement.what),
    }
}

/// The entry of a statement's own name, unless it is for an expression.
pub fn own_entry(
    alloc: Global,
    defines: &Defines<'_>,
    area: Option<u32>,
    offset: u32,
    size: Option<u32>,
    thumb: bool,
    map: u32,
) -> Result<Option<LaidName>, NoMemory>
    ensures { IfOk result (λ entry. entry
        ≡ own_entry (defined_of defines.now) area offset size thumb map) }
{
    match defines {
        Defines::Label(name) => {
            let entry = label_entry(alloc, name, area, offset, size, thumb)?;
            Ok(Some(entry))
        }
        Defines::MapField(name) => Ok(Some(field_entry(alloc, name, map)?)),
        Defines::RegisterName(name, _) => Ok(Some(register_entry(alloc, name)?)),
        _ => Ok(None),
    }
}
