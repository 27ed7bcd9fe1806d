//! What a statement puts into its area.

ghost use Rattle.std.specs.Prelude.{◌≡◌, ℕ, List, Option, IfOk};
ghost use Rattle.asm_model.specs.declared.names.Names.{Names};
ghost use Rattle.asm_model.specs.declared.statements.What.TheVariants as kinds;
ghost use Rattle.asm_model.specs.OccupiedCode.{occupied_of_code};
ghost use Rattle.asm_model.specs.Said.{AllRead, DirectiveSaid, WhatSaid};
ghost use Rattle.asm_model.specs.SaidParts.{OccupiedSaid};
ghost use Rattle.source_model.specs.Contexts.{Context};
ghost use Rattle.source_model.specs.Units as model;
ghost use Rattle.asm_instructions.specs.Lookups.{context_of};
ghost use Rattle.asm_units.specs.Emitting.{all_emitted};
ghost use Rattle.asm_units.specs.Marked as marked;
ghost use Rattle.asm_units.specs.Showing.{ShowsTables};

use crate::bytes::{bytes, numbers};
use crate::emitted::Emission;
use crate::instructions::{arm, pseudo, thumb};
use crate::stored_words::words;
use crate::tables::LineTables;
use asm_model::{DirectiveLine, Expr, Held, Occupied, What, held_by, occupied_by};
use sdt_fault::NoMemory;
use sdt_fault::kinds::LineKind;
use std::alloc::Global;

/// Values that are held so.
fn held_units(
    alloc: Global,
    tables: &LineTables<'_>,
    held: Held,
    values: &[Expr],
) -> Result<Result<Emission, LineKind>, NoMemory>
    requires { AllRead values.now }
    ensures { IfOk result (λ us. all_emitted us
        ≡ marked.marked_held (context_of tables.now.lookup) tables.now.data.now
        tables.now.strings.now held values.now) }
{
    match held {
        Held::Relocatable => words(alloc, tables, values),
        Held::Fixed(width) => numbers(alloc, tables, width, values),
        Held::Strings => bytes(alloc, tables, values),
    }
}

fn occupied_units(
    alloc: Global,
    tables: &LineTables<'_>,
    occupied: Occupied<'_>,
) -> Result<Result<Emission, LineKind>, NoMemory>
    requires { OccupiedSaid (occupied_of_code occupied) }
    ensures { IfOk result (λ us. all_emitted us
        ≡ marked.marked_occupied (context_of tables.now.lookup) tables.now.data.now
        tables.now.strings.now (occupied_of_code occupied.entry)) }
{
    match occupied {
        Occupied::Items(item, values) => held_units(alloc, tables, held_by(item), values),
        Occupied::Unplaced
        | Occupied::Opening(_)
        | Occupied::Marking
        | Occupied::Entering
        | Occupied::Zeroes(_)
        | Occupied::UpTo(_)
        | Occupied::Literals => Ok(Ok(Emission::Nothing)),
    }
}

fn directive_there(
    alloc: Global,
    tables: &LineTables<'_>,
    line: &DirectiveLine,
) -> Result<Result<Emission, LineKind>, NoMemory>
    requires { DirectiveSaid line.now }
    ensures { IfOk result (λ us. all_emitted us
        ≡ marked.marked_directive (context_of tables.now.lookup) tables.now.data.now
        tables.now.strings.now line.now) }
{
    occupied_units(alloc, tables, occupied_by(line))
}

fn directive(
    alloc: Global,
    tables: &LineTables<'_>,
    line: &DirectiveLine,
) -> Result<Result<Emission, LineKind>, NoMemory>
    requires { DirectiveSaid line.now }
    ensures { IfOk result
        (λ us. (c : Context) (data_names : List (List ℕ)) (sizes : ℕ
        → ℕ) (s : Names) (word : Option ℕ)
        → ShowsTables tables.now c data_names sizes s word (kinds.Directive line.now)
        → all_emitted us ≡ model.directive_units c data_names s line.now) }
{
    directive_there(alloc, tables, line)
}

/// What a statement puts into its area, or the kind of its fault.
pub fn units(
    alloc: Global,
    tables: &LineTables<'_>,
    what: &What,
) -> Result<Result<Emission, LineKind>, NoMemory>
    requires { WhatSaid what.now }
    ensures { IfOk result
        (λ us. (c : Context) (data_names : List (List ℕ)) (sizes : ℕ
        → ℕ) (s : Names) (word : Option ℕ)
        → ShowsTables tables.now c data_names sizes s word what.now → all_emitted us
        ≡ model.units c data_names s word what.now) }
{
    match what {
        What::Nothing => Ok(Ok(Emission::Nothing)),
        What::Arm(line) => arm(alloc, tables, line),
        What::Thumb(line) => thumb(alloc, tables, line),
        What::Pseudo(line) => pseudo(alloc, tables, line),
        What::Directive(line) => directive(alloc, tables, line),
    }
}
