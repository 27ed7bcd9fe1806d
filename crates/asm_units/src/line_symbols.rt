//! The symbols that lines name or need.

ghost use Rattle.std.specs.Prelude.{◌≡◌, OnOk};
ghost use Rattle.std.specs.Option.{option_copied};
ghost use Rattle.asm_names.specs.PlacedLines.{line_of, Sees};
ghost use Rattle.asm_model.specs.AtLine.{SourceLine};
ghost use Rattle.asm_model.specs.Extents.{Extent};
ghost use Rattle.asm_model.specs.Symbols as model;
ghost use Rattle.asm_model.specs.Said.{AllRead, ArmSaid, DirectiveSaid, ThumbSaid, WhatSaid};
ghost use Rattle.asm_model.specs.SaidParts.{TargetSaid};
ghost use Rattle.asm_units.specs.Literals.{literal_in};
ghost use Rattle.asm_units.specs.Listing.{statement_symbols};

use crate::needs::{add_branch, add_literal, add_name, add_words};
use crate::symbols::Symbols;
use asm_instructions::Lookup;
use asm_model::{
    ArmLine, DirectiveLine, Expr, Held, ThumbLine, Value, What, arm_target, held_by, thumb_target,
};
use sdt_fault::NoMemory;
use std::alloc::Global;

/// Adds the symbols of values that are held so.
fn add_held(
    alloc: Global,
    symbols: &mut Symbols,
    lookup: &Lookup<'_>,
    held: Held,
    values: &[Expr],
) -> Result<(), NoMemory>
    requires { AllRead values.now }
    ensures { OnOk result (symbols.new
        ≡ model.listed_behind symbols.old
        (model.held_symbols lookup.now.names.now (line_of lookup.now.line.now) held values.now)) }
{
    match held {
        Held::Relocatable => add_words(alloc, symbols, lookup, values),
        Held::Fixed(_) | Held::Strings => Ok(()),
    }
}

fn add_directive(
    alloc: Global,
    symbols: &mut Symbols,
    lookup: &Lookup<'_>,
    line: &DirectiveLine,
) -> Result<(), NoMemory>
    requires { DirectiveSaid line.now }
    ensures { OnOk result (symbols.new
        ≡ model.listed_behind symbols.old
        (model.directive_symbols lookup.now.names.now (line_of lookup.now.line.now) line.now)) }
{
    match line {
        DirectiveLine::Export { name } => add_name(alloc, symbols, name),
        DirectiveLine::Keep { name } => add_name(alloc, symbols, name),
        DirectiveLine::Import { name, mark: _ } => add_name(alloc, symbols, name),
        DirectiveLine::Constants { item, values } => {
            add_held(alloc, symbols, lookup, held_by(*item), values.as_slice())
        }
        DirectiveLine::Area { .. }
        | DirectiveLine::Entry
        | DirectiveLine::End
        | DirectiveLine::Extern { .. }
        | DirectiveLine::Equ { .. }
        | DirectiveLine::Rn { .. }
        | DirectiveLine::Rout
        | DirectiveLine::Assert { .. }
        | DirectiveLine::Nofp
        | DirectiveLine::Opt { .. }
        | DirectiveLine::Ttl
        | DirectiveLine::Subt
        | DirectiveLine::Space { .. }
        | DirectiveLine::Align { .. }
        | DirectiveLine::Ltorg
        | DirectiveLine::Data
        | DirectiveLine::Map { .. }
        | DirectiveLine::Field { .. }
        | DirectiveLine::Code16
        | DirectiveLine::Code32 => Ok(()),
    }
}

/// Adds the symbol of a branch, where there is one.
fn add_target(
    alloc: Global,
    symbols: &mut Symbols,
    lookup: &Lookup<'_>,
    target: Option<&Expr>,
) -> Result<(), NoMemory>
    requires { TargetSaid (option_copied target) }
    ensures { OnOk result (symbols.new
        ≡ model.listed_behind symbols.old
        (model.target_symbols lookup.now.names.now (line_of lookup.now.line.now)
        (option_copied target.entry))) }
{
    match target {
        None => Ok(()),
        Some(target) => add_branch(alloc, symbols, lookup, target),
    }
}

fn add_arm(
    alloc: Global,
    symbols: &mut Symbols,
    lookup: &Lookup<'_>,
    line: &ArmLine,
) -> Result<(), NoMemory>
    requires { ArmSaid line.now }
    ensures { OnOk result (symbols.new
        ≡ model.listed_behind symbols.old
        (model.arm_symbols lookup.now.names.now (line_of lookup.now.line.now) line.now)) }
{
    add_target(alloc, symbols, lookup, arm_target(line))
}

fn add_thumb(
    alloc: Global,
    symbols: &mut Symbols,
    lookup: &Lookup<'_>,
    line: &ThumbLine,
) -> Result<(), NoMemory>
    requires { ThumbSaid line.now }
    ensures { OnOk result (symbols.new
        ≡ model.listed_behind symbols.old
        (model.thumb_symbols lookup.now.names.now (line_of lookup.now.line.now) line.now)) }
{
    add_target(alloc, symbols, lookup, thumb_target(line))
}

fn add_statement(
    alloc: Global,
    symbols: &mut Symbols,
    lookup: &Lookup<'_>,
    literal: Option<&Value>,
    what: &What,
) -> Result<(), NoMemory>
    requires { WhatSaid what.now }
    ensures { OnOk result (symbols.new
        ≡ model.listed_behind symbols.old
        (statement_symbols lookup.now.names.now (line_of lookup.now.line.now)
        (option_copied literal.entry) what.now)) }
{
    match what {
        What::Nothing => Ok(()),
        What::Arm(line) => add_arm(alloc, symbols, lookup, line),
        What::Thumb(line) => add_thumb(alloc, symbols, lookup, line),
        What::Pseudo(_) => add_literal(alloc, symbols, lookup, literal),
        What::Directive(line) => add_directive(alloc, symbols, lookup, line),
    }
}

/// Adds the symbols that the lookup's line names or needs, where its literal, if it has one, is this.
pub fn add_line(
    alloc: Global,
    symbols: &mut Symbols,
    lookup: &Lookup<'_>,
    literal: Option<&Value>,
) -> Result<(), NoMemory>
    requires { WhatSaid lookup.now.line.now.statement.now.what }
    ensures { OnOk result ((f : SourceLine) (e : Extent) → Sees lookup.now.line.now f → literal_in e
        ≡ option_copied literal.entry → symbols.new
        ≡ model.listed_behind symbols.old
        (model.symbols_in lookup.now.names.now f e lookup.now.line.now.statement.now.what)) }
{
    add_statement(alloc, symbols, lookup, literal, &lookup.line.statement.what)
}
