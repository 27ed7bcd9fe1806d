//! Values of a statement's expressions by what is known at its line.

ghost use Rattle.std.specs.Prelude.{◌≡◌, ◌+◌, ◌%◌, ◌^◌, ℕ, Result, IfOk};
ghost use Rattle.sdt_fault.specs.declared.kinds.LineKind.{LineKind};
ghost use Rattle.asm_model.specs.Extents as extents;
ghost use Rattle.asm_model.specs.LayoutKinds.{exponent};
ghost use Rattle.asm_model.specs.Readings.{mapped, on_both};
ghost use Rattle.asm_expr.specs.Seeing.{seen_names};
ghost use Rattle.asm_names.specs.Values.{IsNumber};
ghost use Rattle.asm_model.specs.Said.{AllRead, DirectiveSaid, GivenSaid, IsRead, WhatSaid};
ghost use Rattle.asm_model.specs.declared.statements.What.TheVariants as kinds;
ghost use Rattle.asm_model.specs.declared.directives.DirectiveLine.TheVariants as lines;
ghost use Rattle.asm_model.specs.Laid.{directive_map};
ghost use Rattle.asm_laying.specs.Reading.{map_after, said_number, step_after};

use asm_expr::kinds::earlier;
use asm_expr::told::told_value;
use asm_expr::{Seen, value_seen};
use asm_model::{DirectiveLine, EvalFault, Expr, RnOperand, Value, What};
use asm_names::{literal_at, number_at};
use sdt_fault::NoMemory;
use sdt_fault::kinds::LineKind;
use std::alloc::Global;

fn told_number(number: Result<u32, EvalFault>) -> Result<Result<u32, LineKind>, NoMemory>
    ensures { (m : Result ℕ LineKind) → IsNumber m number → IfOk result (λ told. told ≡ m) }
{
    match number {
        Ok(number) => Ok(Ok(number)),
        Err(EvalFault::Kind(kind)) => Ok(Err(kind)),
        Err(EvalFault::NoMemory) => Err(NoMemory),
    }
}

/// The value of an expression, or the kind of its fault.
pub fn value_there(
    alloc: Global,
    e: &Expr,
    seen: &Seen<'_>,
) -> Result<Result<Value, LineKind>, NoMemory>
    requires { IsRead e.now }
    ensures { IfOk result (λ value. value ≡ extents.value_there (seen_names seen.now) e.now) }
{
    told_value(value_seen(alloc, e, seen))
}

/// The number of an expression, or the kind of its fault.
pub fn number_there(
    alloc: Global,
    e: &Expr,
    seen: &Seen<'_>,
) -> Result<Result<u32, LineKind>, NoMemory>
    requires { IsRead e.now }
    ensures { IfOk result (λ number. number ≡ extents.number_there (seen_names seen.now) e.now) }
{
    told_number(number_at(alloc, e, seen))
}

/// The literal of an expression, or the kind of its fault.
pub fn literal_there(
    alloc: Global,
    e: &Expr,
    seen: &Seen<'_>,
) -> Result<Result<Value, LineKind>, NoMemory>
    requires { IsRead e.now }
    ensures { IfOk result (λ literal. literal ≡ extents.literal_there (seen_names seen.now) e.now) }
{
    told_value(literal_at(alloc, e, seen))
}

/// The first of two numbers, or the kind of their faults that is told.
fn first_of(first: Result<u32, LineKind>, second: Result<u32, LineKind>) -> Result<u32, LineKind>
    ensures { result ≡ on_both (λ n m. n) first second }
{
    match (first, second) {
        (Ok(number), Ok(_)) => Ok(number),
        (Ok(_), Err(kind)) => Err(kind),
        (Err(kind), Ok(_)) => Err(kind),
        (Err(kind), Err(other)) => Err(earlier(kind, other)),
    }
}

/// The exponent of an area's alignment, or the kind of its fault: 2 where none is written, and of several the first.
fn exponent_there(
    alloc: Global,
    alignments: &[Expr],
    seen: &Seen<'_>,
) -> Result<Result<u32, LineKind>, NoMemory>
    requires { AllRead alignments.now }
    ensures { IfOk result (λ number. number ≡ exponent (seen_names seen.now) alignments.now) }
{
    let mut exponent = Ok(2);
    for i in (0..alignments.len()).rev() {
        let number = number_there(alloc, &alignments[i], seen)?;
        exponent = first_of(number, exponent);
    }
    Ok(exponent)
}

/// The number that RN gives a name, or the kind of its fault; 0 for a register.
fn given_there(
    alloc: Global,
    given: &RnOperand,
    seen: &Seen<'_>,
) -> Result<Result<u32, LineKind>, NoMemory>
    requires { GivenSaid given.now }
    ensures { IfOk result (λ number. number
        ≡ said_number (seen_names seen.now) (kinds.Directive (lines.Rn given.now))) }
{
    match given {
        RnOperand::Register(_) => Ok(Ok(0)),
        RnOperand::Number(e) => number_there(alloc, e, seen),
    }
}

fn directive_number(
    alloc: Global,
    line: &DirectiveLine,
    seen: &Seen<'_>,
) -> Result<Result<u32, LineKind>, NoMemory>
    requires { DirectiveSaid line.now }
    ensures { IfOk result (λ number. number
        ≡ said_number (seen_names seen.now) (kinds.Directive line.now)) }
{
    match line {
        DirectiveLine::Area { attributes, .. } => exponent_there(
            alloc,
            attributes.alignments.as_slice(),
            seen,
        ),
        DirectiveLine::Rn { register } => given_there(alloc, register, seen),
        DirectiveLine::Entry
        | DirectiveLine::End
        | DirectiveLine::Export { .. }
        | DirectiveLine::Import { .. }
        | DirectiveLine::Extern { .. }
        | DirectiveLine::Keep { .. }
        | DirectiveLine::Equ { .. }
        | DirectiveLine::Rout
        | DirectiveLine::Assert { .. }
        | DirectiveLine::Nofp
        | DirectiveLine::Opt { .. }
        | DirectiveLine::Ttl
        | DirectiveLine::Subt
        | DirectiveLine::Constants { .. }
        | DirectiveLine::Space { .. }
        | DirectiveLine::Align { .. }
        | DirectiveLine::Ltorg
        | DirectiveLine::Data
        | DirectiveLine::Map { .. }
        | DirectiveLine::Field { .. }
        | DirectiveLine::Code16
        | DirectiveLine::Code32 => Ok(Ok(0)),
    }
}

/// The number of a statement that checks ask for, or the kind of its fault; 0 where they ask for none.
pub fn said_number(
    alloc: Global,
    what: &What,
    seen: &Seen<'_>,
) -> Result<Result<u32, LineKind>, NoMemory>
    requires { WhatSaid what.now }
    ensures { IfOk result (λ number. number ≡ said_number (seen_names seen.now) what.now) }
{
    match what {
        What::Nothing | What::Arm(_) | What::Thumb(_) | What::Pseudo(_) => Ok(Ok(0)),
        What::Directive(line) => directive_number(alloc, line, seen),
    }
}

/// The storage map behind a field of so many bytes.
fn added(map: u32, number: Result<u32, LineKind>) -> Result<u32, LineKind>
    ensures { result ≡ mapped (λ n. (map + n) % 2 ^ 32) number }
{
    match number {
        Ok(number) => Ok(map.wrapping_add(number)),
        Err(kind) => Err(kind),
    }
}

fn map_behind(
    alloc: Global,
    map: u32,
    seen: &Seen<'_>,
    line: &DirectiveLine,
) -> Result<Result<u32, LineKind>, NoMemory>
    requires { DirectiveSaid line.now }
    ensures { IfOk result (λ after. after
        ≡ step_after map (seen_names seen.now) (directive_map line.now)) }
{
    match line {
        DirectiveLine::Map { value } => number_there(alloc, value, seen),
        DirectiveLine::Field { size } => {
            let number = number_there(alloc, size, seen)?;
            Ok(added(map, number))
        }
        DirectiveLine::Area { .. }
        | DirectiveLine::Entry
        | DirectiveLine::End
        | DirectiveLine::Export { .. }
        | DirectiveLine::Import { .. }
        | DirectiveLine::Extern { .. }
        | DirectiveLine::Keep { .. }
        | DirectiveLine::Equ { .. }
        | DirectiveLine::Rn { .. }
        | DirectiveLine::Rout
        | DirectiveLine::Assert { .. }
        | DirectiveLine::Nofp
        | DirectiveLine::Opt { .. }
        | DirectiveLine::Ttl
        | DirectiveLine::Subt
        | DirectiveLine::Constants { .. }
        | DirectiveLine::Space { .. }
        | DirectiveLine::Align { .. }
        | DirectiveLine::Ltorg
        | DirectiveLine::Data
        | DirectiveLine::Code16
        | DirectiveLine::Code32 => Ok(Ok(map)),
    }
}

/// The storage map behind a statement, or the kind of its fault.
pub fn map_after(
    alloc: Global,
    map: u32,
    seen: &Seen<'_>,
    what: &What,
) -> Result<Result<u32, LineKind>, NoMemory>
    requires { WhatSaid what.now }
    ensures { IfOk result (λ after. after ≡ map_after map (seen_names seen.now) what.now) }
{
    match what {
        What::Nothing | What::Arm(_) | What::Thumb(_) | What::Pseudo(_) => Ok(Ok(map)),
        What::Directive(line) => map_behind(alloc, map, seen, line),
    }
}
