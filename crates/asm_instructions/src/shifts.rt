//! Shifts of register operands.

ghost use Rattle.std.specs.Prelude.{◌≡◌, IfOk};
ghost use Rattle.sdt_word.specs.declared.codes.ShiftKind.TheVariants as shift;
ghost use Rattle.asm_model.specs.Readings.{and_then, mapped};
ghost use Rattle.asm_model.specs.Said.{IsRead, ShiftSaid};
ghost use Rattle.source_model.specs.ArmForms as forms;
ghost use Rattle.source_model.specs.Contexts.{number_in};
ghost use Rattle.asm_instructions.specs.Lookups.{context_of};

use crate::lookups::Lookup;
use crate::values::number_there;
use asm_model::{Expr, Shift};
use sdt_fault::NoMemory;
use sdt_fault::kinds::LineKind;
use sdt_word::ShiftKind;
use std::alloc::Global;

fn left_amount(amount: u32) -> Result<u8, LineKind>
    ensures { result ≡ forms.amount_field shift.Lsl amount }
{
    if amount < 32 {
        return Ok(amount as u8);
    }
    Err(LineKind::OutOfRange)
}

/// The field of LSR and ASR; a shift by 32 places is kept as 0.
fn right_amount(amount: u32) -> Result<u8, LineKind>
    ensures { result ≡ forms.amount_field shift.Lsr amount }
{
    if amount < 1 {
        return Err(LineKind::OutOfRange);
    }
    if amount > 32 {
        return Err(LineKind::OutOfRange);
    }
    Ok((amount % 32) as u8)
}

fn rotation_amount(amount: u32) -> Result<u8, LineKind>
    ensures { result ≡ forms.amount_field shift.Ror amount }
{
    if amount < 1 {
        return Err(LineKind::OutOfRange);
    }
    if amount > 31 {
        return Err(LineKind::OutOfRange);
    }
    Ok(amount as u8)
}

/// The field of an amount, where the kind of shift takes it.
pub fn amount_field(kind: ShiftKind, amount: u32) -> Result<u8, LineKind>
    ensures { result ≡ forms.amount_field kind amount }
{
    match kind {
        ShiftKind::Lsl => left_amount(amount),
        ShiftKind::Lsr => right_amount(amount),
        ShiftKind::Asr => right_amount(amount),
        ShiftKind::Ror => rotation_amount(amount),
    }
}

/// A kind of shift with an amount.
fn shift_by(kind: ShiftKind, amount: Result<u32, LineKind>) -> Result<(ShiftKind, u8), LineKind>
    ensures { result ≡ and_then amount (λ n. mapped (λ a. (kind, a)) (forms.amount_field kind n)) }
{
    let places = amount?;
    let field = amount_field(kind, places)?;
    Ok((kind, field))
}

fn shifted(
    alloc: Global,
    lookup: &Lookup<'_>,
    kind: ShiftKind,
    amount: &Expr,
) -> Result<Result<(ShiftKind, u8), LineKind>, NoMemory>
    requires { IsRead amount.now }
    ensures { IfOk result (λ f. f
        ≡ and_then (number_in (context_of lookup.now) amount.now)
        (λ n. mapped (λ a. (kind, a)) (forms.amount_field kind n))) }
{
    let number = number_there(alloc, lookup, amount)?;
    Ok(shift_by(kind, number))
}

/// Kind and amount of a shift.
pub fn shift_fields(
    alloc: Global,
    lookup: &Lookup<'_>,
    shift: &Shift,
) -> Result<Result<(ShiftKind, u8), LineKind>, NoMemory>
    requires { ShiftSaid shift.now }
    ensures { IfOk result (λ f. f ≡ forms.shift_fields (context_of lookup.now) shift.now) }
{
    match shift {
        Shift::Unshifted => Ok(Ok((ShiftKind::Lsl, 0))),
        Shift::By { kind, amount } => shifted(alloc, lookup, *kind, amount),
        Shift::Extended => Ok(Ok((ShiftKind::Ror, 0))),
    }
}
