//! Data processing, multiplication, and the status registers.

ghost use Rattle.std.specs.Prelude.{◌≡◌, Ok, IfOk};
ghost use Rattle.arm_isa.specs.declared.instr.ArmInstr.TheVariants as instr;
ghost use Rattle.asm_model.specs.declared.arm_lines.ArmLine.TheVariants as arm;
ghost use Rattle.asm_model.specs.Readings.{and_then, mapped};
ghost use Rattle.asm_model.specs.Said.{IsRead, ShiftSaid};
ghost use Rattle.source_model.specs.ArmForms as forms;
ghost use Rattle.source_model.specs.Immediates as immediates;
ghost use Rattle.asm_instructions.specs.Lookups.{context_of};

use crate::immediates::{data_immediate, status_of};
use crate::lookups::{Lookup, register};
use crate::shifts::shift_fields;
use crate::values::number_there;
use arm_isa::{ArmInstr, Operation};
use asm_model::{Expr, Register, Shift, StatusFields, StatusRegister};
use sdt_fault::NoMemory;
use sdt_fault::kinds::LineKind;
use sdt_word::{Condition, ShiftKind};
use std::alloc::Global;

pub fn data_with_number(
    condition: Condition,
    operation: Operation,
    set_flags: bool,
    rn: u8,
    rd: u8,
    number: Result<u32, LineKind>,
) -> Result<ArmInstr, LineKind>
    ensures { result ≡ and_then number
        (immediates.data_immediate condition operation set_flags rn rd) }
{
    let number = number?;
    data_immediate(condition, operation, set_flags, rn, rd, number)
}

pub fn data_number(
    alloc: Global,
    lookup: &Lookup<'_>,
    condition: Condition,
    operation: Operation,
    set_flags: bool,
    rd: &Register,
    rn: &Register,
    value: &Expr,
) -> Result<Result<ArmInstr, LineKind>, NoMemory>
    requires { IsRead value.now }
    ensures { IfOk result (λ i. i
        ≡ forms.arm_instruction (context_of lookup.now)
        (arm.DataImmediate condition operation set_flags rd.now rn.now value.now)) }
{
    let first = register(lookup, rn);
    let to = register(lookup, rd);
    let number = number_there(alloc, lookup, value)?;
    Ok(data_with_number(condition, operation, set_flags, first, to, number))
}

fn data_with_shift(
    condition: Condition,
    operation: Operation,
    set_flags: bool,
    rn: u8,
    rd: u8,
    rm: u8,
    fields: Result<(ShiftKind, u8), LineKind>,
) -> Result<ArmInstr, LineKind>
    ensures { result ≡ mapped
        (λ f. instr.DataShifted condition operation set_flags rn rd f.1 f.0 rm) fields }
{
    let (shift, amount) = fields?;
    Ok(ArmInstr::DataShifted {
        condition,
        operation,
        set_flags,
        rn,
        rd,
        amount,
        shift,
        rm,
    })
}

pub fn data_shifted(
    alloc: Global,
    lookup: &Lookup<'_>,
    condition: Condition,
    operation: Operation,
    set_flags: bool,
    rd: &Register,
    rn: &Register,
    rm: &Register,
    shift: &Shift,
) -> Result<Result<ArmInstr, LineKind>, NoMemory>
    requires { ShiftSaid shift.now }
    ensures { IfOk result (λ i. i
        ≡ forms.arm_instruction (context_of lookup.now)
        (arm.DataShifted condition operation set_flags rd.now rn.now rm.now shift.now)) }
{
    let first = register(lookup, rn);
    let to = register(lookup, rd);
    let second = register(lookup, rm);
    let fields = shift_fields(alloc, lookup, shift)?;
    Ok(data_with_shift(condition, operation, set_flags, first, to, second, fields))
}

pub fn data_register_shifted(
    lookup: &Lookup<'_>,
    condition: Condition,
    operation: Operation,
    set_flags: bool,
    rd: &Register,
    rn: &Register,
    rm: &Register,
    shift: ShiftKind,
    rs: &Register,
) -> ArmInstr
    ensures { Ok result ≡ forms.arm_instruction (context_of lookup.now)
        (arm.DataRegisterShifted condition operation set_flags rd.now rn.now rm.now shift rs.now) }
{
    ArmInstr::DataRegisterShifted {
        condition,
        operation,
        set_flags,
        rn: register(lookup, rn),
        rd: register(lookup, rd),
        rs: register(lookup, rs),
        shift,
        rm: register(lookup, rm),
    }
}

pub fn multiply(
    lookup: &Lookup<'_>,
    condition: Condition,
    accumulate: bool,
    set_flags: bool,
    rd: &Register,
    rm: &Register,
    rs: &Register,
    rn: &Register,
) -> ArmInstr
    ensures { Ok result ≡ forms.arm_instruction (context_of lookup.now)
        (arm.Multiply condition accumulate set_flags rd.now rm.now rs.now rn.now) }
{
    ArmInstr::Multiply {
        condition,
        accumulate,
        set_flags,
        rd: register(lookup, rd),
        rn: register(lookup, rn),
        rs: register(lookup, rs),
        rm: register(lookup, rm),
    }
}

pub fn multiply_long(
    lookup: &Lookup<'_>,
    condition: Condition,
    signed: bool,
    accumulate: bool,
    set_flags: bool,
    low: &Register,
    high: &Register,
    rm: &Register,
    rs: &Register,
) -> ArmInstr
    ensures { Ok result ≡ forms.arm_instruction (context_of lookup.now)
        (arm.MultiplyLong condition signed accumulate set_flags low.now high.now rm.now rs.now) }
{
    ArmInstr::MultiplyLong {
        condition,
        signed,
        accumulate,
        set_flags,
        high: register(lookup, high),
        low: register(lookup, low),
        rs: register(lookup, rs),
        rm: register(lookup, rm),
    }
}

pub fn swap(
    lookup: &Lookup<'_>,
    condition: Condition,
    byte: bool,
    rd: &Register,
    rm: &Register,
    rn: &Register,
) -> ArmInstr
    ensures { Ok result ≡ forms.arm_instruction (context_of lookup.now)
        (arm.Swap condition byte rd.now rm.now rn.now) }
{
    ArmInstr::Swap {
        condition,
        byte,
        rn: register(lookup, rn),
        rd: register(lookup, rd),
        rm: register(lookup, rm),
    }
}

/// Whether a status register is the saved one; a word that names none says nothing.
pub fn is_saved(status: Option<StatusRegister>) -> bool
    ensures { result ≡ forms.is_saved status }
{
    match status {
        Some(StatusRegister::Saved) => true,
        _ => false,
    }
}

/// Whether fields are those of the saved status register.
pub fn are_saved(fields: Option<StatusFields>) -> bool
    ensures { result ≡ forms.are_saved fields }
{
    match fields {
        Some(fields) => is_saved(Some(fields.register)),
        None => false,
    }
}

/// The mask of fields, without a bit where a word names none.
pub fn mask_of(fields: Option<StatusFields>) -> u8
    ensures { result ≡ forms.mask_of fields }
{
    match fields {
        Some(fields) => fields.mask,
        None => 0,
    }
}

fn status_with_number(
    condition: Condition,
    fields: Option<StatusFields>,
    number: Result<u32, LineKind>,
) -> Result<ArmInstr, LineKind>
    ensures { result ≡ and_then number
        (λ n. immediates.status_of condition (forms.are_saved fields) (forms.mask_of fields)
        (immediates.immediate n)) }
{
    let number = number?;
    status_of(condition, are_saved(fields), mask_of(fields), number)
}

pub fn status_number(
    alloc: Global,
    lookup: &Lookup<'_>,
    condition: Condition,
    fields: Option<StatusFields>,
    value: &Expr,
) -> Result<Result<ArmInstr, LineKind>, NoMemory>
    requires { IsRead value.now }
    ensures { IfOk result (λ i. i
        ≡ forms.arm_instruction (context_of lookup.now)
        (arm.WriteStatusImmediate condition fields value.now)) }
{
    let number = number_there(alloc, lookup, value)?;
    Ok(status_with_number(condition, fields, number))
}
