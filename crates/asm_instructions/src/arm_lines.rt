//! All lines of ARM state.

ghost use Rattle.std.specs.Prelude.{◌≡◌, ◌^◌, nat_lt, Ok, Err, if◌then◌else◌, IfOk};
ghost use Rattle.sdt_fault.specs.declared.kinds.LineKind.TheVariants.{OutOfRange};
ghost use Rattle.arm_isa.specs.declared.instr.ArmInstr.TheVariants as instr;
ghost use Rattle.asm_model.specs.declared.arm_lines.ArmLine.TheVariants as arm;
ghost use Rattle.asm_model.specs.Readings.{and_then};
ghost use Rattle.asm_model.specs.Said.{IsRead, ArmSaid};
ghost use Rattle.source_model.specs.ArmForms as forms;
ghost use Rattle.source_model.specs.Contexts.{Context};
ghost use Rattle.source_model.specs.Units as units;
ghost use Rattle.asm_instructions.specs.Lookups.{Shows, context_of};

use crate::blocks::transfer_block;
use crate::branches::{ArmUnit, branch};
use crate::data::{
    are_saved, data_number, data_register_shifted, data_shifted, is_saved, mask_of, multiply,
    multiply_long, status_number, swap,
};
use crate::lookups::{Lookup, register};
use crate::transfers::{transfer, transfer_half, transfer_shifted};
use crate::values::number_there;
use arm_isa::ArmInstr;
use asm_model::{ArmLine, Expr};
use sdt_fault::NoMemory;
use sdt_fault::kinds::LineKind;
use sdt_word::Condition;
use std::alloc::Global;

fn interrupt_by(condition: Condition, number: Result<u32, LineKind>) -> Result<ArmInstr, LineKind>
    ensures { result ≡ and_then number
        (λ n. if nat_lt n (2 ^ 24) then Ok (instr.SoftwareInterrupt condition n)
        else Err OutOfRange) }
{
    let number = number?;
    if number < 0x0100_0000 {
        return Ok(ArmInstr::SoftwareInterrupt { condition, number });
    }
    Err(LineKind::OutOfRange)
}

fn interrupt(
    alloc: Global,
    lookup: &Lookup<'_>,
    condition: Condition,
    number: &Expr,
) -> Result<Result<ArmInstr, LineKind>, NoMemory>
    requires { IsRead number.now }
    ensures { IfOk result (λ i. i
        ≡ forms.arm_instruction (context_of lookup.now)
        (arm.SoftwareInterrupt condition number.now)) }
{
    let number = number_there(alloc, lookup, number)?;
    Ok(interrupt_by(condition, number))
}

/// The instruction that a line says with what the lookup finds, or the kind of its fault.
fn instruction_there(
    alloc: Global,
    lookup: &Lookup<'_>,
    line: &ArmLine,
) -> Result<Result<ArmInstr, LineKind>, NoMemory>
    requires { ArmSaid line.now }
    ensures { IfOk result (λ i. i ≡ forms.arm_instruction (context_of lookup.now) line.now) }
{
    match line {
        ArmLine::DataImmediate {
            condition,
            operation,
            set_flags,
            rd,
            rn,
            value,
        } => {
            data_number(
                alloc, lookup, *condition, *operation, *set_flags, rd, rn, value,
            )
        }
        ArmLine::DataShifted {
            condition,
            operation,
            set_flags,
            rd,
            rn,
            rm,
            shift,
        } => {
            data_shifted(
                alloc, lookup, *condition, *operation, *set_flags, rd, rn, rm, shift,
            )
        }
        ArmLine::DataRegisterShifted {
            condition,
            operation,
            set_flags,
            rd,
            rn,
            rm,
            shift,
            rs,
        } => {
            Ok(Ok(data_register_shifted(
                lookup, *condition, *operation, *set_flags, rd, rn, rm, *shift, rs,
            )))
        }
        ArmLine::Multiply {
            condition,
            accumulate,
            set_flags,
            rd,
            rm,
            rs,
            rn,
        } => { Ok(Ok(multiply(lookup, *condition, *accumulate, *set_flags, rd, rm, rs, rn))) }
        ArmLine::MultiplyLong {
            condition,
            signed,
            accumulate,
            set_flags,
            low,
            high,
            rm,
            rs,
        } => {
            Ok(Ok(multiply_long(
                lookup,
                *condition,
                *signed,
                *accumulate,
                *set_flags,
                low,
                high,
                rm,
                rs,
            )))
        }
        ArmLine::Swap {
            condition,
            byte,
            rd,
            rm,
            rn,
        } => { Ok(Ok(swap(lookup, *condition, *byte, rd, rm, rn))) }
        ArmLine::BranchExchange { condition, rm } => {
            let rm = register(lookup, rm);
            Ok(Ok(ArmInstr::BranchExchange {
                condition: *condition,
                rm,
            }))
        }
        ArmLine::ReadStatus {
            condition,
            status,
            rd,
        } => {
            let rd = register(lookup, rd);
            Ok(Ok(ArmInstr::ReadStatus {
                condition: *condition,
                saved: is_saved(*status),
                rd,
            }))
        }
        ArmLine::WriteStatus {
            condition,
            fields,
            rm,
        } => {
            let rm = register(lookup, rm);
            Ok(Ok(ArmInstr::WriteStatus {
                condition: *condition,
                saved: are_saved(*fields),
                fields: mask_of(*fields),
                rm,
            }))
        }
        ArmLine::WriteStatusImmediate {
            condition,
            fields,
            value,
        } => { status_number(alloc, lookup, *condition, *fields, value) }
        ArmLine::TransferImmediate {
            condition,
            load,
            byte,
            rd,
            address,
        } => { transfer(alloc, lookup, *condition, *load, *byte, rd, address) }
        ArmLine::TransferShifted {
            condition,
            load,
            byte,
            rd,
            rn,
            indexing,
            subtract,
            rm,
            shift,
        } => {
            transfer_shifted(
                alloc, lookup, *condition, *load, *byte, rd, rn, *indexing, *subtract, rm, shift,
            )
        }
        ArmLine::TransferHalf {
            condition,
            load,
            kind,
            rd,
            rn,
            indexing,
            offset,
        } => {
            transfer_half(
                alloc, lookup, *condition, *load, *kind, rd, rn, *indexing, offset,
            )
        }
        ArmLine::TransferBlock {
            condition,
            load,
            mode,
            rn,
            write_back,
            list,
            user,
        } => {
            Ok(Ok(transfer_block(
                lookup,
                *condition,
                *load,
                *mode,
                rn,
                *write_back,
                list,
                *user,
            )))
        }
        ArmLine::Branch {
            condition,
            link,
            target,
        } => {
            let (instruction, _) = branch(alloc, lookup, *condition, *link, target)?;
            Ok(instruction)
        }
        ArmLine::SoftwareInterrupt { condition, number } => {
            interrupt(alloc, lookup, *condition, number)
        }
    }
}

fn unit_there(alloc: Global, lookup: &Lookup<'_>, line: &ArmLine) -> Result<ArmUnit, NoMemory>
    requires { ArmSaid line.now }
    ensures instruction { IfOk result (λ unit. unit.0
        ≡ forms.arm_instruction (context_of lookup.now) line.now) }
    ensures symbol { IfOk result (λ unit. unit.1
        ≡ units.branch_symbol (context_of lookup.now) line.now) }
{
    if let ArmLine::Branch {
        condition,
        link,
        target,
    } = line
    {
        return branch(alloc, lookup, *condition, *link, target);
    }
    let instruction = instruction_there(alloc, lookup, line)?;
    Ok((instruction, None))
}

/// The instruction that a line says, or the kind of its fault, and the symbol of a branch that is left to the linker. Such a
/// branch holds its number less how far pc stands behind the start of the area.
pub fn arm_unit(alloc: Global, lookup: &Lookup<'_>, line: &ArmLine) -> Result<ArmUnit, NoMemory>
    requires { ArmSaid line.now }
    ensures instruction { IfOk result (λ unit. (c : Context) → Shows lookup.now c → unit.0
        ≡ forms.arm_instruction c line.now) }
    ensures symbol { IfOk result (λ unit. (c : Context) → Shows lookup.now c → unit.1
        ≡ units.branch_symbol c line.now) }
{
    unit_there(alloc, lookup, line)
}
