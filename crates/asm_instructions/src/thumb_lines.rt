//! All lines of Thumb state, and pseudo-instructions there.

ghost use Rattle.std.specs.Prelude.{◌≡◌, IfOk};
ghost use Rattle.asm_model.specs.declared.statements.PseudoLine.TheVariants as pseudo;
ghost use Rattle.asm_model.specs.Said.{IsRead, PseudoSaid, ThumbSaid};
ghost use Rattle.source_model.specs.Contexts.{Context};
ghost use Rattle.source_model.specs.ThumbForms as forms;
ghost use Rattle.source_model.specs.Units as units;
ghost use Rattle.asm_instructions.specs.Lookups.{Shows, context_of};
ghost use Rattle.asm_instructions.specs.ThumbGroups.{IsWide};

use crate::lookups::Lookup;
use crate::thumb_branches::{branch, branch_conditional, branch_link, software_interrupt};
use crate::thumb_data::{
    ThumbResult, ThumbUnit, add_subtract, adjust_stack, data_immediate, data_register,
    high_register, load_address, shift_immediate,
};
use crate::thumb_transfers::{
    load_literal, push_pop, transfer_half, transfer_immediate, transfer_multiple,
    transfer_register, transfer_signed, transfer_stack, words_to,
};
use crate::thumb_values::low;
use crate::values::{own_offset, value_there};
use asm_expr::kinds::both;
use asm_expr::or_kind;
use asm_model::{Expr, PseudoLine, Register, ThumbLine};
use sdt_fault::NoMemory;
use sdt_fault::kinds::LineKind;
use std::alloc::Global;
use thumb_isa::{HighOperation, ThumbInstr};

/// What a line of many operands says.
fn wide_there(alloc: Global, lookup: &Lookup<'_>, line: &ThumbLine) -> ThumbResult
    requires said { ThumbSaid line.now }
    requires wide { IsWide line.now }
    ensures { IfOk result (λ i. i ≡ forms.thumb_instruction (context_of lookup.now) line.now) }
{
    match line {
        ThumbLine::ShiftImmediate {
            shift,
            rd,
            rs,
            amount,
        } => shift_immediate(alloc, lookup, *shift, rd, rs, amount),
        ThumbLine::AddSubtract {
            subtract,
            rd,
            rs,
            operand,
        } => add_subtract(alloc, lookup, *subtract, rd, rs, operand),
        ThumbLine::TransferRegister {
            load,
            byte,
            rd,
            rn,
            ro,
        } => Ok(transfer_register(lookup, *load, *byte, rd, rn, ro)),
        ThumbLine::TransferImmediate {
            load,
            byte,
            rd,
            rn,
            offset,
        } => transfer_immediate(alloc, lookup, *load, *byte, rd, rn, offset),
        ThumbLine::TransferHalf {
            load,
            rd,
            rn,
            offset,
        } => transfer_half(alloc, lookup, *load, rd, rn, offset),
        _ => Ok(Err(LineKind::Syntax)),
    }
}

/// What a line says with what the lookup finds, or the kind of its fault.
fn instruction_there(alloc: Global, lookup: &Lookup<'_>, line: &ThumbLine) -> ThumbResult
    requires { ThumbSaid line.now }
    ensures { IfOk result (λ i. i ≡ forms.thumb_instruction (context_of lookup.now) line.now) }
{
    match line {
        ThumbLine::DataImmediate {
            operation,
            rd,
            value,
        } => data_immediate(alloc, lookup, *operation, rd, value),
        ThumbLine::DataRegister { operation, rd, rs } => {
            Ok(data_register(lookup, *operation, rd, rs))
        }
        ThumbLine::HighRegister { operation, rd, rs } => {
            Ok(Ok(high_register(lookup, *operation, rd, rs)))
        }
        ThumbLine::LoadLiteral { rd, address } => load_literal(alloc, lookup, rd, address),
        ThumbLine::TransferSigned { kind, rd, rn, ro } => {
            Ok(transfer_signed(lookup, *kind, rd, rn, ro))
        }
        ThumbLine::TransferStack { load, rd, offset } => {
            transfer_stack(alloc, lookup, *load, rd, offset)
        }
        ThumbLine::LoadAddress { stack, rd, offset } => {
            load_address(alloc, lookup, *stack, rd, offset)
        }
        ThumbLine::AdjustStack { subtract, offset } => {
            adjust_stack(alloc, lookup, *subtract, offset)
        }
        ThumbLine::PushPop { load, list } => Ok(push_pop(lookup, *load, list)),
        ThumbLine::TransferMultiple { load, rn, list } => {
            Ok(transfer_multiple(lookup, *load, rn, list))
        }
        ThumbLine::BranchConditional { condition, target } => {
            branch_conditional(alloc, lookup, *condition, target)
        }
        ThumbLine::SoftwareInterrupt { number } => software_interrupt(alloc, lookup, number),
        ThumbLine::Branch { target } => branch(alloc, lookup, target),
        ThumbLine::BranchLink { target } => {
            let (code, _) = branch_link(alloc, lookup, target)?;
            Ok(code)
        }
        _ => wide_there(alloc, lookup, line),
    }
}

fn unit_there(alloc: Global, lookup: &Lookup<'_>, line: &ThumbLine) -> Result<ThumbUnit, NoMemory>
    requires { ThumbSaid line.now }
    ensures code { IfOk result (λ unit. unit.0
        ≡ forms.thumb_instruction (context_of lookup.now) line.now) }
    ensures symbol { IfOk result (λ unit. unit.1
        ≡ units.link_symbol (context_of lookup.now) line.now) }
{
    if let ThumbLine::BranchLink { target } = line {
        return branch_link(alloc, lookup, target);
    }
    let code = instruction_there(alloc, lookup, line)?;
    Ok((code, None))
}

/// What a line of Thumb state says, or the kind of its fault, and the symbol of a BL that is left to the linker. Such a BL
/// holds its number less how far pc stands behind the start of the area.
pub fn thumb_unit(
    alloc: Global,
    lookup: &Lookup<'_>,
    line: &ThumbLine,
) -> Result<ThumbUnit, NoMemory>
    requires { ThumbSaid line.now }
    ensures code { IfOk result (λ unit. (c : Context) → Shows lookup.now c → unit.0
        ≡ forms.thumb_instruction c line.now) }
    ensures symbol { IfOk result (λ unit. (c : Context) → Shows lookup.now c → unit.1
        ≡ units.link_symbol c line.now) }
{
    unit_there(alloc, lookup, line)
}

fn word_offset(word: Option<u32>) -> Result<u32, LineKind>
    ensures { result ≡ forms.word_offset word }
{
    match word {
        None => Err(LineKind::OutOfRange),
        Some(word) => Ok(word),
    }
}

fn load_constant(
    lookup: &Lookup<'_>,
    word: Option<u32>,
    rd: &Register,
) -> Result<ThumbInstr, LineKind>
    ensures { result ≡ forms.loaded (context_of lookup.now) word rd.now }
{
    let (rd, offset) = both(low(lookup, rd), words_to(lookup, word_offset(word)))?;
    Ok(ThumbInstr::LoadLiteral { rd, offset })
}

fn address(
    alloc: Global,
    lookup: &Lookup<'_>,
    rd: &Register,
    target: &Expr,
) -> Result<Result<ThumbInstr, LineKind>, NoMemory>
    requires { IsRead target.now }
    ensures { IfOk result (λ i. i ≡ forms.addressed (context_of lookup.now) rd.now target.now) }
{
    let value = value_there(alloc, lookup, target)?;
    let (rd, offset) = or_kind!(both(low(lookup, rd), words_to(lookup, own_offset(lookup, value))));
    let stack = false;
    Ok(Ok(ThumbInstr::LoadAddress { stack, rd, offset }))
}

/// The instruction of a pseudo-instruction with what the lookup finds, or the kind of its fault.
fn pseudo_there(
    alloc: Global,
    lookup: &Lookup<'_>,
    word: Option<u32>,
    line: &PseudoLine,
) -> Result<Result<ThumbInstr, LineKind>, NoMemory>
    requires { PseudoSaid line.now }
    ensures { IfOk result (λ i. i ≡ forms.thumb_pseudo (context_of lookup.now) word line.now) }
{
    match line {
        PseudoLine::LoadConstant { rd, .. } => Ok(load_constant(lookup, word, rd)),
        PseudoLine::Address { rd, target, .. } => address(alloc, lookup, rd, target),
        PseudoLine::LongAddress { .. } => Ok(Err(LineKind::Syntax)),
        PseudoLine::NoOperation => Ok(Ok(ThumbInstr::HighRegister {
            operation: HighOperation::Mov,
            high_rd: true,
            high_rs: true,
            rs: 0,
            rd: 0,
        })),
    }
}

/// The instruction of a pseudo-instruction in Thumb state, whose literal has its word at an offset; or the kind of its
/// fault.
pub fn thumb_pseudo_instruction(
    alloc: Global,
    lookup: &Lookup<'_>,
    word: Option<u32>,
    line: &PseudoLine,
) -> Result<Result<ThumbInstr, LineKind>, NoMemory>
    requires { PseudoSaid line.now }
    ensures { IfOk result (λ i. (c : Context) → Shows lookup.now c → i
        ≡ forms.thumb_pseudo c word line.now) }
{
    pseudo_there(alloc, lookup, word, line)
}
