//! Shifts, sums, moves, comparisons and logical operations of Thumb state.

ghost use Rattle.std.specs.Prelude.{◌≡◌, ◌&&◌, IfOk, true};
ghost use Rattle.thumb_isa.specs.declared.instr.ThumbInstr.TheVariants as instr;
ghost use Rattle.asm_model.specs.declared.operands.ThumbOperand.TheVariants as operand;
ghost use Rattle.asm_model.specs.declared.thumb_lines.ThumbLine.TheVariants as thumb;
ghost use Rattle.asm_model.specs.Readings.{and_then, mapped};
ghost use Rattle.asm_model.specs.Said.{IsRead, ThumbOperandSaid};
ghost use Rattle.source_model.specs.Contexts.{register};
ghost use Rattle.source_model.specs.ThumbForms as forms;
ghost use Rattle.asm_instructions.specs.Lookups.{context_of};

use crate::lookups::{Lookup, register};
use crate::shifts::amount_field;
use crate::thumb_values::{immediate_below, low, low_number, low_three, low_two, no_row, summed};
use crate::values::number_there;
use asm_expr::kinds::both;
use asm_expr::or_kind;
use asm_model::{Expr, Register, SharedText, ThumbOperand};
use sdt_fault::NoMemory;
use sdt_fault::kinds::LineKind;
use sdt_word::ShiftKind;
use source_model::ThumbCode;
use std::alloc::Global;
use thumb_isa::{HighOperation, ImmediateOperation, ThumbInstr, ThumbOperation, ThumbShift};

/// What a line says, or the kind of its fault.
pub type ThumbResult = Result<Result<ThumbCode, LineKind>, NoMemory>;

/// What a line of Thumb state says, or the kind of its fault, and the symbol that a BL leaves to the linker.
pub type ThumbUnit = (Result<ThumbCode, LineKind>, Option<SharedText>);

/// An instruction alone.
pub fn one(instruction: Result<ThumbInstr, LineKind>) -> Result<ThumbCode, LineKind>
    ensures { result ≡ forms.one instruction }
{
    Ok(ThumbCode::One(instruction?))
}

fn amount_of(shift: ThumbShift, amount: Result<u32, LineKind>) -> Result<u8, LineKind>
    ensures { result ≡ and_then amount (forms.amount_of shift) }
{
    let amount = amount?;
    match shift {
        ThumbShift::Lsl => amount_field(ShiftKind::Lsl, amount),
        ThumbShift::Lsr => amount_field(ShiftKind::Lsr, amount),
        ThumbShift::Asr => amount_field(ShiftKind::Asr, amount),
    }
}

pub fn shift_immediate(
    alloc: Global,
    lookup: &Lookup<'_>,
    shift: ThumbShift,
    rd: &Register,
    rs: &Register,
    amount: &Expr,
) -> ThumbResult
    requires { IsRead amount.now }
    ensures { IfOk result (λ i. i
        ≡ forms.thumb_instruction (context_of lookup.now)
        (thumb.ShiftImmediate shift rd.now rs.now amount.now)) }
{
    let number = number_there(alloc, lookup, amount)?;
    match both(low_two(lookup, rd, rs), amount_of(shift, number)) {
        Err(kind) => Ok(Err(kind)),
        Ok(((rd, rs), amount)) => Ok(Ok(ThumbCode::One(ThumbInstr::ShiftImmediate {
            shift,
            amount,
            rs,
            rd,
        }))),
    }
}

pub fn data_register(
    lookup: &Lookup<'_>,
    operation: ThumbOperation,
    rd: &Register,
    rs: &Register,
) -> Result<ThumbCode, LineKind>
    ensures { result ≡ forms.thumb_instruction (context_of lookup.now)
        (thumb.DataRegister operation rd.now rs.now) }
{
    let (rd, rs) = low_two(lookup, rd, rs)?;
    Ok(ThumbCode::One(ThumbInstr::DataRegister { operation, rs, rd }))
}

fn high_pair(operation: HighOperation, rd: u8, rs: u8) -> ThumbInstr
    ensures { result ≡ forms.high_pair operation rd rs }
{
    ThumbInstr::HighRegister {
        operation,
        high_rd: rd >= 8,
        high_rs: rs >= 8,
        rs: rs % 8,
        rd: rd % 8,
    }
}

/// An operation of two registers from r0 to r7.
fn low_pair(operation: HighOperation, rd: u8, rs: u8) -> ThumbInstr
    ensures { result ≡ forms.low_pair operation rd rs }
{
    match operation {
        HighOperation::Add => ThumbInstr::AddSubtract {
            immediate: false,
            subtract: false,
            operand: rs,
            rs: rd,
            rd,
        },
        HighOperation::Cmp => ThumbInstr::DataRegister {
            operation: ThumbOperation::Cmp,
            rs,
            rd,
        },
        HighOperation::Mov => ThumbInstr::AddSubtract {
            immediate: true,
            subtract: false,
            operand: 0,
            rs,
            rd,
        },
        HighOperation::Bx => high_pair(operation, rd, rs),
    }
}

/// An operation of two registers, by the row that they choose.
fn pair_of(operation: HighOperation, rd: u8, rs: u8) -> ThumbInstr
    ensures { result ≡ forms.pair_of operation rd rs }
{
    if rd < 8 {
        if rs < 8 {
            return low_pair(operation, rd, rs);
        }
    }
    high_pair(operation, rd, rs)
}

pub fn high_register(
    lookup: &Lookup<'_>,
    operation: HighOperation,
    rd: &Register,
    rs: &Register,
) -> ThumbCode
    ensures { Ok result ≡ forms.thumb_instruction (context_of lookup.now)
        (thumb.HighRegister operation rd.now rs.now) }
{
    let to = register(lookup, rd);
    let from = register(lookup, rs);
    ThumbCode::One(pair_of(operation, to, from))
}

/// An address from sp or pc.
fn address_of(stack: bool, rd: u8, number: u32) -> Result<ThumbInstr, LineKind>
    ensures { result ≡ forms.address_of stack rd number }
{
    let offset = immediate_below(4, 256, number)?;
    Ok(ThumbInstr::LoadAddress { stack, rd, offset })
}

fn low_sum(subtract: bool, rd: u8, rs: u8, number: u32) -> Result<ThumbInstr, LineKind>
    ensures { result ≡ forms.low_sum subtract rd rs number }
{
    let (subtract, operand) = summed(1, 8, subtract, number)?;
    Ok(ThumbInstr::AddSubtract {
        immediate: true,
        subtract,
        operand,
        rs,
        rd,
    })
}

/// A sum of a register and a number, which has a row with r0 to r7, sp or pc.
fn sum_by(
    subtract: bool,
    rd: u8,
    rs: u8,
    number: Result<u32, LineKind>,
) -> Result<ThumbInstr, LineKind>
    ensures { result ≡ forms.sum_by subtract rd rs number }
{
    if rs < 8 {
        let (rd, number) = both(low_number(rd), number)?;
        return low_sum(subtract, rd, rs, number);
    }
    if subtract {
        return no_row(number);
    }
    if rs == 13 {
        let (rd, number) = both(low_number(rd), number)?;
        return address_of(true, rd, number);
    }
    if rs == 15 {
        let (rd, number) = both(low_number(rd), number)?;
        return address_of(false, rd, number);
    }
    no_row(number)
}

pub fn add_subtract(
    alloc: Global,
    lookup: &Lookup<'_>,
    subtract: bool,
    rd: &Register,
    rs: &Register,
    operand: &ThumbOperand,
) -> ThumbResult
    requires { ThumbOperandSaid operand.now }
    ensures { IfOk result (λ i. i
        ≡ forms.thumb_instruction (context_of lookup.now)
        (thumb.AddSubtract subtract rd.now rs.now operand.now)) }
{
    match operand {
        ThumbOperand::Register(rn) => {
            let ((rd, rs), operand) = or_kind!(low_three(lookup, rd, rs, rn));
            Ok(Ok(ThumbCode::One(ThumbInstr::AddSubtract {
                immediate: false,
                subtract,
                operand,
                rs,
                rd,
            })))
        }
        ThumbOperand::Number(value) => {
            let number = number_there(alloc, lookup, value)?;
            let to = register(lookup, rd);
            let from = register(lookup, rs);
            Ok(one(sum_by(subtract, to, from, number)))
        }
    }
}

/// The operation that adds, or takes away.
fn adding(subtract: bool) -> ImmediateOperation
    ensures { result ≡ forms.adding subtract }
{
    if subtract {
        return ImmediateOperation::Sub;
    }
    ImmediateOperation::Add
}

fn added(subtract: bool, rd: u8, number: u32) -> Result<ThumbInstr, LineKind>
    ensures { result ≡ mapped (λ t. instr.DataImmediate (forms.adding t.0) rd t.1)
        (forms.summed 1 256 subtract number) }
{
    let (subtract, immediate) = summed(1, 256, subtract, number)?;
    let operation = adding(subtract);
    Ok(ThumbInstr::DataImmediate {
        operation,
        rd,
        immediate,
    })
}

fn taken(operation: ImmediateOperation, rd: u8, number: u32) -> Result<ThumbInstr, LineKind>
    ensures { result ≡ mapped (λ i. instr.DataImmediate operation rd i)
        (forms.immediate_below 1 256 number) }
{
    let immediate = immediate_below(1, 256, number)?;
    Ok(ThumbInstr::DataImmediate {
        operation,
        rd,
        immediate,
    })
}

fn low_immediate(operation: ImmediateOperation, rd: u8, number: u32) -> Result<ThumbInstr, LineKind>
    ensures { result ≡ forms.low_immediate operation rd number }
{
    match operation {
        ImmediateOperation::Mov => taken(ImmediateOperation::Mov, rd, number),
        ImmediateOperation::Cmp => taken(ImmediateOperation::Cmp, rd, number),
        ImmediateOperation::Add => added(false, rd, number),
        ImmediateOperation::Sub => added(true, rd, number),
    }
}

fn stack_sum(subtract: bool, number: Result<u32, LineKind>) -> Result<ThumbInstr, LineKind>
    ensures { result ≡ and_then number (forms.stack_sum subtract) }
{
    let number = number?;
    let (subtract, offset) = summed(4, 128, subtract, number)?;
    Ok(ThumbInstr::AdjustStack { subtract, offset })
}

/// An operation of sp and a number.
fn stack_immediate(
    operation: ImmediateOperation,
    number: Result<u32, LineKind>,
) -> Result<ThumbInstr, LineKind>
    ensures { result ≡ forms.stack_immediate operation number }
{
    match operation {
        ImmediateOperation::Add => stack_sum(false, number),
        ImmediateOperation::Sub => stack_sum(true, number),
        ImmediateOperation::Mov => no_row(number),
        ImmediateOperation::Cmp => no_row(number),
    }
}

fn immediate_by(
    operation: ImmediateOperation,
    rd: u8,
    number: Result<u32, LineKind>,
) -> Result<ThumbInstr, LineKind>
    ensures { result ≡ forms.immediate_by operation rd number }
{
    if rd < 8 {
        let number = number?;
        return low_immediate(operation, rd, number);
    }
    if rd == 13 {
        return stack_immediate(operation, number);
    }
    no_row(number)
}

pub fn data_immediate(
    alloc: Global,
    lookup: &Lookup<'_>,
    operation: ImmediateOperation,
    rd: &Register,
    value: &Expr,
) -> ThumbResult
    requires { IsRead value.now }
    ensures { IfOk result (λ i. i
        ≡ forms.thumb_instruction (context_of lookup.now)
        (thumb.DataImmediate operation rd.now value.now)) }
{
    let number = number_there(alloc, lookup, value)?;
    Ok(one(immediate_by(operation, register(lookup, rd), number)))
}

pub fn load_address(
    alloc: Global,
    lookup: &Lookup<'_>,
    stack: bool,
    rd: &Register,
    offset: &Expr,
) -> ThumbResult
    requires { IsRead offset.now }
    ensures { IfOk result (λ i. i
        ≡ forms.thumb_instruction (context_of lookup.now)
        (thumb.LoadAddress stack rd.now offset.now)) }
{
    let number = number_there(alloc, lookup, offset)?;
    let (rd, offset) = or_kind!(both(low(lookup, rd), immediate_words(number)));
    Ok(Ok(ThumbCode::One(ThumbInstr::LoadAddress { stack, rd, offset })))
}

/// An immediate operand of words.
fn immediate_words(number: Result<u32, LineKind>) -> Result<u8, LineKind>
    ensures { result ≡ and_then number (forms.immediate_below 4 256) }
{
    let number = number?;
    immediate_below(4, 256, number)
}

pub fn adjust_stack(
    alloc: Global,
    lookup: &Lookup<'_>,
    subtract: bool,
    offset: &Expr,
) -> ThumbResult
    requires { IsRead offset.now }
    ensures { IfOk result (λ i. i
        ≡ forms.thumb_instruction (context_of lookup.now) (thumb.AdjustStack subtract offset.now)) }
{
    let number = number_there(alloc, lookup, offset)?;
    Ok(one(stack_sum(subtract, number)))
}
