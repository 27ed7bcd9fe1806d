//! What the operands of moves, comparisons, sums, shifts and logical operations say.

ghost use Rattle.std.specs.Prelude.{◌≡◌, IfOk, Some};
ghost use Rattle.asm_model.specs.Readings as readings;
ghost use Rattle.asm_arm.specs.LineForms as arm;
ghost use Rattle.asm_arm.specs.Operands as arm_operands;
ghost use Rattle.asm_arm.specs.Steps.{cut_of};
ghost use Rattle.asm_thumb.specs.Data as forms;

use crate::frames::{Frame, ParsedOperation, with_value, with_zero};
use crate::operands::{copy_of, is_pc, is_sp, may_be_high};
use asm_arm::operands::{Cut, register, three_registers, two_registers, without_first};
use asm_expr::or_kind;
use asm_model::{Register, SharedText, ThumbLine, ThumbOperand, Token, What};
use sdt_fault::kinds::LineKind;
use std::alloc::Global;
use thumb_isa::{HighOperation, ImmediateOperation, ThumbOperation, ThumbShift};

/// ADD and SUB: whether it takes away.
fn sum_of(operation: ImmediateOperation) -> Option<bool>
    ensures { result ≡ forms.sum_of operation }
{
    match operation {
        ImmediateOperation::Add => Some(false),
        ImmediateOperation::Sub => Some(true),
        _ => None,
    }
}

/// An operation of sp and a number.
fn stack_frame(operation: ImmediateOperation, rd: Register) -> Frame
    ensures { result ≡ forms.stack_frame operation rd (forms.sum_of operation) }
{
    match sum_of(operation) {
        None => Frame::Immediate { operation, rd },
        Some(subtract) => Frame::AdjustStack { subtract },
    }
}

/// An operation of a register and a number.
fn immediate_frame(
    operation: ImmediateOperation,
    rd: Result<Register, LineKind>,
) -> Result<Frame, LineKind>
    ensures { result ≡ readings.mapped (forms.immediate_frame operation) rd }
{
    let rd = rd?;
    if is_sp(&rd) {
        return Ok(stack_frame(operation, rd));
    }
    Ok(Frame::Immediate { operation, rd })
}

/// An operation of two registers of which one is r8 to r15, or a name.
fn high_line(operation: ImmediateOperation, rd: Register, rs: Register) -> Result<What, LineKind>
    ensures { result ≡ forms.high_line operation rd rs }
{
    let operation = match operation {
        ImmediateOperation::Add => HighOperation::Add,
        ImmediateOperation::Cmp => HighOperation::Cmp,
        ImmediateOperation::Mov => HighOperation::Mov,
        ImmediateOperation::Sub => return Err(LineKind::Syntax),
    };
    Ok(What::Thumb(ThumbLine::HighRegister { operation, rd, rs }))
}

/// An operation of two registers from r0 to r7.
fn low_line(
    alloc: Global,
    operation: ImmediateOperation,
    rd: Register,
    rs: Register,
) -> ParsedOperation
    ensures { IfOk result (λ said. said ≡ forms.low_line operation rd rs) }
{
    match operation {
        ImmediateOperation::Add => {
            let first = copy_of(alloc, &rd)?;
            Ok(Ok(What::Thumb(ThumbLine::AddSubtract {
                subtract: false,
                rd,
                rs: first,
                operand: ThumbOperand::Register(rs),
            })))
        }
        ImmediateOperation::Cmp => Ok(Ok(What::Thumb(ThumbLine::DataRegister {
            operation: ThumbOperation::Cmp,
            rd,
            rs,
        }))),
        ImmediateOperation::Mov => {
            let subtract = false;
            with_zero(alloc, Ok(Frame::Sum { subtract, rd, rs }))
        }
        ImmediateOperation::Sub => Ok(Err(LineKind::Syntax)),
    }
}

/// An operation of two registers.
fn pair_line(
    alloc: Global,
    operation: ImmediateOperation,
    rd: Register,
    rs: Register,
) -> ParsedOperation
    ensures { IfOk result (λ said. said ≡ forms.pair_line operation rd rs) }
{
    if may_be_high(&rd) || may_be_high(&rs) {
        return Ok(high_line(operation, rd, rs));
    }
    low_line(alloc, operation, rd, rs)
}

/// Rd and a number, or two registers.
fn pair(
    alloc: Global,
    text: &SharedText,
    operation: ImmediateOperation,
    rd: &[Token],
    operand: &[Token],
) -> ParsedOperation
    ensures { IfOk result
        (λ said. forms.ReadsPair text.now operation rd.now operand.now
        (arm_operands.without_first text.now arm.hash operand.now) said) }
{
    if let Some(number) = without_first(text, b"#", operand) {
        let frame = immediate_frame(operation, register(alloc, text, rd)?);
        return with_value(alloc, text, frame, number);
    }
    let (rd, rs) = or_kind!(two_registers(alloc, text, rd, operand)?);
    pair_line(alloc, operation, rd, rs)
}

/// A sum of a register and a number; ADD of sp or pc is an address.
fn sum_frame(subtract: bool, rd: Register, rs: Register) -> Frame
    ensures { result ≡ forms.sum_frame subtract rd rs }
{
    if subtract {
        return Frame::Sum { subtract, rd, rs };
    }
    if is_sp(&rs) {
        return Frame::LoadAddress { stack: true, rd };
    }
    if is_pc(&rs) {
        return Frame::LoadAddress { stack: false, rd };
    }
    Frame::Sum { subtract, rd, rs }
}

/// The same, of registers that are read.
fn sum_of_read(
    subtract: bool,
    pair: Result<(Register, Register), LineKind>,
) -> Result<Frame, LineKind>
    ensures { result ≡ readings.mapped (λ p. forms.sum_frame subtract p.0 p.1) pair }
{
    let (rd, rs) = pair?;
    Ok(sum_frame(subtract, rd, rs))
}

/// Rd, Rs, and a number or a register.
fn sum(
    alloc: Global,
    text: &SharedText,
    subtract: bool,
    rd: &[Token],
    rs: &[Token],
    operand: &[Token],
) -> ParsedOperation
    ensures { IfOk result
        (λ said. forms.ReadsSum text.now (Some subtract) rd.now rs.now operand.now
        (arm_operands.without_first text.now arm.hash operand.now) said) }
{
    if let Some(number) = without_first(text, b"#", operand) {
        let frame = sum_of_read(subtract, two_registers(alloc, text, rd, rs)?);
        return with_value(alloc, text, frame, number);
    }
    let ((rd, rs), rn) = or_kind!(three_registers(alloc, text, rd, rs, operand)?);
    Ok(Ok(What::Thumb(ThumbLine::AddSubtract {
        subtract,
        rd,
        rs,
        operand: ThumbOperand::Register(rn),
    })))
}

/// MOV, CMP, ADD and SUB.
pub fn immediates(
    alloc: Global,
    text: &SharedText,
    operation: ImmediateOperation,
    cut: Cut<'_>,
) -> ParsedOperation
    ensures { IfOk result
        (λ said. forms.ReadsImmediate text.now operation (cut_of cut.entry) said) }
{
    match cut {
        Cut::Two(rd, operand) => pair(alloc, text, operation, rd, operand),
        Cut::Three(rd, rs, operand) => match sum_of(operation) {
            None => Ok(Err(LineKind::Syntax)),
            Some(subtract) => sum(alloc, text, subtract, rd, rs, operand),
        },
        _ => Ok(Err(LineKind::Syntax)),
    }
}

/// AND to MVN.
pub fn registers(
    alloc: Global,
    text: &SharedText,
    operation: ThumbOperation,
    cut: Cut<'_>,
) -> ParsedOperation
    ensures { IfOk result (λ said. said ≡ forms.registers text.now operation (cut_of cut.entry)) }
{
    match cut {
        Cut::Two(rd, rs) => {
            let (rd, rs) = or_kind!(two_registers(alloc, text, rd, rs)?);
            Ok(Ok(What::Thumb(ThumbLine::DataRegister { operation, rd, rs })))
        }
        _ => Ok(Err(LineKind::Syntax)),
    }
}

/// The shift by a register.
fn shift_operation(shift: ThumbShift) -> ThumbOperation
    ensures { result ≡ forms.shift_operation shift }
{
    match shift {
        ThumbShift::Lsl => ThumbOperation::Lsl,
        ThumbShift::Lsr => ThumbOperation::Lsr,
        ThumbShift::Asr => ThumbOperation::Asr,
    }
}

/// The shift by a number.
fn shift_frame(
    shift: ThumbShift,
    pair: Result<(Register, Register), LineKind>,
) -> Result<Frame, LineKind>
    ensures { result ≡ forms.shift_frame shift pair }
{
    let (rd, rs) = pair?;
    Ok(Frame::Shift { shift, rd, rs })
}

/// LSL, LSR and ASR.
pub fn shifts(alloc: Global, text: &SharedText, shift: ThumbShift, cut: Cut<'_>) -> ParsedOperation
    ensures { IfOk result (λ said. forms.ReadsShift text.now shift (cut_of cut.entry) said) }
{
    match cut {
        Cut::Two(rd, rs) => registers(alloc, text, shift_operation(shift), Cut::Two(rd, rs)),
        Cut::Three(rd, rs, amount) => match without_first(text, b"#", amount) {
            None => Ok(Err(LineKind::Syntax)),
            Some(number) => {
                let frame = shift_frame(shift, two_registers(alloc, text, rd, rs)?);
                with_value(alloc, text, frame, number)
            }
        },
        _ => Ok(Err(LineKind::Syntax)),
    }
}
