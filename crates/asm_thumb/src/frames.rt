//! Lines but for their expression.

ghost use Rattle.std.specs.Prelude.{◌≡◌, Result, IfOk};
ghost use Rattle.sdt_fault.specs.declared.kinds.LineKind.{LineKind};
ghost use Rattle.asm_model.specs.declared.exprs.Expr.{Expr};
ghost use Rattle.asm_model.specs.Grammar.{ParsesTokens};
ghost use Rattle.asm_model.specs.Readings as readings;
ghost use Rattle.asm_arm.specs.Addresses as addresses;
ghost use Rattle.asm_thumb.specs.Frames as frames;

use asm_arm::addresses::zero;
use asm_expr::kinds::both;
use asm_expr::or_kind;
use asm_expr::read::shared_expression;
use asm_model::{
    Expr, LiteralAddress, PseudoLine, Register, SharedText, ThumbLine, ThumbOperand, Token, What,
};
use sdt_fault::NoMemory;
use sdt_fault::kinds::LineKind;
use sdt_word::Condition;
use std::alloc::Global;
use thumb_isa::{ImmediateOperation, ThumbShift};

/// The outcome of a reading: what is said or the kind of its fault, or want of memory.
pub type ParsedOperation = Result<Result<What, LineKind>, NoMemory>;

/// A line but for its expression.
#[derive(Drop)]
pub enum Frame {
    /// `LSL Rd,Rs,#v`
    Shift {
        shift: ThumbShift,
        rd: Register,
        rs: Register,
    },
    /// `ADD Rd,Rs,#v`
    Sum {
        subtract: bool,
        rd: Register,
        rs: Register,
    },
    /// `MOV Rd,#v`
    Immediate {
        operation: ImmediateOperation,
        rd: Register,
    },
    /// `LDR Rd,[pc,#v]`
    Literal {
        rd: Register,
    },
    /// `LDR Rd,label`
    Label {
        rd: Register,
    },
    /// `LDR Rd,[Rn,#v]`
    Transfer {
        load: bool,
        byte: bool,
        rd: Register,
        rn: Register,
    },
    /// `LDRH Rd,[Rn,#v]`
    TransferHalf {
        load: bool,
        rd: Register,
        rn: Register,
    },
    /// `LDR Rd,[sp,#v]`
    TransferStack {
        load: bool,
        rd: Register,
    },
    /// `ADD Rd,pc,#v`
    LoadAddress {
        stack: bool,
        rd: Register,
    },
    /// `ADD sp,#v`
    AdjustStack {
        subtract: bool,
    },
    /// `B{c} label`
    BranchConditional {
        condition: Condition,
    },
    /// `SWI v`
    SoftwareInterrupt,
    /// `B label`
    Branch,
    /// `BL label`
    BranchLink,
    /// `LDR Rd,=v`
    Constant {
        rd: Register,
    },
    /// `ADR Rd,label`
    Address {
        rd: Register,
    },
}

/// A line with its expression.
pub fn filled(frame: Frame, value: Expr) -> What
    ensures { result ≡ frames.filled frame value }
{
    let condition = Condition::Al;
    What::Thumb(match frame {
        Frame::Shift { shift, rd, rs } => ThumbLine::ShiftImmediate {
            shift,
            rd,
            rs,
            amount: value,
        },
        Frame::Sum { subtract, rd, rs } => ThumbLine::AddSubtract {
            subtract,
            rd,
            rs,
            operand: ThumbOperand::Number(value),
        },
        Frame::Immediate { operation, rd } => ThumbLine::DataImmediate {
            operation,
            rd,
            value,
        },
        Frame::Literal { rd } => ThumbLine::LoadLiteral {
            rd,
            address: LiteralAddress::Offset(value),
        },
        Frame::Label { rd } => ThumbLine::LoadLiteral {
            rd,
            address: LiteralAddress::Label(value),
        },
        Frame::Transfer { load, byte, rd, rn } => ThumbLine::TransferImmediate {
            load,
            byte,
            rd,
            rn,
            offset: value,
        },
        Frame::TransferHalf { load, rd, rn } => ThumbLine::TransferHalf {
            load,
            rd,
            rn,
            offset: value,
        },
        Frame::TransferStack { load, rd } => ThumbLine::TransferStack {
            load,
            rd,
            offset: value,
        },
        Frame::LoadAddress { stack, rd } => ThumbLine::LoadAddress {
            stack,
            rd,
            offset: value,
        },
        Frame::AdjustStack { subtract } => ThumbLine::AdjustStack {
            subtract,
            offset: value,
        },
        Frame::BranchConditional { condition } => ThumbLine::BranchConditional {
            condition,
            target: value,
        },
        Frame::SoftwareInterrupt => ThumbLine::SoftwareInterrupt { number: value },
        Frame::Branch => ThumbLine::Branch { target: value },
        Frame::BranchLink => ThumbLine::BranchLink { target: value },
        Frame::Constant { rd } => {
            return What::Pseudo(PseudoLine::LoadConstant {
                condition,
                rd,
                value,
            });
        }
        Frame::Address { rd } => {
            return What::Pseudo(PseudoLine::Address {
                condition,
                rd,
                target: value,
            });
        }
    })
}

/// What was read of registers, with the value that tokens are. It is generic, so that the proof of the exit where memory
/// runs out does not go through every form of a line; so is the next.
fn with_expression<F: Drop>(
    alloc: Global,
    text: &SharedText,
    frame: Result<F, LineKind>,
    tokens: &[Token],
) -> Result<Result<(F, Expr), LineKind>, NoMemory>
    ensures { IfOk result (λ read. (value : Result Expr LineKind)
        × ParsesTokens text.now tokens.now value × (read ≡ readings.both frame value)) }
{
    let value = shared_expression(alloc, text, tokens)?;
    Ok(both(frame, value))
}

/// What was read of registers, with the value 0.
fn zeroed<F: Drop>(
    alloc: Global,
    frame: Result<F, LineKind>,
) -> Result<Result<(F, Expr), LineKind>, NoMemory>
    ensures { IfOk result
        (λ read. read ≡ readings.mapped (λ frame. (frame, addresses.zero)) frame) }
{
    let frame = or_kind!(frame);
    Ok(Ok((frame, zero(alloc)?)))
}

/// A line, from what is read of its registers and the tokens of its expression.
pub fn with_value(
    alloc: Global,
    text: &SharedText,
    frame: Result<Frame, LineKind>,
    tokens: &[Token],
) -> ParsedOperation
    ensures { IfOk result (λ said. frames.ReadsWith text.now frame tokens.now said) }
{
    let (frame, value) = or_kind!(with_expression(alloc, text, frame, tokens)?);
    Ok(Ok(filled(frame, value)))
}

/// A line whose number is 0 and isn't written.
pub fn with_zero(alloc: Global, frame: Result<Frame, LineKind>) -> ParsedOperation
    ensures { IfOk result (λ said. said ≡ frames.with_zero frame) }
{
    let (frame, value) = or_kind!(zeroed(alloc, frame)?);
    Ok(Ok(filled(frame, value)))
}
