//! What the tokens behind an operation word say, in each form of a line.

ghost use Rattle.std.specs.Prelude.{◌≡◌, IfOk};
ghost use Rattle.asm_model.specs.Readings as readings;
ghost use Rattle.asm_arm.specs.Steps.{cut_of};
ghost use Rattle.asm_thumb.specs.LineForms as lines;
ghost use Rattle.asm_thumb.specs.declared.frames.Frame.TheVariants as frame;

use crate::data::{immediates, registers, shifts};
use crate::frames::{Frame, ParsedOperation, with_value};
use crate::mnemonics::Mnemonic;
use crate::operands::{register_list, written_base};
use crate::transfers::{Transfer, signed_transfer, transferred};
use asm_arm::line_forms::{no_operation, without_hash};
use asm_arm::operands::{Cut, cut_operands, register};
use asm_expr::kinds::both;
use asm_expr::or_kind;
use asm_model::{Register, RegisterList, SharedText, ThumbLine, Token, What};
use sdt_fault::kinds::LineKind;
use std::alloc::Global;
use thumb_isa::HighOperation;

fn push_pop(alloc: Global, text: &SharedText, load: bool, cut: Cut<'_>) -> ParsedOperation
    ensures { IfOk result (λ said. said ≡ lines.push_pop text.now load (cut_of cut.entry)) }
{
    match cut {
        Cut::One(list) => {
            let items = or_kind!(register_list(alloc, text, list)?);
            Ok(Ok(What::Thumb(ThumbLine::PushPop {
                load,
                list: RegisterList { items },
            })))
        }
        _ => Ok(Err(LineKind::Syntax)),
    }
}

fn multiple(alloc: Global, text: &SharedText, load: bool, cut: Cut<'_>) -> ParsedOperation
    ensures { IfOk result (λ said. said ≡ lines.multiple text.now load (cut_of cut.entry)) }
{
    match cut {
        Cut::Two(base, list) => {
            let rn = written_base(alloc, text, base)?;
            let list = register_list(alloc, text, list)?;
            let (rn, items) = or_kind!(both(rn, list));
            Ok(Ok(What::Thumb(ThumbLine::TransferMultiple {
                load,
                rn,
                list: RegisterList { items },
            })))
        }
        _ => Ok(Err(LineKind::Syntax)),
    }
}

fn exchange(alloc: Global, text: &SharedText, cut: Cut<'_>) -> ParsedOperation
    ensures { IfOk result (λ said. said ≡ lines.exchange text.now (cut_of cut.entry)) }
{
    match cut {
        Cut::One(rs) => {
            let rs = or_kind!(register(alloc, text, rs)?);
            Ok(Ok(What::Thumb(ThumbLine::HighRegister {
                operation: HighOperation::Bx,
                rd: Register::Number(0),
                rs,
            })))
        }
        _ => Ok(Err(LineKind::Syntax)),
    }
}

/// ADR, from what is read of its Rd.
fn address_frame(rd: Result<Register, LineKind>) -> Result<Frame, LineKind>
    ensures { result ≡ readings.mapped (λ rd. frame.Address rd) rd }
{
    let rd = rd?;
    Ok(Frame::Address { rd })
}

fn address(alloc: Global, text: &SharedText, cut: Cut<'_>) -> ParsedOperation
    ensures { IfOk result (λ said. lines.ReadsAddress text.now (cut_of cut.entry) said) }
{
    match cut {
        Cut::Two(rd, target) => {
            let frame = address_frame(register(alloc, text, rd)?);
            with_value(alloc, text, frame, target)
        }
        _ => Ok(Err(LineKind::Syntax)),
    }
}

/// What the tokens behind an operation word say.
fn of_word(
    alloc: Global,
    text: &SharedText,
    mnemonic: Mnemonic,
    tokens: &[Token],
) -> ParsedOperation
    ensures { IfOk result (λ said. lines.ReadsWord text.now mnemonic tokens.now said) }
{
    let cut = cut_operands(text, tokens);
    match mnemonic {
        Mnemonic::Immediate(operation) => immediates(alloc, text, operation, cut),
        Mnemonic::Shift(shift) => shifts(alloc, text, shift, cut),
        Mnemonic::Register(operation) => registers(alloc, text, operation, cut),
        Mnemonic::Transfer { load, width } => {
            transferred(alloc, text, Transfer { load, width }, cut)
        }
        Mnemonic::TransferSigned(kind) => signed_transfer(alloc, text, kind, cut),
        Mnemonic::PushPop { load } => push_pop(alloc, text, load, cut),
        Mnemonic::TransferMultiple { load } => multiple(alloc, text, load, cut),
        Mnemonic::BranchConditional(condition) => {
            with_value(
                alloc,
                text,
                Ok(Frame::BranchConditional { condition }),
                tokens,
            )
        }
        Mnemonic::Branch => with_value(alloc, text, Ok(Frame::Branch), tokens),
        Mnemonic::BranchLink => with_value(alloc, text, Ok(Frame::BranchLink), tokens),
        Mnemonic::BranchExchange => exchange(alloc, text, cut),
        Mnemonic::SoftwareInterrupt => {
            let number = without_hash(text, tokens);
            with_value(alloc, text, Ok(Frame::SoftwareInterrupt), number)
        }
        Mnemonic::Address => address(alloc, text, cut),
        Mnemonic::NoOperation => Ok(no_operation(tokens)),
        Mnemonic::FloatingPoint => Ok(Err(LineKind::FloatingPoint)),
    }
}

/// What the tokens behind an operation say, or the fault where nothing names it.
#[inline(never)]
pub fn instruction(
    alloc: Global,
    text: &SharedText,
    fault: LineKind,
    word: Option<Mnemonic>,
    tokens: &[Token],
) -> ParsedOperation
    ensures { IfOk result (λ said. lines.Reads text.now fault word tokens.now said) }
{
    match word {
        None => Ok(Err(fault)),
        Some(mnemonic) => of_word(alloc, text, mnemonic, tokens),
    }
}
