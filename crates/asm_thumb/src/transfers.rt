//! What the operands of transfers say.

ghost use Rattle.std.specs.Prelude.{◌≡◌, IfOk, ◌&&◌};
ghost use Rattle.asm_model.specs.Readings as readings;
ghost use Rattle.asm_arm.specs.LineForms as arm;
ghost use Rattle.asm_arm.specs.Operands as arm_operands;
ghost use Rattle.asm_arm.specs.Steps.{cut_of};
ghost use Rattle.asm_thumb.specs.Frames as frames;
ghost use Rattle.asm_thumb.specs.Steps.{cuts_in};
ghost use Rattle.asm_thumb.specs.Transfers as transfers;
ghost use Rattle.asm_thumb.specs.declared.frames.Frame.TheVariants as frame;

use crate::frames::{Frame, ParsedOperation, with_value, with_zero};
use crate::operands::{is_pc, is_sp};
use asm_arm::operands::{
    Cut, between, cut_operands, register, three_registers, two_registers, without_first,
};
use asm_expr::or_kind;
use asm_model::{Register, SharedText, ThumbLine, Token, What};
use sdt_fault::NoMemory;
use sdt_fault::kinds::LineKind;
use sdt_word::Width;
use std::alloc::Global;
use thumb_isa::SignedTransfer;

/// A transfer as its word says it.
#[derive(Clone, Copy)]
pub struct Transfer {
    pub load: bool,
    pub width: Width,
}

/// Whether words are moved.
fn is_word(width: Width) -> bool
    ensures { result ≡ transfers.is_word width }
{
    match width {
        Width::Word => true,
        _ => false,
    }
}

/// A transfer of a word by a base and a number.
fn word_frame(load: bool, rd: Register, rn: Register) -> Frame
    ensures { result ≡ transfers.word_frame load rd rn }
{
    if is_sp(&rn) {
        return Frame::TransferStack { load, rd };
    }
    if load && is_pc(&rn) {
        return Frame::Literal { rd };
    }
    Frame::Transfer {
        load,
        byte: false,
        rd,
        rn,
    }
}

/// A transfer by a base and a number.
fn number_frame(word: Transfer, rd: Register, rn: Register) -> Frame
    ensures { result ≡ transfers.number_frame word.load word.width rd rn }
{
    let load = word.load;
    match word.width {
        Width::Byte => Frame::Transfer {
            load,
            byte: true,
            rd,
            rn,
        },
        Width::Half => Frame::TransferHalf { load, rd, rn },
        Width::Word => word_frame(load, rd, rn),
    }
}

/// A transfer with a number, from the tokens of its registers.
fn based(
    alloc: Global,
    text: &SharedText,
    word: Transfer,
    rd: &[Token],
    rn: &[Token],
) -> Result<Result<Frame, LineKind>, NoMemory>
    ensures { IfOk result (λ frame. frame
        ≡ transfers.based text.now word.load word.width rd.now rn.now) }
{
    let (rd, rn) = or_kind!(two_registers(alloc, text, rd, rn)?);
    Ok(Ok(number_frame(word, rd, rn)))
}

/// A transfer of half-words without a sign.
fn half_transfer(load: bool) -> SignedTransfer
    ensures { result ≡ transfers.half_transfer load }
{
    if load {
        return SignedTransfer::LoadHalf;
    }
    SignedTransfer::StoreHalf
}

/// A transfer by two registers.
fn register_line(word: Transfer, rd: Register, rn: Register, ro: Register) -> What
    ensures { result ≡ transfers.register_line word.load word.width rd rn ro }
{
    let load = word.load;
    What::Thumb(match word.width {
        Width::Byte => ThumbLine::TransferRegister {
            load,
            byte: true,
            rd,
            rn,
            ro,
        },
        Width::Half => ThumbLine::TransferSigned {
            kind: half_transfer(load),
            rd,
            rn,
            ro,
        },
        Width::Word => ThumbLine::TransferRegister {
            load,
            byte: false,
            rd,
            rn,
            ro,
        },
    })
}

/// A number or a register as an offset.
fn any_offset(
    alloc: Global,
    text: &SharedText,
    word: Transfer,
    rd: &[Token],
    rn: &[Token],
    offset: &[Token],
) -> ParsedOperation
    ensures { IfOk result
        (λ said. transfers.ReadsOffset text.now word.load word.width rd.now rn.now offset.now
        (arm_operands.without_first text.now arm.hash offset.now) said) }
{
    if let Some(number) = without_first(text, b"#", offset) {
        let frame = based(alloc, text, word, rd, rn)?;
        return with_value(alloc, text, frame, number);
    }
    let ((rd, rn), ro) = or_kind!(three_registers(alloc, text, rd, rn, offset)?);
    Ok(Ok(register_line(word, rd, rn, ro)))
}

/// The operands in brackets.
fn bracketed<'a>(text: &SharedText, tokens: &'a [Token]) -> Option<Cut<'a>>
    ensures { cuts_in result ≡ transfers.bracketed text.now tokens.now }
{
    match between(text, b"[", b"]", tokens) {
        None => None,
        Some(inside) => Some(cut_operands(text, inside)),
    }
}

/// A transfer with an address in brackets.
fn in_brackets(
    alloc: Global,
    text: &SharedText,
    word: Transfer,
    rd: &[Token],
    tokens: &[Token],
) -> ParsedOperation
    ensures { IfOk result
        (λ said. transfers.ReadsBracketed text.now word.load word.width rd.now
        (transfers.bracketed text.now tokens.now) said) }
{
    match bracketed(text, tokens) {
        Some(Cut::One(rn)) => with_zero(alloc, based(alloc, text, word, rd, rn)?),
        Some(Cut::Two(rn, offset)) => any_offset(alloc, text, word, rd, rn, offset),
        _ => Ok(Err(LineKind::Syntax)),
    }
}

/// A number that is loaded.
fn constant_frame(rd: Result<Register, LineKind>) -> Result<Frame, LineKind>
    ensures { result ≡ readings.mapped (λ rd. frame.Constant rd) rd }
{
    let rd = rd?;
    Ok(Frame::Constant { rd })
}

/// Rd and a number that is loaded.
fn constant(alloc: Global, text: &SharedText, rd: &[Token], number: &[Token]) -> ParsedOperation
    ensures { IfOk result
        (λ said. frames.ReadsWith text.now
        (readings.mapped (λ rd. frame.Constant rd) (arm_operands.register text.now rd.now)) number.now
        said) }
{
    let rd = register(alloc, text, rd)?;
    with_value(alloc, text, constant_frame(rd), number)
}

/// A label that is loaded.
fn label_frame(rd: Result<Register, LineKind>) -> Result<Frame, LineKind>
    ensures { result ≡ readings.mapped (λ rd. frame.Label rd) rd }
{
    let rd = rd?;
    Ok(Frame::Label { rd })
}

/// Rd and a label that is loaded.
fn label(alloc: Global, text: &SharedText, rd: &[Token], tokens: &[Token]) -> ParsedOperation
    ensures { IfOk result
        (λ said. frames.ReadsWith text.now
        (readings.mapped (λ rd. frame.Label rd) (arm_operands.register text.now rd.now)) tokens.now
        said) }
{
    let rd = register(alloc, text, rd)?;
    with_value(alloc, text, label_frame(rd), tokens)
}

/// A transfer whose second operand isn't in brackets.
fn loaded(
    alloc: Global,
    text: &SharedText,
    word: Transfer,
    rd: &[Token],
    tokens: &[Token],
) -> ParsedOperation
    ensures { IfOk result
        (λ said. transfers.ReadsLoaded text.now
        (word.load && transfers.is_word word.width) rd.now tokens.now
        (arm_operands.without_first text.now arm.equals tokens.now) said) }
{
    if !word.load {
        return Ok(Err(LineKind::Syntax));
    }
    if !is_word(word.width) {
        return Ok(Err(LineKind::Syntax));
    }
    match without_first(text, b"=", tokens) {
        Some(number) => constant(alloc, text, rd, number),
        None => label(alloc, text, rd, tokens),
    }
}

/// LDR and STR, with B and H.
pub fn transferred(
    alloc: Global,
    text: &SharedText,
    word: Transfer,
    cut: Cut<'_>,
) -> ParsedOperation
    ensures { IfOk result
        (λ said. transfers.ReadsTransfer text.now word.load word.width (cut_of cut.entry) said) }
{
    match cut {
        Cut::Two(rd, address) => match without_first(text, b"[", address) {
            Some(_) => in_brackets(alloc, text, word, rd, address),
            None => loaded(alloc, text, word, rd, address),
        },
        _ => Ok(Err(LineKind::Syntax)),
    }
}

/// LDRSB and LDRSH, behind their Rd.
fn signed_inside(
    alloc: Global,
    text: &SharedText,
    kind: SignedTransfer,
    rd: &[Token],
    address: Option<Cut<'_>>,
) -> ParsedOperation
    ensures { IfOk result (λ said. said
        ≡ transfers.signed_inside text.now kind rd.now (cuts_in address.entry)) }
{
    match address {
        Some(Cut::Two(rn, ro)) => {
            let ((rd, rn), ro) = or_kind!(three_registers(alloc, text, rd, rn, ro)?);
            Ok(Ok(What::Thumb(ThumbLine::TransferSigned { kind, rd, rn, ro })))
        }
        _ => Ok(Err(LineKind::Syntax)),
    }
}

/// LDRSB and LDRSH.
pub fn signed_transfer(
    alloc: Global,
    text: &SharedText,
    kind: SignedTransfer,
    cut: Cut<'_>,
) -> ParsedOperation
    ensures { IfOk result (λ said. said
        ≡ transfers.signed_transfer text.now kind (cut_of cut.entry)) }
{
    match cut {
        Cut::Two(rd, address) => signed_inside(alloc, text, kind, rd, bracketed(text, address)),
        _ => Ok(Err(LineKind::Syntax)),
    }
}
