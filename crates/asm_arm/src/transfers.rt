//! What the tokens behind the word of a transfer say.

ghost use Rattle.std.specs.Prelude.{◌≡◌, IfOk, ◌&&◌, false, true};
ghost use Rattle.std.specs.Option.{option_copied};
ghost use Rattle.asm_model.specs.declared.arm_lines.ArmLine.TheVariants as line;
ghost use Rattle.asm_model.specs.declared.operands.Address.TheVariants as address;
ghost use Rattle.asm_model.specs.declared.statements.What.TheVariants as what;
ghost use Rattle.asm_arm.specs.LineForms as lines;
ghost use Rattle.asm_arm.specs.Operands as operands;
ghost use Rattle.asm_arm.specs.Steps.{cut_of};

use crate::addresses::{Addressed, Offset, after, after_as, before, before_as, half_offset, zero};
use crate::lists;
use crate::operands::{Cut, register, without_first};
use arm_isa::HalfKind;
use asm_expr::kinds::both;
use asm_expr::or_kind;
use asm_expr::read::shared_expression;
use asm_model::{
    Address, ArmLine, BlockMode, ListItem, PseudoLine, Register, RegisterList, SharedText, Token,
    What,
};
use sdt_fault::kinds::LineKind;
use sdt_fault::{List, NoMemory};
use sdt_word::Condition;
use std::alloc::Global;

/// The outcome of a reading: what is said or the kind of its fault, or want of memory.
type ParsedOperation = Result<Result<What, LineKind>, NoMemory>;

/// A transfer of a word or a byte as its word says it.
#[derive(Clone, Copy)]
pub struct Transfer {
    pub condition: Condition,
    pub load: bool,
    pub byte: bool,
    pub translated: bool,
}

/// A transfer with a number as its offset.
fn immediate_transfer(word: Transfer, rd: Register, address: Address) -> What
    ensures { result ≡ what.Arm
        (line.TransferImmediate word.condition word.load word.byte rd address) }
{
    What::Arm(ArmLine::TransferImmediate {
        condition: word.condition,
        load: word.load,
        byte: word.byte,
        rd,
        address,
    })
}

/// A transfer of a word or a byte, from its address.
fn transfer_line(
    alloc: Global,
    word: Transfer,
    rd: Register,
    address: Addressed,
) -> Result<What, NoMemory>
    ensures { IfOk result (λ said. said
        ≡ lines.transfer_line word.condition word.load word.byte rd address) }
{
    let Addressed {
        rn,
        indexing,
        offset,
    } = address;
    match offset {
        Offset::Absent => {
            let offset = zero(alloc)?;
            let address = Address::Based {
                rn,
                indexing,
                offset,
            };
            Ok(immediate_transfer(word, rd, address))
        }
        Offset::Number(offset) => {
            let address = Address::Based {
                rn,
                indexing,
                offset,
            };
            Ok(immediate_transfer(word, rd, address))
        }
        Offset::Register {
            subtract,
            rm,
            shift,
        } => Ok(What::Arm(ArmLine::TransferShifted {
            condition: word.condition,
            load: word.load,
            byte: word.byte,
            rd,
            rn,
            indexing,
            subtract,
            rm,
            shift,
        })),
    }
}

/// A transfer, from the tokens of its register and the reading of its address.
fn transferred(
    alloc: Global,
    text: &SharedText,
    word: Transfer,
    rd: &[Token],
    address: Result<Addressed, LineKind>,
) -> ParsedOperation
    ensures { IfOk result (λ said. said
        ≡ lines.transferred text.now word.condition word.load word.byte rd.now address) }
{
    let rd = register(alloc, text, rd)?;
    let (rd, address) = or_kind!(both(rd, address));
    Ok(Ok(transfer_line(alloc, word, rd, address)?))
}

/// A number that is loaded.
fn loaded_constant(
    alloc: Global,
    text: &SharedText,
    condition: Condition,
    rd: &[Token],
    tokens: &[Token],
) -> ParsedOperation
    ensures { IfOk result
        (λ said. lines.ReadsConstant text.now condition true rd.now tokens.now said) }
{
    let value = shared_expression(alloc, text, tokens)?;
    let rd = register(alloc, text, rd)?;
    let (rd, value) = or_kind!(both(rd, value));
    Ok(Ok(What::Pseudo(PseudoLine::LoadConstant {
        condition,
        rd,
        value,
    })))
}

/// A number behind an equals sign, for LDR alone.
fn constant(
    alloc: Global,
    text: &SharedText,
    word: Transfer,
    rd: &[Token],
    tokens: &[Token],
) -> ParsedOperation
    ensures { IfOk result
        (λ said. lines.ReadsConstant text.now word.condition
        (word.load && lines.is_plain word.byte word.translated) rd.now tokens.now said) }
{
    if !word.load {
        return Ok(Err(LineKind::Syntax));
    }
    if word.byte {
        return Ok(Err(LineKind::Syntax));
    }
    if word.translated {
        return Ok(Err(LineKind::Syntax));
    }
    loaded_constant(alloc, text, word.condition, rd, tokens)
}

/// A label that is loaded from or stored to.
fn label(
    alloc: Global,
    text: &SharedText,
    word: Transfer,
    rd: &[Token],
    tokens: &[Token],
) -> ParsedOperation
    ensures { IfOk result
        (λ said. lines.ReadsLabel text.now word.condition word.load
        (lines.is_plain word.byte word.translated) rd.now tokens.now said) }
{
    if word.byte {
        return Ok(Err(LineKind::Syntax));
    }
    if word.translated {
        return Ok(Err(LineKind::Syntax));
    }
    let target = shared_expression(alloc, text, tokens)?;
    let rd = register(alloc, text, rd)?;
    let (rd, target) = or_kind!(both(rd, target));
    Ok(Ok(What::Arm(ArmLine::TransferImmediate {
        condition: word.condition,
        load: word.load,
        byte: false,
        rd,
        address: Address::Label { target },
    })))
}

/// A transfer with one operand behind Rd, in brackets.
fn in_brackets(
    alloc: Global,
    text: &SharedText,
    word: Transfer,
    rd: &[Token],
    tokens: &[Token],
) -> ParsedOperation
    ensures { IfOk result
        (λ said. lines.ReadsBased text.now word.condition word.load word.byte word.translated rd.now
        tokens.now said) }
{
    let address = before(alloc, text, true, tokens)?;
    let address = before_as(text, word.translated, tokens, address);
    transferred(alloc, text, word, rd, address)
}

/// A transfer with one operand behind Rd, which isn't in brackets.
fn constant_or_label(
    alloc: Global,
    text: &SharedText,
    word: Transfer,
    rd: &[Token],
    tokens: &[Token],
) -> ParsedOperation
    ensures { IfOk result
        (λ said. lines.ReadsOther text.now word.condition word.load word.byte word.translated rd.now
        tokens.now (operands.without_first text.now lines.equals tokens.now) said) }
{
    match without_first(text, b"=", tokens) {
        Some(number) => constant(alloc, text, word, rd, number),
        None => label(alloc, text, word, rd, tokens),
    }
}

/// A transfer with one operand behind Rd.
fn place(
    alloc: Global,
    text: &SharedText,
    word: Transfer,
    rd: &[Token],
    tokens: &[Token],
) -> ParsedOperation
    ensures { IfOk result
        (λ said. lines.ReadsPlace text.now word.condition word.load word.byte word.translated rd.now
        tokens.now (operands.without_first text.now lines.bracket tokens.now) said) }
{
    match without_first(text, b"[", tokens) {
        Some(_) => in_brackets(alloc, text, word, rd, tokens),
        None => constant_or_label(alloc, text, word, rd, tokens),
    }
}

/// A transfer with its offset behind the brackets.
fn moved(
    alloc: Global,
    text: &SharedText,
    word: Transfer,
    rd: &[Token],
    brackets: &[Token],
    offset: (&[Token], Option<&[Token]>),
) -> ParsedOperation
    ensures { IfOk result
        (λ said. lines.ReadsMoved text.now word.condition word.load word.byte word.translated rd.now
        brackets.now offset.entry.0.now (option_copied offset.entry.1) said) }
{
    let address = after(alloc, text, brackets, offset.0, offset.1)?;
    let address = after_as(word.translated, address);
    transferred(alloc, text, word, rd, address)
}

#[inline(never)]
pub fn word_transfer(
    alloc: Global,
    text: &SharedText,
    word: Transfer,
    cut: Cut<'_>,
) -> ParsedOperation
    ensures { IfOk result
        (λ said. lines.ReadsTransfer text.now word.condition word.load word.byte word.translated
        (cut_of cut.entry) said) }
{
    match cut {
        Cut::Two(rd, address) => place(alloc, text, word, rd, address),
        Cut::Three(rd, base, offset) => moved(alloc, text, word, rd, base, (offset, None)),
        Cut::Four(rd, base, offset, shift) => {
            moved(alloc, text, word, rd, base, (offset, Some(shift)))
        }
        _ => Ok(Err(LineKind::Syntax)),
    }
}

/// A transfer of a half-word or a signed byte as its word says it.
#[derive(Clone, Copy)]
pub struct HalfTransfer {
    pub condition: Condition,
    pub load: bool,
    pub kind: HalfKind,
}

/// A transfer of a half-word or a signed byte, from its address.
fn half_line(alloc: Global, word: HalfTransfer, rd: Register, address: Addressed) -> ParsedOperation
    ensures { IfOk result (λ said. said
        ≡ lines.half_line word.condition word.load word.kind rd address) }
{
    let Addressed {
        rn,
        indexing,
        offset,
    } = address;
    let offset = or_kind!(half_offset(alloc, offset)?);
    Ok(Ok(What::Arm(ArmLine::TransferHalf {
        condition: word.condition,
        load: word.load,
        kind: word.kind,
        rd,
        rn,
        indexing,
        offset,
    })))
}

fn half_moved(
    alloc: Global,
    text: &SharedText,
    word: HalfTransfer,
    rd: &[Token],
    address: Result<Addressed, LineKind>,
) -> ParsedOperation
    ensures { IfOk result (λ said. said
        ≡ lines.half_moved text.now word.condition word.load word.kind rd.now address) }
{
    let rd = register(alloc, text, rd)?;
    let (rd, address) = or_kind!(both(rd, address));
    half_line(alloc, word, rd, address)
}

fn half_before(
    alloc: Global,
    text: &SharedText,
    word: HalfTransfer,
    rd: &[Token],
    tokens: &[Token],
) -> ParsedOperation
    ensures { IfOk result
        (λ said. lines.ReadsHalf text.now word.condition word.load word.kind
        (operands.two rd.now tokens.now) said) }
{
    let address = before(alloc, text, false, tokens)?;
    half_moved(alloc, text, word, rd, address)
}

fn half_after(
    alloc: Global,
    text: &SharedText,
    word: HalfTransfer,
    rd: &[Token],
    brackets: &[Token],
    tokens: &[Token],
) -> ParsedOperation
    ensures { IfOk result
        (λ said. lines.ReadsHalf text.now word.condition word.load word.kind
        (operands.three rd.now brackets.now tokens.now) said) }
{
    let address = after(alloc, text, brackets, tokens, None)?;
    half_moved(alloc, text, word, rd, address)
}

#[inline(never)]
pub fn transfer_half(
    alloc: Global,
    text: &SharedText,
    word: HalfTransfer,
    cut: Cut<'_>,
) -> ParsedOperation
    ensures { IfOk result
        (λ said. lines.ReadsHalf text.now word.condition word.load word.kind
        (cut_of cut.entry) said) }
{
    match cut {
        Cut::Two(rd, address) => half_before(alloc, text, word, rd, address),
        Cut::Three(rd, base, offset) => half_after(alloc, text, word, rd, base, offset),
        _ => Ok(Err(LineKind::Syntax)),
    }
}

#[inline(never)]
pub fn block(
    alloc: Global,
    text: &SharedText,
    condition: Condition,
    load: bool,
    mode: BlockMode,
    cut: Cut<'_>,
) -> ParsedOperation
    ensures { IfOk result (λ said. said
        ≡ lines.block text.now condition load mode (cut_of cut.entry)) }
{
    match cut {
        Cut::Two(base, list) => {
            let base = lists::base(alloc, text, base)?;
            let list = lists::register_list(alloc, text, list)?;
            let ((rn, write_back), (items, user)) = or_kind!(both(base, list));
            Ok(Ok(What::Arm(ArmLine::TransferBlock {
                condition,
                load,
                mode,
                rn,
                write_back,
                list: RegisterList { items },
                user,
            })))
        }
        _ => Ok(Err(LineKind::Syntax)),
    }
}
