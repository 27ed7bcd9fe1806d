//! The addresses of ARM transfers.

ghost use Rattle.std.specs.Prelude.{◌≡◌, IfOk, Some, None, Result};
ghost use Rattle.std.specs.Option.{option_copied};
ghost use Rattle.sdt_fault.specs.declared.kinds.LineKind.{LineKind};
ghost use Rattle.asm_model.specs.Operands as model;
ghost use Rattle.asm_model.specs.Readings as readings;
ghost use Rattle.asm_model.specs.Says as says;
ghost use Rattle.asm_model.specs.declared.operands.Indexing.TheVariants as indexing_is;
ghost use Rattle.asm_arm.specs.Addresses as addresses;
ghost use Rattle.asm_arm.specs.Operands as operands;
ghost use Rattle.asm_arm.specs.Steps.{cut_of};
ghost use Rattle.asm_arm.specs.declared.addresses.Offset.TheVariants as offset_is;
ghost use Rattle.asm_arm.specs.declared.operands.Scale.{Scale};

use crate::operands::{
    Cut, Scale, between, cut_operands, marked, register, shift_of, with_second, without_first,
};
use asm_expr::kinds::both;
use asm_expr::or_kind;
use asm_expr::read::shared_expression;
use asm_model::{Expr, ExprItem, HalfOffset, Indexing, Register, SharedText, Shift, Token, Value};
use sdt_fault::kinds::LineKind;
use sdt_fault::{List, NoMemory};
use std::alloc::Global;

/// The offset of an address.
#[derive(Drop)]
pub enum Offset {
    /// None is written.
    Absent,
    /// `#v`
    Number(Expr),
    /// `Rm,LSL #a`, or `-Rm` where `subtract`.
    Register {
        subtract: bool,
        rm: Register,
        shift: Shift,
    },
}

/// An address as it is written.
#[derive(Drop)]
pub struct Addressed {
    pub rn: Register,
    pub indexing: Indexing,
    pub offset: Offset,
}

/// The number that an offset is which isn't written.
pub fn zero(alloc: Global) -> Result<Expr, NoMemory>
    ensures { IfOk result (λ number. number ≡ addresses.zero) }
{
    let mut items = Vec::with_capacity(alloc, 1)?;
    items.push(ExprItem::Constant(Value::Number(0)))?;
    Ok(Expr {
        items: List::from_vec(items),
    })
}

/// A register with a sign.
fn with_sign(
    alloc: Global,
    text: &SharedText,
    subtract: bool,
    tokens: &[Token],
) -> Result<Result<(bool, Register), LineKind>, NoMemory>
    ensures { IfOk result (λ signed. signed
        ≡ readings.mapped (λ rm. (subtract, rm)) (operands.register text.now tokens.now)) }
{
    let rm = or_kind!(register(alloc, text, tokens)?);
    Ok(Ok((subtract, rm)))
}

/// A register, before which a minus may stand.
fn signed_register(
    alloc: Global,
    text: &SharedText,
    tokens: &[Token],
) -> Result<Result<(bool, Register), LineKind>, NoMemory>
    ensures { IfOk result (λ signed. signed ≡ addresses.signed_register text.now tokens.now) }
{
    match without_first(text, b"-", tokens) {
        Some(behind) => with_sign(alloc, text, true, behind),
        None => with_sign(alloc, text, false, tokens),
    }
}

/// A shift of an offset, which has no register.
fn number_shift(scale: Result<Scale, LineKind>) -> Result<Shift, LineKind>
    ensures { result ≡ readings.and_then scale addresses.number_shift }
{
    match scale {
        Ok(Scale::By { kind, amount }) => Ok(Shift::By { kind, amount }),
        Ok(Scale::Register { .. }) => Err(LineKind::Syntax),
        Ok(Scale::Extended) => Ok(Shift::Extended),
        Err(kind) => Err(kind),
    }
}

/// A number as an offset.
fn number_offset(
    alloc: Global,
    text: &SharedText,
    tokens: &[Token],
) -> Result<Result<Offset, LineKind>, NoMemory>
    ensures { IfOk result
        (λ offset. says.Expression text.now (λ v. offset_is.Number v) tokens.now offset) }
{
    let value = or_kind!(shared_expression(alloc, text, tokens)?);
    Ok(Ok(Offset::Number(value)))
}

/// An offset without a shift.
fn plain_offset(
    alloc: Global,
    text: &SharedText,
    tokens: &[Token],
) -> Result<Result<Offset, LineKind>, NoMemory>
    ensures { IfOk result (λ offset. addresses.ReadsOffset text.now tokens.now None offset) }
{
    if let Some(number) = without_first(text, b"#", tokens) {
        return number_offset(alloc, text, number);
    }
    let (subtract, rm) = or_kind!(signed_register(alloc, text, tokens)?);
    Ok(Ok(Offset::Register {
        subtract,
        rm,
        shift: Shift::Unshifted,
    }))
}

/// A shift of an offset.
fn offset_shift(
    alloc: Global,
    text: &SharedText,
    tokens: &[Token],
) -> Result<Result<Shift, LineKind>, NoMemory>
    ensures { IfOk result (λ read. (scale : Result Scale LineKind)
        × operands.ReadsScale text.now tokens.now scale
        × (read ≡ readings.and_then scale addresses.number_shift)) }
{
    let scale = shift_of(alloc, text, tokens)?;
    Ok(number_shift(scale))
}

/// An offset.
fn any_offset(
    alloc: Global,
    text: &SharedText,
    tokens: &[Token],
    shift: Option<&[Token]>,
) -> Result<Result<Offset, LineKind>, NoMemory>
    ensures { IfOk result
        (λ offset. addresses.ReadsOffset text.now tokens.now (option_copied shift.entry) offset) }
{
    let Some(shift) = shift else {
        return plain_offset(alloc, text, tokens);
    };
    let signed = signed_register(alloc, text, tokens)?;
    let ((subtract, rm), shift) = or_kind!(with_second(signed, offset_shift(alloc, text, shift))?);
    Ok(Ok(Offset::Register {
        subtract,
        rm,
        shift,
    }))
}

/// A base and an offset.
fn at(
    alloc: Global,
    text: &SharedText,
    indexing: Indexing,
    base: &[Token],
    tokens: &[Token],
    shift: Option<&[Token]>,
) -> Result<Result<Addressed, LineKind>, NoMemory>
    ensures { IfOk result
        (λ address. addresses.ReadsAt text.now indexing base.now tokens.now
        (option_copied shift.entry) address) }
{
    let offset = any_offset(alloc, text, tokens, shift)?;
    let rn = register(alloc, text, base)?;
    let (rn, offset) = or_kind!(both(rn, offset));
    Ok(Ok(Addressed {
        rn,
        indexing,
        offset,
    }))
}

/// A base alone.
fn bare_base(
    alloc: Global,
    text: &SharedText,
    indexing: Indexing,
    base: &[Token],
) -> Result<Result<Addressed, LineKind>, NoMemory>
    ensures { IfOk result (λ address. address
        ≡ readings.mapped (λ rn. addresses.at indexing rn offset_is.Absent)
        (operands.register text.now base.now)) }
{
    let rn = or_kind!(register(alloc, text, base)?);
    Ok(Ok(Addressed {
        rn,
        indexing,
        offset: Offset::Absent,
    }))
}

/// A base and an offset with a shift, where offsets have one.
fn scaled_at(
    alloc: Global,
    text: &SharedText,
    indexing: Indexing,
    shifts: bool,
    operands: (&[Token], &[Token], &[Token]),
) -> Result<Result<Addressed, LineKind>, NoMemory>
    ensures { IfOk result
        (λ address. addresses.ReadsScaledAt text.now indexing shifts operands.entry.0.now
        operands.entry.1.now operands.entry.2.now address) }
{
    if shifts {
        return at(
            alloc,
            text,
            indexing,
            operands.0,
            operands.1,
            Some(operands.2),
        );
    }
    Ok(Err(LineKind::Syntax))
}

/// What stands in brackets.
fn inside(
    alloc: Global,
    text: &SharedText,
    indexing: Indexing,
    shifts: bool,
    cut: Cut<'_>,
) -> Result<Result<Addressed, LineKind>, NoMemory>
    ensures { IfOk result
        (λ address. addresses.ReadsInside text.now indexing shifts (cut_of cut.entry) address) }
{
    match cut {
        Cut::One(base) => bare_base(alloc, text, indexing, base),
        Cut::Two(base, tokens) => at(alloc, text, indexing, base, tokens, None),
        Cut::Three(base, tokens, shift) => {
            scaled_at(alloc, text, indexing, shifts, (base, tokens, shift))
        }
        _ => Ok(Err(LineKind::Syntax)),
    }
}

/// The tokens in brackets, and whether `!` stands behind them.
fn bracketed<'a>(text: &SharedText, tokens: &'a [Token]) -> (Option<&'a [Token]>, bool)
    ensures { (option_copied result.0, result.1) ≡ addresses.bracketed text.now tokens.now }
{
    let (tokens, mark) = marked(text, b"!", tokens);
    (between(text, b"[", b"]", tokens), mark)
}

/// `!` writes the base back.
fn before_of(mark: bool) -> Indexing
    ensures { result ≡ addresses.before_of mark }
{
    if mark {
        return Indexing::Before;
    }
    Indexing::Offset
}

/// An address with its offset in the brackets, which may have a shift where `shifts`.
pub fn before(
    alloc: Global,
    text: &SharedText,
    shifts: bool,
    tokens: &[Token],
) -> Result<Result<Addressed, LineKind>, NoMemory>
    ensures { IfOk result (λ address. addresses.ReadsBefore text.now shifts tokens.now address) }
{
    let (content, mark) = bracketed(text, tokens);
    match content {
        None => Ok(Err(LineKind::Syntax)),
        Some(content) => inside(
            alloc,
            text,
            before_of(mark),
            shifts,
            cut_operands(text, content),
        ),
    }
}

/// The base alone in brackets.
pub fn base<'a>(text: &SharedText, tokens: &'a [Token]) -> Option<&'a [Token]>
    ensures { option_copied result ≡ addresses.base text.now tokens.now }
{
    let (content, mark) = bracketed(text, tokens);
    if mark {
        return None;
    }
    content
}

/// An address with its offset behind the brackets.
pub fn after(
    alloc: Global,
    text: &SharedText,
    brackets: &[Token],
    tokens: &[Token],
    shift: Option<&[Token]>,
) -> Result<Result<Addressed, LineKind>, NoMemory>
    ensures { IfOk result
        (λ address. addresses.ReadsAfter text.now brackets.now tokens.now
        (option_copied shift.entry) address) }
{
    match base(text, brackets) {
        None => Ok(Err(LineKind::Syntax)),
        Some(base) => at(alloc, text, Indexing::After, base, tokens, shift),
    }
}

/// An address with the suffix T.
fn translated_of(
    indexing: Indexing,
    address: Result<Addressed, LineKind>,
) -> Result<Addressed, LineKind>
    ensures { result ≡ readings.mapped (addresses.translated_of indexing) address }
{
    let Addressed { rn, offset, .. } = address?;
    Ok(Addressed {
        rn,
        indexing,
        offset,
    })
}

/// Whether brackets hold a base alone.
fn is_base(text: &SharedText, base: Option<&[Token]>) -> bool
    ensures { result ≡ addresses.is_base text.now (option_copied base.entry) }
{
    let Some(tokens) = base else {
        return false;
    };
    match cut_operands(text, tokens) {
        Cut::One(_) => true,
        _ => false,
    }
}

/// An address with its offset in the brackets, with the suffix T or without it.
pub fn before_as(
    text: &SharedText,
    translated: bool,
    tokens: &[Token],
    address: Result<Addressed, LineKind>,
) -> Result<Addressed, LineKind>
    ensures { result ≡ addresses.before_as text.now translated tokens.now address }
{
    if !translated {
        return address;
    }
    if is_base(text, base(text, tokens)) {
        return translated_of(Indexing::Translated, address);
    }
    translated_of(Indexing::TranslatedBefore, address)
}

/// The same of an address with its offset behind the brackets.
pub fn after_as(
    translated: bool,
    address: Result<Addressed, LineKind>,
) -> Result<Addressed, LineKind>
    ensures { result ≡ addresses.after_as translated address }
{
    if translated {
        return translated_of(Indexing::Translated, address);
    }
    address
}

/// A register offset of a half-word, which has no shift.
fn unshifted(subtract: bool, rm: Register, shift: Shift) -> Result<HalfOffset, LineKind>
    ensures { result ≡ addresses.unshifted subtract rm shift }
{
    match shift {
        Shift::Unshifted => Ok(HalfOffset::Register { subtract, rm }),
        _ => Err(LineKind::Syntax),
    }
}

/// The offset of a half-word.
pub fn half_offset(alloc: Global, offset: Offset) -> Result<Result<HalfOffset, LineKind>, NoMemory>
    ensures { IfOk result (λ half. half ≡ addresses.half_offset offset) }
{
    match offset {
        Offset::Absent => Ok(Ok(HalfOffset::Number {
            offset: zero(alloc)?,
        })),
        Offset::Number(value) => Ok(Ok(HalfOffset::Number { offset: value })),
        Offset::Register {
            subtract,
            rm,
            shift,
        } => Ok(unshifted(subtract, rm, shift)),
    }
}
