//! The operands of ARM instructions.

ghost use Rattle.std.specs.Prelude.{◌≡◌, ◌∷◌, [], IfOk, length, take, ◌-◌, Some, None, Result, Ok};
ghost use Rattle.std.specs.Option.{option_copied};
ghost use Rattle.sdt_fault.specs.declared.kinds.LineKind.{LineKind};
ghost use Rattle.asm_model.specs.Operands as model;
ghost use Rattle.asm_model.specs.declared.operands.Register.TheVariants as register_is;
ghost use Rattle.asm_model.specs.Parts as parts;
ghost use Rattle.asm_model.specs.Readings as readings;
ghost use Rattle.asm_model.specs.Registers as registers;
ghost use Rattle.asm_model.specs.Says as says;
ghost use Rattle.asm_arm.specs.Operands as operands;
ghost use Rattle.asm_arm.specs.Steps.{cut_of};
ghost use Rattle.asm_arm.specs.declared.operands.Scale.TheVariants as scale;
ghost use Rattle.asm_arm.specs.declared.operands.Second.TheVariants as second;

use asm_expr::kinds::both;
use asm_expr::operands::{first_operand, is};
use asm_expr::parts::{piece_of, shared_inside, shared_piece};
use asm_expr::read::shared_expression;
use asm_expr::rows::row_of;
use asm_expr::{or_kind, register_named};
use asm_model::{Expr, Register, RegisterName, SharedText, Shift, Token, TokenKind, is_called};
use sdt_fault::NoMemory;
use sdt_fault::kinds::LineKind;
use sdt_word::ShiftKind;
use std::alloc::Global;

/// The kinds of shifts with an amount.
static SHIFTS: [(&[u8], ShiftKind); 4] = [
    (b"LSL", ShiftKind::Lsl),
    (b"LSR", ShiftKind::Lsr),
    (b"ASR", ShiftKind::Asr),
    (b"ROR", ShiftKind::Ror),
];

/// The operands of a line, up to four.
#[derive(Clone, Copy)]
pub enum Cut<'a> {
    None,
    One(&'a [Token]),
    Two(&'a [Token], &'a [Token]),
    Three(&'a [Token], &'a [Token], &'a [Token]),
    Four(&'a [Token], &'a [Token], &'a [Token], &'a [Token]),
    More,
}

/// The shift of a register, as a line says it.
#[derive(Drop)]
pub enum Scale {
    /// `LSL #a`
    By { kind: ShiftKind, amount: Expr },
    /// `LSL Rs`
    Register { kind: ShiftKind, rs: Register },
    /// `RRX`
    Extended,
}

/// The second operand of data processing.
#[derive(Drop)]
pub enum Second {
    /// `#v`
    Number(Expr),
    /// `Rm,LSL #a`
    Shifted {
        rm: Register,
        shift: Shift,
    },
    /// `Rm,LSL Rs`
    RegisterShifted {
        rm: Register,
        kind: ShiftKind,
        rs: Register,
    },
}

/// The operands of the tokens behind an operation.
pub fn cut_operands<'a>(text: &SharedText, tokens: &'a [Token]) -> Cut<'a>
    ensures { cut_of result ≡ operands.cut (model.operands text.now tokens.now) }
{
    if tokens.is_empty() {
        return Cut::None;
    }
    let (first, behind) = first_operand(text, tokens);
    match behind {
        None => Cut::One(first),
        Some(behind) => with_one(text, first, behind),
    }
}

/// Operands behind one.
fn with_one<'a>(text: &SharedText, first: &'a [Token], tokens: &'a [Token]) -> Cut<'a>
    ensures { cut_of result ≡ operands.cut (first.now ∷ model.operands_at text.now 0 tokens.now) }
{
    let (second, behind) = first_operand(text, tokens);
    match behind {
        None => Cut::Two(first, second),
        Some(behind) => with_two(text, first, second, behind),
    }
}

/// Operands behind two.
fn with_two<'a>(
    text: &SharedText,
    first: &'a [Token],
    second: &'a [Token],
    tokens: &'a [Token],
) -> Cut<'a>
    ensures { cut_of result
        ≡ operands.cut (first.now ∷ second.now ∷ model.operands_at text.now 0 tokens.now) }
{
    let (third, behind) = first_operand(text, tokens);
    match behind {
        None => Cut::Three(first, second, third),
        Some(behind) => with_three(text, first, second, third, behind),
    }
}

/// Operands behind three.
fn with_three<'a>(
    text: &SharedText,
    first: &'a [Token],
    second: &'a [Token],
    third: &'a [Token],
    tokens: &'a [Token],
) -> Cut<'a>
    ensures { cut_of result
        ≡ operands.cut (first.now ∷ second.now ∷ third.now ∷ model.operands_at text.now 0
        tokens.now) }
{
    let (fourth, behind) = first_operand(text, tokens);
    match behind {
        None => Cut::Four(first, second, third, fourth),
        Some(_) => Cut::More,
    }
}

/// A reading, and a second one of the same line. It is generic, so that the proof of the exit where memory runs out does
/// not go through every form of the first.
pub fn with_second<A: Drop, B: Drop>(
    a: Result<A, LineKind>,
    b: Result<Result<B, LineKind>, NoMemory>,
) -> Result<Result<(A, B), LineKind>, NoMemory>
    ensures { IfOk result
        (λ read. (other : Result B LineKind) × (b ≡ Ok other) × (read ≡ readings.both a other)) }
{
    let b = b?;
    Ok(both(a, b))
}

/// The tokens behind a sign that stands in front.
pub fn without_first<'a>(text: &SharedText, sign: &[u8], tokens: &'a [Token]) -> Option<&'a [Token]>
    ensures { option_copied result ≡ operands.without_first text.now sign.now tokens.now }
{
    match tokens {
        [] => None,
        [token, behind @ ..] => {
            if is(piece_of(text, *token), sign) {
                return Some(behind);
            }
            None
        }
    }
}

/// The bytes of the last token; none where there is no token.
fn last_piece<'a>(text: &'a SharedText, tokens: &[Token]) -> &'a [u8]
    ensures { result.now ≡ operands.last_piece text.now tokens.now }
{
    match tokens.last() {
        None => &text.as_slice()[..0],
        Some(token) => piece_of(text, *token),
    }
}

/// All tokens but the last.
fn front(tokens: &[Token]) -> &[Token]
    ensures { result.now ≡ operands.front tokens.now }
{
    if tokens.is_empty() {
        return tokens;
    }
    &tokens[..tokens.len() - 1]
}

/// The tokens before a sign that stands at the end.
fn without_last<'a>(text: &SharedText, sign: &[u8], tokens: &'a [Token]) -> Option<&'a [Token]>
    ensures { option_copied result ≡ operands.without_last text.now sign.now tokens.now }
{
    if is(last_piece(text, tokens), sign) {
        return Some(front(tokens));
    }
    None
}

/// Tokens behind which a mark may stand, and whether it does.
pub fn marked<'a>(text: &SharedText, mark: &[u8], tokens: &'a [Token]) -> (&'a [Token], bool)
    ensures { (result.0.now, result.1) ≡ operands.marked text.now mark.now tokens.now }
{
    if is(last_piece(text, tokens), mark) {
        return (front(tokens), true);
    }
    (tokens, false)
}

/// What stands between two brackets.
pub fn between<'a>(
    text: &SharedText,
    left: &[u8],
    right: &[u8],
    tokens: &'a [Token],
) -> Option<&'a [Token]>
    ensures { option_copied result ≡ operands.between text.now left.now right.now tokens.now }
{
    match without_first(text, left, tokens) {
        None => None,
        Some(behind) => without_last(text, right, behind),
    }
}

/// A register by its name.
fn by_name(alloc: Global, name: SharedText) -> Result<Register, NoMemory>
    ensures { IfOk result (λ register. register ≡ register_is.Named name) }
{
    Ok(Register::Named(RegisterName::of(alloc, name)?))
}

/// A name as a register.
fn named(alloc: Global, text: &SharedText, token: Token) -> Result<Register, NoMemory>
    ensures { IfOk result (λ register. register
        ≡ operands.named (parts.piece text.now token)
        (registers.register_named (parts.piece text.now token))) }
{
    match register_named(piece_of(text, token)) {
        Some(number) => Ok(Register::Number(number)),
        None => by_name(alloc, shared_piece(text, token)?),
    }
}

/// A token as a register.
pub fn register_of(
    alloc: Global,
    text: &SharedText,
    token: Token,
) -> Result<Result<Register, LineKind>, NoMemory>
    ensures { IfOk result (λ register. register
        ≡ operands.register_of token.kind (parts.piece text.now token)) }
{
    match token.kind {
        TokenKind::Name => Ok(Ok(named(alloc, text, token)?)),
        TokenKind::Barred => Ok(Ok(by_name(alloc, shared_inside(text, token)?)?)),
        _ => Ok(Err(LineKind::Syntax)),
    }
}

/// Tokens as a register alone.
pub fn register(
    alloc: Global,
    text: &SharedText,
    tokens: &[Token],
) -> Result<Result<Register, LineKind>, NoMemory>
    ensures { IfOk result (λ register. register ≡ operands.register text.now tokens.now) }
{
    match tokens {
        [] => Ok(Err(LineKind::Syntax)),
        [token] => register_of(alloc, text, *token),
        [_, _, ..] => Ok(Err(LineKind::Syntax)),
    }
}

/// Two registers.
pub fn two_registers(
    alloc: Global,
    text: &SharedText,
    first: &[Token],
    second: &[Token],
) -> Result<Result<(Register, Register), LineKind>, NoMemory>
    ensures { IfOk result (λ two. two ≡ operands.two_registers text.now first.now second.now) }
{
    let first = register(alloc, text, first)?;
    with_second(first, register(alloc, text, second))
}

/// Three registers.
pub fn three_registers(
    alloc: Global,
    text: &SharedText,
    first: &[Token],
    second: &[Token],
    third: &[Token],
) -> Result<Result<((Register, Register), Register), LineKind>, NoMemory>
    ensures { IfOk result (λ three. three
        ≡ operands.three_registers text.now first.now second.now third.now) }
{
    let two = two_registers(alloc, text, first, second)?;
    with_second(two, register(alloc, text, third))
}

/// Four registers.
pub fn four_registers(
    alloc: Global,
    text: &SharedText,
    first: &[Token],
    second: &[Token],
    third: &[Token],
    fourth: &[Token],
) -> Result<Result<((Register, Register), (Register, Register)), LineKind>, NoMemory>
    ensures { IfOk result (λ four. four
        ≡ readings.both (operands.two_registers text.now first.now second.now)
        (operands.two_registers text.now third.now fourth.now)) }
{
    let two = two_registers(alloc, text, first, second)?;
    with_second(two, two_registers(alloc, text, third, fourth))
}

/// RRX, which stands alone.
fn extended(word: &[u8]) -> Result<Scale, LineKind>
    ensures { result ≡ operands.extended word.now }
{
    if is_called(b"RRX", word) {
        return Ok(Scale::Extended);
    }
    Err(LineKind::Syntax)
}

/// A number as the amount of a shift.
fn amount(
    alloc: Global,
    text: &SharedText,
    kind: ShiftKind,
    tokens: &[Token],
) -> Result<Result<Scale, LineKind>, NoMemory>
    ensures { IfOk result
        (λ shift. says.Expression text.now (λ a. scale.By kind a) tokens.now shift) }
{
    let amount = or_kind!(shared_expression(alloc, text, tokens)?);
    Ok(Ok(Scale::By { kind, amount }))
}

/// A register as the amount of a shift.
fn register_amount(
    alloc: Global,
    text: &SharedText,
    kind: ShiftKind,
    tokens: &[Token],
) -> Result<Result<Scale, LineKind>, NoMemory>
    ensures { IfOk result (λ shift. shift
        ≡ readings.mapped (λ rs. scale.Register kind rs) (operands.register text.now tokens.now)) }
{
    let rs = or_kind!(register(alloc, text, tokens)?);
    Ok(Ok(Scale::Register { kind, rs }))
}

/// The amount of a shift.
fn shifted_by(
    alloc: Global,
    text: &SharedText,
    kind: Option<ShiftKind>,
    tokens: &[Token],
) -> Result<Result<Scale, LineKind>, NoMemory>
    ensures { IfOk result (λ shift. operands.ReadsKind text.now kind tokens.now shift) }
{
    let Some(kind) = kind else {
        return Ok(Err(LineKind::Syntax));
    };
    match without_first(text, b"#", tokens) {
        Some(number) => amount(alloc, text, kind, number),
        None => register_amount(alloc, text, kind, tokens),
    }
}

/// A shift.
#[tactic(auto, unfolding(crate::specs::Operands::shift_named))]
pub fn shift_of(
    alloc: Global,
    text: &SharedText,
    tokens: &[Token],
) -> Result<Result<Scale, LineKind>, NoMemory>
    ensures { IfOk result (λ shift. operands.ReadsScale text.now tokens.now shift) }
{
    match tokens {
        [] => Ok(Err(LineKind::Syntax)),
        [word] => Ok(extended(piece_of(text, *word))),
        [word, behind @ ..] => {
            let kind = row_of(piece_of(text, *word), &SHIFTS);
            shifted_by(alloc, text, kind, behind)
        }
    }
}

/// A register with a shift.
fn scaled(rm: Register, scale: Scale) -> Second
    ensures { result ≡ operands.scaled rm scale }
{
    match scale {
        Scale::By { kind, amount } => Second::Shifted {
            rm,
            shift: Shift::By { kind, amount },
        },
        Scale::Register { kind, rs } => Second::RegisterShifted { rm, kind, rs },
        Scale::Extended => Second::Shifted {
            rm,
            shift: Shift::Extended,
        },
    }
}

/// A number as the second operand.
fn number_operand(
    alloc: Global,
    text: &SharedText,
    tokens: &[Token],
) -> Result<Result<Second, LineKind>, NoMemory>
    ensures { IfOk result
        (λ operand. says.Expression text.now (λ v. second.Number v) tokens.now operand) }
{
    let value = or_kind!(shared_expression(alloc, text, tokens)?);
    Ok(Ok(Second::Number(value)))
}

/// A number, or a register without a shift.
fn plain_operand(
    alloc: Global,
    text: &SharedText,
    tokens: &[Token],
) -> Result<Result<Second, LineKind>, NoMemory>
    ensures { IfOk result (λ operand. operands.ReadsSecond text.now tokens.now None operand) }
{
    if let Some(number) = without_first(text, b"#", tokens) {
        return number_operand(alloc, text, number);
    }
    let rm = or_kind!(register(alloc, text, tokens)?);
    Ok(Ok(Second::Shifted {
        rm,
        shift: Shift::Unshifted,
    }))
}

/// The second operand of data processing.
pub fn second_operand(
    alloc: Global,
    text: &SharedText,
    tokens: &[Token],
    shift: Option<&[Token]>,
) -> Result<Result<Second, LineKind>, NoMemory>
    ensures { IfOk result
        (λ operand. operands.ReadsSecond text.now tokens.now (option_copied shift.entry) operand) }
{
    let Some(shift) = shift else {
        return plain_operand(alloc, text, tokens);
    };
    let shift = shift_of(alloc, text, shift)?;
    let rm = register(alloc, text, tokens)?;
    let (rm, shift) = or_kind!(both(rm, shift));
    Ok(Ok(scaled(rm, shift)))
}
