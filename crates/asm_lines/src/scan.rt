//! The tokens of a line.

ghost use Rattle.std.specs.Prelude.{◌≡◌, ◌≤◌, ◌<◌, ◌^◌, true, false, length, IfOk, MatchOption, take, drop};
ghost use Rattle.std.specs.List.{list_any};
ghost use Rattle.asm_model.specs.Tokens as model;
ghost use Rattle.asm_model.specs.declared.tokens.Due.TheVariants as due;
ghost use Rattle.asm_lines.specs.Lengths as lengths;
ghost use Rattle.asm_lines.specs.Steps.{IsTheToken, is_sign_due, some_token, ends_at};

use crate::bytes::{Class, is_alone, is_digit, is_letter, run_len};
use crate::forms::{
    BRACED_WORDS, barred_len, character_len, local_len, number_len, one_of_len, quoted_len,
    sign_len,
};
use asm_model::{Due, Token, TokenKind, is_called};
use sdt_fault::NoMemory;
use std::alloc::Global;

/// The longer of two, the first where they are equal.
fn longer(best: (TokenKind, usize), kind: TokenKind, len: usize) -> (TokenKind, usize)
    ensures { result ≡ lengths.longer best kind len }
{
    if best.1 < len {
        return (kind, len);
    }
    best
}

/// The kind and the length of the longest prefix with a form that begins with such a byte, but for names, decimal
/// numbers and signs.
fn form_at(first: u8, rest: &[u8]) -> (TokenKind, usize)
    ensures value { result ≡ lengths.form_at first rest.now }
    ensures within { result.1 ≤ length rest.now }
{
    match first {
        b'|' => (TokenKind::Barred, barred_len(rest)),
        b'"' => (TokenKind::Quoted, quoted_len(rest)),
        b'\'' => (TokenKind::Character, character_len(rest)),
        b'{' => (TokenKind::Braced, one_of_len(BRACED_WORDS, rest)),
        b'%' => (TokenKind::Local, local_len(rest)),
        b'&' => (TokenKind::Number, number_len(rest)),
        _ => (TokenKind::Name, 0),
    }
}

/// The kind and the length of the longest prefix with a form, where no name and no decimal number begins with the first
/// byte.
#[inline(never)]
fn other_of(first: u8, rest: &[u8]) -> (TokenKind, usize)
    ensures { result ≡ lengths.other_of first rest.now }
{
    let (kind, len) = form_at(first, rest);
    longer(
        longer((TokenKind::Name, 0), kind, len),
        TokenKind::Sign,
        sign_len(rest),
    )
}

/// The kind and the length of the longest prefix with a form; the length is 0 where none has one. The first byte
/// tells which forms it can have.
#[inline(always)]
fn best_of(rest: &[u8]) -> (TokenKind, usize)
    ensures value { result ≡ lengths.best_of rest.now }
    ensures within { result.1 ≤ length rest.now }
{
    let Some((first, _)) = rest.split_first() else {
        return (TokenKind::Name, 0);
    };
    if is_letter(*first) {
        return (TokenKind::Name, run_len(rest, Class::Word));
    }
    if is_alone(*first) {
        return (TokenKind::Sign, 1);
    }
    if is_digit(*first) {
        return longer((TokenKind::Name, 0), TokenKind::Number, number_len(rest));
    }
    other_of(*first, rest)
}

/// The kind and the length of the longest prefix with a form; None where none has one.
pub fn longest_token(rest: &[u8]) -> Option<(TokenKind, usize)>
    ensures { IsTheToken due.Operands rest.now result }
{
    let best = best_of(rest);
    if best.1 == 0 {
        return None;
    }
    Some(best)
}

/// Whether an operation is due, and its first byte is one by itself.
fn is_sign_due(due: Due, rest: &[u8]) -> bool
    ensures { result ≡ is_sign_due due rest.now }
{
    match due {
        Due::Operation => starts_operation(rest),
        _ => false,
    }
}

/// The kind and the length of the token at the front, where the line does not end; the length is 0 where none stands
/// there.
#[inline(always)]
fn token_at(due: Due, rest: &[u8]) -> (TokenKind, usize)
    requires { ends_at due rest.now ≡ false }
    ensures the { IsTheToken due rest.now (some_token result) }
    ensures within { result.1 ≤ length rest.now }
{
    if is_sign_due(due, rest) {
        return (TokenKind::Sign, 1);
    }
    best_of(rest)
}

/// Whether the first byte is an operation by itself.
pub fn starts_operation(rest: &[u8]) -> bool
    ensures { result ≡ model.is_operation_sign rest.now }
{
    let Some((first, _)) = rest.split_first() else {
        return false;
    };
    *first == b'&' || *first == b'=' || *first == b'%'
}

/// What is due behind an operation.
#[inline(never)]
fn behind_operation(word: &[u8]) -> Due
    ensures { result ≡ model.due_behind due.Operation word.now }
{
    if is_called(b"TTL", word) {
        return Due::Nothing;
    }
    if is_called(b"SUBT", word) {
        return Due::Nothing;
    }
    Due::Operands
}

/// What is due behind a token.
fn due_behind(due: Due, word: &[u8]) -> Due
    ensures { result ≡ model.due_behind due word.now }
{
    match due {
        Due::Label => Due::Operation,
        Due::Operation => behind_operation(word),
        Due::Operands => Due::Operands,
        Due::Nothing => Due::Nothing,
    }
}

/// What is due in column 1.
fn first_due(text: &[u8]) -> Due
    ensures { result ≡ model.first_due text.now }
{
    let Some((first, _)) = text.split_first() else {
        return Due::Operation;
    };
    if *first == b' ' || *first == b'\t' {
        return Due::Operation;
    }
    Due::Label
}

/// Whether nothing or a comment stands there.
fn begins_comment(front: &[u8]) -> bool
    ensures { result ≡ model.begins_comment front.now }
{
    let Some((first, _)) = front.split_first() else {
        return true;
    };
    *first == b';'
}

/// Whether the line may end behind the blanks before these bytes.
fn is_end(due: Due, front: &[u8]) -> bool
    ensures { result ≡ ends_at due front.now }
{
    match due {
        Due::Nothing => true,
        _ => begins_comment(front),
    }
}

/// The text behind its first bytes.
pub fn behind(text: &[u8], count: usize) -> &[u8]
    requires { count ≤ length text.now }
    ensures { result.now ≡ drop count text.now }
{
    &text[count..]
}

/// The first bytes of the text.
pub fn begin(text: &[u8], count: usize) -> &[u8]
    requires { count ≤ length text.now }
    ensures { result.now ≡ take count text.now }
{
    &text[..count]
}

/// For how many tokens there is room before the first.
const TOKENS_AT_FIRST: usize = 8;

/// Puts the tokens of a line in place of those that are there, and tells whether the line has tokens. A name may be too long.
pub fn scan_into(tokens: &mut Vec<Token>, text: &[u8]) -> Result<bool, NoMemory>
    requires { length text.now < 2 ^ 32 }
    ensures tokens { IfOk result (λ found. found ≡ true → model.Tokens text.now tokens.new.items) }
    ensures none { IfOk result (λ found. found ≡ false → model.NoTokens text.now) }
{
    tokens.clear();
    let mut due = first_due(text);
    let mut place = 0;
    'tokens: loop {
        let rest = behind(text, place);
        let blanks = run_len(rest, Class::Blank);
        let front = behind(rest, blanks);
        if is_end(due, front) {
            return Ok(true);
        }
        let (kind, len) = token_at(due, front);
        if len == 0 {
            return Ok(false);
        }
        let start = place + blanks;
        let end = start + len;
        tokens.push(Token {
            kind,
            start: start as u32,
            end: end as u32,
        })?;
        due = due_behind(due, begin(front, len));
        place = end;
    }
}

/// The tokens of a line, where it has tokens; None where it has none. A name may be too long.
pub fn scan(alloc: Global, text: &[u8]) -> Result<Option<Vec<Token>>, NoMemory>
    requires { length text.now < 2 ^ 32 }
    ensures { IfOk result
        (λ found. MatchOption found (model.NoTokens text.now)
        (λ v. model.Tokens text.now v.items)) }
{
    let mut list = Vec::with_capacity(alloc, TOKENS_AT_FIRST)?;
    if scan_into(&mut list, text)? {
        return Ok(Some(list));
    }
    Ok(None)
}

/// The bytes of a name.
pub const NAME_BYTES: usize = 255;

/// Whether a token is a name beyond the limit.
fn is_long(token: Token) -> bool
    ensures { result ≡ model.is_long token }
{
    if token.end as usize <= NAME_BYTES {
        return false;
    }
    let width = token.end.saturating_sub(token.start) as usize;
    match token.kind {
        TokenKind::Name => width > NAME_BYTES,
        TokenKind::Barred => width > NAME_BYTES + 2,
        _ => false,
    }
}

/// Whether one of the tokens is a name beyond the limit.
pub fn has_long(tokens: &[Token]) -> bool
    ensures { result ≡ list_any model.is_long tokens.now }
{
    tokens.iter().any(|token| is_long(*token))
}

/// A line has one list of tokens, or none.
pub fn one_scan()
    ensures { model.OneScan }
{}
