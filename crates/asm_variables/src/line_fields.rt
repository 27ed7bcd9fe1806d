//! The label field and the operation of a line: its first tokens, or, where it isn't read, words as they stand.

ghost use Rattle.std.specs.Prelude.{◌≡◌, ◌≤◌, length};
ghost use Rattle.std.specs.List.{prefix_len};
ghost use Rattle.expand_model.specs.Words as model;
ghost use Rattle.asm_variables.specs.Steps.{passes, words_shown};

use asm_lines::bytes::{Class, is_digit, is_letter, run_len};
use asm_lines::scan::{longest_token, starts_operation};

/// The label field, the operation, and what stands behind it.
#[derive(Clone, Copy)]
pub struct Words<'a> {
    pub label: &'a [u8],
    pub operation: &'a [u8],
    pub behind: &'a [u8],
}

/// How many bytes the token at the front has; 0 where none stands there.
#[tactic(auto, using(expand_model::proofs::WordLemmas::width_of_none))]
fn token_width(rest: &[u8]) -> usize
    ensures width { result ≡ model.token_width rest.now }
    ensures within { result ≤ length rest.now }
{
    match longest_token(rest) {
        None => 0,
        Some((_, width)) => width,
    }
}

/// How many bytes the label field has.
fn label_width(text: &[u8]) -> usize
    ensures width { result ≡ model.in_column_1 model.token_width text.now }
    ensures within { result ≤ length text.now }
{
    let Some((first, _)) = text.split_first() else {
        return 0;
    };
    if *first == b' ' || *first == b'\t' {
        return 0;
    }
    token_width(text)
}

/// How many bytes the operation at the front has.
fn operation_width(rest: &[u8]) -> usize
    ensures width { result ≡ model.sign_or model.token_width rest.now }
    ensures within { result ≤ length rest.now }
{
    if starts_operation(rest) {
        return 1;
    }
    token_width(rest)
}

/// The text without the blanks at its front.
pub fn without_blanks(rest: &[u8]) -> &[u8]
    ensures { result.now ≡ model.without_blanks rest.now }
{
    &rest[run_len(rest, Class::Blank)..]
}

/// The words of a line that is read.
#[tactic(auto, unfolding(expand_model::specs::Words::words_of))]
pub fn words_of(text: &[u8]) -> Words<'_>
    ensures { words_shown result ≡ model.words_of text.now }
{
    let width = label_width(text);
    let rest = without_blanks(&text[width..]);
    let end = operation_width(rest);
    Words {
        label: &text[..width],
        operation: &rest[..end],
        behind: &rest[end..],
    }
}

/// Where a word stands in a line that isn't read.
#[derive(Clone, Copy)]
pub enum Field {
    Label,
    Operation,
}

fn is_of(field: Field, c: u8) -> bool
    ensures { result ≡ passes field c }
{
    match field {
        Field::Label => is_letter(c) || is_digit(c) || c == b'$' || c == b'.',
        Field::Operation => is_letter(c) || is_digit(c) || c == b'$',
    }
}

fn plain_len(rest: &[u8], field: Field) -> usize
    ensures run { result ≡ prefix_len (passes field) rest.now }
    ensures within { result ≤ length rest.now }
{
    rest.iter().take_while(|c| is_of(field, **c)).count()
}

/// How many bytes the word at the front has: a run of bytes of the field whose first is no digit, or a token.
fn raw_width(rest: &[u8], field: Field) -> usize
    ensures width { result ≡ model.raw_width (passes field) rest.now }
    ensures within { result ≤ length rest.now }
{
    let Some((first, behind)) = rest.split_first() else {
        return 0;
    };
    if is_of(field, *first) && !is_digit(*first) {
        return plain_len(behind, field) + 1;
    }
    token_width(rest)
}

fn raw_label_width(text: &[u8]) -> usize
    ensures width { result ≡ model.in_column_1 (model.raw_width model.is_of_label) text.now }
    ensures within { result ≤ length text.now }
{
    let Some((first, _)) = text.split_first() else {
        return 0;
    };
    if *first == b' ' || *first == b'\t' {
        return 0;
    }
    raw_width(text, Field::Label)
}

fn raw_operation_width(rest: &[u8]) -> usize
    ensures width { result ≡ model.sign_or (model.raw_width model.is_of_operation) rest.now }
    ensures within { result ≤ length rest.now }
{
    if starts_operation(rest) {
        return 1;
    }
    raw_width(rest, Field::Operation)
}

/// The words of a line that isn't read.
#[tactic(auto, unfolding(expand_model::specs::Words::raw_words_of))]
pub fn raw_words_of(text: &[u8]) -> Words<'_>
    ensures { words_shown result ≡ model.raw_words_of text.now }
{
    let width = raw_label_width(text);
    let rest = without_blanks(&text[width..]);
    let end = raw_operation_width(rest);
    Words {
        label: &text[..width],
        operation: &rest[..end],
        behind: &rest[end..],
    }
}
