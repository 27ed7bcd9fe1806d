//! Lines that are no part of expansion: they stay.

ghost use Rattle.std.specs.Prelude.{◌≡◌, ◌+◌, ◌≤◌, length, IfOk, OnOk};
ghost use Rattle.asm_model.specs.Says.{between_bars};
ghost use Rattle.expand_model.specs.Known.{Operand};
ghost use Rattle.expand_model.specs.Steps as model;
ghost use Rattle.expand_model.specs.Words.{as_name};
ghost use Rattle.asm_variables.specs.Known.{WasRead};
ghost use Rattle.asm_expand.specs.Plain.{Begins, IsFlat, IsNumber, Labels, Numbers, Pushes};
ghost use Rattle.asm_expand.specs.Saying.{Says};
ghost use Rattle.asm_variables.specs.Steps.{words_shown};

use crate::line_cursors::LineCursor;
use crate::steps::{End, Next};
use asm_expr::operands::is;
use asm_model::{Expr, Flat, SharedText, is_called};
use asm_variables::expansion::Expansion;
use asm_variables::line_fields::Words;
use asm_variables::line_names::LineNames;
use asm_variables::maps::put;
use asm_variables::prototypes::{is_barred, is_name};
use asm_variables::values::known_number;
use indexmap::IndexMap;
use sdt_fault::NoMemory;
use sdt_fault::kinds::LineKind;
use std::alloc::Global;

/// Whether an operation is EQU.
pub fn is_equ(word: &[u8]) -> bool
    ensures { result ≡ model.is_equ word.now }
{
    is_called(b"EQU", word) || is(word, b"*")
}

/// Whether code behind an operation is Thumb code.
fn state_behind(word: &[u8], thumb: bool) -> bool
    ensures { result ≡ model.state_behind word.now thumb }
{
    if is_called(b"CODE16", word) {
        return true;
    }
    if is_called(b"CODE32", word) {
        return false;
    }
    thumb
}

/// What stands between the first and the last byte of a label field, with which a text begins.
fn inner_name(text: &SharedText, label: &[u8]) -> Result<SharedText, NoMemory>
    requires { Begins label.now text.now }
    ensures { IfOk result (λ name. name ≡ between_bars label.now) }
{
    if label.len() < 2 {
        return text.part(0, 0);
    }
    let name = text.part(1, label.len() - 1)?;
    Ok(name)
}

/// The name in a label field, with which a text begins.
fn label_name(text: &SharedText, label: &[u8]) -> Result<Option<SharedText>, NoMemory>
    requires { Begins label.now text.now }
    ensures { IfOk result (λ name. name ≡ as_name label.now) }
{
    if is_name(label) {
        let name = text.part(0, label.len())?;
        return Ok(Some(name));
    }
    if is_barred(label) {
        let inner = inner_name(text, label)?;
        return Ok(Some(inner));
    }
    Ok(None)
}

/// The number that an EQU makes of its name.
fn equ_number(
    alloc: Global,
    state: &Expansion,
    word: &[u8],
    operand: &Result<Expr, LineKind>,
) -> Result<Option<u32>, NoMemory>
    requires { WasRead operand.now }
    ensures { IfOk result (λ number. IsNumber word.now state.now operand.now number) }
{
    if is_equ(word) {
        return known_number(alloc, state, operand);
    }
    Ok(None)
}

/// Notes the number of a name that has none yet.
fn note_number(
    alloc: Global,
    numbers: &mut IndexMap<SharedText, u32>,
    name: &Option<SharedText>,
    number: Option<u32>,
) -> Result<(), NoMemory>
    ensures { OnOk result (Numbers name.now number numbers.old numbers.new) }
{
    let Some(name) = name else {
        return Ok(());
    };
    let Some(number) = number else {
        return Ok(());
    };
    if numbers.contains_key(name) {
        return Ok(());
    }
    let key = name.share()?;
    put(numbers, key, number)
}

/// Notes a name in a label field.
fn note_label(labels: &mut LineNames, name: Option<SharedText>) -> Result<(), NoMemory>
    ensures { OnOk result (Labels name labels.old labels.new) }
{
    match name {
        None => Ok(()),
        Some(name) => labels.note(name),
    }
}

/// A flat line more, with the name in its label field and the number that it gives it.
fn push_flat(
    alloc: Global,
    state: &mut Expansion,
    flat: Flat,
    name: Option<SharedText>,
    number: Option<u32>,
    thumb: bool,
) -> Result<(), NoMemory>
    ensures state { OnOk result (Pushes flat name number thumb state.old state.new) }
    ensures visits { state.new.visits ≡ state.old.visits }
    ensures flats { length state.new.flats.items ≤ length state.old.flats.items + 1 }
{
    let Ok(()) = state.flats.push(flat) else {
        drop(name);
        return Err(NoMemory);
    };
    let Ok(()) = note_number(alloc, &mut state.numbers, &name, number) else {
        drop(name);
        return Err(NoMemory);
    };
    note_label(&mut state.labels, name)?;
    state.thumb = thumb;
    Ok(())
}

/// The flat line that a line becomes.
fn flat_at(at: &LineCursor, text: &SharedText) -> Result<Option<Flat>, NoMemory>
    ensures { IfOk result (λ flat. IsFlat at.now text.now flat) }
{
    let Some(line) = at.first() else {
        return Ok(None);
    };
    let source = line.source.share()?;
    let Ok(text) = text.share() else {
        drop(source);
        return Err(NoMemory);
    };
    Ok(Some(Flat {
        source,
        number: line.number,
        text,
    }))
}

/// What a line with this text and these words says that is no part of expansion, where an EQU makes its name this number.
pub fn say_numbered(
    alloc: Global,
    state: &mut Expansion,
    at: LineCursor,
    text: &SharedText,
    words: Words<'_>,
    number: Option<u32>,
) -> Result<Next, NoMemory>
    requires { Begins words.label.now text.now }
    ensures says { IfOk result (λ next. (x : Operand)
        → IsNumber words.entry.operation.now state.old x number
        → Says at state.old state.new next (λ s l ls.
        model.plain_line l text.now (words_shown words.entry) x s ls)) }
    ensures visits { state.new.visits ≤ state.old.visits }
    ensures flats { length state.new.flats.items ≤ length state.old.flats.items + 1 }
{
    let ends = is_called(b"END", words.operation);
    let thumb = state_behind(words.operation, state.thumb);
    let Ok(name) = label_name(text, words.label) else {
        drop(at);
        return Err(NoMemory);
    };
    let Ok(found) = flat_at(&at, text) else {
        drop(name);
        drop(at);
        return Err(NoMemory);
    };
    let Some(flat) = found else {
        drop(name);
        drop(at);
        return Ok(Next::Stop(End::Over));
    };
    let Ok(()) = push_flat(alloc, state, flat, name, number, thumb) else {
        drop(at);
        return Err(NoMemory);
    };
    if ends {
        drop(at);
        return Ok(Next::Stop(End::Ended));
    }
    Ok(Next::Go(at.past(1)))
}

/// What a line with this text and these words says that is no part of expansion.
pub fn say_plain(
    alloc: Global,
    state: &mut Expansion,
    at: LineCursor,
    text: &SharedText,
    words: Words<'_>,
    operand: &Result<Expr, LineKind>,
) -> Result<Next, NoMemory>
    requires read { WasRead operand.now }
    requires begins { Begins words.label.now text.now }
    ensures says { IfOk result (λ next. Says at state.old state.new next (λ s l ls.
        model.plain_line l text.now (words_shown words.entry) operand.now s ls)) }
    ensures visits { state.new.visits ≤ state.old.visits }
    ensures flats { length state.new.flats.items ≤ length state.old.flats.items + 1 }
{
    let Ok(number) = equ_number(alloc, state, words.operation, operand) else {
        drop(at);
        return Err(NoMemory);
    };
    say_numbered(alloc, state, at, text, words, number)
}
