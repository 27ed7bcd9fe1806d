//! The prototypes of macros.

ghost use Rattle.std.specs.Prelude.{◌≡◌, ◌≤◌, ◌+◌, drop, length, IfOk, MatchOption, Some, None};
ghost use Rattle.std.specs.List.{list_all, prefix_len};
ghost use Rattle.asm_model.specs.Forms as forms;
ghost use Rattle.asm_model.specs.Says.{between_bars};
ghost use Rattle.expand_model.specs.Prototypes as model;
ghost use Rattle.expand_model.specs.Words.{as_name};
ghost use Rattle.asm_variables.specs.Steps.{words_shown};

use crate::line_fields::{Words, without_blanks};
use crate::operands::arguments;
use asm_lines::bytes::{Class, is_between_bars, is_letter, is_of};
use asm_model::SharedText;
use expand_model::{Parameter, Prototype};
use sdt_fault::{List, NoMemory};
use std::alloc::Global;

fn is_of_words(text: &[u8]) -> bool
    ensures { result ≡ list_all forms.is_word text.now }
{
    text.iter().all(|c| is_of(Class::Word, *c))
}

/// Whether a text is a name.
pub fn is_name(text: &[u8]) -> bool
    ensures { result ≡ forms.is_name text.now }
{
    let Some((first, _)) = text.split_first() else {
        return false;
    };
    if is_letter(*first) {
        return is_of_words(text);
    }
    false
}

/// A parameter's name behind its dollar.
fn dollar_name(text: &[u8]) -> Option<&[u8]>
    ensures { MatchOption result (model.dollar_name text.now
        ≡ None) (λ name. model.dollar_name text.now ≡ Some name.now) }
{
    let Some((first, rest)) = text.split_first() else {
        return None;
    };
    if *first == b'$' && is_name(rest) {
        return Some(rest);
    }
    None
}

/// How many bytes stand before the sign of a default.
fn name_part(text: &[u8]) -> usize
    ensures run { result ≡ model.name_part text.now }
    ensures within { result ≤ length text.now }
{
    text.iter().take_while(|c| **c != b'=').count()
}

/// The text behind the sign of a default that so many bytes stand before; empty where there is none.
fn default_part(text: &[u8], name: usize) -> &[u8]
    requires { name ≤ length text.now }
    ensures { result.now ≡ drop (name + 1) text.now }
{
    if name < text.len() {
        return &text[name + 1..];
    }
    &text[name..]
}

/// The parameter that a text says.
fn parameter_of(alloc: Global, text: &[u8]) -> Result<Option<Parameter>, NoMemory>
    ensures { IfOk result (λ parameter. parameter ≡ model.parameter_of text.now) }
{
    let width = name_part(text);
    let Some(name) = dollar_name(&text[..width]) else {
        return Ok(None);
    };
    let name = SharedText::from_slice(alloc, name)?;
    let otherwise = SharedText::from_slice(alloc, without_blanks(default_part(text, width)))?;
    Ok(Some(Parameter { name, otherwise }))
}

/// The parameters that texts say; None where one says none.
fn parameters_of(alloc: Global, texts: &[SharedText]) -> Result<Option<Vec<Parameter>>, NoMemory>
    ensures { IfOk result (λ found. MatchOption found (model.parameters_of texts.now ≡ None)
        (λ v. model.parameters_of texts.now ≡ Some v.items)) }
{
    let mut parameters = Vec::new(alloc);
    let mut at = 0;
    'texts: while at < texts.len() {
        let Some(parameter) = parameter_of(alloc, texts[at].as_slice())? else {
            return Ok(None);
        };
        parameters.push(parameter)?;
        at += 1;
    }
    Ok(Some(parameters))
}

/// Whether bytes of a name between bars stand there, and then the second bar.
fn ends_with_bar(text: &[u8]) -> bool
    ensures { result ≡ forms.ends_with_bar text.now }
{
    let mut rest = text;
    'bytes: loop {
        let Some((first, behind)) = rest.split_first() else {
            return false;
        };
        if behind.is_empty() {
            return *first == b'|';
        }
        if !is_between_bars(*first) {
            return false;
        }
        rest = behind;
    }
}

fn begins_name(text: &[u8]) -> bool
    ensures { result ≡ forms.begun forms.is_between_bars forms.ends_with_bar text.now }
{
    let Some((first, _)) = text.split_first() else {
        return false;
    };
    if is_between_bars(*first) {
        return ends_with_bar(text);
    }
    false
}

/// Whether a text is a name between bars, with them.
pub fn is_barred(text: &[u8]) -> bool
    ensures { result ≡ forms.is_barred text.now }
{
    let Some((first, rest)) = text.split_first() else {
        return false;
    };
    if *first == b'|' {
        return begins_name(rest);
    }
    false
}

/// What stands between a first and a last byte.
fn inner(text: &[u8]) -> &[u8]
    ensures { result.now ≡ between_bars text.now }
{
    if text.len() < 2 {
        return &text[..0];
    }
    &text[1..text.len() - 1]
}

/// A name, or a name between bars without them.
pub fn name_of(text: &[u8]) -> Option<&[u8]>
    ensures { MatchOption result (as_name text.now ≡ None) (λ name. as_name text.now
        ≡ Some name.now) }
{
    if is_name(text) {
        return Some(text);
    }
    if is_barred(text) {
        return Some(inner(text));
    }
    None
}

/// The parameter in a label field that isn't empty.
fn label_of(alloc: Global, text: &[u8]) -> Result<Option<SharedText>, NoMemory>
    ensures { IfOk result (λ name. name ≡ model.dollar_name text.now) }
{
    let Some(name) = dollar_name(text) else {
        return Ok(None);
    };
    Ok(Some(SharedText::from_slice(alloc, name)?))
}

/// The parameter in the label field; None where another text stands there.
fn label_parameter(alloc: Global, text: &[u8]) -> Result<Option<Option<SharedText>>, NoMemory>
    ensures { IfOk result (λ label. label ≡ model.label_parameter text.now) }
{
    if text.is_empty() {
        return Ok(Some(None));
    }
    match label_of(alloc, text)? {
        None => Ok(None),
        Some(name) => Ok(Some(Some(name))),
    }
}

/// The prototype that a line is.
#[tactic(auto, unfolding(expand_model::specs::Prototypes::prototype_of))]
pub fn prototype_of(alloc: Global, words: Words<'_>) -> Result<Option<Prototype>, NoMemory>
    ensures { IfOk result (λ prototype. prototype ≡ model.prototype_of (words_shown words.entry)) }
{
    let Some(name) = name_of(words.operation) else {
        return Ok(None);
    };
    let Some(label) = label_parameter(alloc, words.label)? else {
        return Ok(None);
    };
    let texts = arguments(alloc, words.behind)?;
    let Some(parameters) = parameters_of(alloc, texts.as_slice())? else {
        return Ok(None);
    };
    let name = SharedText::from_slice(alloc, name)?;
    let parameters = List::from_vec(parameters);
    Ok(Some(Prototype {
        name,
        label,
        parameters,
    }))
}
