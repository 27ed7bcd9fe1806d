//! The words of a description.

ghost use Rattle.std.specs.Prelude.{◌≡◌, ◌≤◌, Some, IfOk, option_map};
ghost use Rattle.place_model.specs.declared.scatter.ScatterBase.TheVariants.{At, Plus};
ghost use Rattle.std.specs.List.{list_all};
ghost use Rattle.std.specs.Char.{is_ascii_digit, is_ascii_hexdigit};
ghost use Rattle.std.specs.Str.Parse.{digits_value};
ghost use Rattle.scatter_text.specs.Parts as cuts;
ghost use Rattle.scatter_text.specs.Words as words;
ghost use Rattle.scatter_text.specs.Reading.{judged, number_flaw, flaw_in, Shows};
ghost use Rattle.scatter_text.specs.Steps.{small, judged_number, judged_base, base_in};

use crate::cuts::{first_is, is_name_byte};
use crate::stops::Stop;
use byte_tools::digits_value;
use place_model::{Choice, Edge, ScatterBase};
use sdt_fault::kinds::ScatterKind;
use sdt_fault::{NoMemory, Text};
use std::alloc::Global;

fn is_region_byte(byte: u8) -> bool
    ensures { result ≡ words.is_region_byte byte }
{
    byte.is_ascii_alphanumeric() || byte == b'_'
}

fn are_region_bytes(text: &[u8]) -> bool
    ensures { result ≡ list_all words.is_region_byte text.now }
{
    text.iter().all(|byte| is_region_byte(*byte))
}

/// Whether the text is a region's name.
pub fn is_region_name(text: &[u8]) -> bool
    ensures { result ≡ words.is_region_name text.now }
{
    !text.is_empty() && are_region_bytes(text)
}

fn are_name_bytes(text: &[u8]) -> bool
    ensures { result ≡ list_all cuts.is_name_byte text.now }
{
    text.iter().all(|byte| is_name_byte(*byte))
}

fn is_name(text: &[u8]) -> bool
    ensures { result ≡ words.is_name text.now }
{
    !text.is_empty() && are_name_bytes(text)
}

fn one_module(alloc: Global, text: &[u8]) -> Result<Option<Option<Text>>, NoMemory>
    ensures { IfOk result (λ home. home ≡ words.one_module text.now) }
{
    if !is_name(text) {
        return Ok(None);
    }
    Ok(Some(Some(Text::from_slice(alloc, text)?)))
}

/// The module that the text names: one, or any.
pub fn module_in(alloc: Global, text: &[u8]) -> Result<Option<Option<Text>>, NoMemory>
    ensures { IfOk result (λ home. home ≡ words.module_of text.now) }
{
    if text == b"*".as_slice() {
        return Ok(Some(None));
    }
    one_module(alloc, text)
}

fn are_digits(text: &[u8]) -> bool
    ensures { result ≡ list_all is_ascii_digit text.now }
{
    text.iter().all(|byte| byte.is_ascii_digit())
}

fn are_hexdigits(text: &[u8]) -> bool
    ensures { result ≡ list_all is_ascii_hexdigit text.now }
{
    text.iter().all(|byte| byte.is_ascii_hexdigit())
}

// The number that the digits write, where it is below 2^32.
fn value_of(digits: &[u8], base: u8) -> Option<u32>
    requires { 1 ≤ base }
    ensures { result ≡ small (digits_value base digits.now) }
{
    let value = digits_value(base, digits, 0xFFFF_FFFF)?;
    Some(value as u32)
}

fn whole(digits: &[u8], base: u8) -> Result<u32, Stop>
    requires { 1 ≤ base }
    ensures { Shows result (judged_number (digits_value base digits.now)) }
{
    let Some(number) = value_of(digits, base) else {
        return Err(Stop::At(ScatterKind::Number));
    };
    if number % 4 != 0 {
        return Err(Stop::At(ScatterKind::Unaligned));
    }
    Ok(number)
}

fn hexadecimal(digits: &[u8]) -> Result<u32, Stop>
    ensures { let n = words.hexadecimal digits.now in Shows result (judged (flaw_in n) n) }
{
    if digits.is_empty() {
        return Err(Stop::At(ScatterKind::Syntax));
    }
    if !are_hexdigits(digits) {
        return Err(Stop::At(ScatterKind::Syntax));
    }
    whole(digits, 16)
}

fn decimal(digits: &[u8]) -> Result<u32, Stop>
    ensures { let n = words.decimal digits.now in Shows result (judged (flaw_in n) n) }
{
    if digits.is_empty() {
        return Err(Stop::At(ScatterKind::Syntax));
    }
    if !are_digits(digits) {
        return Err(Stop::At(ScatterKind::Syntax));
    }
    whole(digits, 10)
}

/// The number that the text writes, a multiple of 4.
pub fn number_in(text: &[u8]) -> Result<u32, Stop>
    ensures { let n = words.number_of text.now in Shows result (judged (flaw_in n) n) }
{
    if text.starts_with(b"0x") {
        return hexadecimal(&text[2..]);
    }
    if first_is(b'&', text) {
        return hexadecimal(&text[1..]);
    }
    decimal(text)
}

fn offset_in(text: &[u8]) -> Result<ScatterBase, Stop>
    ensures { Shows result (judged_base Plus (words.number_of text.now)) }
{
    match number_in(text) {
        Ok(offset) => Ok(ScatterBase::Plus(offset)),
        Err(stop) => Err(stop),
    }
}

fn address_in(text: &[u8]) -> Result<ScatterBase, Stop>
    ensures { Shows result (judged_base At (words.number_of text.now)) }
{
    match number_in(text) {
        Ok(address) => Ok(ScatterBase::At(address)),
        Err(stop) => Err(stop),
    }
}

/// The base that the text writes.
pub fn base_in(text: &[u8]) -> Result<ScatterBase, Stop>
    ensures { Shows result (base_in text.now) }
{
    if first_is(b'+', text) {
        return offset_in(&text[1..]);
    }
    address_in(text)
}

fn is_word(word: &[u8], text: &[u8]) -> bool
    ensures { result ≡ words.is_word word.now text.now }
{
    text.eq_ignore_ascii_case(word)
}

fn area_in(alloc: Global, text: &[u8]) -> Result<Option<Choice>, NoMemory>
    ensures { IfOk result (λ choice. choice ≡ words.area_of text.now) }
{
    if first_is(b'+', text) {
        return Ok(None);
    }
    if !is_name(text) {
        return Ok(None);
    }
    Ok(Some(Choice::Named(Text::from_slice(alloc, text)?)))
}

/// The areas that the text names.
pub fn choice_in(alloc: Global, text: &[u8]) -> Result<Option<Choice>, NoMemory>
    ensures { IfOk result (λ choice. choice ≡ words.choice_of text.now) }
{
    if is_word(b"+RO", text) {
        return Ok(Some(Choice::Ro));
    }
    if is_word(b"+RW", text) {
        return Ok(Some(Choice::Rw));
    }
    if is_word(b"+ZI", text) {
        return Ok(Some(Choice::Zi));
    }
    area_in(alloc, text)
}

/// The edge that the text names.
pub fn edge_in(text: &[u8]) -> Option<Edge>
    ensures { result ≡ words.edge_of text.now }
{
    if is_word(b"+FIRST", text) {
        return Some(Edge::First);
    }
    if is_word(b"+LAST", text) {
        return Some(Edge::Last);
    }
    None
}

/// The line as it is told.
pub fn told(line: usize) -> u32
    ensures { result ≡ words.told line }
{
    line.min(0xFFFF_FFFF) as u32
}
