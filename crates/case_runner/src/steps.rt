//! Steps from their lines.

use crate::contents::{number_of, put_content, put_hex, put_unescaped};
use crate::forms::{Form, Rest, Verb, form_of, wanted_of};
use crate::sections::Section;
use crate::told::{Growing, Told};
use sdt_fault::NoMemory;
use std::alloc::Global;
use std::str;

/// What is read of a step.
#[derive(Drop)]
pub struct Step<'a> {
    pub verb: Verb,
    /// The words of its line.
    pub words: Vec<&'a str>,
    /// The words of its command.
    pub command: Vec<String>,
    pub content: Growing,
}

impl<'a> Step<'a> {
    pub fn new(alloc: Global) -> Step<'a> {
        Step {
            verb: Verb::Run,
            words: Vec::new(alloc),
            command: Vec::new(alloc),
            content: Growing::new(alloc),
        }
    }

    pub fn word(&self, at: usize) -> &'a str {
        self.words.get(at).copied().unwrap_or("")
    }

    pub fn number(&self, at: usize) -> u64 {
        number_of(self.word(at)).unwrap_or(0)
    }

    pub fn small(&self, at: usize) -> u32 {
        u32::try_from(self.number(at)).unwrap_or(0)
    }
}

/// Reads the step of a section in place of another one, or tells what its line is wanted to be.
pub fn read_step<'a>(alloc: Global, step: &mut Step<'a>, section: &Section<'a>, told: &mut Told) {
    told.line = section.line;
    step.words.clear();
    step.command.clear();
    step.content.bytes.clear();
    for word in section.head.split_whitespace() {
        if step.words.push(word).is_err() {
            told.text.short = true;
        }
    }
    if let Some(form) = form_of(step.words.as_slice()) {
        step.verb = form.verb;
        if put_rest(alloc, step, form, section) {
            told.text.short |= step.content.short;
            return;
        }
    }
    told.differ(wanted_of(step.words.as_slice()), section.head);
}

// Puts what stands behind the words of a form, unless it can't be read.
fn put_rest(alloc: Global, step: &mut Step<'_>, form: &Form, section: &Section<'_>) -> bool {
    let words = step.words.get(form.parts.len()..).unwrap_or(&[]);
    if let Rest::Modes = form.rest {
        return put_content(alloc, &mut step.content, section.body, words);
    }
    if !are_blank(section.body) {
        return false;
    }
    match form.rest {
        Rest::Numbers => are_numbers(words),
        Rest::Command => put_command(alloc, &mut step.command, &mut step.content, words),
        Rest::Text => put_text(&mut step.content, section.head),
        Rest::Bytes => match words {
            [digits] => put_hex(&mut step.content, digits.as_bytes()),
            _ => false,
        },
        _ => true,
    }
}

fn are_blank(lines: &[&str]) -> bool {
    for line in lines {
        if !line.trim().is_empty() {
            return false;
        }
    }
    true
}

fn are_numbers(words: &[&str]) -> bool {
    for word in words {
        if number_of(*word).is_none() {
            return false;
        }
    }
    true
}

// Puts the words of a command, each of which is unescaped in a buffer.
fn put_command(
    alloc: Global,
    command: &mut Vec<String>,
    buffer: &mut Growing,
    words: &[&str],
) -> bool {
    for word in words {
        buffer.bytes.clear();
        if !put_unescaped(buffer, word.as_bytes()) {
            return false;
        }
        let Ok(word) = str::from_utf8(buffer.bytes.as_slice()) else {
            return false;
        };
        if put_word(alloc, command, word).is_err() {
            buffer.short = true;
        }
    }
    true
}

fn put_word(alloc: Global, command: &mut Vec<String>, word: &str) -> Result<(), NoMemory> {
    command.push(String::from_str(alloc, word)?)?;
    Ok(())
}

// The text of an answer is the rest of the line.
fn put_text(content: &mut Growing, head: &str) -> bool {
    let Some(text) = head.strip_prefix("answer ") else {
        return false;
    };
    content.say(text);
    true
}
