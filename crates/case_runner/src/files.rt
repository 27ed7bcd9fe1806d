//! Case files: their cases one after another, and the report on them.

use crate::bench::{Bench, Tool, carry_all_out};
use crate::sections::{Section, lines_of, sections};
use crate::steps::{Step, read_step};
use crate::told::{Growing, Told};
use sdt_fault::{Bytes, NoMemory, Text};
use sdt_outside::{Store, StoreError};
use std::alloc::Global;
use std::str;

/// A line for each case that fails, and how many passed and failed.
#[derive(Drop)]
pub struct Report {
    text: Growing,
    pub passed: u64,
    pub failed: u64,
    // Of the case at hand.
    told: Told,
}

impl Report {
    pub fn new(alloc: Global) -> Report {
        Report {
            text: Growing::new(alloc),
            passed: 0,
            failed: 0,
            told: Told {
                line: 1,
                text: Growing::new(alloc),
            },
        }
    }

    /// Its lines, in UTF-8 where the names of the files are.
    pub fn text(&self) -> &[u8] {
        self.text.bytes.as_slice()
    }

    // Counts a case, tells what is wrong with it, and is ready for the next one.
    fn note(&mut self, file: &str, name: &str) -> Result<(), NoMemory> {
        if self.told.text.bytes.is_empty() {
            self.passed = self.passed.saturating_add(1);
        } else {
            self.failed = self.failed.saturating_add(1);
            self.text.say(file);
            self.text.say(":");
            self.text.say_number(self.told.line as u64);
            self.text.say(": ");
            self.text.say(if name.is_empty() { "-" } else { name });
            self.text.say(": ");
            self.text.put_all(self.told.text.bytes.as_slice());
            self.text.say("\n");
        }
        self.told.line = 1;
        self.told.text.bytes.clear();
        if self.text.short || self.told.text.short {
            return Err(NoMemory);
        }
        Ok(())
    }

    // Tells that a file has no case.
    fn note_none(&mut self, file: &str, wanted: &str) -> Result<(), NoMemory> {
        self.told.differ(wanted, "none");
        self.note(file, "")
    }

    fn count(&mut self) {
        self.text.say_number(self.passed);
        self.text.say(" passed, ");
        self.text.say_number(self.failed);
        self.text.say(" failed\n");
    }
}

/// Carries out the cases of files of a store, and reports on them. A file that can't be read counts as a case that fails.
pub fn check_files<T: Tool, S: Store>(
    alloc: Global,
    tool: &T,
    store: &mut S,
    names: &[String],
    report: &mut Report,
) -> Result<(), NoMemory> {
    for name in names {
        check_file(alloc, tool, store, name.as_str(), report)?;
    }
    report.count();
    Ok(())
}

fn check_file<T: Tool, S: Store>(
    alloc: Global,
    tool: &T,
    store: &mut S,
    file: &str,
    report: &mut Report,
) -> Result<(), NoMemory> {
    match content_of(alloc, store, file) {
        Ok(bytes) => check_bytes(alloc, tool, file, bytes.as_slice(), report),
        Err(StoreError::NoMemory) => Err(NoMemory),
        Err(_) => report.note_none(file, "a case file"),
    }
}

fn content_of<S: Store>(alloc: Global, store: &mut S, file: &str) -> Result<Bytes, StoreError> {
    let name = Text::from_slice(alloc, file.as_bytes())?;
    store.read(alloc, &name)
}

fn check_bytes<T: Tool>(
    alloc: Global,
    tool: &T,
    file: &str,
    bytes: &[u8],
    report: &mut Report,
) -> Result<(), NoMemory> {
    let Ok(text) = str::from_utf8(bytes) else {
        return report.note_none(file, "a text in UTF-8");
    };
    let lines = lines_of(alloc, text)?;
    let sections = sections(alloc, lines.as_slice())?;
    if sections.is_empty() {
        return report.note_none(file, "a case");
    }
    check_sections(alloc, tool, file, sections.as_slice(), report)
}

// A case begins at each line that begins one, and at the first step where none does in front of it.
fn check_sections<T: Tool>(
    alloc: Global,
    tool: &T,
    file: &str,
    sections: &[Section<'_>],
    report: &mut Report,
) -> Result<(), NoMemory> {
    let mut names = Vec::new(alloc);
    let mut number = 0usize;
    for head in sections {
        number = number.wrapping_add(1);
        if number == 1 || head.is_case {
            let name = name_of(head);
            judge_head(head, name, names.as_slice(), &mut report.told);
            let steps = sections.get(number..).unwrap_or(&[]);
            check_case(alloc, tool, steps, &mut report.told);
            report.note(file, name)?;
            names.push(name)?;
        }
    }
    Ok(())
}

// Its name ends at the line's first colon with a blank, behind which a sentence stands.
fn name_of<'a>(head: &Section<'a>) -> &'a str {
    if !head.is_case {
        return "";
    }
    match head.head.split_once(": ") {
        Some((name, _)) => name.trim(),
        None => head.head.trim(),
    }
}

// Tells what is wrong with the line that begins a case.
fn judge_head(head: &Section<'_>, name: &str, names: &[&str], told: &mut Told) {
    told.line = head.line;
    if !head.is_case {
        told.differ("a case in front of its steps", head.head);
    } else if name.is_empty() {
        told.differ("a name", "none");
    } else if names.contains(&name) {
        told.differ("a name of its own", name);
    }
}

// Carries out the case to which these sections belong up to the next case, once each of its steps can be read.
fn check_case<T: Tool>(alloc: Global, tool: &T, sections: &[Section<'_>], told: &mut Told) {
    let mut step = Step::new(alloc);
    read_all(alloc, &mut step, sections, told);
    if !told.is_over() {
        let mut bench = Bench::new(alloc);
        carry_all_out(alloc, tool, &mut bench, &mut step, sections, told);
    }
}

// Tells of the first step that can't be read.
fn read_all<'a>(alloc: Global, step: &mut Step<'a>, sections: &[Section<'a>], told: &mut Told) {
    for section in sections {
        if section.is_case || told.is_over() {
            return;
        }
        read_step(alloc, step, section, told);
    }
}
