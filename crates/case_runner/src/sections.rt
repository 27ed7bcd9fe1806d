//! The lines of a case file, cut where a case or a step begins.

use sdt_fault::NoMemory;
use std::alloc::Global;

/// A line that begins a case (`== `) or a step (`-- `), without its mark, its number, and the lines behind it.
#[derive(Clone, Copy)]
pub struct Section<'a> {
    pub line: usize,
    pub is_case: bool,
    pub head: &'a str,
    pub body: &'a [&'a str],
}

pub fn lines_of<'a>(alloc: Global, text: &'a str) -> Result<Vec<&'a str>, NoMemory> {
    let mut lines = Vec::new(alloc);
    for line in text.lines() {
        lines.push(line)?;
    }
    Ok(lines)
}

/// The sections of a file. Lines in front of the first belong to none, and neither do blank lines in front of a case and at
/// the end.
pub fn sections<'a>(alloc: Global, lines: &'a [&'a str]) -> Result<Vec<Section<'a>>, NoMemory> {
    let mut found = Vec::new(alloc);
    let mut open = None;
    let mut number = 0usize;
    for line in lines {
        if let Some(next) = begun(number, *line) {
            if let Some(section) = open {
                found.push(ended(section, lines, number, next.is_case))?;
            }
            open = Some(next);
        }
        number = number.wrapping_add(1);
    }
    if let Some(section) = open {
        found.push(ended(section, lines, number, true))?;
    }
    Ok(found)
}

// The section that a line begins behind so many others.
fn begun(number: usize, line: &str) -> Option<Section<'_>> {
    let (is_case, head) = match line.strip_prefix("== ") {
        Some(head) => (true, head),
        None => (false, line.strip_prefix("-- ")?),
    };
    Some(Section {
        line: number.wrapping_add(1),
        is_case,
        head,
        body: &[],
    })
}

// The section with the lines behind its own, up to so many.
fn ended<'a>(
    section: Section<'a>,
    lines: &'a [&'a str],
    end: usize,
    is_in_front_of_case: bool,
) -> Section<'a> {
    let mut body = lines.get(section.line..end).unwrap_or(&[]);
    if is_in_front_of_case {
        body = body.get(..length_without_blank_end(body)).unwrap_or(&[]);
    }
    Section {
        line: section.line,
        is_case: section.is_case,
        head: section.head,
        body,
    }
}

fn length_without_blank_end(lines: &[&str]) -> usize {
    let mut length = 0usize;
    let mut number = 0usize;
    for line in lines {
        number = number.wrapping_add(1);
        if !line.is_empty() {
            length = number;
        }
    }
    length
}
