//! What the flat lines of a source say, each in its state.

ghost use Rattle.std.specs.Prelude.{◌≡◌, ◌≤◌, length, IfOk, OnOk};
ghost use Rattle.asm_locals.specs.Naming.{in_names};
ghost use Rattle.asm_model.specs.Before as states;
ghost use Rattle.asm_reading.specs.FlatLines as reading_of;
ghost use Rattle.asm_model.specs.Said.{AllSaid};

use crate::says::said_in;
use asm_expr::says::ParsedStatement;
use asm_locals::name_locals;
use asm_model::{DirectiveLine, Flat, Statement, What};
use sdt_fault::kinds::LineKind;
use sdt_fault::{NoMemory, Text};
use std::alloc::Global;

/// What lines say.
#[derive(Drop)]
pub struct Reading {
    /// The statements of the lines that can be read.
    pub statements: Vec<Statement>,
    /// The first line that can't be read.
    pub unread: Option<Unread>,
    /// How many statements stand before that line; all of them where there is none.
    pub before: usize,
}

/// A line that can't be read, with the kind that is told of it.
#[derive(Drop)]
pub struct Unread {
    pub source: Text,
    pub number: u32,
    pub kind: LineKind,
}

/// The state behind a statement in this state.
fn state_behind(what: &What, thumb: bool) -> bool
    ensures { result ≡ states.state_behind what.now thumb }
{
    match what {
        What::Directive(DirectiveLine::Code16) => true,
        What::Directive(DirectiveLine::Code32) => false,
        _ => thumb,
    }
}

/// The state of the next line.
fn state_after(thumb: bool, said: &ParsedStatement) -> bool
    ensures { result ≡ reading_of.state_after thumb said.now }
{
    match said {
        Ok(Some(statement)) => state_behind(&statement.what, thumb),
        Ok(None) => thumb,
        Err(_) => thumb,
    }
}

fn unread_line(alloc: Global, line: &Flat, kind: LineKind) -> Result<Unread, NoMemory>
    ensures { IfOk result (λ unread. unread ≡ reading_of.unread_line line.now kind) }
{
    Ok(Unread {
        source: line.source.as_text().try_clone(alloc)?,
        number: line.number,
        kind,
    })
}

/// How many statements stand before the first line that can't be read, behind one more, of `all`.
fn counted(unread: &Option<Unread>, before: usize, all: usize) -> usize
    ensures { result ≡ reading_of.counted unread.now before all }
{
    match unread {
        None => all,
        Some(_) => before,
    }
}

/// Keeps what a line more says.
fn keep(
    alloc: Global,
    reading: &mut Reading,
    line: &Flat,
    said: ParsedStatement,
) -> Result<(), NoMemory>
    ensures { OnOk result (reading_of.Keeps line.now said reading.old reading.new) }
{
    match said {
        Ok(None) => {}
        Ok(Some(statement)) => {
            reading.statements.push(statement)?;
            reading.before = counted(&reading.unread, reading.before, reading.statements.len());
        }
        Err(kind) => {
            if reading.unread.is_none() {
                reading.unread = Some(unread_line(alloc, line, kind)?);
            }
        }
    }
    Ok(())
}

/// For how many tokens there is room before the first line.
const TOKENS_AT_FIRST: usize = 16;

/// What lines say, with local labels as they are written.
fn read_as_written(alloc: Global, lines: &[Flat]) -> Result<Reading, NoMemory>
    ensures { IfOk result (λ reading. reading_of.IsWritten lines.now reading) }
{
    let mut reading = Reading {
        statements: Vec::with_capacity(alloc, lines.len())?,
        unread: None,
        before: 0,
    };
    let mut tokens = Vec::with_capacity(alloc, TOKENS_AT_FIRST)?;
    let mut thumb = false;
    for line in lines {
        let said = said_in(alloc, &mut tokens, thumb, line)?;
        thumb = state_after(thumb, &said);
        keep(alloc, &mut reading, line, said)?;
    }
    Ok(reading)
}

/// Gives names for local labels.
fn name_all(alloc: Global, statements: &mut Vec<Statement>) -> Result<(), NoMemory>
    ensures { OnOk result (statements.new.items ≡ in_names statements.old.items) }
{
    name_locals(alloc, statements.as_mut_slice())?;
    Ok(())
}

/// The statements of lines with names for local labels, and the first line that can't be read, with the faults of
/// `parse_arm`, or of `parse_thumb` where it stands in Thumb state.
pub fn read_lines(alloc: Global, lines: &[Flat]) -> Result<Reading, NoMemory>
    ensures reads { IfOk result (λ reading. reading_of.IsReading lines.now reading) }
    ensures said { IfOk result (λ reading. AllSaid reading.statements.items) }
    ensures few { IfOk result (λ reading. length reading.statements.items ≤ length lines.now) }
{
    let mut reading = read_as_written(alloc, lines)?;
    name_all(alloc, &mut reading.statements)?;
    Ok(reading)
}
