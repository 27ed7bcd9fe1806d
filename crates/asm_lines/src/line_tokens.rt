//! The tokens of a line, or its refusal.

ghost use Rattle.asm_lines.specs.Scans.{ScansTo};
ghost use Rattle.asm_model.specs.Told.{Told};

use crate::scan::scan;
use asm_model::{Flat, Token, bad_line};
use sdt_fault::answer::Fault;
use sdt_fault::kinds::LineKind;
use std::alloc::Global;

/// The tokens of a line, in their order. Syntax exactly where the line has none. Names beyond the limit are judged
/// elsewhere, by what the line says. A line of 2^32 bytes counts as want of memory.
pub fn tokens(alloc: Global, line: &Flat) -> Result<Vec<Token>, Fault>
    ensures { Told line.now.source line.now.number (ScansTo line.now.text) result }
{
    let text = line.text.as_slice();
    if text.len() > 0xFFFF_FFFF {
        return Err(Fault::NoMemory);
    }
    match scan(alloc, text)? {
        Some(list) => Ok(list),
        None => Err(bad_line(alloc, line.source.as_text(), line.number, LineKind::Syntax)),
    }
}
