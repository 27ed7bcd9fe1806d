//! How much expansion keeps.

use crate::steps::{Frame, Next};
use asm_model::{Flat, Line};
use sdt_fault::NoMemory;

/// How many bytes may be kept of got files with their names, and of flat lines.
const KEPT_BYTES: usize = 1 << 30;

/// What was counted.
#[derive(Clone, Copy)]
pub struct Kept {
    /// How many flat lines.
    lines: usize,
    bytes: usize,
}

/// Nothing was counted.
pub const NONE_KEPT: Kept = Kept { lines: 0, bytes: 0 };

/// How many bytes are counted of a file with these lines, which share one copy of its text: its name, and each line with
/// the two bytes that may end it.
fn file_bytes(lines: &[Line]) -> usize {
    let Some(first) = lines.first() else {
        return 0;
    };
    let mut bytes = first.source.as_text().as_slice().len();
    'lines: for line in lines {
        bytes = bytes
            .saturating_add(line.text.as_slice().len())
            .saturating_add(2);
    }
    bytes
}

/// How many bytes are counted of the file that a step got.
fn got_bytes(next: &Next) -> usize {
    match next {
        Next::Under(Frame::File(_), first) => file_bytes(first.rest()),
        _ => 0,
    }
}

/// What is counted behind a step: with the file that it got, and the next of these flat lines, where there is one more. More
/// than `KEPT_BYTES` count as want of memory.
pub fn kept_behind(kept: Kept, next: &Next, flats: &[Flat]) -> Result<Kept, NoMemory> {
    let mut lines = kept.lines;
    let mut bytes = kept.bytes.saturating_add(got_bytes(next));
    if let Some(flat) = flats.get(lines) {
        lines = lines.saturating_add(1);
        bytes = bytes.saturating_add(flat.text.as_slice().len());
    }
    if bytes > KEPT_BYTES {
        return Err(NoMemory);
    }
    Ok(Kept { lines, bytes })
}
