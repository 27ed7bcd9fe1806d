//! Places in the lines of a file or of a macro's body.

ghost use Rattle.std.specs.Prelude.{◌≡◌, ◌≤◌, ◌∷◌, [], length, drop, IfOk, MatchOption};

use asm_model::Line;
use sdt_fault::{List, NoMemory};
use std::alloc::Global;
use std::rc::Rc;

/// The lines from one of them on. Copies share the lines, which are given up with the last of them.
#[derive(Drop)]
pub struct LineCursor {
    pub lines: Rc<List<Line>>,
    /// How many lines stand before.
    pub at: usize,
    ghost within: { at ≤ length lines.value },
}

impl LineCursor {
    ghost use Rattle.asm_expand.specs.LineCursors.{cursor_lines};

    /// All of these lines.
    pub fn start(alloc: Global, lines: List<Line>) -> Result<LineCursor, NoMemory>
        ensures { IfOk result (λ p. cursor_lines p ≡ lines) }
    {
        let lines = Rc::new(alloc, lines)?;
        Ok(LineCursor { lines, at: 0 })
    }

    /// All of the lines that a macro's body is.
    pub fn of_body(body: &Rc<List<Line>>) -> Result<LineCursor, NoMemory>
        ensures { IfOk result (λ p. cursor_lines p ≡ body.now.value) }
    {
        let lines = body.clone()?;
        Ok(LineCursor { lines, at: 0 })
    }

    /// The lines.
    pub fn rest(&self) -> &[Line]
        ensures { result.now ≡ cursor_lines self.now }
    {
        &self.lines.as_slice()[self.at..]
    }

    /// The first of the lines.
    pub fn first(&self) -> Option<&Line>
        ensures { MatchOption result (cursor_lines self.now ≡ []) (λ line.
            cursor_lines self.now ≡ line.now ∷ drop 1 (cursor_lines self.now)) }
    {
        match self.rest().split_first() {
            None => None,
            Some((line, _)) => Some(line),
        }
    }

    /// The same place.
    pub fn copy(&self) -> Result<LineCursor, NoMemory>
        ensures { IfOk result (λ p. cursor_lines p ≡ cursor_lines self.now) }
    {
        let lines = self.lines.clone()?;
        Ok(LineCursor { lines, at: self.at })
    }

    /// The place behind so many lines.
    pub fn past(self, count: usize) -> LineCursor
        ensures { cursor_lines result ≡ drop count (cursor_lines self) }
    {
        let LineCursor { lines, at } = self;
        let len = lines.as_slice().len();
        if count < len - at {
            return LineCursor {
                lines,
                at: at + count,
            };
        }
        LineCursor { lines, at: len }
    }

    /// The place behind the first line.
    pub fn behind(&self) -> Result<LineCursor, NoMemory>
        ensures { IfOk result (λ p. cursor_lines p ≡ drop 1 (cursor_lines self.now)) }
    {
        let place = self.copy()?;
        Ok(place.past(1))
    }
}
