//! What lines say, what is open at a place, and how lines end.

use crate::line_cursors::LineCursor;
use asm_variables::expansion::Scope;
use expand_model::Operation;
use sdt_fault::Text;
use sdt_fault::kinds::LineKind;

/// How many constructs are open, and how many files that GET opened.
#[derive(Clone, Copy)]
pub struct Depth {
    pub constructs: usize,
    pub files: usize,
}

/// What lines stand in.
#[derive(Drop)]
pub enum Frame {
    /// The lines behind the IF there, up to its ELSE or ENDIF.
    Condition(LineCursor),
    /// The lines behind the ELSE of the IF there, up to its ENDIF.
    Alternative(LineCursor),
    /// The lines behind the WHILE there, up to its WEND.
    Loop(LineCursor),
    /// The body of a macro, with what the call around it has, and the lines behind the call. The box keeps a `Next` small.
    Call(Box<Scope>, LineCursor),
    /// A file, with the lines behind its GET.
    File(LineCursor),
}

/// How lines end.
#[derive(Drop)]
pub enum End {
    /// No line is left.
    Over,
    /// At an ELSE, ENDIF or WEND there.
    Closed(Operation, LineCursor),
    /// At an MEXIT there.
    Left(LineCursor),
    /// At an END.
    Ended,
    /// At an END, where the word there is the outermost that was open.
    Cut(LineCursor),
    /// The word there is the outermost that nothing closes.
    Unclosed(LineCursor),
}

/// What follows a line.
#[derive(Drop)]
pub enum Next {
    /// The lines from a place on.
    Go(LineCursor),
    /// The same, under one construct more.
    Under(Frame, LineCursor),
    /// The lines of a file, and behind it those from a place on.
    Get(Text, LineCursor),
    Stop(End),
    /// The line there has a fault.
    Bad(LineCursor, LineKind),
}
