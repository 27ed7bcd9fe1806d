//! The words of expansion.

/// The types of variables.
#[derive(Clone, Copy)]
pub enum Sort {
    Arithmetic,
    Logical,
    Textual,
}

#[derive(Clone, Copy)]
pub enum Operation {
    If,
    Else,
    EndIf,
    While,
    WEnd,
    Macro,
    MEnd,
    MExit,
    /// GET or INCLUDE
    Get,
    /// GBLA, GBLL or GBLS
    Global(Sort),
    /// LCLA, LCLL or LCLS
    Local(Sort),
    /// SETA, SETL or SETS
    Set(Sort),
}

/// What is open among lines that aren't read.
#[derive(Clone, Copy)]
pub enum Opening {
    /// An IF before its ELSE.
    Condition,
    /// An IF behind its ELSE.
    Alternative,
    /// A WHILE.
    Loop,
    /// A MACRO.
    Definition,
}
