//! Directives: their names, and what a line says with one.

use crate::exprs::Expr;
use crate::shared_texts::SharedText;
use sdt_fault::List;

/// A directive, whichever of its names is written.
#[derive(Clone, Copy)]
pub enum Directive {
    Area,
    Entry,
    End,
    /// EXPORT or GLOBAL
    Export,
    Import,
    Extern,
    Keep,
    /// EQU or `*`
    Equ,
    Rn,
    Rout,
    Assert,
    Nofp,
    Opt,
    Ttl,
    Subt,
    /// A directive of data.
    Constants(DataItem),
    /// SPACE or `%`
    Space,
    Align,
    Ltorg,
    Data,
    /// MAP or `^`
    Map,
    /// FIELD or `#`
    Field,
    Code16,
    Code32,
    /// DCFS, DCFD and FN
    FloatingPoint,
    /// A word that expansion takes away.
    Expansion,
}

/// An item of data, with the directive that puts it.
#[derive(Clone, Copy)]
pub enum DataItem {
    /// DCD or `&`
    Word,
    /// DCDU
    UnalignedWord,
    /// DCW
    HalfWord,
    /// DCB or `=`
    Byte,
}

/// How a data item holds its values.
#[derive(Clone, Copy)]
pub enum Held {
    /// Words, which may be relocated.
    Relocatable,
    /// Numbers of so many bytes.
    Fixed(u8),
    /// Bytes, and strings of them.
    Strings,
}

/// What a directive asks of the label field.
#[derive(Clone, Copy)]
pub enum LabelNeed {
    /// A label may stand there.
    Optional,
    /// A label stands there.
    Label,
    /// A name stands there, which the directive defines.
    Name,
}

/// What a line says with a directive. A name that the directive defines is the line's label.
#[derive(Drop)]
pub enum DirectiveLine {
    Area {
        name: SharedText,
        attributes: AreaAttributes,
    },
    Entry,
    End,
    Export {
        name: SharedText,
    },
    Import {
        name: SharedText,
        mark: ImportMark,
    },
    Extern {
        name: SharedText,
        mark: ImportMark,
    },
    Keep {
        name: SharedText,
    },
    Equ {
        value: Expr,
    },
    Rn {
        register: RnOperand,
    },
    Rout,
    Assert {
        condition: Expr,
    },
    Nofp,
    Opt {
        options: Expr,
    },
    Ttl,
    Subt,
    Constants {
        item: DataItem,
        values: List<Expr>,
    },
    Space {
        size: Expr,
    },
    Align {
        boundary: Boundary,
    },
    Ltorg,
    Data,
    Map {
        value: Expr,
    },
    Field {
        size: Expr,
    },
    Code16,
    Code32,
}

/// The attributes of an area, with those that are not written.
#[derive(Drop)]
pub struct AreaAttributes {
    pub contents: Contents,
    /// Code is read-only and data read-write unless said.
    pub read_only: bool,
    pub interwork: bool,
    pub halfword: bool,
    pub pic: bool,
    pub reentrant: bool,
    /// The exponent of the area's alignment, where one is written; of several, which is a bad word, all.
    pub alignments: List<Expr>,
    /// Whether a word is no attribute, stands twice or excludes another.
    pub has_bad_word: bool,
}

/// What an area holds.
#[derive(Clone, Copy)]
pub enum Contents {
    Code,
    Data,
    /// Data that is zero: NOINIT.
    Zeroes,
}

/// A word among the attributes of an area.
#[derive(Clone, Copy)]
pub enum Attribute {
    Code,
    Data,
    ReadOnly,
    ReadWrite,
    NoInit,
    Interwork,
    Halfword,
    Pic,
    Reentrant,
    Align,
}

/// What stands behind the name of an import.
#[derive(Clone, Copy)]
pub enum ImportMark {
    Absent,
    /// `[WEAK]` or `,WEAK`
    Weak,
    /// Another word, which is a bad operand.
    Other,
}

/// What an RN name stands for.
#[derive(Drop)]
pub enum RnOperand {
    /// A register, 0 to 15.
    Register(u8),
    Number(Expr),
}

/// What ALIGN aligns to.
#[derive(Drop)]
pub enum Boundary {
    /// A word.
    Word,
    Multiple { of: Expr },
    /// An offset behind a multiple.
    Behind { multiple: Expr, offset: Expr },
}
