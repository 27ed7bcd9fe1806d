//! Expressions, in postfix order.

use crate::shared_texts::SharedText;
use crate::values::Value;
use sdt_fault::List;

/// The items of an expression, each operator after its operands.
#[derive(Drop)]
pub struct Expr {
    pub items: List<ExprItem>,
}

#[derive(Drop)]
pub enum ExprItem {
    Name(SharedText),
    /// A reference to a local label, as it is written.
    Local(SharedText),
    Constant(Value),
    /// A number above 2^32 - 1.
    TooLarge,
    /// This place: `.` or `{PC}`.
    Here,
    /// The storage map: `@` or `{VAR}`.
    Map,
    /// The width of instructions in bits: `{CODESIZE}` or `{CONFIG}`.
    CodeSize,
    Unary(UnaryOp),
    Binary(BinaryOp),
}

/// The operators before their operand.
#[derive(Clone, Copy)]
pub enum UnaryOp {
    Plus,
    Minus,
    /// `?name`
    Size,
    Not,
    LogicalNot,
    Length,
    Character,
    String,
    /// `:DEF:name`
    Defined,
}

/// The operators between their operands.
#[derive(Clone, Copy)]
pub enum BinaryOp {
    Multiply,
    Divide,
    Modulo,
    Left,
    Right,
    Concatenate,
    RotateLeft,
    RotateRight,
    ShiftLeft,
    ShiftRight,
    Add,
    Subtract,
    And,
    Or,
    ExclusiveOr,
    /// `=` or `==`
    Equal,
    /// `<>` or `/=`
    NotEqual,
    Less,
    LessEqual,
    Greater,
    GreaterEqual,
    LogicalAnd,
    LogicalOr,
    LogicalExclusiveOr,
}

/// What a token is in an expression.
#[derive(Drop)]
pub enum Part {
    Operand(ExprItem),
    Open,
    Close,
    /// An operator before an operand.
    Prefix(UnaryOp),
    /// An operator before a name.
    OfName(UnaryOp),
    /// An operator between operands.
    Infix(BinaryOp),
    /// An operator before an operand or between two: `+` or `-`.
    Sum(UnaryOp, BinaryOp),
    /// A sign that no expression has.
    Other,
}
