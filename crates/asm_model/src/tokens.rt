//! Tokens: slices of a line, each with its kind.

/// The form of a token.
#[derive(Clone, Copy)]
pub enum TokenKind {
    /// Letters, digits and `_`, not beginning with a digit.
    Name,
    /// A name between bars, with the bars.
    Barred,
    /// A number: decimal, `0x` or `&` hexadecimal, or `n_digits`.
    Number,
    /// A string in double quotes, with the quotes.
    Quoted,
    /// A character in single quotes.
    Character,
    /// A word in braces, such as `{TRUE}`.
    Braced,
    /// A reference to a local label, such as `%F1`.
    Local,
    /// An operator or a sign.
    Sign,
}

/// The bytes from `start` up to `end` of a line.
#[derive(Clone, Copy)]
pub struct Token {
    pub kind: TokenKind,
    pub start: u32,
    pub end: u32,
}

/// What a line may have at a place.
#[derive(Clone, Copy)]
pub enum Due {
    Label,
    Operation,
    Operands,
    /// Behind TTL or SUBT, where anything may stand.
    Nothing,
}
