//! Conditions, kinds of shift and widths of an access, with their numbers.

ghost use Rattle.std.specs.Prelude.{◌≡◌, ◌<◌, ◌≤◌, MatchOption};
ghost use Rattle.sdt_word.specs.Codes.{bytes_in, condition_code, shift_code};

/// A condition by the code of bits 31 to 28 of an ARM instruction, 0 to 14 in this order.
#[derive(Clone, Copy)]
pub enum Condition {
    Eq,
    Ne,
    Cs,
    Cc,
    Mi,
    Pl,
    Vs,
    Vc,
    Hi,
    Ls,
    Ge,
    Lt,
    Gt,
    Le,
    Al,
}

/// A kind of shift by its code, 0 to 3 in this order.
#[derive(Clone, Copy)]
pub enum ShiftKind {
    Lsl,
    Lsr,
    Asr,
    Ror,
}

/// The width of an access to memory.
#[derive(Clone, Copy)]
pub enum Width {
    Byte,
    Half,
    Word,
}

impl Condition {
    pub fn code(self) -> u32
        ensures { result ≡ condition_code self }
    {
        self as u32
    }

    /// The condition of a code; there is none of code 15.
    pub fn from_code(code: u32) -> Option<Condition>
        ensures { MatchOption result (15 ≤ code) (λ c. condition_code c ≡ code) }
    {
        let condition = match code {
            0 => Condition::Eq,
            1 => Condition::Ne,
            2 => Condition::Cs,
            3 => Condition::Cc,
            4 => Condition::Mi,
            5 => Condition::Pl,
            6 => Condition::Vs,
            7 => Condition::Vc,
            8 => Condition::Hi,
            9 => Condition::Ls,
            10 => Condition::Ge,
            11 => Condition::Lt,
            12 => Condition::Gt,
            13 => Condition::Le,
            14 => Condition::Al,
            _ => return None,
        };
        Some(condition)
    }
}

impl ShiftKind {
    pub fn code(self) -> u32
        ensures { result ≡ shift_code self }
    {
        self as u32
    }

    /// The kind of a code.
    pub fn from_code(code: u32) -> ShiftKind
        requires { code < 4 }
        ensures { shift_code result ≡ code }
    {
        match code {
            0 => ShiftKind::Lsl,
            1 => ShiftKind::Lsr,
            2 => ShiftKind::Asr,
            _ => ShiftKind::Ror,
        }
    }
}

impl Width {
    /// How many bytes it has.
    pub fn bytes(self) -> u32
        ensures { result ≡ bytes_in self }
    {
        match self {
            Width::Byte => 1,
            Width::Half => 2,
            Width::Word => 4,
        }
    }
}
