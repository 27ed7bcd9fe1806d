//! Operands of instructions, as a line says them.

use crate::exprs::Expr;
use crate::register_names::RegisterName;
use sdt_fault::List;
use sdt_word::ShiftKind;

/// A register, 0 to 15, or a name that an RN directive gives one.
#[derive(Drop)]
pub enum Register {
    Number(u8),
    Named(RegisterName),
}

/// The shift of a register operand.
#[derive(Drop)]
pub enum Shift {
    /// None is written, which stands for `LSL #0`.
    Unshifted,
    /// `LSL #a`
    By { kind: ShiftKind, amount: Expr },
    /// `RRX`
    Extended,
}

/// Where a transfer adds its offset to the base.
#[derive(Clone, Copy)]
pub enum Indexing {
    /// `[Rn,..]`
    Offset,
    /// `[Rn,..]!`
    Before,
    /// `[Rn],..`
    After,
    /// `[Rn],..` with the suffix T.
    Translated,
    /// `[Rn,..]` with the suffix T, which has no such address.
    TranslatedBefore,
}

/// The place that a transfer with a number as its offset names.
#[derive(Drop)]
pub enum Address {
    /// `[Rn,#v]{!}` or `[Rn],#v`; without a number v is 0.
    Based {
        rn: Register,
        indexing: Indexing,
        offset: Expr,
    },
    /// A label, which is reached from pc.
    Label {
        target: Expr,
    },
}

/// The offset of a transfer of half-words or signed bytes.
#[derive(Drop)]
pub enum HalfOffset {
    Number { offset: Expr },
    /// `Rm`, or `-Rm` where `subtract`.
    Register { subtract: bool, rm: Register },
}

/// The order in which LDM and STM go through memory.
#[derive(Clone, Copy)]
pub enum BlockMode {
    IncrementAfter,
    IncrementBefore,
    DecrementAfter,
    DecrementBefore,
}

/// A register of a list, or all from one to another.
#[derive(Drop)]
pub enum ListItem {
    One(Register),
    Range { first: Register, last: Register },
}

/// A register list, as it is written; `{PC}` is the list of pc alone.
#[derive(Drop)]
pub struct RegisterList {
    pub items: List<ListItem>,
}

/// A status register.
#[derive(Clone, Copy)]
pub enum StatusRegister {
    /// CPSR
    Current,
    /// SPSR
    Saved,
}

/// Fields of a status register, which MSR writes.
#[derive(Clone, Copy)]
pub struct StatusFields {
    pub register: StatusRegister,
    /// 1 to 15: a bit for each of the letters f, s, x and c, f the highest.
    pub mask: u8,
}

/// The last operand of Thumb's ADD and SUB with two registers before it.
#[derive(Drop)]
pub enum ThumbOperand {
    Register(Register),
    Number(Expr),
}

/// The place from which Thumb's LDR loads by pc.
#[derive(Drop)]
pub enum LiteralAddress {
    /// `[pc,#v]`
    Offset(Expr),
    Label(Expr),
}
