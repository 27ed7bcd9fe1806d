//! The registers that a row of Thumb state has. A name that stands for no register has a fault of its own.

ghost use Rattle.std.specs.Prelude.{◌≡◌, ◌==◌, ◌&&◌, ◌||◌, nat_lt};
ghost use Rattle.std.specs.List.{list_all};
ghost use Rattle.asm_model.specs.declared.thumb_lines.ThumbLine.TheVariants as thumb;
ghost use Rattle.source_model.specs.Registers as registers;

use crate::numbers::number_of;
use asm_model::{ListItem, PseudoLine, Register, ThumbLine, ThumbOperand};
use asm_sets::NameMap;
use thumb_isa::ImmediateOperation;

fn is_low(known: &NameMap<u8>, register: &Register) -> bool
    ensures { result ≡ registers.is_low (registers.number_of known.now) register.now }
{
    match number_of(known, register) {
        None => true,
        Some(number) => number < 8,
    }
}

fn two_low(known: &NameMap<u8>, a: &Register, b: &Register) -> bool
    ensures { result ≡ registers.is_low (registers.number_of known.now) a.now && registers.is_low
        (registers.number_of known.now) b.now }
{
    is_low(known, a) && is_low(known, b)
}

fn three_low(known: &NameMap<u8>, a: &Register, b: &Register, c: &Register) -> bool
    ensures { result ≡ registers.is_low (registers.number_of known.now) a.now &&
        (registers.is_low (registers.number_of known.now) b.now && registers.is_low
        (registers.number_of known.now) c.now) }
{
    is_low(known, a) && two_low(known, b, c)
}

/// Whether a sum with a number has this register.
fn has_sum(subtract: bool, number: u8) -> bool
    ensures { result ≡ registers.has_sum subtract number }
{
    number < 8 || (!subtract && (number == 13 || number == 15))
}

fn is_sum_base(known: &NameMap<u8>, subtract: bool, register: &Register) -> bool
    ensures { result ≡ registers.if_known (registers.has_sum subtract)
        (registers.number_of known.now register.now) }
{
    match number_of(known, register) {
        None => true,
        Some(number) => has_sum(subtract, number),
    }
}

fn adds(
    known: &NameMap<u8>,
    subtract: bool,
    rd: &Register,
    rs: &Register,
    operand: &ThumbOperand,
) -> bool
    ensures { result ≡ registers.has_row (registers.number_of known.now)
        (thumb.AddSubtract subtract rd.now rs.now operand.now) }
{
    match operand {
        ThumbOperand::Register(rn) => three_low(known, rd, rs, rn),
        ThumbOperand::Number(_) => is_low(known, rd) && is_sum_base(known, subtract, rs),
    }
}

/// Whether sp has a row of its own for an operation.
fn adjusts(operation: ImmediateOperation) -> bool
    ensures { result ≡ registers.adjusts operation }
{
    match operation {
        ImmediateOperation::Add => true,
        ImmediateOperation::Sub => true,
        _ => false,
    }
}

fn has_immediate(known: &NameMap<u8>, operation: ImmediateOperation, rd: &Register) -> bool
    ensures { result ≡ registers.if_known
        (λ d. nat_lt d 8 || d == 13 && registers.adjusts operation)
        (registers.number_of known.now rd.now) }
{
    match number_of(known, rd) {
        None => true,
        Some(number) => number < 8 || (number == 13 && adjusts(operation)),
    }
}

/// Whether a transfer with an offset has this base.
fn has_base(load: bool, byte: bool, number: u8) -> bool
    ensures { result ≡ registers.has_base load byte number }
{
    number < 8 || (!byte && (number == 13 || (load && number == 15)))
}

fn is_base(known: &NameMap<u8>, load: bool, byte: bool, register: &Register) -> bool
    ensures { result ≡ registers.if_known (registers.has_base load byte)
        (registers.number_of known.now register.now) }
{
    match number_of(known, register) {
        None => true,
        Some(number) => has_base(load, byte, number),
    }
}

// ---- lists

/// Whether a list with one register more than r0 to r7 has this register.
fn is_listed(more: u8, number: u8) -> bool
    ensures { result ≡ registers.is_listed more number }
{
    number < 8 || number == more
}

fn has_one(known: &NameMap<u8>, more: u8, register: &Register) -> bool
    ensures { result ≡ registers.if_known (registers.is_listed more)
        (registers.number_of known.now register.now) }
{
    match number_of(known, register) {
        None => true,
        Some(number) => is_listed(more, number),
    }
}

fn has_range(more: u8, first: Option<u8>, last: Option<u8>) -> bool
    ensures { result ≡ registers.has_range more first last }
{
    match (first, last) {
        (Some(first), Some(last)) => last < 8 || (first == more && last == more),
        (_, _) => true,
    }
}

fn has_item(known: &NameMap<u8>, more: u8, item: &ListItem) -> bool
    ensures { result ≡ registers.has_item more (registers.number_of known.now) item.now }
{
    match item {
        ListItem::One(register) => has_one(known, more, register),
        ListItem::Range { first, last } => {
            has_range(more, number_of(known, first), number_of(known, last))
        }
    }
}

fn has_items(known: &NameMap<u8>, more: u8, items: &[ListItem]) -> bool
    ensures { result ≡ list_all
        (registers.has_item more (registers.number_of known.now)) items.now }
{
    items.iter().all(|item| has_item(known, more, item))
}

/// The register that the list of a push or a pop has beside r0 to r7.
fn link_register(load: bool) -> u8
    ensures { result ≡ registers.link_register load }
{
    if load {
        return 15;
    }
    14
}

// ---- lines

/// Whether the row of a line has its registers.
pub fn has_row(known: &NameMap<u8>, line: &ThumbLine) -> bool
    ensures { result ≡ registers.has_row (registers.number_of known.now) line.now }
{
    match line {
        ThumbLine::ShiftImmediate { rd, rs, .. } => two_low(known, rd, rs),
        ThumbLine::AddSubtract {
            subtract,
            rd,
            rs,
            operand,
        } => adds(known, *subtract, rd, rs, operand),
        ThumbLine::DataImmediate { operation, rd, .. } => has_immediate(known, *operation, rd),
        ThumbLine::DataRegister { rd, rs, .. } => two_low(known, rd, rs),
        ThumbLine::LoadLiteral { rd, .. } => is_low(known, rd),
        ThumbLine::TransferRegister { rd, rn, ro, .. } => three_low(known, rd, rn, ro),
        ThumbLine::TransferSigned { rd, rn, ro, .. } => three_low(known, rd, rn, ro),
        ThumbLine::TransferImmediate {
            load,
            byte,
            rd,
            rn,
            ..
        } => is_low(known, rd) && is_base(known, *load, *byte, rn),
        ThumbLine::TransferHalf { rd, rn, .. } => two_low(known, rd, rn),
        ThumbLine::TransferStack { rd, .. } => is_low(known, rd),
        ThumbLine::LoadAddress { rd, .. } => is_low(known, rd),
        ThumbLine::PushPop { load, list } => {
            has_items(known, link_register(*load), list.items.as_slice())
        }
        ThumbLine::TransferMultiple { rn, list, .. } => {
            is_low(known, rn) && has_items(known, 0, list.items.as_slice())
        }
        ThumbLine::HighRegister { .. }
        | ThumbLine::AdjustStack { .. }
        | ThumbLine::BranchConditional { .. }
        | ThumbLine::SoftwareInterrupt { .. }
        | ThumbLine::Branch { .. }
        | ThumbLine::BranchLink { .. } => true,
    }
}

/// Whether the instruction of a literal or an address has its register.
pub fn has_pseudo(known: &NameMap<u8>, line: &PseudoLine) -> bool
    ensures { result ≡ registers.has_pseudo (registers.number_of known.now) line.now }
{
    match line {
        PseudoLine::LoadConstant { rd, .. } => is_low(known, rd),
        PseudoLine::Address { rd, .. } => is_low(known, rd),
        PseudoLine::LongAddress { .. } | PseudoLine::NoOperation => true,
    }
}
