//! The registers of each form of instruction.

ghost use Rattle.std.specs.Prelude.{◌≡◌, ◌∷◌, not, true};
ghost use Rattle.sdt_fault.specs.declared.kinds.LineKind.TheVariants.{BadOperand};
ghost use Rattle.asm_model.specs.declared.statements.What.TheVariants as what;
ghost use Rattle.asm_model.specs.Kinds as kinds;
ghost use Rattle.asm_model.specs.Kinds.{told_kind};
ghost use Rattle.source_model.specs.Registers as registers;
ghost use Rattle.asm_registers.specs.Scoped.{told_of};

use crate::lists::{items_kind, ranges_kind};
use crate::naming::{Scope, four, one, three, two, with_rest};
use crate::numbers::number_of;
use crate::rows::{has_pseudo, has_row};
use asm_expr::told::{first_told, kind_if};
use asm_model::{
    Address, ArmLine, HalfOffset, PseudoLine, Register, ThumbLine, ThumbOperand, What,
};
use asm_sets::NameMap;
use sdt_fault::kinds::LineKind;

fn address_kind(scope: &Scope<'_>, address: &Address) -> Option<LineKind>
    ensures { result ≡ told_of scope.now (registers.address_registers address.now) }
{
    match address {
        Address::Based { rn, .. } => one(scope, rn),
        Address::Label { .. } => None,
    }
}

fn half_kind(scope: &Scope<'_>, offset: &HalfOffset) -> Option<LineKind>
    ensures { result ≡ told_of scope.now (registers.half_registers offset.now) }
{
    match offset {
        HalfOffset::Number { .. } => None,
        HalfOffset::Register { rm, .. } => one(scope, rm),
    }
}

fn half_transfer_kind(
    scope: &Scope<'_>,
    rd: &Register,
    rn: &Register,
    offset: &HalfOffset,
) -> Option<LineKind>
    ensures { result ≡ told_of scope.now (rd.now ∷ rn.now ∷ registers.half_registers offset.now) }
{
    with_rest(scope, rd, with_rest(scope, rn, half_kind(scope, offset)))
}

fn arm_kind(scope: &Scope<'_>, line: &ArmLine) -> Option<LineKind>
    ensures { result ≡ told_of scope.now (registers.arm_registers line.now) }
{
    match line {
        ArmLine::DataImmediate { rd, rn, .. } => two(scope, rd, rn),
        ArmLine::DataShifted { rd, rn, rm, .. } => three(scope, rd, rn, rm),
        ArmLine::DataRegisterShifted { rd, rn, rm, rs, .. } => four(scope, rd, rn, rm, rs),
        ArmLine::Multiply { rd, rm, rs, rn, .. } => four(scope, rd, rm, rs, rn),
        ArmLine::MultiplyLong {
            low,
            high,
            rm,
            rs,
            ..
        } => four(scope, low, high, rm, rs),
        ArmLine::Swap { rd, rm, rn, .. } => three(scope, rd, rm, rn),
        ArmLine::BranchExchange { rm, .. } => one(scope, rm),
        ArmLine::ReadStatus { rd, .. } => one(scope, rd),
        ArmLine::WriteStatus { rm, .. } => one(scope, rm),
        ArmLine::WriteStatusImmediate { .. } => None,
        ArmLine::TransferImmediate { rd, address, .. } => {
            with_rest(scope, rd, address_kind(scope, address))
        }
        ArmLine::TransferShifted { rd, rn, rm, .. } => three(scope, rd, rn, rm),
        ArmLine::TransferHalf { rd, rn, offset, .. } => half_transfer_kind(scope, rd, rn, offset),
        ArmLine::TransferBlock { rn, list, .. } => {
            with_rest(scope, rn, items_kind(scope, list.items.as_slice()))
        }
        ArmLine::Branch { .. } => None,
        ArmLine::SoftwareInterrupt { .. } => None,
    }
}

fn sum_kind(
    scope: &Scope<'_>,
    rd: &Register,
    rs: &Register,
    operand: &ThumbOperand,
) -> Option<LineKind>
    ensures { result ≡ told_of scope.now
        (rd.now ∷ rs.now ∷ registers.operand_registers operand.now) }
{
    match operand {
        ThumbOperand::Register(rn) => three(scope, rd, rs, rn),
        ThumbOperand::Number(_) => two(scope, rd, rs),
    }
}

fn thumb_kind(scope: &Scope<'_>, line: &ThumbLine) -> Option<LineKind>
    ensures { result ≡ told_of scope.now (registers.thumb_registers line.now) }
{
    match line {
        ThumbLine::ShiftImmediate { rd, rs, .. } => two(scope, rd, rs),
        ThumbLine::AddSubtract {
            rd,
            rs,
            operand,
            ..
        } => sum_kind(scope, rd, rs, operand),
        ThumbLine::DataImmediate { rd, .. } => one(scope, rd),
        ThumbLine::DataRegister { rd, rs, .. } => two(scope, rd, rs),
        ThumbLine::HighRegister { rd, rs, .. } => two(scope, rd, rs),
        ThumbLine::LoadLiteral { rd, .. } => one(scope, rd),
        ThumbLine::TransferRegister { rd, rn, ro, .. } => three(scope, rd, rn, ro),
        ThumbLine::TransferSigned { rd, rn, ro, .. } => three(scope, rd, rn, ro),
        ThumbLine::TransferImmediate { rd, rn, .. } => two(scope, rd, rn),
        ThumbLine::TransferHalf { rd, rn, .. } => two(scope, rd, rn),
        ThumbLine::TransferStack { rd, .. } => one(scope, rd),
        ThumbLine::LoadAddress { rd, .. } => one(scope, rd),
        ThumbLine::AdjustStack { .. } => None,
        ThumbLine::PushPop { list, .. } => items_kind(scope, list.items.as_slice()),
        ThumbLine::TransferMultiple { rn, list, .. } => {
            with_rest(scope, rn, items_kind(scope, list.items.as_slice()))
        }
        ThumbLine::BranchConditional { .. } => None,
        ThumbLine::SoftwareInterrupt { .. } => None,
        ThumbLine::Branch { .. } => None,
        ThumbLine::BranchLink { .. } => None,
    }
}

fn pseudo_kind(scope: &Scope<'_>, line: &PseudoLine) -> Option<LineKind>
    ensures { result ≡ told_of scope.now (registers.pseudo_registers line.now) }
{
    match line {
        PseudoLine::LoadConstant { rd, .. } => one(scope, rd),
        PseudoLine::Address { rd, .. } => one(scope, rd),
        PseudoLine::LongAddress { rd, .. } => one(scope, rd),
        PseudoLine::NoOperation => None,
    }
}

/// The fault of the names among a statement's registers.
pub fn names_kind(scope: &Scope<'_>, what: &What) -> Option<LineKind>
    ensures { result ≡ told_of scope.now (registers.registers_of what.now) }
{
    match what {
        What::Arm(line) => arm_kind(scope, line),
        What::Thumb(line) => thumb_kind(scope, line),
        What::Pseudo(line) => pseudo_kind(scope, line),
        What::Nothing | What::Directive(_) => None,
    }
}

fn is_pc(number: Option<u8>) -> bool
    ensures { result ≡ registers.is_pc number }
{
    match number {
        None => false,
        Some(number) => number == 15,
    }
}

fn row_kind(known: &NameMap<u8>, line: &ThumbLine) -> Option<LineKind>
    ensures { result ≡ told_kind
        (kinds.kind_if (not
        (registers.has_row (registers.number_of known.now) line.now)) BadOperand) }
{
    kind_if(!has_row(known, line), LineKind::BadOperand)
}

/// The fault of a range that falls in ARM state.
fn arm_range_kind(known: &NameMap<u8>, line: &ArmLine) -> Option<LineKind>
    ensures { result ≡ told_kind (registers.range_kinds known.now (registers.arm_list line.now)) }
{
    match line {
        ArmLine::TransferBlock { list, .. } => ranges_kind(known, list.items.as_slice()),
        ArmLine::DataImmediate { .. }
        | ArmLine::DataShifted { .. }
        | ArmLine::DataRegisterShifted { .. }
        | ArmLine::Multiply { .. }
        | ArmLine::MultiplyLong { .. }
        | ArmLine::Swap { .. }
        | ArmLine::BranchExchange { .. }
        | ArmLine::ReadStatus { .. }
        | ArmLine::WriteStatus { .. }
        | ArmLine::WriteStatusImmediate { .. }
        | ArmLine::TransferImmediate { .. }
        | ArmLine::TransferShifted { .. }
        | ArmLine::TransferHalf { .. }
        | ArmLine::Branch { .. }
        | ArmLine::SoftwareInterrupt { .. } => None,
    }
}

/// The fault of a range that falls in Thumb state.
fn thumb_range_kind(known: &NameMap<u8>, line: &ThumbLine) -> Option<LineKind>
    ensures { result ≡ told_kind (registers.range_kinds known.now (registers.thumb_list line.now)) }
{
    match line {
        ThumbLine::PushPop { list, .. } => ranges_kind(known, list.items.as_slice()),
        ThumbLine::TransferMultiple { list, .. } => ranges_kind(known, list.items.as_slice()),
        ThumbLine::ShiftImmediate { .. }
        | ThumbLine::AddSubtract { .. }
        | ThumbLine::DataImmediate { .. }
        | ThumbLine::DataRegister { .. }
        | ThumbLine::HighRegister { .. }
        | ThumbLine::LoadLiteral { .. }
        | ThumbLine::TransferRegister { .. }
        | ThumbLine::TransferSigned { .. }
        | ThumbLine::TransferImmediate { .. }
        | ThumbLine::TransferHalf { .. }
        | ThumbLine::TransferStack { .. }
        | ThumbLine::LoadAddress { .. }
        | ThumbLine::AdjustStack { .. }
        | ThumbLine::BranchConditional { .. }
        | ThumbLine::SoftwareInterrupt { .. }
        | ThumbLine::Branch { .. }
        | ThumbLine::BranchLink { .. } => None,
    }
}

fn thumb_operand_kind(known: &NameMap<u8>, line: &ThumbLine) -> Option<LineKind>
    ensures { result ≡ told_kind (registers.operand_kinds true known.now (what.Thumb line.now)) }
{
    first_told(thumb_range_kind(known, line), row_kind(known, line))
}

fn pseudo_operand_kind(thumb: bool, known: &NameMap<u8>, line: &PseudoLine) -> Option<LineKind>
    ensures { result ≡ told_kind (registers.pseudo_kinds thumb known.now line.now) }
{
    if thumb {
        return kind_if(!has_pseudo(known, line), LineKind::BadOperand);
    }
    match line {
        PseudoLine::LongAddress { rd, .. } => {
            kind_if(is_pc(number_of(known, rd)), LineKind::BadOperand)
        }
        PseudoLine::LoadConstant { .. } | PseudoLine::Address { .. } | PseudoLine::NoOperation =>
            None,
    }
}

/// The fault of registers that no instruction has: a range that falls, pc as the register of ADRL, and in Thumb state a
/// register that the row doesn't have.
pub fn operand_kind(thumb: bool, known: &NameMap<u8>, what: &What) -> Option<LineKind>
    ensures { result ≡ told_kind (registers.operand_kinds thumb known.now what.now) }
{
    match what {
        What::Arm(line) => arm_range_kind(known, line),
        What::Thumb(line) => thumb_operand_kind(known, line),
        What::Pseudo(line) => pseudo_operand_kind(thumb, known, line),
        What::Nothing | What::Directive(_) => None,
    }
}
