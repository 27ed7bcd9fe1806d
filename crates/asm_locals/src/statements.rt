//! Names for local labels in all that a line says, given in place, on one side of the line.

ghost use Rattle.std.specs.Prelude.{◌≡◌, OnOk};
ghost use Rattle.asm_locals.specs.Naming as naming;
ghost use Rattle.asm_locals.specs.Passes.{found};

use crate::labels::Nearest;
use crate::naming::{name_all, name_expr};
use asm_model::{
    Address, AreaAttributes, ArmLine, Boundary, DirectiveLine, HalfOffset, LiteralAddress,
    PseudoLine, RnOperand, Shift, ThumbLine, ThumbOperand, What,
};
use sdt_fault::NoMemory;
use std::alloc::Global;

fn name_shift(alloc: Global, shift: &mut Shift, labels: &Nearest) -> Result<(), NoMemory>
    ensures { OnOk result (shift.new ≡ naming.named_shift (found labels.now) shift.old) }
{
    match shift {
        Shift::By { amount, .. } => name_expr(alloc, amount, labels),
        Shift::Unshifted | Shift::Extended => Ok(()),
    }
}

fn name_address(alloc: Global, address: &mut Address, labels: &Nearest) -> Result<(), NoMemory>
    ensures { OnOk result (address.new ≡ naming.named_address (found labels.now) address.old) }
{
    match address {
        Address::Based { offset, .. } => name_expr(alloc, offset, labels),
        Address::Label { target } => name_expr(alloc, target, labels),
    }
}

fn name_half(alloc: Global, offset: &mut HalfOffset, labels: &Nearest) -> Result<(), NoMemory>
    ensures { OnOk result (offset.new ≡ naming.named_half (found labels.now) offset.old) }
{
    match offset {
        HalfOffset::Number { offset } => name_expr(alloc, offset, labels),
        HalfOffset::Register { .. } => Ok(()),
    }
}

fn name_arm(alloc: Global, line: &mut ArmLine, labels: &Nearest) -> Result<(), NoMemory>
    ensures { OnOk result (line.new ≡ naming.named_arm (found labels.now) line.old) }
{
    match line {
        ArmLine::DataImmediate { value, .. } => name_expr(alloc, value, labels),
        ArmLine::DataShifted { shift, .. } => name_shift(alloc, shift, labels),
        ArmLine::WriteStatusImmediate { value, .. } => name_expr(alloc, value, labels),
        ArmLine::TransferImmediate { address, .. } => name_address(alloc, address, labels),
        ArmLine::TransferShifted { shift, .. } => name_shift(alloc, shift, labels),
        ArmLine::TransferHalf { offset, .. } => name_half(alloc, offset, labels),
        ArmLine::Branch { target, .. } => name_expr(alloc, target, labels),
        ArmLine::SoftwareInterrupt { number, .. } => name_expr(alloc, number, labels),
        ArmLine::DataRegisterShifted { .. }
        | ArmLine::Multiply { .. }
        | ArmLine::MultiplyLong { .. }
        | ArmLine::Swap { .. }
        | ArmLine::BranchExchange { .. }
        | ArmLine::ReadStatus { .. }
        | ArmLine::WriteStatus { .. }
        | ArmLine::TransferBlock { .. } => Ok(()),
    }
}

fn name_operand(alloc: Global, operand: &mut ThumbOperand, labels: &Nearest) -> Result<(), NoMemory>
    ensures { OnOk result (operand.new ≡ naming.named_operand (found labels.now) operand.old) }
{
    match operand {
        ThumbOperand::Register(_) => Ok(()),
        ThumbOperand::Number(number) => name_expr(alloc, number, labels),
    }
}

fn name_literal(
    alloc: Global,
    address: &mut LiteralAddress,
    labels: &Nearest,
) -> Result<(), NoMemory>
    ensures { OnOk result (address.new ≡ naming.named_literal (found labels.now) address.old) }
{
    match address {
        LiteralAddress::Offset(offset) => name_expr(alloc, offset, labels),
        LiteralAddress::Label(target) => name_expr(alloc, target, labels),
    }
}

fn name_thumb(alloc: Global, line: &mut ThumbLine, labels: &Nearest) -> Result<(), NoMemory>
    ensures { OnOk result (line.new ≡ naming.named_thumb (found labels.now) line.old) }
{
    match line {
        ThumbLine::ShiftImmediate { amount, .. } => name_expr(alloc, amount, labels),
        ThumbLine::AddSubtract { operand, .. } => name_operand(alloc, operand, labels),
        ThumbLine::DataImmediate { value, .. } => name_expr(alloc, value, labels),
        ThumbLine::LoadLiteral { address, .. } => name_literal(alloc, address, labels),
        ThumbLine::TransferImmediate { offset, .. } => name_expr(alloc, offset, labels),
        ThumbLine::TransferHalf { offset, .. } => name_expr(alloc, offset, labels),
        ThumbLine::TransferStack { offset, .. } => name_expr(alloc, offset, labels),
        ThumbLine::LoadAddress { offset, .. } => name_expr(alloc, offset, labels),
        ThumbLine::AdjustStack { offset, .. } => name_expr(alloc, offset, labels),
        ThumbLine::BranchConditional { target, .. } => name_expr(alloc, target, labels),
        ThumbLine::SoftwareInterrupt { number } => name_expr(alloc, number, labels),
        ThumbLine::Branch { target } => name_expr(alloc, target, labels),
        ThumbLine::BranchLink { target } => name_expr(alloc, target, labels),
        ThumbLine::DataRegister { .. }
        | ThumbLine::HighRegister { .. }
        | ThumbLine::TransferRegister { .. }
        | ThumbLine::TransferSigned { .. }
        | ThumbLine::PushPop { .. }
        | ThumbLine::TransferMultiple { .. } => Ok(()),
    }
}

fn name_pseudo(alloc: Global, line: &mut PseudoLine, labels: &Nearest) -> Result<(), NoMemory>
    ensures { OnOk result (line.new ≡ naming.named_pseudo (found labels.now) line.old) }
{
    match line {
        PseudoLine::LoadConstant { value, .. } => name_expr(alloc, value, labels),
        PseudoLine::Address { target, .. } => name_expr(alloc, target, labels),
        PseudoLine::LongAddress { target, .. } => name_expr(alloc, target, labels),
        PseudoLine::NoOperation => Ok(()),
    }
}

fn name_attributes(
    alloc: Global,
    attributes: &mut AreaAttributes,
    labels: &Nearest,
) -> Result<(), NoMemory>
    ensures { OnOk result (attributes.new
        ≡ naming.named_attributes (found labels.now) attributes.old) }
{
    name_all(alloc, &mut attributes.alignments, labels)
}

fn name_boundary(alloc: Global, boundary: &mut Boundary, labels: &Nearest) -> Result<(), NoMemory>
    ensures { OnOk result (boundary.new ≡ naming.named_boundary (found labels.now) boundary.old) }
{
    match boundary {
        Boundary::Word => Ok(()),
        Boundary::Multiple { of } => name_expr(alloc, of, labels),
        Boundary::Behind { multiple, offset } => {
            name_expr(alloc, multiple, labels)?;
            name_expr(alloc, offset, labels)
        }
    }
}

fn name_register(alloc: Global, operand: &mut RnOperand, labels: &Nearest) -> Result<(), NoMemory>
    ensures { OnOk result (operand.new ≡ naming.named_register (found labels.now) operand.old) }
{
    match operand {
        RnOperand::Register(_) => Ok(()),
        RnOperand::Number(expr) => name_expr(alloc, expr, labels),
    }
}

fn name_directive(alloc: Global, line: &mut DirectiveLine, labels: &Nearest) -> Result<(), NoMemory>
    ensures { OnOk result (line.new ≡ naming.named_directive (found labels.now) line.old) }
{
    match line {
        DirectiveLine::Area { attributes, .. } => name_attributes(alloc, attributes, labels),
        DirectiveLine::Equ { value } => name_expr(alloc, value, labels),
        DirectiveLine::Rn { register } => name_register(alloc, register, labels),
        DirectiveLine::Assert { condition } => name_expr(alloc, condition, labels),
        DirectiveLine::Opt { options } => name_expr(alloc, options, labels),
        DirectiveLine::Align { boundary } => name_boundary(alloc, boundary, labels),
        DirectiveLine::Map { value } => name_expr(alloc, value, labels),
        DirectiveLine::Field { size } => name_expr(alloc, size, labels),
        DirectiveLine::Constants { values, .. } => name_all(alloc, values, labels),
        DirectiveLine::Space { size } => name_expr(alloc, size, labels),
        DirectiveLine::Entry
        | DirectiveLine::End
        | DirectiveLine::Export { .. }
        | DirectiveLine::Import { .. }
        | DirectiveLine::Extern { .. }
        | DirectiveLine::Keep { .. }
        | DirectiveLine::Rout
        | DirectiveLine::Nofp
        | DirectiveLine::Ttl
        | DirectiveLine::Subt
        | DirectiveLine::Ltorg
        | DirectiveLine::Data
        | DirectiveLine::Code16
        | DirectiveLine::Code32 => Ok(()),
    }
}

/// What a line says, with names for the references that these labels have.
pub fn name_what(alloc: Global, what: &mut What, labels: &Nearest) -> Result<(), NoMemory>
    ensures { OnOk result (what.new ≡ naming.named_what (found labels.now) what.old) }
{
    match what {
        What::Arm(line) => name_arm(alloc, line, labels),
        What::Thumb(line) => name_thumb(alloc, line, labels),
        What::Pseudo(line) => name_pseudo(alloc, line, labels),
        What::Directive(line) => name_directive(alloc, line, labels),
        What::Nothing => Ok(()),
    }
}
