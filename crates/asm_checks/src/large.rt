//! Numbers that are too large.

ghost use Rattle.std.specs.Prelude.{◌≡◌, ◌∷◌, []};
ghost use Rattle.std.specs.List.{list_any};
ghost use Rattle.asm_model.specs.Exprs as exprs;
ghost use Rattle.asm_checks.specs.Large.{has_one};

use asm_model::{
    Address, ArmLine, Boundary, DirectiveLine, Expr, ExprItem, HalfOffset, LiteralAddress,
    PseudoLine, RnOperand, Shift, ThumbLine, ThumbOperand, What,
};

fn is_large(item: &ExprItem) -> bool
    ensures { result ≡ exprs.is_large item.now }
{
    match item {
        ExprItem::TooLarge => true,
        _ => false,
    }
}

/// Whether an expression has such a number.
fn mentions_large(e: &Expr) -> bool
    ensures { result ≡ list_any exprs.is_large e.now.items }
{
    e.items.as_slice().iter().any(|item| is_large(item))
}

/// Whether the one expression of a part of a statement has such a number.
fn in_expression(e: &Expr) -> bool
    ensures { result ≡ has_one (e.now ∷ []) }
{
    mentions_large(e)
}

fn in_expressions(es: &[Expr]) -> bool
    ensures { result ≡ has_one es.now }
{
    es.iter().any(|e| mentions_large(e))
}

fn in_shift(shift: &Shift) -> bool
    ensures { result ≡ has_one (exprs.shift_exprs shift.now) }
{
    match shift {
        Shift::By { amount, .. } => in_expression(amount),
        Shift::Unshifted | Shift::Extended => false,
    }
}

fn in_address(address: &Address) -> bool
    ensures { result ≡ has_one (exprs.address_exprs address.now) }
{
    match address {
        Address::Based { offset, .. } => in_expression(offset),
        Address::Label { target } => in_expression(target),
    }
}

fn in_half(offset: &HalfOffset) -> bool
    ensures { result ≡ has_one (exprs.half_exprs offset.now) }
{
    match offset {
        HalfOffset::Number { offset } => in_expression(offset),
        HalfOffset::Register { .. } => false,
    }
}

fn in_arm(line: &ArmLine) -> bool
    ensures { result ≡ has_one (exprs.arm_exprs line.now) }
{
    match line {
        ArmLine::DataImmediate { value, .. } => in_expression(value),
        ArmLine::DataShifted { shift, .. } => in_shift(shift),
        ArmLine::WriteStatusImmediate { value, .. } => in_expression(value),
        ArmLine::TransferImmediate { address, .. } => in_address(address),
        ArmLine::TransferShifted { shift, .. } => in_shift(shift),
        ArmLine::TransferHalf { offset, .. } => in_half(offset),
        ArmLine::Branch { target, .. } => in_expression(target),
        ArmLine::SoftwareInterrupt { number, .. } => in_expression(number),
        ArmLine::DataRegisterShifted { .. }
        | ArmLine::Multiply { .. }
        | ArmLine::MultiplyLong { .. }
        | ArmLine::Swap { .. }
        | ArmLine::BranchExchange { .. }
        | ArmLine::ReadStatus { .. }
        | ArmLine::WriteStatus { .. }
        | ArmLine::TransferBlock { .. } => false,
    }
}

fn in_operand(operand: &ThumbOperand) -> bool
    ensures { result ≡ has_one (exprs.operand_exprs operand.now) }
{
    match operand {
        ThumbOperand::Register(_) => false,
        ThumbOperand::Number(number) => in_expression(number),
    }
}

fn in_literal(address: &LiteralAddress) -> bool
    ensures { result ≡ has_one (exprs.literal_exprs address.now) }
{
    match address {
        LiteralAddress::Offset(offset) => in_expression(offset),
        LiteralAddress::Label(target) => in_expression(target),
    }
}

fn in_thumb(line: &ThumbLine) -> bool
    ensures { result ≡ has_one (exprs.thumb_exprs line.now) }
{
    match line {
        ThumbLine::ShiftImmediate { amount, .. } => in_expression(amount),
        ThumbLine::AddSubtract { operand, .. } => in_operand(operand),
        ThumbLine::DataImmediate { value, .. } => in_expression(value),
        ThumbLine::LoadLiteral { address, .. } => in_literal(address),
        ThumbLine::TransferImmediate { offset, .. }
        | ThumbLine::TransferHalf { offset, .. }
        | ThumbLine::TransferStack { offset, .. }
        | ThumbLine::LoadAddress { offset, .. }
        | ThumbLine::AdjustStack { offset, .. } => in_expression(offset),
        ThumbLine::BranchConditional { target, .. }
        | ThumbLine::Branch { target }
        | ThumbLine::BranchLink { target } => in_expression(target),
        ThumbLine::SoftwareInterrupt { number } => in_expression(number),
        ThumbLine::DataRegister { .. }
        | ThumbLine::HighRegister { .. }
        | ThumbLine::TransferRegister { .. }
        | ThumbLine::TransferSigned { .. }
        | ThumbLine::PushPop { .. }
        | ThumbLine::TransferMultiple { .. } => false,
    }
}

fn in_pseudo(line: &PseudoLine) -> bool
    ensures { result ≡ has_one (exprs.pseudo_exprs line.now) }
{
    match line {
        PseudoLine::LoadConstant { value, .. } => in_expression(value),
        PseudoLine::Address { target, .. } | PseudoLine::LongAddress { target, .. } => {
            in_expression(target)
        }
        PseudoLine::NoOperation => false,
    }
}

fn in_boundary(boundary: &Boundary) -> bool
    ensures { result ≡ has_one (exprs.boundary_exprs boundary.now) }
{
    match boundary {
        Boundary::Word => false,
        Boundary::Multiple { of } => in_expression(of),
        Boundary::Behind { multiple, offset } => mentions_large(multiple) || in_expression(offset),
    }
}

fn in_register(register: &RnOperand) -> bool
    ensures { result ≡ has_one (exprs.given_exprs register.now) }
{
    match register {
        RnOperand::Register(_) => false,
        RnOperand::Number(number) => in_expression(number),
    }
}

fn in_directive(line: &DirectiveLine) -> bool
    ensures { result ≡ has_one (exprs.directive_exprs line.now) }
{
    match line {
        DirectiveLine::Area { attributes, .. } => in_expressions(attributes.alignments.as_slice()),
        DirectiveLine::Equ { value } | DirectiveLine::Map { value } => in_expression(value),
        DirectiveLine::Rn { register } => in_register(register),
        DirectiveLine::Assert { condition } => in_expression(condition),
        DirectiveLine::Opt { options } => in_expression(options),
        DirectiveLine::Constants { values, .. } => in_expressions(values.as_slice()),
        DirectiveLine::Space { size } | DirectiveLine::Field { size } => in_expression(size),
        DirectiveLine::Align { boundary } => in_boundary(boundary),
        DirectiveLine::Entry
        | DirectiveLine::End
        | DirectiveLine::Export { .. }
        | DirectiveLine::Import { .. }
        | DirectiveLine::Extern { .. }
        | DirectiveLine::Keep { .. }
        | DirectiveLine::Rout
        | DirectiveLine::Nofp
        | DirectiveLine::Ttl
        | DirectiveLine::Subt
        | DirectiveLine::Ltorg
        | DirectiveLine::Data
        | DirectiveLine::Code16
        | DirectiveLine::Code32 => false,
    }
}

/// Whether a statement has a number that is too large.
pub fn has_large(what: &What) -> bool
    ensures { result ≡ exprs.has_large what.now }
{
    match what {
        What::Nothing => false,
        What::Arm(line) => in_arm(line),
        What::Thumb(line) => in_thumb(line),
        What::Pseudo(line) => in_pseudo(line),
        What::Directive(line) => in_directive(line),
    }
}
