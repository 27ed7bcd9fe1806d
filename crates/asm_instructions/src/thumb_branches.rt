//! Branches of Thumb state.

ghost use Rattle.std.specs.Prelude.{◌≡◌, ◌<◌, ◌≤◌, ◌^◌, IfOk};
ghost use Rattle.asm_model.specs.declared.thumb_lines.ThumbLine.TheVariants as thumb;
ghost use Rattle.asm_model.specs.Readings.{and_then, mapped};
ghost use Rattle.asm_model.specs.Said.{IsRead};
ghost use Rattle.source_model.specs.Contexts.{value_of};
ghost use Rattle.source_model.specs.ThumbForms as forms;
ghost use Rattle.source_model.specs.Units as units;
ghost use Rattle.asm_instructions.specs.Lookups.{context_of};

use crate::branches::{Lead, lead_there};
use crate::lookups::Lookup;
use crate::thumb_data::{ThumbResult, ThumbUnit};
use crate::thumb_values::offset_below;
use crate::values::number_there;
use asm_expr::or_kind;
use asm_model::Expr;
use sdt_fault::NoMemory;
use sdt_fault::kinds::LineKind;
use sdt_word::Condition;
use source_model::ThumbCode;
use std::alloc::Global;
use thumb_isa::ThumbInstr;

/// A displacement modulo 2^32 in half-words, as a field below a limit.
fn half_words(limit: u32, displacement: u32) -> Result<u32, LineKind>
    requires positive { 0 < limit }
    requires narrow { limit ≤ 2 ^ 22 }
    ensures is { result ≡ forms.half_words limit displacement }
    ensures below { IfOk result (λ field. field < limit) }
{
    if displacement % 2 != 0 {
        return Err(LineKind::BadOperand);
    }
    if displacement < limit {
        return Ok(displacement / 2 % limit);
    }
    if displacement >= limit.wrapping_neg() {
        return Ok(displacement / 2 % limit);
    }
    Err(LineKind::OutOfRange)
}

fn field_of(limit: u32, displacement: Result<u32, LineKind>) -> Result<u32, LineKind>
    requires positive { 0 < limit }
    requires narrow { limit ≤ 2 ^ 22 }
    ensures is { result ≡ and_then displacement (forms.half_words limit) }
    ensures below { IfOk result (λ field. field < limit) }
{
    half_words(limit, displacement?)
}

/// The field of a branch to a target, below a limit, and the symbol that is left to the linker.
fn field_to(
    alloc: Global,
    lookup: &Lookup<'_>,
    link: bool,
    limit: u32,
    target: &Expr,
) -> Result<Lead, NoMemory>
    requires read { IsRead target.now }
    requires positive { 0 < limit }
    requires narrow { limit ≤ 2 ^ 22 }
    ensures is { IfOk result (λ lead. lead.0
        ≡ and_then (forms.thumb_displacement link (context_of lookup.now)
        (value_of (context_of lookup.now) target.now)) (forms.half_words limit)) }
    ensures below { IfOk result (λ lead. IfOk lead.0 (λ field. field < limit)) }
    ensures symbol { IfOk result (λ lead. lead.1 ≡ units.linked_symbol (context_of lookup.now)
        (value_of (context_of lookup.now) target.now)) }
{
    let (displacement, symbol) = lead_there(alloc, lookup, 4, link, target)?;
    Ok((field_of(limit, displacement), symbol))
}

pub fn branch_conditional(
    alloc: Global,
    lookup: &Lookup<'_>,
    condition: Condition,
    target: &Expr,
) -> ThumbResult
    requires { IsRead target.now }
    ensures { IfOk result (λ i. i
        ≡ forms.thumb_instruction (context_of lookup.now)
        (thumb.BranchConditional condition target.now)) }
{
    let (field, _) = field_to(alloc, lookup, false, 256, target)?;
    let field = or_kind!(field);
    let offset = field as u8;
    Ok(Ok(ThumbCode::One(ThumbInstr::BranchConditional { condition, offset })))
}

pub fn branch(alloc: Global, lookup: &Lookup<'_>, target: &Expr) -> ThumbResult
    requires { IsRead target.now }
    ensures { IfOk result (λ i. i
        ≡ forms.thumb_instruction (context_of lookup.now) (thumb.Branch target.now)) }
{
    let (field, _) = field_to(alloc, lookup, false, 0x800, target)?;
    let field = or_kind!(field);
    let offset = field as u16;
    Ok(Ok(ThumbCode::One(ThumbInstr::Branch { offset })))
}

fn pair_of(field: Result<u32, LineKind>) -> Result<ThumbCode, LineKind>
    requires { IfOk field (λ field. field < 2 ^ 22) }
    ensures { result ≡ mapped forms.pair_fields field }
{
    let field = field?;
    Ok(ThumbCode::Pair((field / 0x800) as u16, (field % 0x800) as u16))
}

/// BL: both halves, and the symbol that it leaves to the linker.
pub fn branch_link(alloc: Global, lookup: &Lookup<'_>, target: &Expr) -> Result<ThumbUnit, NoMemory>
    requires { IsRead target.now }
    ensures code { IfOk result (λ unit. unit.0
        ≡ forms.thumb_instruction (context_of lookup.now) (thumb.BranchLink target.now)) }
    ensures symbol { IfOk result (λ unit. unit.1
        ≡ units.link_symbol (context_of lookup.now) (thumb.BranchLink target.now)) }
{
    let (field, symbol) = field_to(alloc, lookup, true, 0x40_0000, target)?;
    Ok((pair_of(field), symbol))
}

pub fn software_interrupt(alloc: Global, lookup: &Lookup<'_>, number: &Expr) -> ThumbResult
    requires { IsRead number.now }
    ensures { IfOk result (λ i. i
        ≡ forms.thumb_instruction (context_of lookup.now) (thumb.SoftwareInterrupt number.now)) }
{
    let number = number_there(alloc, lookup, number)?;
    let number = or_kind!(offset_below(1, 256, number));
    Ok(Ok(ThumbCode::One(ThumbInstr::SoftwareInterrupt { number })))
}
