//! Branches.

ghost use Rattle.std.specs.Prelude.{◌≡◌, ◌≤◌, ◌&&◌, not, Ok, IfOk};
ghost use Rattle.std.specs.Option.{option_copied};
ghost use Rattle.arm_isa.specs.declared.instr.ArmInstr.TheVariants as instr;
ghost use Rattle.asm_model.specs.declared.arm_lines.ArmLine.TheVariants as arm;
ghost use Rattle.asm_model.specs.declared.values.Value.TheVariants as value;
ghost use Rattle.asm_model.specs.Labels as labels;
ghost use Rattle.asm_model.specs.Meaning.{named_in};
ghost use Rattle.asm_model.specs.Readings.{and_then, mapped};
ghost use Rattle.asm_model.specs.Symbols as symbols;
ghost use Rattle.asm_model.specs.Said.{IsRead};
ghost use Rattle.source_model.specs.ArmForms as forms;
ghost use Rattle.source_model.specs.Contexts as contexts;
ghost use Rattle.source_model.specs.Contexts.{value_of};
ghost use Rattle.source_model.specs.Units as units;
ghost use Rattle.asm_instructions.specs.Leads as leads;
ghost use Rattle.asm_instructions.specs.Lookups.{context_of, is_settled_at};

use crate::lookups::{Lookup, entry_stands_at, lone_place, may_have_symbol};
use crate::values::value_there;
use arm_isa::ArmInstr;
use asm_model::{Expr, LaidName, Meaning, SharedText, Value};
use sdt_fault::NoMemory;
use sdt_fault::kinds::LineKind;
use sdt_word::Condition;
use std::alloc::Global;

/// An instruction of ARM state, or the kind of its fault, and the symbol that a branch leaves to the linker.
pub type ArmUnit = (Result<ArmInstr, LineKind>, Option<SharedText>);

/// A branch's displacement in bytes modulo 2^32, or its field, or the kind of its fault; and the symbol that it leaves to the
/// linker.
pub type Lead = (Result<u32, LineKind>, Option<SharedText>);

/// A displacement modulo 2^32 as the field of a branch.
fn branch_field(displacement: u32) -> Result<u32, LineKind>
    ensures { result ≡ forms.branch_field displacement }
{
    if displacement % 4 != 0 {
        return Err(LineKind::BadOperand);
    }
    if displacement < 0x0200_0000 {
        return Ok(displacement / 4 % 0x0100_0000);
    }
    if displacement >= 0xFE00_0000 {
        return Ok(displacement / 4 % 0x0100_0000);
    }
    Err(LineKind::OutOfRange)
}

fn is_in_area(area: Option<u32>, place: Option<(u32, u32)>) -> bool
    ensures { result ≡ symbols.is_in_area area place }
{
    let Some(own) = area else {
        return false;
    };
    let Some((other, _)) = place else {
        return false;
    };
    other == own
}

fn same_state(a: bool, b: bool) -> bool
    ensures { result ≡ symbols.same_state a b }
{
    if a {
        return b;
    }
    !b
}

fn is_place(meaning: &Meaning) -> bool
    ensures { result ≡ symbols.is_place meaning.now }
{
    match meaning {
        Meaning::Place => true,
        _ => false,
    }
}

/// Whether a branch of a state needs no symbol for the state of what a name is: a label of that state, or no label.
fn keeps_state(thumb: bool, entry: Option<&LaidName>) -> bool
    ensures { result ≡ symbols.keeps_state thumb (option_copied entry.entry) }
{
    match entry {
        None => same_state(thumb, false),
        Some(entry) => is_place(&entry.meaning) || same_state(thumb, entry.thumb),
    }
}

/// Whether a branch of the line to a name with this entry is settled here: it is a label of the same area and state, or
/// another place of the area.
pub fn is_settled(lookup: &Lookup<'_>, entry: Option<&LaidName>) -> bool
    ensures { result ≡ is_settled_at (context_of lookup.now) (option_copied entry.entry) }
{
    if is_in_area(lookup.line.place.area, entry_stands_at(entry)) {
        return keeps_state(lookup.line.place.thumb, entry);
    }
    false
}

/// The offset of a place; 0 where there is none.
pub fn offset_at(place: Option<(u32, u32)>) -> u32
    ensures { result ≡ forms.offset_at place }
{
    match place {
        None => 0,
        Some((_, offset)) => offset,
    }
}

/// How far an offset lies behind pc, which stands so far ahead of the line, modulo 2^32.
pub fn behind(lookup: &Lookup<'_>, ahead: u32, offset: u32) -> u32
    requires { ahead ≤ 8 }
    ensures { result ≡ leads.behind ahead (context_of lookup.now) offset }
{
    let pc = u64::from(lookup.line.place.offset) + u64::from(ahead);
    let back = 0x1_0000_0000_u64.saturating_sub(pc);
    ((u64::from(offset) + back) % 0x1_0000_0000) as u32
}

/// Whether a branch may be left to the linker: where it may at all, if a symbol may have the name.
fn can_link(link: bool, entry: Option<&LaidName>, symbol: &SharedText) -> bool
    ensures { result ≡ (link && (contexts.is_symbol_entry (option_copied entry.entry) && not
        (labels.is_hidden symbol.now))) }
{
    if link {
        return may_have_symbol(entry, symbol);
    }
    false
}

/// The displacement that a branch to a symbol with this entry plus a number holds, and the symbol where it is left to the
/// linker: it then counts as 0.
fn place_lead(
    lookup: &Lookup<'_>,
    ahead: u32,
    link: bool,
    entry: Option<&LaidName>,
    symbol: &SharedText,
    plus: u32,
) -> Result<Lead, NoMemory>
    requires near { ahead ≤ 8 }
    requires entry { option_copied entry ≡ named_in symbol.now lookup.now.names.now }
    ensures displacement { IfOk result (λ lead. lead.0
        ≡ leads.led ahead link (context_of lookup.now) (Ok (value.Place symbol.now plus))) }
    ensures symbol { IfOk result (λ lead. lead.1
        ≡ units.linked_symbol (context_of lookup.now) (Ok (value.Place symbol.now plus))) }
{
    if symbol.as_slice().is_empty() {
        return Ok((Ok(behind(lookup, ahead, plus)), None));
    }
    if is_settled(lookup, entry) {
        let offset = offset_at(entry_stands_at(entry)).wrapping_add(plus);
        return Ok((Ok(behind(lookup, ahead, offset)), None));
    }
    let left = symbol.share()?;
    if can_link(link, entry, symbol) {
        return Ok((Ok(behind(lookup, ahead, plus)), Some(left)));
    }
    Ok((Err(LineKind::BadOperand), Some(left)))
}

/// The displacement that a branch to a target holds, and the symbol that is left to the linker.
fn lead_of(
    lookup: &Lookup<'_>,
    ahead: u32,
    link: bool,
    target: Result<Value, LineKind>,
) -> Result<Lead, NoMemory>
    requires { ahead ≤ 8 }
    ensures displacement { IfOk result (λ lead. lead.0
        ≡ leads.led ahead link (context_of lookup.now) target) }
    ensures symbol { IfOk result (λ lead. lead.1
        ≡ units.linked_symbol (context_of lookup.now) target) }
{
    match target {
        Ok(Value::Place { symbol, plus }) => {
            place_lead(
                lookup,
                ahead,
                link,
                lookup.names.find(&symbol),
                &symbol,
                plus,
            )
        }
        Ok(Value::Number(_)) => Ok((Err(LineKind::BadOperand), None)),
        Ok(_) => Ok((Err(LineKind::WrongType), None)),
        Err(kind) => Ok((Err(kind), None)),
    }
}

/// The same of an expression, for a line of either state. A label alone, as most are, is found once.
pub fn lead_there(
    alloc: Global,
    lookup: &Lookup<'_>,
    ahead: u32,
    link: bool,
    target: &Expr,
) -> Result<Lead, NoMemory>
    requires near { ahead ≤ 8 }
    requires read { IsRead target.now }
    ensures displacement { IfOk result (λ lead. lead.0
        ≡ leads.led ahead link (context_of lookup.now)
        (value_of (context_of lookup.now) target.now)) }
    ensures symbol { IfOk result (λ lead. lead.1
        ≡ units.linked_symbol (context_of lookup.now)
        (value_of (context_of lookup.now) target.now)) }
{
    match lone_place(lookup, target) {
        Some(entry) => place_lead(lookup, ahead, link, Some(entry), &entry.name, 0),
        None => {
            let value = value_there(alloc, lookup, target)?;
            lead_of(lookup, ahead, link, value)
        }
    }
}

fn branch_by(
    condition: Condition,
    link: bool,
    displacement: Result<u32, LineKind>,
) -> Result<ArmInstr, LineKind>
    ensures { result ≡ and_then displacement
        (λ d. mapped (λ f. instr.Branch condition link f) (forms.branch_field d)) }
{
    let distance = displacement?;
    let field = branch_field(distance)?;
    Ok(ArmInstr::Branch {
        condition,
        link,
        displacement: field,
    })
}

/// A branch, or the kind of its fault, and the symbol that it leaves to the linker.
pub fn branch(
    alloc: Global,
    lookup: &Lookup<'_>,
    condition: Condition,
    link: bool,
    target: &Expr,
) -> Result<ArmUnit, NoMemory>
    requires { IsRead target.now }
    ensures instruction { IfOk result (λ unit. unit.0
        ≡ forms.arm_instruction (context_of lookup.now) (arm.Branch condition link target.now)) }
    ensures symbol { IfOk result (λ unit. unit.1
        ≡ units.branch_symbol (context_of lookup.now) (arm.Branch condition link target.now)) }
{
    let (displacement, symbol) = lead_there(alloc, lookup, 8, true, target)?;
    Ok((branch_by(condition, link, displacement), symbol))
}

/// The symbol of a target that is left to the linker.
pub fn target_symbol(
    alloc: Global,
    lookup: &Lookup<'_>,
    target: &Expr,
) -> Result<Option<SharedText>, NoMemory>
    requires { IsRead target.now }
    ensures { IfOk result (λ s. s ≡ units.linked_symbol (context_of lookup.now)
        (value_of (context_of lookup.now) target.now)) }
{
    let (_, symbol) = lead_there(alloc, lookup, 8, true, target)?;
    Ok(symbol)
}
