//! Pseudo-instructions in ARM state.

ghost use Rattle.std.specs.Prelude.{◌≡◌, true, false, None, IfOk};
ghost use Rattle.sdt_word.specs.declared.codes.Condition.TheVariants as condition;
ghost use Rattle.sdt_word.specs.declared.codes.ShiftKind.TheVariants as shift;
ghost use Rattle.arm_isa.specs.declared.instr.Operation.TheVariants as operation;
ghost use Rattle.arm_isa.specs.declared.instr.ArmInstr.TheVariants as instr;
ghost use Rattle.asm_model.specs.Said.{PseudoSaid, IsRead};
ghost use Rattle.source_model.specs.Contexts as contexts;
ghost use Rattle.source_model.specs.Contexts.{Context};
ghost use Rattle.source_model.specs.PseudoForms as forms;
ghost use Rattle.asm_model.specs.declared.statements.PseudoLine.TheVariants as pseudo;
ghost use Rattle.asm_model.specs.Readings.{and_then, mapped};
ghost use Rattle.asm_instructions.specs.Lookups.{Shows, context_of};

use crate::data::data_with_number;
use crate::immediates::{immediate, negated};
use crate::lookups::{Lookup, register};
use crate::transfers::behind_pc;
use crate::values::{from_pc, number_there, own_offset, value_there};
use arm_isa::{ArmInstr, Operation};
use asm_expr::or_kind;
use asm_model::{Expr, PseudoLine, Register};
use sdt_fault::kinds::LineKind;
use sdt_fault::{List, NoMemory};
use sdt_word::{Condition, ShiftKind};
use std::alloc::Global;

fn adding(condition: Condition, operation: Operation, rn: u8, rd: u8, operand: (u8, u8)) -> ArmInstr
    ensures { result ≡ forms.adding condition operation rn rd operand }
{
    let (rotation, byte) = operand;
    ArmInstr::DataImmediate {
        condition,
        operation,
        set_flags: false,
        rn,
        rd,
        rotation,
        byte,
    }
}

/// ADR of what lies so far behind pc, modulo 2^32.
fn address_instruction(condition: Condition, rd: u8, distance: u32) -> Result<ArmInstr, LineKind>
    ensures { result ≡ forms.address_instruction condition rd distance }
{
    if let Some(operand) = immediate(distance) {
        return Ok(adding(condition, Operation::Add, 15, rd, operand));
    }
    if let Some(operand) = immediate(negated(distance)) {
        return Ok(adding(condition, Operation::Sub, 15, rd, operand));
    }
    Err(LineKind::OutOfRange)
}

/// The least even place at which a number has one of two bits set; 0 of no number but 0.
fn lowest_place(number: u32) -> u32
    ensures { result ≡ forms.lowest_among forms.places number }
{
    'pairs: for pair in 0..16_u32 {
        if (number >> (2 * pair)) % 4 != 0 {
            return 2 * pair;
        }
    }
    0
}

/// The eight bits from the least even place on that has a set bit.
fn first_part(number: u32) -> u32
    ensures { result ≡ forms.first_part number }
{
    let place = lowest_place(number);
    ((number >> place) % 256) << place
}

fn second_part(number: u32) -> u32
    ensures { result ≡ forms.second_part number }
{
    number - first_part(number)
}

fn two_of(
    condition: Condition,
    operation: Operation,
    rd: u8,
    distance: u32,
) -> Option<[ArmInstr; 2]>
    ensures { result ≡ forms.two_of condition operation rd distance }
{
    let Some(first) = immediate(first_part(distance)) else {
        return None;
    };
    let Some(second) = immediate(second_part(distance)) else {
        return None;
    };
    Some([
        adding(condition, operation, 15, rd, first),
        adding(condition, operation, rd, rd, second),
    ])
}

/// ADRL of what lies so far behind pc, modulo 2^32.
fn long_address(condition: Condition, rd: u8, distance: u32) -> Result<[ArmInstr; 2], LineKind>
    ensures { result ≡ forms.long_address condition rd distance }
{
    if let Some(two) = two_of(condition, Operation::Add, rd, distance) {
        return Ok(two);
    }
    if let Some(two) = two_of(condition, Operation::Sub, rd, negated(distance)) {
        return Ok(two);
    }
    Err(LineKind::OutOfRange)
}

fn listed(alloc: Global, instructions: &[ArmInstr]) -> Result<List<ArmInstr>, NoMemory>
    ensures { IfOk result (λ list. list ≡ instructions.now) }
{
    Ok(List::from_vec(Vec::from_slice(alloc, instructions)?))
}

fn one(
    alloc: Global,
    instruction: Result<ArmInstr, LineKind>,
) -> Result<Result<List<ArmInstr>, LineKind>, NoMemory>
    ensures { IfOk result (λ list. list ≡ mapped forms.one instruction) }
{
    let instruction = or_kind!(instruction);
    let list = listed(alloc, &[instruction])?;
    Ok(Ok(list))
}

fn two(
    alloc: Global,
    instructions: Result<[ArmInstr; 2], LineKind>,
) -> Result<Result<List<ArmInstr>, LineKind>, NoMemory>
    ensures { IfOk result (λ list. list ≡ instructions) }
{
    let instructions = or_kind!(instructions);
    let list = listed(alloc, &instructions)?;
    Ok(Ok(list))
}

/// A literal that has no word is moved.
fn moved_literal(
    alloc: Global,
    lookup: &Lookup<'_>,
    condition: Condition,
    rd: &Register,
    value: &Expr,
) -> Result<Result<List<ArmInstr>, LineKind>, NoMemory>
    requires { IsRead value.now }
    ensures { IfOk result (λ list. list
        ≡ forms.pseudo_instructions (context_of lookup.now) None
        (pseudo.LoadConstant condition rd.now value.now)) }
{
    let to = register(lookup, rd);
    let number = number_there(alloc, lookup, value)?;
    one(
        alloc,
        data_with_number(condition, Operation::Mov, false, 0, to, number),
    )
}

/// The load of a literal from its word.
fn loaded_literal(
    alloc: Global,
    lookup: &Lookup<'_>,
    word: u32,
    condition: Condition,
    rd: &Register,
) -> Result<Result<List<ArmInstr>, LineKind>, NoMemory>
    ensures { IfOk result (λ list. list
        ≡ mapped (λ o. forms.one
        (instr.TransferImmediate condition true o.0 false false true 15
        (contexts.register (context_of lookup.now) rd.now) o.1))
        (contexts.offset_below 4096 (contexts.from_pc (context_of lookup.now) word))) }
{
    let to = register(lookup, rd);
    let distance = from_pc(lookup, word);
    one(alloc, behind_pc(condition, true, false, to, distance))
}

fn load_literal(
    alloc: Global,
    lookup: &Lookup<'_>,
    word: Option<u32>,
    condition: Condition,
    rd: &Register,
    value: &Expr,
) -> Result<Result<List<ArmInstr>, LineKind>, NoMemory>
    requires { IsRead value.now }
    ensures { IfOk result (λ list. list
        ≡ forms.pseudo_instructions (context_of lookup.now) word
        (pseudo.LoadConstant condition rd.now value.now)) }
{
    match word {
        None => moved_literal(alloc, lookup, condition, rd, value),
        Some(word) => loaded_literal(alloc, lookup, word, condition, rd),
    }
}

fn address_at(
    lookup: &Lookup<'_>,
    condition: Condition,
    rd: u8,
    label: Result<u32, LineKind>,
) -> Result<ArmInstr, LineKind>
    ensures { result ≡ and_then label
        (λ at. forms.address_instruction condition rd
        (contexts.from_pc (context_of lookup.now) at)) }
{
    let at = label?;
    address_instruction(condition, rd, from_pc(lookup, at))
}

fn address(
    alloc: Global,
    lookup: &Lookup<'_>,
    condition: Condition,
    rd: &Register,
    target: &Expr,
) -> Result<Result<List<ArmInstr>, LineKind>, NoMemory>
    requires { IsRead target.now }
    ensures { IfOk result (λ list. list
        ≡ forms.pseudo_instructions (context_of lookup.now) None
        (pseudo.Address condition rd.now target.now)) }
{
    let to = register(lookup, rd);
    let value = value_there(alloc, lookup, target)?;
    let label = own_offset(lookup, value);
    one(alloc, address_at(lookup, condition, to, label))
}

fn long_address_at(
    lookup: &Lookup<'_>,
    condition: Condition,
    rd: u8,
    label: Result<u32, LineKind>,
) -> Result<[ArmInstr; 2], LineKind>
    ensures { result ≡ and_then label
        (λ at. forms.long_address condition rd (contexts.from_pc (context_of lookup.now) at)) }
{
    let at = label?;
    long_address(condition, rd, from_pc(lookup, at))
}

fn far_address(
    alloc: Global,
    lookup: &Lookup<'_>,
    condition: Condition,
    rd: &Register,
    target: &Expr,
) -> Result<Result<List<ArmInstr>, LineKind>, NoMemory>
    requires { IsRead target.now }
    ensures { IfOk result (λ list. list
        ≡ forms.pseudo_instructions (context_of lookup.now) None
        (pseudo.LongAddress condition rd.now target.now)) }
{
    let to = register(lookup, rd);
    let value = value_there(alloc, lookup, target)?;
    let label = own_offset(lookup, value);
    two(alloc, long_address_at(lookup, condition, to, label))
}

fn no_operation() -> ArmInstr
    ensures { result ≡ instr.DataShifted condition.Al operation.Mov false 0 0 0 shift.Lsl 0 }
{
    ArmInstr::DataShifted {
        condition: Condition::Al,
        operation: Operation::Mov,
        set_flags: false,
        rn: 0,
        rd: 0,
        amount: 0,
        shift: ShiftKind::Lsl,
        rm: 0,
    }
}

/// The instructions of a pseudo-instruction with what the lookup finds, or the kind of its fault.
fn instructions_there(
    alloc: Global,
    lookup: &Lookup<'_>,
    word: Option<u32>,
    line: &PseudoLine,
) -> Result<Result<List<ArmInstr>, LineKind>, NoMemory>
    requires { PseudoSaid line.now }
    ensures { IfOk result (λ list. list
        ≡ forms.pseudo_instructions (context_of lookup.now) word line.now) }
{
    match line {
        PseudoLine::LoadConstant {
            condition,
            rd,
            value,
        } => load_literal(alloc, lookup, word, *condition, rd, value),
        PseudoLine::Address {
            condition,
            rd,
            target,
        } => address(alloc, lookup, *condition, rd, target),
        PseudoLine::LongAddress {
            condition,
            rd,
            target,
        } => far_address(alloc, lookup, *condition, rd, target),
        PseudoLine::NoOperation => one(alloc, Ok(no_operation())),
    }
}

/// The instructions of a pseudo-instruction whose literal has its word at an offset, if it has one; or the kind of its
/// fault.
pub fn pseudo_instructions(
    alloc: Global,
    lookup: &Lookup<'_>,
    word: Option<u32>,
    line: &PseudoLine,
) -> Result<Result<List<ArmInstr>, LineKind>, NoMemory>
    requires { PseudoSaid line.now }
    ensures { IfOk result (λ list. (c : Context) → Shows lookup.now c → list
        ≡ forms.pseudo_instructions c word line.now) }
{
    instructions_there(alloc, lookup, word, line)
}
