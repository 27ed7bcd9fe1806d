//! Loads and stores.

ghost use Rattle.std.specs.Prelude.{◌≡◌, ◌/◌, ◌%◌, not, true, false, Ok, IfOk};
ghost use Rattle.arm_isa.specs.declared.instr.ArmInstr.TheVariants as instr;
ghost use Rattle.asm_model.specs.declared.arm_lines.ArmLine.TheVariants as arm;
ghost use Rattle.asm_model.specs.Readings.{and_then, mapped};
ghost use Rattle.asm_model.specs.Said.{IsRead, ShiftSaid, AddressSaid, HalfOffsetSaid};
ghost use Rattle.source_model.specs.ArmForms as forms;
ghost use Rattle.source_model.specs.Contexts as contexts;
ghost use Rattle.asm_instructions.specs.Lookups.{context_of};

use crate::lookups::{Lookup, register};
use crate::shifts::shift_fields;
use crate::values::{from_pc, number_there, offset_below, own_offset, value_there};
use arm_isa::{ArmInstr, HalfKind};
use asm_model::{Address, HalfOffset, Indexing, Register, Shift};
use sdt_fault::NoMemory;
use sdt_fault::kinds::LineKind;
use sdt_word::{Condition, ShiftKind};
use std::alloc::Global;

/// Whether the offset counts before the transfer.
fn is_before(indexing: Indexing) -> bool
    ensures { result ≡ forms.is_before indexing }
{
    match indexing {
        Indexing::Offset => true,
        Indexing::Before => true,
        Indexing::After => false,
        Indexing::Translated => false,
        Indexing::TranslatedBefore => true,
    }
}

/// Whether the bit for writing back is set.
fn writes_back(indexing: Indexing) -> bool
    ensures { result ≡ forms.writes_back indexing }
{
    match indexing {
        Indexing::Offset => false,
        Indexing::Before => true,
        Indexing::After => false,
        Indexing::Translated => true,
        Indexing::TranslatedBefore => true,
    }
}

fn based(
    condition: Condition,
    load: bool,
    byte: bool,
    rd: u8,
    rn: u8,
    indexing: Indexing,
    number: Result<u32, LineKind>,
) -> Result<ArmInstr, LineKind>
    ensures { result ≡ and_then number
        (λ n. mapped (λ o. instr.TransferImmediate condition (forms.is_before indexing) o.0 byte
        (forms.writes_back indexing) load rn rd o.1) (contexts.offset_below 4096 n)) }
{
    let number = number?;
    let (up, offset) = offset_below(4096, number)?;
    Ok(ArmInstr::TransferImmediate {
        condition,
        pre: is_before(indexing),
        up,
        byte,
        write_back: writes_back(indexing),
        load,
        rn,
        rd,
        offset: offset as u16,
    })
}

/// The transfer from or to what lies so far behind pc.
pub fn behind_pc(
    condition: Condition,
    load: bool,
    byte: bool,
    rd: u8,
    distance: u32,
) -> Result<ArmInstr, LineKind>
    ensures { result ≡ mapped
        (λ o. instr.TransferImmediate condition true o.0 byte false load 15 rd o.1)
        (contexts.offset_below 4096 distance) }
{
    let (up, offset) = offset_below(4096, distance)?;
    Ok(ArmInstr::TransferImmediate {
        condition,
        pre: true,
        up,
        byte,
        write_back: false,
        load,
        rn: 15,
        rd,
        offset: offset as u16,
    })
}

fn at_label(
    lookup: &Lookup<'_>,
    condition: Condition,
    load: bool,
    byte: bool,
    rd: u8,
    label: Result<u32, LineKind>,
) -> Result<ArmInstr, LineKind>
    ensures { result ≡ and_then label
        (λ at. mapped (λ o. instr.TransferImmediate condition true o.0 byte false load 15 rd o.1)
        (contexts.offset_below 4096 (contexts.from_pc (context_of lookup.now) at))) }
{
    let at = label?;
    behind_pc(condition, load, byte, rd, from_pc(lookup, at))
}

fn transfer_at(
    alloc: Global,
    lookup: &Lookup<'_>,
    condition: Condition,
    load: bool,
    byte: bool,
    rd: u8,
    address: &Address,
) -> Result<Result<ArmInstr, LineKind>, NoMemory>
    requires { AddressSaid address.now }
    ensures { IfOk result (λ i. i
        ≡ forms.transfer_at (context_of lookup.now) condition load byte rd address.now) }
{
    match address {
        Address::Based {
            rn,
            indexing,
            offset,
        } => {
            let number = number_there(alloc, lookup, offset)?;
            let base = register(lookup, rn);
            Ok(based(condition, load, byte, rd, base, *indexing, number))
        }
        Address::Label { target } => {
            let value = value_there(alloc, lookup, target)?;
            let label = own_offset(lookup, value);
            Ok(at_label(lookup, condition, load, byte, rd, label))
        }
    }
}

pub fn transfer(
    alloc: Global,
    lookup: &Lookup<'_>,
    condition: Condition,
    load: bool,
    byte: bool,
    rd: &Register,
    address: &Address,
) -> Result<Result<ArmInstr, LineKind>, NoMemory>
    requires { AddressSaid address.now }
    ensures { IfOk result (λ i. i
        ≡ forms.arm_instruction (context_of lookup.now)
        (arm.TransferImmediate condition load byte rd.now address.now)) }
{
    let with = register(lookup, rd);
    transfer_at(alloc, lookup, condition, load, byte, with, address)
}

fn with_shift(
    condition: Condition,
    load: bool,
    byte: bool,
    rd: u8,
    rn: u8,
    indexing: Indexing,
    subtract: bool,
    rm: u8,
    fields: Result<(ShiftKind, u8), LineKind>,
) -> Result<ArmInstr, LineKind>
    ensures { result ≡ mapped
        (λ f. instr.TransferShifted condition (forms.is_before indexing) (not subtract) byte
        (forms.writes_back indexing) load rn rd f.1 f.0 rm) fields }
{
    let (shift, amount) = fields?;
    Ok(ArmInstr::TransferShifted {
        condition,
        pre: is_before(indexing),
        up: !subtract,
        byte,
        write_back: writes_back(indexing),
        load,
        rn,
        rd,
        amount,
        shift,
        rm,
    })
}

pub fn transfer_shifted(
    alloc: Global,
    lookup: &Lookup<'_>,
    condition: Condition,
    load: bool,
    byte: bool,
    rd: &Register,
    rn: &Register,
    indexing: Indexing,
    subtract: bool,
    rm: &Register,
    shift: &Shift,
) -> Result<Result<ArmInstr, LineKind>, NoMemory>
    requires { ShiftSaid shift.now }
    ensures { IfOk result (λ i. i
        ≡ forms.arm_instruction (context_of lookup.now)
        (arm.TransferShifted condition load byte rd.now rn.now indexing subtract rm.now
        shift.now)) }
{
    let base = register(lookup, rn);
    let with = register(lookup, rd);
    let by = register(lookup, rm);
    let fields = shift_fields(alloc, lookup, shift)?;
    Ok(with_shift(
        condition, load, byte, with, base, indexing, subtract, by, fields,
    ))
}

fn half_by_number(
    condition: Condition,
    load: bool,
    kind: HalfKind,
    rd: u8,
    rn: u8,
    indexing: Indexing,
    number: Result<u32, LineKind>,
) -> Result<ArmInstr, LineKind>
    ensures { result ≡ and_then number
        (λ n. mapped (λ o. instr.TransferHalf condition (forms.is_before indexing) o.0 true
        (forms.writes_back indexing) load rn rd (o.1 / 16) kind (o.1 % 16))
        (contexts.offset_below 256 n)) }
{
    let number = number?;
    let (up, offset) = offset_below(256, number)?;
    Ok(ArmInstr::TransferHalf {
        condition,
        pre: is_before(indexing),
        up,
        immediate: true,
        write_back: writes_back(indexing),
        load,
        rn,
        rd,
        high: (offset / 16) as u8,
        kind,
        low: (offset % 16) as u8,
    })
}

fn half_by_register(
    condition: Condition,
    load: bool,
    kind: HalfKind,
    rd: u8,
    rn: u8,
    indexing: Indexing,
    subtract: bool,
    rm: u8,
) -> ArmInstr
    ensures { result ≡ instr.TransferHalf condition (forms.is_before indexing) (not subtract) false
        (forms.writes_back indexing) load rn rd 0 kind rm }
{
    ArmInstr::TransferHalf {
        condition,
        pre: is_before(indexing),
        up: !subtract,
        immediate: false,
        write_back: writes_back(indexing),
        load,
        rn,
        rd,
        high: 0,
        kind,
        low: rm,
    }
}

fn half_at(
    alloc: Global,
    lookup: &Lookup<'_>,
    condition: Condition,
    load: bool,
    kind: HalfKind,
    rd: u8,
    rn: u8,
    indexing: Indexing,
    offset: &HalfOffset,
) -> Result<Result<ArmInstr, LineKind>, NoMemory>
    requires { HalfOffsetSaid offset.now }
    ensures { IfOk result (λ i. i
        ≡ forms.half_at (context_of lookup.now) condition load kind rd rn indexing offset.now) }
{
    match offset {
        HalfOffset::Number { offset } => {
            let number = number_there(alloc, lookup, offset)?;
            Ok(half_by_number(condition, load, kind, rd, rn, indexing, number))
        }
        HalfOffset::Register { subtract, rm } => {
            let by = register(lookup, rm);
            Ok(Ok(half_by_register(condition, load, kind, rd, rn, indexing, *subtract, by)))
        }
    }
}

pub fn transfer_half(
    alloc: Global,
    lookup: &Lookup<'_>,
    condition: Condition,
    load: bool,
    kind: HalfKind,
    rd: &Register,
    rn: &Register,
    indexing: Indexing,
    offset: &HalfOffset,
) -> Result<Result<ArmInstr, LineKind>, NoMemory>
    requires { HalfOffsetSaid offset.now }
    ensures { IfOk result (λ i. i
        ≡ forms.arm_instruction (context_of lookup.now)
        (arm.TransferHalf condition load kind rd.now rn.now indexing offset.now)) }
{
    let with = register(lookup, rd);
    let base = register(lookup, rn);
    half_at(
        alloc, lookup, condition, load, kind, with, base, indexing, offset,
    )
}
