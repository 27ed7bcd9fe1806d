//! Loads and stores of Thumb state.

ghost use Rattle.std.specs.Prelude.{◌≡◌, ◌+◌, ◌-◌, ◌/◌, ◌%◌, ◌*◌, ◌^◌, IfOk};
ghost use Rattle.asm_model.specs.declared.thumb_lines.ThumbLine.TheVariants as thumb;
ghost use Rattle.asm_model.specs.Said.{IsRead, LiteralSaid};
ghost use Rattle.source_model.specs.ArmForms.{list_bits};
ghost use Rattle.source_model.specs.ThumbForms as forms;
ghost use Rattle.asm_instructions.specs.Lookups.{context_of};

use crate::blocks::list_bits;
use crate::lookups::{Lookup, register};
use crate::thumb_data::{ThumbResult, one};
use crate::thumb_values::{low, low_number, low_three, low_two, no_row, offset_below};
use crate::values::{number_there, own_offset, value_there};
use asm_expr::kinds::both;
use asm_expr::or_kind;
use asm_model::{Expr, LiteralAddress, Register, RegisterList};
use sdt_fault::NoMemory;
use sdt_fault::kinds::LineKind;
use source_model::ThumbCode;
use std::alloc::Global;
use thumb_isa::{SignedTransfer, ThumbInstr};

/// How far an offset lies behind pc with its low bits cleared, as the line's instruction reads it, modulo 2^32.
fn from_word_pc(lookup: &Lookup<'_>, offset: u32) -> u32
    ensures { result ≡ forms.from_word_pc (context_of lookup.now) offset }
{
    let pc = (u64::from(lookup.line.place.offset) + 4) / 4 * 4;
    let back = 0x1_0000_0000_u64.saturating_sub(pc);
    ((u64::from(offset) + back) % 0x1_0000_0000) as u32
}

/// The words behind it up to a label.
pub fn words_to(lookup: &Lookup<'_>, at: Result<u32, LineKind>) -> Result<u8, LineKind>
    ensures { result ≡ forms.words_to (context_of lookup.now) at }
{
    let at = at?;
    offset_below(4, 256, Ok(from_word_pc(lookup, at)))
}

fn literal_at(
    alloc: Global,
    lookup: &Lookup<'_>,
    address: &LiteralAddress,
) -> Result<Result<u8, LineKind>, NoMemory>
    requires { LiteralSaid address.now }
    ensures { IfOk result (λ i. i ≡ forms.literal_at (context_of lookup.now) address.now) }
{
    match address {
        LiteralAddress::Offset(offset) => {
            let number = number_there(alloc, lookup, offset)?;
            Ok(offset_below(4, 256, number))
        }
        LiteralAddress::Label(target) => {
            let value = value_there(alloc, lookup, target)?;
            Ok(words_to(lookup, own_offset(lookup, value)))
        }
    }
}

pub fn load_literal(
    alloc: Global,
    lookup: &Lookup<'_>,
    rd: &Register,
    address: &LiteralAddress,
) -> ThumbResult
    requires { LiteralSaid address.now }
    ensures { IfOk result (λ i. i
        ≡ forms.thumb_instruction (context_of lookup.now) (thumb.LoadLiteral rd.now address.now)) }
{
    let at = literal_at(alloc, lookup, address)?;
    let (rd, offset) = or_kind!(both(low(lookup, rd), at));
    Ok(Ok(ThumbCode::One(ThumbInstr::LoadLiteral { rd, offset })))
}

pub fn transfer_register(
    lookup: &Lookup<'_>,
    load: bool,
    byte: bool,
    rd: &Register,
    rn: &Register,
    ro: &Register,
) -> Result<ThumbCode, LineKind>
    ensures { result ≡ forms.thumb_instruction (context_of lookup.now)
        (thumb.TransferRegister load byte rd.now rn.now ro.now) }
{
    let ((rd, rn), ro) = low_three(lookup, rd, rn, ro)?;
    Ok(ThumbCode::One(ThumbInstr::TransferRegister {
        load,
        byte,
        ro,
        rn,
        rd,
    }))
}

pub fn transfer_signed(
    lookup: &Lookup<'_>,
    kind: SignedTransfer,
    rd: &Register,
    rn: &Register,
    ro: &Register,
) -> Result<ThumbCode, LineKind>
    ensures { result ≡ forms.thumb_instruction (context_of lookup.now)
        (thumb.TransferSigned kind rd.now rn.now ro.now) }
{
    let ((rd, rn), ro) = low_three(lookup, rd, rn, ro)?;
    Ok(ThumbCode::One(ThumbInstr::TransferSigned { kind, ro, rn, rd }))
}

fn transfer_unit(byte: bool) -> u32
    ensures { result ≡ forms.transfer_unit byte }
{
    if byte {
        return 1;
    }
    4
}

/// A transfer by one of r0 to r7 and a number.
fn low_transfer(load: bool, byte: bool, rd: u8, rn: u8, number: u32) -> Result<ThumbInstr, LineKind>
    ensures { result ≡ forms.low_transfer load byte rd rn number }
{
    let unit = transfer_unit(byte);
    let offset = offset_below(unit, 32, Ok(number))?;
    Ok(ThumbInstr::TransferImmediate {
        byte,
        load,
        offset,
        rn,
        rd,
    })
}

fn stack_transfer(load: bool, rd: u8, number: u32) -> Result<ThumbInstr, LineKind>
    ensures { result ≡ forms.stack_transfer load rd number }
{
    let offset = offset_below(4, 256, Ok(number))?;
    Ok(ThumbInstr::TransferStack { load, rd, offset })
}

fn literal_transfer(rd: u8, number: u32) -> Result<ThumbInstr, LineKind>
    ensures { result ≡ forms.literal_transfer rd number }
{
    let offset = offset_below(4, 256, Ok(number))?;
    Ok(ThumbInstr::LoadLiteral { rd, offset })
}

/// A transfer by a base and a number.
fn transfer_by(
    load: bool,
    byte: bool,
    rd: u8,
    rn: u8,
    number: Result<u32, LineKind>,
) -> Result<ThumbInstr, LineKind>
    ensures { result ≡ forms.transfer_by load byte rd rn number }
{
    if rn < 8 {
        let (rd, number) = both(low_number(rd), number)?;
        return low_transfer(load, byte, rd, rn, number);
    }
    if byte {
        return no_row(number);
    }
    if rn == 13 {
        let (rd, number) = both(low_number(rd), number)?;
        return stack_transfer(load, rd, number);
    }
    if !load {
        return no_row(number);
    }
    if rn == 15 {
        let (rd, number) = both(low_number(rd), number)?;
        return literal_transfer(rd, number);
    }
    no_row(number)
}

pub fn transfer_immediate(
    alloc: Global,
    lookup: &Lookup<'_>,
    load: bool,
    byte: bool,
    rd: &Register,
    rn: &Register,
    offset: &Expr,
) -> ThumbResult
    requires { IsRead offset.now }
    ensures { IfOk result (λ i. i
        ≡ forms.thumb_instruction (context_of lookup.now)
        (thumb.TransferImmediate load byte rd.now rn.now offset.now)) }
{
    let number = number_there(alloc, lookup, offset)?;
    let with = register(lookup, rd);
    let base = register(lookup, rn);
    Ok(one(transfer_by(load, byte, with, base, number)))
}

pub fn transfer_half(
    alloc: Global,
    lookup: &Lookup<'_>,
    load: bool,
    rd: &Register,
    rn: &Register,
    offset: &Expr,
) -> ThumbResult
    requires { IsRead offset.now }
    ensures { IfOk result (λ i. i
        ≡ forms.thumb_instruction (context_of lookup.now)
        (thumb.TransferHalf load rd.now rn.now offset.now)) }
{
    let number = number_there(alloc, lookup, offset)?;
    match both(low_two(lookup, rd, rn), offset_below(2, 32, number)) {
        Err(kind) => Ok(Err(kind)),
        Ok(((rd, rn), offset)) => Ok(Ok(ThumbCode::One(ThumbInstr::TransferHalf {
            load,
            offset,
            rn,
            rd,
        }))),
    }
}

pub fn transfer_stack(
    alloc: Global,
    lookup: &Lookup<'_>,
    load: bool,
    rd: &Register,
    offset: &Expr,
) -> ThumbResult
    requires { IsRead offset.now }
    ensures { IfOk result (λ i. i
        ≡ forms.thumb_instruction (context_of lookup.now)
        (thumb.TransferStack load rd.now offset.now)) }
{
    let number = number_there(alloc, lookup, offset)?;
    let (rd, offset) = or_kind!(both(low(lookup, rd), offset_below(4, 256, number)));
    Ok(Ok(ThumbCode::One(ThumbInstr::TransferStack { load, rd, offset })))
}

/// A bit for each register of a list.
fn bits_of(lookup: &Lookup<'_>, list: &RegisterList) -> u16
    ensures { result ≡ list_bits (context_of lookup.now) list.now.items 0 16 }
{
    list_bits(lookup, list.items.as_slice())
}

/// Bits of r0 to r7, and whether the one register more is listed.
fn listed(more: u16, bits: u16) -> Result<(bool, u8), LineKind>
    ensures { result ≡ forms.listed more bits }
{
    let high = bits / 256;
    if high == 0 {
        return Ok((false, bits as u8));
    }
    if high == more {
        return Ok((true, (bits % 256) as u8));
    }
    Err(LineKind::BadOperand)
}

fn link_bit(load: bool) -> u16
    ensures { result ≡ forms.link_bit load }
{
    if load {
        return 128;
    }
    64
}

pub fn push_pop(lookup: &Lookup<'_>, load: bool, list: &RegisterList) -> Result<ThumbCode, LineKind>
    ensures { result ≡ forms.thumb_instruction (context_of lookup.now)
        (thumb.PushPop load list.now) }
{
    let (link, list) = listed(link_bit(load), bits_of(lookup, list))?;
    Ok(ThumbCode::One(ThumbInstr::PushPop { load, link, list }))
}

fn low_list(bits: u16) -> Result<u8, LineKind>
    ensures { result ≡ forms.low_list bits }
{
    if bits / 256 == 0 {
        return Ok(bits as u8);
    }
    Err(LineKind::BadOperand)
}

pub fn transfer_multiple(
    lookup: &Lookup<'_>,
    load: bool,
    rn: &Register,
    list: &RegisterList,
) -> Result<ThumbCode, LineKind>
    ensures { result ≡ forms.thumb_instruction (context_of lookup.now)
        (thumb.TransferMultiple load rn.now list.now) }
{
    let (rn, list) = both(low(lookup, rn), low_list(bits_of(lookup, list)))?;
    Ok(ThumbCode::One(ThumbInstr::TransferMultiple { load, rn, list }))
}
