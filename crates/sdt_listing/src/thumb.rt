//! The text of a half-word of Thumb code.

ghost use Rattle.std.specs.Prelude.{◌≡◌, ◌+◌, ◌*◌, ◌<◌, ◌++◌, [], OnOk, IfOk, IfSome, codes, true, false};
ghost use Rattle.thumb_isa.specs.ThumbRows.{IsUnread, ReadsThumb};
ghost use Rattle.thumb_isa.specs.declared.instr.ThumbInstr.{ThumbInstr};
ghost use Rattle.sdt_word.specs.Numbers.{registers};
ghost use Rattle.sdt_listing.specs.Parts as parts;
ghost use Rattle.sdt_listing.specs.Pieces as pieces;
ghost use Rattle.sdt_listing.specs.Readings.{thumb_of};
ghost use Rattle.sdt_listing.specs.ThumbTexts as texts;

use crate::parts::{push, push_braced, push_four, push_named, push_next, target};
use crate::pieces::{ListedPlace, Offset, Piece, push_spoken, push_transfer};
use sdt_fault::{NoMemory, Text};
use sdt_word::Condition;
use std::alloc::Global;
use thumb_isa::decode_thumb;
use thumb_isa::instr::{
    HighOperation, ImmediateOperation, SignedTransfer, ThumbInstr, ThumbOperation, ThumbShift,
};

fn shift_name(shift: ThumbShift) -> &'static [u8]
    ensures { result.now ≡ texts.shift_name shift }
{
    match shift {
        ThumbShift::Lsl => b"LSL",
        ThumbShift::Lsr => b"LSR",
        ThumbShift::Asr => b"ASR",
    }
}

fn immediate_name(operation: ImmediateOperation) -> &'static [u8]
    ensures { result.now ≡ texts.immediate_name operation }
{
    match operation {
        ImmediateOperation::Mov => b"MOV",
        ImmediateOperation::Cmp => b"CMP",
        ImmediateOperation::Add => b"ADD",
        ImmediateOperation::Sub => b"SUB",
    }
}

fn operation_name(operation: ThumbOperation) -> &'static [u8]
    ensures { result.now ≡ texts.operation_name operation }
{
    match operation {
        ThumbOperation::And => b"AND",
        ThumbOperation::Eor => b"EOR",
        ThumbOperation::Lsl => b"LSL",
        ThumbOperation::Lsr => b"LSR",
        ThumbOperation::Asr => b"ASR",
        ThumbOperation::Adc => b"ADC",
        ThumbOperation::Sbc => b"SBC",
        ThumbOperation::Ror => b"ROR",
        ThumbOperation::Tst => b"TST",
        ThumbOperation::Neg => b"NEG",
        ThumbOperation::Cmp => b"CMP",
        ThumbOperation::Cmn => b"CMN",
        ThumbOperation::Orr => b"ORR",
        ThumbOperation::Mul => b"MUL",
        ThumbOperation::Bic => b"BIC",
        ThumbOperation::Mvn => b"MVN",
    }
}

fn high_name(operation: HighOperation) -> &'static [u8]
    ensures { result.now ≡ texts.high_name operation }
{
    match operation {
        HighOperation::Add => b"ADD",
        HighOperation::Cmp => b"CMP",
        HighOperation::Mov => b"MOV",
        HighOperation::Bx => b"BX",
    }
}

fn signed_name(kind: SignedTransfer) -> &'static [u8]
    ensures { result.now ≡ texts.signed_name kind }
{
    match kind {
        SignedTransfer::StoreHalf => b"STRH",
        SignedTransfer::LoadSignedByte => b"LDRSB",
        SignedTransfer::LoadHalf => b"LDRH",
        SignedTransfer::LoadSignedHalf => b"LDRSH",
    }
}

fn transfer_name(load: bool) -> &'static [u8]
    ensures { result.now ≡ texts.transfer_name load }
{
    if load { b"LDR" } else { b"STR" }
}

fn byte_name(load: bool, byte: bool) -> &'static [u8]
    ensures { result.now ≡ texts.byte_name load byte }
{
    match (load, byte) {
        (true, true) => b"LDRB",
        (true, false) => b"LDR",
        (false, true) => b"STRB",
        (false, false) => b"STR",
    }
}

fn half_transfer_name(load: bool) -> &'static [u8]
    ensures { result.now ≡ texts.half_transfer_name load }
{
    if load { b"LDRH" } else { b"STRH" }
}

fn sum_name(subtract: bool) -> &'static [u8]
    ensures { result.now ≡ texts.sum_name subtract }
{
    if subtract { b"SUB" } else { b"ADD" }
}

fn stack_name(load: bool) -> &'static [u8]
    ensures { result.now ≡ texts.stack_name load }
{
    if load { b"POP" } else { b"PUSH" }
}

fn multiple_name(load: bool) -> &'static [u8]
    ensures { result.now ≡ texts.multiple_name load }
{
    if load { b"LDMIA" } else { b"STMIA" }
}

fn half_name(second: bool) -> &'static [u8]
    ensures { result.now ≡ texts.half_name second }
{
    if second { b"BL2" } else { b"BL1" }
}

fn amount_of(shift: ThumbShift, number: u8) -> u8
    ensures { result ≡ texts.amount shift number }
{
    match shift {
        ThumbShift::Lsl => number,
        _ => if number == 0 { 32 } else { number },
    }
}

fn full(high: bool, register: u8) -> u8
    requires { register < 8 }
    ensures { result ≡ texts.full high register }
{
    if high { register + 8 } else { register }
}

fn scaled(byte: bool, offset: u8) -> u32
    ensures { result ≡ texts.scaled byte offset }
{
    if byte {
        u32::from(offset)
    } else {
        4 * u32::from(offset)
    }
}

fn linked(load: bool) -> u8
    ensures { result ≡ texts.linked load }
{
    if load { 15 } else { 14 }
}

fn base(stack: bool) -> u8
    ensures { result ≡ texts.base stack }
{
    if stack { 13 } else { 15 }
}

// A place above a register.
fn above(base: u8) -> ListedPlace
    ensures { result ≡ pieces.above base }
{
    ListedPlace {
        pre: true,
        up: true,
        write_back: false,
        base,
    }
}

// An operation of one operand.
fn push_said(
    alloc: Global,
    out: &mut Vec<u8>,
    operation: &[u8],
    operand: Piece,
) -> Result<(), NoMemory>
    ensures { OnOk result (out.new.items ≡ out.old.items ++ texts.said operation.now (pieces.piece operand)) }
{
    push_spoken(alloc, out, operation, Condition::Al, b"", &[operand])
}

// An operation of a register and another operand.
#[tactic(auto, unfolding(crate::specs::ThumbTexts::on))]
fn push_on(
    alloc: Global,
    out: &mut Vec<u8>,
    operation: &[u8],
    rd: u8,
    operand: Piece,
) -> Result<(), NoMemory>
    ensures { OnOk result (out.new.items ≡ out.old.items ++ texts.on operation.now rd (pieces.piece operand)) }
{
    let operands = [Piece::Register(rd), Piece::Letter(b','), operand];
    push_spoken(alloc, out, operation, Condition::Al, b"", &operands)
}

// An operation of two registers and another operand.
#[tactic(auto, unfolding(crate::specs::ThumbTexts::on))]
fn push_on_two(
    alloc: Global,
    out: &mut Vec<u8>,
    operation: &[u8],
    rd: u8,
    rs: u8,
    operand: Piece,
) -> Result<(), NoMemory>
    ensures { OnOk result (out.new.items
        ≡ out.old.items ++ texts.on operation.now rd (parts.register rs ++ (codes "," ++ pieces.piece operand))) }
{
    let operands = [
        Piece::Register(rd),
        Piece::Next(rs),
        Piece::Letter(b','),
        operand,
    ];
    push_spoken(alloc, out, operation, Condition::Al, b"", &operands)
}

fn addend(immediate: bool, operand: u8) -> Piece
    ensures { pieces.piece result ≡ texts.addend immediate operand }
{
    if immediate {
        return Piece::Number(u32::from(operand));
    }
    Piece::Register(operand)
}

#[tactic(auto, unfolding(crate::specs::ThumbTexts::high_text))]
fn push_high(
    alloc: Global,
    out: &mut Vec<u8>,
    operation: HighOperation,
    rd: u8,
    rs: u8,
) -> Result<(), NoMemory>
    ensures { OnOk result (out.new.items ≡ out.old.items ++ texts.high_text operation rd rs) }
{
    let name = high_name(operation);
    match operation {
        HighOperation::Bx => push_said(alloc, out, name, Piece::Register(rs)),
        _ => push_on(alloc, out, name, rd, Piece::Register(rs)),
    }
}

// A transfer at a place above a register.
#[tactic(auto, unfolding(crate::specs::ThumbTexts::on))]
fn push_above(
    alloc: Global,
    out: &mut Vec<u8>,
    operation: &[u8],
    rd: u8,
    rn: u8,
    by: Offset,
) -> Result<(), NoMemory>
    ensures { OnOk result (out.new.items ≡ out.old.items ++ texts.on operation.now rd (pieces.placed (pieces.above rn) by)) }
{
    push_transfer(alloc, out, operation, Condition::Al, b"", rd, above(rn), by)
}

// The registers of a push or a pop, each with a comma before it.
fn push_stacked(
    alloc: Global,
    out: &mut Vec<u8>,
    load: bool,
    link: bool,
    list: u8,
) -> Result<(), NoMemory>
    ensures { OnOk result (out.new.items
        ≡ out.old.items ++ (parts.named (registers 8 list) ++ parts.mark link (parts.next (texts.linked load)))) }
{
    push_named(alloc, out, u16::from(list), 0, 8)?;
    if link {
        return push_next(alloc, out, linked(load));
    }
    Ok(())
}

#[tactic(auto, unfolding(crate::specs::ThumbTexts::stack_text))]
fn push_stack(
    alloc: Global,
    out: &mut Vec<u8>,
    load: bool,
    link: bool,
    list: u8,
) -> Result<(), NoMemory>
    ensures { OnOk result (out.new.items ≡ out.old.items ++ texts.stack_text load link list) }
{
    let mut names = Vec::new(alloc);
    push_stacked(alloc, &mut names, load, link, list)?;
    push_spoken(alloc, out, stack_name(load), Condition::Al, b"", &[])?;
    push_braced(out, names.as_slice())
}

fn push_multiple(
    alloc: Global,
    out: &mut Vec<u8>,
    load: bool,
    rn: u8,
    list: u8,
) -> Result<(), NoMemory>
    ensures { OnOk result (out.new.items
        ≡ out.old.items ++ texts.said (texts.multiple_name load)
        (parts.register rn ++ (codes "!," ++ parts.braced (parts.named (registers 8 list))))) }
{
    let listed = [
        Piece::Register(rn),
        Piece::Letter(b'!'),
        Piece::Letter(b','),
        Piece::LowListed(list),
    ];
    push_spoken(alloc, out, multiple_name(load), Condition::Al, b"", &listed)
}

fn push_data_half(out: &mut Vec<u8>, h: u16) -> Result<(), NoMemory>
    ensures { OnOk result (out.new.items ≡ out.old.items ++ parts.data_half h) }
{
    push(out, b"DCW 0x")?;
    push_four(out, h)
}

// The instructions of registers and numbers.
#[tactic(auto, unfolding(crate::specs::ThumbTexts::instruction_text, crate::specs::Pieces::placed))]
fn push_instruction(
    alloc: Global,
    out: &mut Vec<u8>,
    at: u32,
    h: u16,
    instruction: ThumbInstr,
) -> Result<(), NoMemory>
    requires { ReadsThumb h instruction }
    ensures { OnOk result (out.new.items ≡ out.old.items ++ texts.instruction_text at h instruction) }
{
    match instruction {
        ThumbInstr::ShiftImmediate {
            shift,
            amount,
            rs,
            rd,
        } => push_on_two(
            alloc,
            out,
            shift_name(shift),
            rd,
            rs,
            Piece::Number(u32::from(amount_of(shift, amount))),
        ),
        ThumbInstr::AddSubtract {
            immediate,
            subtract,
            operand,
            rs,
            rd,
        } => push_on_two(
            alloc,
            out,
            sum_name(subtract),
            rd,
            rs,
            addend(immediate, operand),
        ),
        ThumbInstr::DataImmediate {
            operation,
            rd,
            immediate,
        } => push_on(
            alloc,
            out,
            immediate_name(operation),
            rd,
            Piece::Number(u32::from(immediate)),
        ),
        ThumbInstr::DataRegister { operation, rs, rd } => push_on(
            alloc,
            out,
            operation_name(operation),
            rd,
            Piece::Register(rs),
        ),
        ThumbInstr::HighRegister {
            operation,
            high_rd,
            high_rs,
            rs,
            rd,
        } => push_high(alloc, out, operation, full(high_rd, rd), full(high_rs, rs)),
        ThumbInstr::LoadLiteral { rd, offset } => push_above(
            alloc,
            out,
            transfer_name(true),
            rd,
            15,
            Offset::Number(4 * u32::from(offset)),
        ),
        ThumbInstr::TransferRegister {
            load,
            byte,
            ro,
            rn,
            rd,
        } => push_above(
            alloc,
            out,
            byte_name(load, byte),
            rd,
            rn,
            Offset::Register(ro),
        ),
        ThumbInstr::TransferSigned { kind, ro, rn, rd } => push_above(
            alloc,
            out,
            signed_name(kind),
            rd,
            rn,
            Offset::Register(ro),
        ),
        ThumbInstr::TransferImmediate {
            byte,
            load,
            offset,
            rn,
            rd,
        } => push_above(
            alloc,
            out,
            byte_name(load, byte),
            rd,
            rn,
            Offset::Number(scaled(byte, offset)),
        ),
        ThumbInstr::TransferHalf {
            load,
            offset,
            rn,
            rd,
        } => push_above(
            alloc,
            out,
            half_transfer_name(load),
            rd,
            rn,
            Offset::Number(2 * u32::from(offset)),
        ),
        ThumbInstr::TransferStack { load, rd, offset } => push_above(
            alloc,
            out,
            transfer_name(load),
            rd,
            13,
            Offset::Number(4 * u32::from(offset)),
        ),
        ThumbInstr::LoadAddress { stack, rd, offset } => push_on_two(
            alloc,
            out,
            b"ADD",
            rd,
            base(stack),
            Piece::Number(4 * u32::from(offset)),
        ),
        ThumbInstr::AdjustStack { subtract, offset } => push_on(
            alloc,
            out,
            sum_name(subtract),
            13,
            Piece::Number(4 * u32::from(offset)),
        ),
        ThumbInstr::PushPop { load, link, list } => push_stack(alloc, out, load, link, list),
        ThumbInstr::TransferMultiple { load, rn, list } => push_multiple(
            alloc, out, load, rn, list,
        ),
        ThumbInstr::BranchConditional { condition, offset } => {
            let to = [Piece::Address(target(at, 4, 2, 8, u32::from(offset)))];
            push_spoken(alloc, out, b"B", condition, b"", &to)
        }
        ThumbInstr::SoftwareInterrupt { number } => push_said(
            alloc,
            out,
            b"SWI",
            Piece::Hex(u32::from(number)),
        ),
        ThumbInstr::Branch { offset } => push_said(
            alloc,
            out,
            b"B",
            Piece::Address(target(at, 4, 2, 11, u32::from(offset))),
        ),
        ThumbInstr::BranchLink { second, offset } => push_said(
            alloc,
            out,
            half_name(second),
            Piece::Hex(u32::from(offset)),
        ),
        ThumbInstr::Undefined { .. } => push_data_half(out, h),
    }
}

// The instruction that a half-word reads as.
fn instruction_of(h: u16) -> Option<ThumbInstr>
    ensures value { result ≡ thumb_of h }
    ensures found { IfSome result (ReadsThumb h) }
{
    decode_thumb(h)
}

/// Appends the text of a half-word whose line has the offset `at`.
pub fn push_half(alloc: Global, out: &mut Vec<u8>, at: u32, h: u16) -> Result<(), NoMemory>
    ensures { OnOk result (out.new.items ≡ out.old.items ++ texts.half_text at h (thumb_of h)) }
{
    match instruction_of(h) {
        None => push_data_half(out, h),
        Some(instruction) => push_instruction(alloc, out, at, h, instruction),
    }
}

fn half_listed(alloc: Global, at: u32, h: u16) -> Result<Text, NoMemory>
    ensures { IfOk result (λ text. text ≡ texts.half_text at h (thumb_of h)) }
{
    let mut out = Vec::new(alloc);
    push_half(alloc, &mut out, at, h)?;
    Ok(Text::from_vec(out))
}

/// The text of a half-word whose line has the offset `at`: of the instruction that it reads as, or of the half-word
/// as data where no row of the table reads it.
pub fn print_thumb(alloc: Global, at: u32, h: u16) -> Result<Text, NoMemory>
    ensures value { IfOk result (λ text. text ≡ texts.half_text at h (thumb_of h)) }
    ensures instruction { (i : ThumbInstr) → ReadsThumb h i → IfOk result (λ text. text ≡ texts.instruction_text at h i) }
    ensures unread { IsUnread h → IfOk result (λ text. text ≡ parts.data_half h) }
{
    half_listed(alloc, at, h)
}
