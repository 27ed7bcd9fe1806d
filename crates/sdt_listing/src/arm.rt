//! The text of a word of ARM code.

ghost use Rattle.std.specs.Prelude.{◌≡◌, ◌==◌, ◌<◌, ◌++◌, [], OnOk, IfOk, IfSome, codes};
ghost use Rattle.arm_isa.specs.ArmRows.{IsUnread, ReadsArm};
ghost use Rattle.arm_isa.specs.declared.instr.ArmInstr.{ArmInstr};
ghost use Rattle.sdt_word.specs.Numbers.{bit, operand};
ghost use Rattle.sdt_listing.specs.ArmTexts as texts;
ghost use Rattle.sdt_listing.specs.Parts as parts;
ghost use Rattle.sdt_listing.specs.Pieces as pieces;
ghost use Rattle.sdt_listing.specs.declared.pieces.Piece.TheVariants as piece;
ghost use Rattle.sdt_listing.specs.Readings.{arm_of};

use crate::arm_names::{
    block_mode, block_name, branch_name, half_suffix, is_comparison, is_move, long_name,
    marks_flags, multiply_name, operation_name, transfer_name, word_suffix,
};
use crate::parts::{mark, push, push_address, target};
use crate::pieces::{ListedPlace, Offset, Piece, push_spoken, push_transfer};
use arm_isa::{ArmInstr, HalfKind, Operation, decode_arm};
use sdt_fault::{NoMemory, Text};
use sdt_word::{Condition, ShiftKind, field, rotate};
use std::alloc::Global;

// What data-processing instructions share.
#[derive(Clone, Copy)]
struct DataHead {
    condition: Condition,
    operation: Operation,
    set_flags: bool,
    rn: u8,
    rd: u8,
}

// What transfers of one register share.
#[derive(Clone, Copy)]
struct TransferHead {
    condition: Condition,
    load: bool,
    rd: u8,
}

#[tactic(auto, unfolding(crate::specs::ArmTexts::processing, crate::specs::ArmTexts::sources))]
fn push_data(
    alloc: Global,
    out: &mut Vec<u8>,
    head: DataHead,
    operand: Piece,
) -> Result<(), NoMemory>
    ensures { OnOk result (out.new.items
        ≡ out.old.items ++ texts.processing head.condition head.operation head.set_flags head.rn head.rd (pieces.piece operand)) }
{
    let name = operation_name(head.operation);
    let flags = mark(marks_flags(head.operation, head.set_flags), b"S");
    if is_comparison(head.operation) {
        let one = [Piece::Register(head.rn), Piece::Letter(b','), operand];
        return push_spoken(alloc, out, name, head.condition, flags, &one);
    }
    if is_move(head.operation) {
        let one = [Piece::Register(head.rd), Piece::Letter(b','), operand];
        return push_spoken(alloc, out, name, head.condition, flags, &one);
    }
    let two = [
        Piece::Register(head.rd),
        Piece::Next(head.rn),
        Piece::Letter(b','),
        operand,
    ];
    push_spoken(alloc, out, name, head.condition, flags, &two)
}

// A byte, rotated right by twice the rotation.
fn rotated(rotation: u8, byte: u8) -> Piece
    requires { rotation < 16 }
    ensures { result ≡ piece.Number (operand rotation byte) }
{
    Piece::Number(rotate(u32::from(byte), 2 * u32::from(rotation)))
}

#[tactic(auto, unfolding(crate::specs::ArmTexts::multiply))]
fn push_multiply(
    alloc: Global,
    out: &mut Vec<u8>,
    condition: Condition,
    accumulate: bool,
    set_flags: bool,
    rd: u8,
    rn: u8,
    rs: u8,
    rm: u8,
) -> Result<(), NoMemory>
    ensures { OnOk result (out.new.items ≡ out.old.items ++ texts.multiply condition accumulate set_flags rd rn rs rm) }
{
    let name = multiply_name(accumulate);
    let flags = mark(set_flags, b"S");
    if accumulate {
        let four = [
            Piece::Register(rd),
            Piece::Next(rm),
            Piece::Next(rs),
            Piece::Next(rn),
        ];
        return push_spoken(alloc, out, name, condition, flags, &four);
    }
    let three = [Piece::Register(rd), Piece::Next(rm), Piece::Next(rs)];
    push_spoken(alloc, out, name, condition, flags, &three)
}

#[tactic(auto, unfolding(crate::specs::ArmTexts::multiply_long))]
fn push_multiply_long(
    alloc: Global,
    out: &mut Vec<u8>,
    condition: Condition,
    signed: bool,
    accumulate: bool,
    set_flags: bool,
    high: u8,
    low: u8,
    rs: u8,
    rm: u8,
) -> Result<(), NoMemory>
    ensures { OnOk result (out.new.items ≡ out.old.items ++ texts.multiply_long condition signed accumulate set_flags high low rs rm) }
{
    let four = [
        Piece::Register(low),
        Piece::Next(high),
        Piece::Next(rm),
        Piece::Next(rs),
    ];
    let name = long_name(signed, accumulate);
    push_spoken(alloc, out, name, condition, mark(set_flags, b"S"), &four)
}

#[tactic(auto, unfolding(crate::specs::ArmTexts::swap))]
fn push_swap(
    alloc: Global,
    out: &mut Vec<u8>,
    condition: Condition,
    byte: bool,
    rn: u8,
    rd: u8,
    rm: u8,
) -> Result<(), NoMemory>
    ensures { OnOk result (out.new.items ≡ out.old.items ++ texts.swap condition byte rn rd rm) }
{
    let at = [
        Piece::Register(rd),
        Piece::Next(rm),
        Piece::Letter(b','),
        Piece::Letter(b'['),
        Piece::Register(rn),
        Piece::Letter(b']'),
    ];
    push_spoken(alloc, out, b"SWP", condition, mark(byte, b"B"), &at)
}

#[tactic(auto, unfolding(crate::specs::ArmTexts::read_status))]
fn push_read_status(
    alloc: Global,
    out: &mut Vec<u8>,
    condition: Condition,
    saved: bool,
    rd: u8,
) -> Result<(), NoMemory>
    ensures { OnOk result (out.new.items ≡ out.old.items ++ texts.read_status condition saved rd) }
{
    let from = [
        Piece::Register(rd),
        Piece::Letter(b','),
        Piece::Status(saved),
    ];
    push_spoken(alloc, out, b"MRS", condition, b"", &from)
}

// A letter that stands where the fields' mask has a bit.
fn letter(fields: u8, at: u32, letter: u8) -> Piece
    requires { at < 32 }
    ensures { result ≡ piece.Marked (bit fields at == 1) letter }
{
    Piece::Marked(field(u32::from(fields), at, 1) == 1, letter)
}

#[tactic(auto, unfolding(crate::specs::ArmTexts::write_status, crate::specs::ArmTexts::fields))]
fn push_write_status(
    alloc: Global,
    out: &mut Vec<u8>,
    condition: Condition,
    saved: bool,
    fields: u8,
    operand: Piece,
) -> Result<(), NoMemory>
    ensures { OnOk result (out.new.items ≡ out.old.items ++ texts.write_status condition saved fields (pieces.piece operand)) }
{
    let written = [
        Piece::Status(saved),
        Piece::Letter(b'_'),
        letter(fields, 3, b'f'),
        letter(fields, 2, b's'),
        letter(fields, 1, b'x'),
        letter(fields, 0, b'c'),
        Piece::Letter(b','),
        operand,
    ];
    push_spoken(alloc, out, b"MSR", condition, b"", &written)
}

#[tactic(auto, unfolding(crate::specs::ArmTexts::transfer))]
fn push_at(
    alloc: Global,
    out: &mut Vec<u8>,
    head: TransferHead,
    suffix: &[u8],
    place: ListedPlace,
    by: Offset,
) -> Result<(), NoMemory>
    ensures { OnOk result (out.new.items
        ≡ out.old.items ++ texts.transfer head.condition head.load suffix.now head.rd (pieces.placed place by)) }
{
    let name = transfer_name(head.load);
    push_transfer(alloc, out, name, head.condition, suffix, head.rd, place, by)
}

// A transfer of a half-word, or of a signed byte.
#[tactic(auto, unfolding(crate::specs::ArmTexts::half_place, crate::specs::Pieces::placed))]
fn push_half(
    alloc: Global,
    out: &mut Vec<u8>,
    head: TransferHead,
    kind: HalfKind,
    place: ListedPlace,
    immediate: bool,
    high: u8,
    low: u8,
) -> Result<(), NoMemory>
    ensures { OnOk result (out.new.items
        ≡ out.old.items ++ texts.transfer head.condition head.load (texts.half_suffix kind) head.rd
        (texts.half_place place.pre place.up immediate place.write_back place.base high low)) }
{
    if immediate {
        let offset = Offset::Number(16 * u32::from(high) + u32::from(low));
        return push_at(alloc, out, head, half_suffix(kind), place, offset);
    }
    push_at(
        alloc,
        out,
        head,
        half_suffix(kind),
        place,
        Offset::Register(low),
    )
}

#[tactic(auto, unfolding(crate::specs::ArmTexts::block))]
fn push_block(
    alloc: Global,
    out: &mut Vec<u8>,
    condition: Condition,
    load: bool,
    user: bool,
    place: ListedPlace,
    list: u16,
) -> Result<(), NoMemory>
    ensures { OnOk result (out.new.items
        ≡ out.old.items ++ texts.block condition place.pre place.up user place.write_back load place.base list) }
{
    let listed = [
        Piece::Register(place.base),
        Piece::Marked(place.write_back, b'!'),
        Piece::Letter(b','),
        Piece::Listed(list),
        Piece::Marked(user, b'^'),
    ];
    let mode = block_mode(place.pre, place.up);
    push_spoken(alloc, out, block_name(load), condition, mode, &listed)
}

#[tactic(auto, unfolding(crate::specs::ArmTexts::branch))]
fn push_branch(
    alloc: Global,
    out: &mut Vec<u8>,
    at: u32,
    condition: Condition,
    link: bool,
    displacement: u32,
) -> Result<(), NoMemory>
    ensures { OnOk result (out.new.items ≡ out.old.items ++ texts.branch at condition link displacement) }
{
    let to = [Piece::Address(target(at, 8, 4, 24, displacement))];
    push_spoken(alloc, out, branch_name(link), condition, b"", &to)
}

fn push_data_word(out: &mut Vec<u8>, w: u32) -> Result<(), NoMemory>
    ensures { OnOk result (out.new.items ≡ out.old.items ++ parts.data_word w) }
{
    push(out, b"DCD ")?;
    push_address(out, w)
}

// The text of the instruction that a word reads as.
#[tactic(auto, unfolding(crate::specs::ArmTexts::instruction_text, crate::specs::ArmTexts::shifted_place, crate::specs::Pieces::placed))]
fn push_instruction(
    alloc: Global,
    out: &mut Vec<u8>,
    at: u32,
    w: u32,
    instruction: ArmInstr,
) -> Result<(), NoMemory>
    requires { ReadsArm w instruction }
    ensures { OnOk result (out.new.items ≡ out.old.items ++ texts.instruction_text at w instruction) }
{
    match instruction {
        ArmInstr::DataImmediate {
            condition,
            operation,
            set_flags,
            rn,
            rd,
            rotation,
            byte,
        } => push_data(
            alloc,
            out,
            DataHead {
                condition,
                operation,
                set_flags,
                rn,
                rd,
            },
            rotated(rotation, byte),
        ),
        ArmInstr::DataShifted {
            condition,
            operation,
            set_flags,
            rn,
            rd,
            amount,
            shift,
            rm,
        } => push_data(
            alloc,
            out,
            DataHead {
                condition,
                operation,
                set_flags,
                rn,
                rd,
            },
            Piece::Shifted(rm, shift, amount),
        ),
        ArmInstr::DataRegisterShifted {
            condition,
            operation,
            set_flags,
            rn,
            rd,
            rs,
            shift,
            rm,
        } => push_data(
            alloc,
            out,
            DataHead {
                condition,
                operation,
                set_flags,
                rn,
                rd,
            },
            Piece::ShiftedBy(rm, shift, rs),
        ),
        ArmInstr::Multiply {
            condition,
            accumulate,
            set_flags,
            rd,
            rn,
            rs,
            rm,
        } => push_multiply(alloc, out, condition, accumulate, set_flags, rd, rn, rs, rm),
        ArmInstr::MultiplyLong {
            condition,
            signed,
            accumulate,
            set_flags,
            high,
            low,
            rs,
            rm,
        } => push_multiply_long(
            alloc, out, condition, signed, accumulate, set_flags, high, low, rs, rm,
        ),
        ArmInstr::Swap {
            condition,
            byte,
            rn,
            rd,
            rm,
        } => push_swap(alloc, out, condition, byte, rn, rd, rm),
        ArmInstr::BranchExchange { condition, rm } => {
            push_spoken(alloc, out, b"BX", condition, b"", &[Piece::Register(rm)])
        }
        ArmInstr::ReadStatus {
            condition,
            saved,
            rd,
        } => push_read_status(alloc, out, condition, saved, rd),
        ArmInstr::WriteStatus {
            condition,
            saved,
            fields,
            rm,
        } => push_write_status(alloc, out, condition, saved, fields, Piece::Register(rm)),
        ArmInstr::WriteStatusImmediate {
            condition,
            saved,
            fields,
            rotation,
            byte,
        } => push_write_status(
            alloc,
            out,
            condition,
            saved,
            fields,
            rotated(rotation, byte),
        ),
        ArmInstr::TransferImmediate {
            condition,
            pre,
            up,
            byte,
            write_back,
            load,
            rn,
            rd,
            offset,
        } => push_at(
            alloc,
            out,
            TransferHead {
                condition,
                load,
                rd,
            },
            word_suffix(pre, byte, write_back),
            ListedPlace {
                pre,
                up,
                write_back,
                base: rn,
            },
            Offset::Number(u32::from(offset)),
        ),
        ArmInstr::TransferShifted {
            condition,
            pre,
            up,
            byte,
            write_back,
            load,
            rn,
            rd,
            amount,
            shift,
            rm,
        } => push_at(
            alloc,
            out,
            TransferHead {
                condition,
                load,
                rd,
            },
            word_suffix(pre, byte, write_back),
            ListedPlace {
                pre,
                up,
                write_back,
                base: rn,
            },
            Offset::Shifted(rm, shift, amount),
        ),
        ArmInstr::TransferHalf {
            condition,
            pre,
            up,
            immediate,
            write_back,
            load,
            rn,
            rd,
            high,
            kind,
            low,
        } => push_half(
            alloc,
            out,
            TransferHead {
                condition,
                load,
                rd,
            },
            kind,
            ListedPlace {
                pre,
                up,
                write_back,
                base: rn,
            },
            immediate,
            high,
            low,
        ),
        ArmInstr::TransferBlock {
            condition,
            pre,
            up,
            user,
            write_back,
            load,
            rn,
            list,
        } => push_block(
            alloc,
            out,
            condition,
            load,
            user,
            ListedPlace {
                pre,
                up,
                write_back,
                base: rn,
            },
            list,
        ),
        ArmInstr::Branch {
            condition,
            link,
            displacement,
        } => push_branch(alloc, out, at, condition, link, displacement),
        ArmInstr::SoftwareInterrupt { condition, number } => {
            push_spoken(alloc, out, b"SWI", condition, b"", &[Piece::Hex(number)])
        }
        ArmInstr::Undefined { .. } => push_data_word(out, w),
    }
}

// The instruction that a word reads as.
fn instruction_of(w: u32) -> Option<ArmInstr>
    ensures value { result ≡ arm_of w }
    ensures found { IfSome result (ReadsArm w) }
{
    decode_arm(w)
}

/// Appends the text of a word whose line has the offset `at`.
pub fn push_word(alloc: Global, out: &mut Vec<u8>, at: u32, w: u32) -> Result<(), NoMemory>
    ensures { OnOk result (out.new.items ≡ out.old.items ++ texts.word_text at w (arm_of w)) }
{
    match instruction_of(w) {
        None => push_data_word(out, w),
        Some(instruction) => push_instruction(alloc, out, at, w, instruction),
    }
}

fn word_listed(alloc: Global, at: u32, w: u32) -> Result<Text, NoMemory>
    ensures { IfOk result (λ text. text ≡ texts.word_text at w (arm_of w)) }
{
    let mut out = Vec::new(alloc);
    push_word(alloc, &mut out, at, w)?;
    Ok(Text::from_vec(out))
}

/// The text of a word whose line has the offset `at`: of the instruction that it reads as, or of the word as data
/// where no row of the table reads it.
pub fn print_arm(alloc: Global, at: u32, w: u32) -> Result<Text, NoMemory>
    ensures value { IfOk result (λ text. text ≡ texts.word_text at w (arm_of w)) }
    ensures instruction { (i : ArmInstr) → ReadsArm w i → IfOk result (λ text. text ≡ texts.instruction_text at w i) }
    ensures unread { IsUnread w → IfOk result (λ text. text ≡ parts.data_word w) }
{
    word_listed(alloc, at, w)
}
