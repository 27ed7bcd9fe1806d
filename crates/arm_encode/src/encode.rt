//! The encoder: each row's digits and fields, from the highest bit down.

ghost use Rattle.std.specs.Prelude.{◌≡◌, ◌↔◌, ◌+◌, ℕ, IfNone, IfSome, IsTrue, MatchOption, Some};
ghost use Rattle.sdt_word.specs.Numbers.{flag};
ghost use Rattle.arm_isa.specs.ArmRows.{FitsHalf, FitsOperation, IsUndefined, IsUnwritten, ReadsArm};
ghost use Rattle.arm_isa.specs.Codes.{half_code, operation_code};
ghost use Rattle.arm_encode.specs.Encoding.{Encodes};

use arm_isa::{ArmInstr, HalfKind, Operation};
use sdt_word::{Condition, ShiftKind, field, join_parts};

/// The word that reads as an instruction; there is none where a field has more bits than its row
/// gives it, a condition of the row is broken, or the bits of the undefined row are another row's.
pub fn encode_arm(i: &ArmInstr) -> Option<u32>
    ensures found { IfSome result (λ w. ReadsArm w i.now) }
    ensures none { IfNone result (IsUnwritten i.now) }
    ensures only { (w : ℕ) → ReadsArm w i.now → result ≡ Some w }
{
    word_of(i)
}

fn word_of(i: &ArmInstr) -> Option<u32>
    ensures { Encodes result i.now }
{
    match *i {
        ArmInstr::DataImmediate {
            condition,
            operation,
            set_flags,
            rn,
            rd,
            rotation,
            byte,
        } => {
            data_immediate(
                DataHead {
                    condition,
                    operation,
                    set_flags,
                    rn,
                    rd,
                },
                rotation,
                byte,
            )
        }
        ArmInstr::DataShifted {
            condition,
            operation,
            set_flags,
            rn,
            rd,
            amount,
            shift,
            rm,
        } => {
            data_shifted(
                DataHead {
                    condition,
                    operation,
                    set_flags,
                    rn,
                    rd,
                },
                amount,
                shift,
                rm,
            )
        }
        ArmInstr::DataRegisterShifted {
            condition,
            operation,
            set_flags,
            rn,
            rd,
            rs,
            shift,
            rm,
        } => {
            data_register_shifted(
                DataHead {
                    condition,
                    operation,
                    set_flags,
                    rn,
                    rd,
                },
                rs,
                shift,
                rm,
            )
        }
        ArmInstr::Multiply {
            condition,
            accumulate,
            set_flags,
            rd,
            rn,
            rs,
            rm,
        } => { multiply(condition, accumulate, set_flags, rd, rn, rs, rm) }
        ArmInstr::MultiplyLong {
            condition,
            signed,
            accumulate,
            set_flags,
            high,
            low,
            rs,
            rm,
        } => join_parts(&[
            (condition.code(), 4),
            (0b00001, 5),
            (u32::from(signed), 1),
            (u32::from(accumulate), 1),
            (u32::from(set_flags), 1),
            (u32::from(high), 4),
            (u32::from(low), 4),
            (u32::from(rs), 4),
            (0b1001, 4),
            (u32::from(rm), 4),
        ]),
        ArmInstr::Swap {
            condition,
            byte,
            rn,
            rd,
            rm,
        } => join_parts(&[
            (condition.code(), 4),
            (0b00010, 5),
            (u32::from(byte), 1),
            (0b00, 2),
            (u32::from(rn), 4),
            (u32::from(rd), 4),
            (0b0000_1001, 8),
            (u32::from(rm), 4),
        ]),
        ArmInstr::BranchExchange { condition, rm } => {
            join_parts(&[(condition.code(), 4), (0x12fff1, 24), (u32::from(rm), 4)])
        }
        ArmInstr::ReadStatus {
            condition,
            saved,
            rd,
        } => join_parts(&[
            (condition.code(), 4),
            (0b00010, 5),
            (u32::from(saved), 1),
            (0b00_1111, 6),
            (u32::from(rd), 4),
            (0, 12),
        ]),
        ArmInstr::WriteStatus {
            condition,
            saved,
            fields,
            rm,
        } => join_parts(&[
            (condition.code(), 4),
            (0b00010, 5),
            (u32::from(saved), 1),
            (0b10, 2),
            (u32::from(fields), 4),
            (0b1111_0000_0000, 12),
            (u32::from(rm), 4),
        ]),
        ArmInstr::WriteStatusImmediate {
            condition,
            saved,
            fields,
            rotation,
            byte,
        } => join_parts(&[
            (condition.code(), 4),
            (0b00110, 5),
            (u32::from(saved), 1),
            (0b10, 2),
            (u32::from(fields), 4),
            (0b1111, 4),
            (u32::from(rotation), 4),
            (u32::from(byte), 8),
        ]),
        ArmInstr::TransferImmediate {
            condition,
            pre,
            up,
            byte,
            write_back,
            load,
            rn,
            rd,
            offset,
        } => join_parts(&[
            (condition.code(), 4),
            (0b010, 3),
            (u32::from(pre), 1),
            (u32::from(up), 1),
            (u32::from(byte), 1),
            (u32::from(write_back), 1),
            (u32::from(load), 1),
            (u32::from(rn), 4),
            (u32::from(rd), 4),
            (u32::from(offset), 12),
        ]),
        ArmInstr::TransferShifted {
            condition,
            pre,
            up,
            byte,
            write_back,
            load,
            rn,
            rd,
            amount,
            shift,
            rm,
        } => join_parts(&[
            (condition.code(), 4),
            (0b011, 3),
            (u32::from(pre), 1),
            (u32::from(up), 1),
            (u32::from(byte), 1),
            (u32::from(write_back), 1),
            (u32::from(load), 1),
            (u32::from(rn), 4),
            (u32::from(rd), 4),
            (u32::from(amount), 5),
            (shift.code(), 2),
            (0b0, 1),
            (u32::from(rm), 4),
        ]),
        ArmInstr::TransferHalf {
            condition,
            pre,
            up,
            immediate,
            write_back,
            load,
            rn,
            rd,
            high,
            kind,
            low,
        } => {
            let marks = Marks {
                pre,
                up,
                immediate,
                write_back,
                load,
            };
            transfer_half(condition, marks, rn, rd, high, kind, low)
        }
        ArmInstr::TransferBlock {
            condition,
            pre,
            up,
            user,
            write_back,
            load,
            rn,
            list,
        } => {
            join_parts(&[
                (condition.code(), 4),
                (0b100, 3),
                (u32::from(pre), 1),
                (u32::from(up), 1),
                (u32::from(user), 1),
                (u32::from(write_back), 1),
                (u32::from(load), 1),
                (u32::from(rn), 4),
                (u32::from(list), 16),
            ])
        }
        ArmInstr::Branch {
            condition,
            link,
            displacement,
        } => join_parts(&[
            (condition.code(), 4),
            (0b101, 3),
            (u32::from(link), 1),
            (displacement, 24),
        ]),
        ArmInstr::SoftwareInterrupt { condition, number } => {
            join_parts(&[(condition.code(), 4), (0b1111, 4), (number, 24)])
        }
        ArmInstr::Undefined { condition, bits } => undefined(condition, bits),
    }
}

// What the three data-processing rows begin with.
#[derive(Clone, Copy)]
struct DataHead {
    condition: Condition,
    operation: Operation,
    set_flags: bool,
    rn: u8,
    rd: u8,
}

// Whether the row's conditions hold of what the operation names.
fn fits_operation(head: DataHead) -> bool
    ensures { IsTrue result
        ↔ FitsOperation (operation_code head.operation) (flag head.set_flags) head.rn head.rd }
{
    let code = head.operation.code();
    if code / 4 == 2 {
        return head.set_flags && head.rd == 0;
    }
    if code == 13 {
        return head.rn == 0;
    }
    if code == 15 {
        return head.rn == 0;
    }
    true
}

fn data_immediate(head: DataHead, rotation: u8, byte: u8) -> Option<u32>
    ensures { Encodes result (ArmInstr.DataImmediate head.condition head.operation head.set_flags head.rn head.rd rotation byte) }
{
    if !fits_operation(head) {
        return None;
    }
    join_parts(&[
        (head.condition.code(), 4),
        (0b001, 3),
        (head.operation.code(), 4),
        (u32::from(head.set_flags), 1),
        (u32::from(head.rn), 4),
        (u32::from(head.rd), 4),
        (u32::from(rotation), 4),
        (u32::from(byte), 8),
    ])
}

fn data_shifted(head: DataHead, amount: u8, shift: ShiftKind, rm: u8) -> Option<u32>
    ensures { Encodes result (ArmInstr.DataShifted head.condition head.operation head.set_flags head.rn head.rd amount shift rm) }
{
    if !fits_operation(head) {
        return None;
    }
    join_parts(&[
        (head.condition.code(), 4),
        (0b000, 3),
        (head.operation.code(), 4),
        (u32::from(head.set_flags), 1),
        (u32::from(head.rn), 4),
        (u32::from(head.rd), 4),
        (u32::from(amount), 5),
        (shift.code(), 2),
        (0b0, 1),
        (u32::from(rm), 4),
    ])
}

fn data_register_shifted(head: DataHead, rs: u8, shift: ShiftKind, rm: u8) -> Option<u32>
    ensures { Encodes result (ArmInstr.DataRegisterShifted head.condition head.operation head.set_flags head.rn head.rd rs shift rm) }
{
    if !fits_operation(head) {
        return None;
    }
    join_parts(&[
        (head.condition.code(), 4),
        (0b000, 3),
        (head.operation.code(), 4),
        (u32::from(head.set_flags), 1),
        (u32::from(head.rn), 4),
        (u32::from(head.rd), 4),
        (u32::from(rs), 4),
        (0b0, 1),
        (shift.code(), 2),
        (0b1, 1),
        (u32::from(rm), 4),
    ])
}

fn multiply(
    condition: Condition,
    accumulate: bool,
    set_flags: bool,
    rd: u8,
    rn: u8,
    rs: u8,
    rm: u8,
) -> Option<u32>
    ensures { Encodes result (ArmInstr.Multiply condition accumulate set_flags rd rn rs rm) }
{
    if !accumulate && rn != 0 {
        return None;
    }
    join_parts(&[
        (condition.code(), 4),
        (0b000000, 6),
        (u32::from(accumulate), 1),
        (u32::from(set_flags), 1),
        (u32::from(rd), 4),
        (u32::from(rn), 4),
        (u32::from(rs), 4),
        (0b1001, 4),
        (u32::from(rm), 4),
    ])
}

// The five marks of a half-word transfer.
#[derive(Clone, Copy)]
struct Marks {
    pre: bool,
    up: bool,
    immediate: bool,
    write_back: bool,
    load: bool,
}

// Whether the row's conditions hold of the marks.
fn fits_half(marks: Marks, high: u8, kind: HalfKind) -> bool
    ensures { IsTrue result
        ↔ FitsHalf (flag marks.pre) (flag marks.immediate) (flag marks.write_back) (flag marks.load) high (half_code kind) }
{
    if !marks.load && kind.code() != 1 {
        return false;
    }
    if !marks.pre && marks.write_back {
        return false;
    }
    if !marks.immediate && high != 0 {
        return false;
    }
    true
}

fn transfer_half(
    condition: Condition,
    marks: Marks,
    rn: u8,
    rd: u8,
    high: u8,
    kind: HalfKind,
    low: u8,
) -> Option<u32>
    ensures { Encodes result (ArmInstr.TransferHalf condition marks.pre marks.up marks.immediate marks.write_back marks.load rn rd high kind low) }
{
    if !fits_half(marks, high, kind) {
        return None;
    }
    join_parts(&[
        (condition.code(), 4),
        (0b000, 3),
        (u32::from(marks.pre), 1),
        (u32::from(marks.up), 1),
        (u32::from(marks.immediate), 1),
        (u32::from(marks.write_back), 1),
        (u32::from(marks.load), 1),
        (u32::from(rn), 4),
        (u32::from(rd), 4),
        (u32::from(high), 4),
        (0b1, 1),
        (kind.code(), 2),
        (0b1, 1),
        (u32::from(low), 4),
    ])
}

// Whether the undefined row has the bits.
fn is_undefined(bits: u32) -> bool
    ensures { IsTrue result ↔ IsUndefined bits }
{
    if field(bits, 25, 3) == 3 {
        return field(bits, 4, 1) == 1;
    }
    if field(bits, 25, 3) == 6 {
        return true;
    }
    field(bits, 24, 4) == 14
}

fn undefined(condition: Condition, bits: u32) -> Option<u32>
    ensures { Encodes result (ArmInstr.Undefined condition bits) }
{
    if !is_undefined(bits) {
        return None;
    }
    join_parts(&[(condition.code(), 4), (bits, 28)])
}
