//! The encoder: each row's digits and fields, from the highest bit down.

ghost use Rattle.std.specs.Prelude.{◌≡◌, ◌↔◌, ℕ, IfNone, IfSome, IsTrue, MatchOption, Some};
ghost use Rattle.sdt_word.specs.Numbers.{flag};
ghost use Rattle.sdt_word.specs.Parts.{PartsFit, joined, total_width};
ghost use Rattle.thumb_isa.specs.Codes.{high_code};
ghost use Rattle.thumb_isa.specs.ThumbRows.{FitsHigh, IsUnwritten, ReadsThumb};
ghost use Rattle.thumb_encode.specs.Encoding.{Encodes};

use sdt_word::{Condition, join_parts};
use thumb_isa::{HighOperation, ThumbInstr};

/// The half-word that reads as an instruction; there is none where a field has more bits than its row
/// gives it or a condition of the row is broken.
pub fn encode_thumb(i: &ThumbInstr) -> Option<u16>
    ensures found { IfSome result (λ h. ReadsThumb h i.now) }
    ensures none { IfNone result (IsUnwritten i.now) }
    ensures only { (h : ℕ) → ReadsThumb h i.now → result ≡ Some h }
{
    half_of(i)
}

fn half_of(i: &ThumbInstr) -> Option<u16>
    ensures { Encodes result i.now }
{
    match *i {
        ThumbInstr::ShiftImmediate {
            shift,
            amount,
            rs,
            rd,
        } => join_half(&[
            (0b000, 3),
            (shift.code(), 2),
            (u32::from(amount), 5),
            (u32::from(rs), 3),
            (u32::from(rd), 3),
        ]),
        ThumbInstr::AddSubtract {
            immediate,
            subtract,
            operand,
            rs,
            rd,
        } => join_half(&[
            (0b00011, 5),
            (u32::from(immediate), 1),
            (u32::from(subtract), 1),
            (u32::from(operand), 3),
            (u32::from(rs), 3),
            (u32::from(rd), 3),
        ]),
        ThumbInstr::DataImmediate {
            operation,
            rd,
            immediate,
        } => join_half(&[
            (0b001, 3),
            (operation.code(), 2),
            (u32::from(rd), 3),
            (u32::from(immediate), 8),
        ]),
        ThumbInstr::DataRegister { operation, rs, rd } => join_half(&[
            (0b010000, 6),
            (operation.code(), 4),
            (u32::from(rs), 3),
            (u32::from(rd), 3),
        ]),
        ThumbInstr::HighRegister {
            operation,
            high_rd,
            high_rs,
            rs,
            rd,
        } => { high_register(operation, high_rd, high_rs, rs, rd) }
        ThumbInstr::LoadLiteral { rd, offset } => {
            join_half(&[(0b01001, 5), (u32::from(rd), 3), (u32::from(offset), 8)])
        }
        ThumbInstr::TransferRegister {
            load,
            byte,
            ro,
            rn,
            rd,
        } => join_half(&[
            (0b0101, 4),
            (u32::from(load), 1),
            (u32::from(byte), 1),
            (0b0, 1),
            (u32::from(ro), 3),
            (u32::from(rn), 3),
            (u32::from(rd), 3),
        ]),
        ThumbInstr::TransferSigned { kind, ro, rn, rd } => join_half(&[
            (0b0101, 4),
            (kind.code(), 2),
            (0b1, 1),
            (u32::from(ro), 3),
            (u32::from(rn), 3),
            (u32::from(rd), 3),
        ]),
        ThumbInstr::TransferImmediate {
            byte,
            load,
            offset,
            rn,
            rd,
        } => join_half(&[
            (0b011, 3),
            (u32::from(byte), 1),
            (u32::from(load), 1),
            (u32::from(offset), 5),
            (u32::from(rn), 3),
            (u32::from(rd), 3),
        ]),
        ThumbInstr::TransferHalf {
            load,
            offset,
            rn,
            rd,
        } => join_half(&[
            (0b1000, 4),
            (u32::from(load), 1),
            (u32::from(offset), 5),
            (u32::from(rn), 3),
            (u32::from(rd), 3),
        ]),
        ThumbInstr::TransferStack { load, rd, offset } => join_half(&[
            (0b1001, 4),
            (u32::from(load), 1),
            (u32::from(rd), 3),
            (u32::from(offset), 8),
        ]),
        ThumbInstr::LoadAddress { stack, rd, offset } => join_half(&[
            (0b1010, 4),
            (u32::from(stack), 1),
            (u32::from(rd), 3),
            (u32::from(offset), 8),
        ]),
        ThumbInstr::AdjustStack { subtract, offset } => join_half(&[
            (0b10110000, 8),
            (u32::from(subtract), 1),
            (u32::from(offset), 7),
        ]),
        ThumbInstr::PushPop { load, link, list } => join_half(&[
            (0b1011, 4),
            (u32::from(load), 1),
            (0b10, 2),
            (u32::from(link), 1),
            (u32::from(list), 8),
        ]),
        ThumbInstr::TransferMultiple { load, rn, list } => join_half(&[
            (0b1100, 4),
            (u32::from(load), 1),
            (u32::from(rn), 3),
            (u32::from(list), 8),
        ]),
        ThumbInstr::BranchConditional { condition, offset } => branch_conditional(
            condition, offset,
        ),
        ThumbInstr::SoftwareInterrupt { number } => {
            join_half(&[(0b1101_1111, 8), (u32::from(number), 8)])
        }
        ThumbInstr::Branch { offset } => join_half(&[(0b11100, 5), (u32::from(offset), 11)]),
        ThumbInstr::BranchLink { second, offset } => join_half(&[
            (0b1111, 4),
            (u32::from(second), 1),
            (u32::from(offset), 11),
        ]),
        ThumbInstr::Undefined { number } => join_half(&[(0b1101_1110, 8), (u32::from(number), 8)]),
    }
}

fn join_half(parts: &[(u32, u32)]) -> Option<u16>
    requires { total_width parts.now ≡ 16 }
    ensures { MatchOption result (PartsFit parts.now → ⊥) (λ h. PartsFit parts.now × (h ≡ joined parts.now)) }
{
    let word = join_parts(parts)?;
    Some(word as u16)
}

fn high_register(
    operation: HighOperation,
    high_rd: bool,
    high_rs: bool,
    rs: u8,
    rd: u8,
) -> Option<u16>
    ensures { Encodes result (ThumbInstr.HighRegister operation high_rd high_rs rs rd) }
{
    if !fits_high(operation, high_rd, rd) {
        return None;
    }
    join_half(&[
        (0b010001, 6),
        (operation.code(), 2),
        (u32::from(high_rd), 1),
        (u32::from(high_rs), 1),
        (u32::from(rs), 3),
        (u32::from(rd), 3),
    ])
}

// Whether the row's conditions hold: BX names no Rd.
fn fits_high(operation: HighOperation, high_rd: bool, rd: u8) -> bool
    ensures { IsTrue result ↔ FitsHigh (high_code operation) (flag high_rd) rd }
{
    if operation.code() == 3 {
        return !high_rd && rd == 0;
    }
    true
}

fn branch_conditional(condition: Condition, offset: u8) -> Option<u16>
    ensures { Encodes result (ThumbInstr.BranchConditional condition offset) }
{
    if condition.code() == 14 {
        return None;
    }
    join_half(&[(0b1101, 4), (condition.code(), 4), (u32::from(offset), 8)])
}
