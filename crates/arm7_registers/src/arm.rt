//! Instructions of ARM state: their conditions, and when they are unpredictable.

ghost use Rattle.std.specs.Prelude.{◌≡◌, ◌<◌, ◌==◌, ◌||◌, not, true, if◌then◌else◌};
ghost use Rattle.sdt_word.specs.Numbers.{operand};
ghost use Rattle.sdt_word.specs.Rows.{FitsRow};
ghost use Rattle.arm_isa.specs.ArmRows.{arm_fields, arm_row};
ghost use Rattle.arm7_model.specs.ArmStep.{arm_condition, arm_unpredictable, bad_base, bad_block_base, bad_half, bad_offset, bad_pc, bad_return, bad_status, bad_user, bad_write, is_pc};
ghost use Rattle.arm7_model.specs.Registers.{has_mode, saved};

use crate::addresses::{is_lowest, lists, writes_back};
use crate::arithmetic::is_comparison;
use crate::flags::bit;
use crate::modes::{has_mode, has_saved};
use crate::operands::{half_offset, shifted_operand, transfer_at};
use crate::processing::status_after;
use crate::registers::{operand_at, register, saved};
use arm_isa::{ArmInstr, HalfKind, Operation};
use arm7_model::ArmState;
use sdt_word::{Condition, rotate};

/// The condition of an instruction.
#[tactic(auto, unfolding(arm7_model::specs::ArmStep::arm_condition))]
#[inline(always)]
pub fn arm_condition(i: &ArmInstr) -> Condition
    ensures { result ≡ arm_condition i.now }
{
    match *i {
        ArmInstr::DataImmediate { condition, .. } => condition,
        ArmInstr::DataShifted { condition, .. } => condition,
        ArmInstr::DataRegisterShifted { condition, .. } => condition,
        ArmInstr::Multiply { condition, .. } => condition,
        ArmInstr::MultiplyLong { condition, .. } => condition,
        ArmInstr::Swap { condition, .. } => condition,
        ArmInstr::BranchExchange { condition, .. } => condition,
        ArmInstr::ReadStatus { condition, .. } => condition,
        ArmInstr::WriteStatus { condition, .. } => condition,
        ArmInstr::WriteStatusImmediate { condition, .. } => condition,
        ArmInstr::TransferImmediate { condition, .. } => condition,
        ArmInstr::TransferShifted { condition, .. } => condition,
        ArmInstr::TransferHalf { condition, .. } => condition,
        ArmInstr::TransferBlock { condition, .. } => condition,
        ArmInstr::Branch { condition, .. } => condition,
        ArmInstr::SoftwareInterrupt { condition, .. } => condition,
        ArmInstr::Undefined { condition, .. } => condition,
    }
}

/// Whether a data-processing instruction into pc would return by an SPSR that is none.
#[inline(never)]
#[tactic(auto, unfolding(arm7_model::specs::ArmStep::bad_return))]
fn returns_badly(operation: Operation, set_flags: bool, state: &ArmState) -> bool
    ensures { result ≡ bad_return operation set_flags 15 state.now }
{
    set_flags && !is_comparison(operation) && (!has_saved(state) || !has_mode(saved(state)))
}

/// Whether a data-processing instruction would return by an SPSR that is none.
#[inline(always)]
#[tactic(auto, unfolding(arm7_model::specs::ArmStep::bad_return))]
fn bad_return(operation: Operation, set_flags: bool, rd: u8, state: &ArmState) -> bool
    ensures { result ≡ bad_return operation set_flags rd state.now }
{
    if rd == 15 {
        return returns_badly(operation, set_flags, state);
    }
    false
}

/// Whether CPSR would change its bit T or have no mode.
#[tactic(auto, unfolding(arm7_model::specs::ArmStep::bad_status))]
fn bad_status(status: u32, state: &ArmState) -> bool
    ensures { result ≡ bad_status status state.now }
{
    bit(status, 5) != bit(state.cpsr, 5) || !has_mode(status)
}

/// Whether an MSR writes an SPSR where there is none, or a bad value into CPSR.
#[tactic(auto, unfolding(arm7_model::specs::ArmStep::bad_write))]
fn bad_write(to_saved: bool, fields: u32, v: u32, state: &ArmState) -> bool
    ensures { result ≡ bad_write to_saved fields v state.now }
{
    if to_saved {
        !has_saved(state)
    } else {
        bad_status(status_after(state, fields, v), state)
    }
}

/// Whether a base that is written back is pc or the loaded register.
#[tactic(auto, unfolding(arm7_model::specs::ArmStep::bad_base))]
fn bad_base(pre: bool, write_back: bool, load: bool, rn: u8, rd: u8) -> bool
    ensures { result ≡ bad_base pre write_back load rn rd }
{
    writes_back(pre, write_back) && (rn == 15 || (load && rn == rd))
}

/// Whether an offset register is pc or a base that is written back.
#[tactic(auto, unfolding(arm7_model::specs::ArmStep::bad_offset))]
fn bad_offset(pre: bool, write_back: bool, rn: u8, rm: u8) -> bool
    ensures { result ≡ bad_offset pre write_back rn rm }
{
    rm == 15 || (writes_back(pre, write_back) && rm == rn)
}

/// Whether a byte is moved to or from pc, or pc is loaded from an address that isn't a multiple of 4.
#[tactic(auto, unfolding(arm7_model::specs::ArmStep::bad_pc))]
fn bad_pc(byte: bool, load: bool, rd: u8, a: u32) -> bool
    ensures { result ≡ bad_pc byte load rd a }
{
    rd == 15 && (byte || (load && a % 4 != 0))
}

/// Whether a half-word lies at an odd address.
#[tactic(auto, unfolding(arm7_model::specs::ArmStep::bad_half))]
fn bad_half(kind: HalfKind, a: u32) -> bool
    ensures { result ≡ bad_half kind a }
{
    match kind {
        HalfKind::SignedByte => false,
        HalfKind::Half | HalfKind::SignedHalf => a % 2 != 0,
    }
}

/// Whether a base that is written back is in the list, but for a store as the lowest.
#[tactic(auto, unfolding(arm7_model::specs::ArmStep::bad_block_base))]
fn bad_block_base(write_back: bool, load: bool, rn: u8, list: u32) -> bool
    requires { rn < 16 }
    ensures { result ≡ bad_block_base write_back load rn list }
{
    write_back && lists(list, rn) && (load || !is_lowest(list, rn))
}

/// Whether a block with `^` has no SPSR, is written back where it is no load of pc, or returns to no mode.
#[inline(never)]
#[tactic(auto, unfolding(arm7_model::specs::ArmStep::bad_user))]
fn bad_marked(write_back: bool, load: bool, list: u32, state: &ArmState) -> bool
    ensures { result ≡ bad_user true write_back load list state.now }
{
    !has_saved(state) || bad_return_or_base(write_back, load && lists(list, 15), state)
}

/// Whether a block is one that may not have `^`, where it has it.
#[inline(always)]
#[tactic(auto, unfolding(arm7_model::specs::ArmStep::bad_user))]
fn bad_user(user: bool, write_back: bool, load: bool, list: u32, state: &ArmState) -> bool
    ensures { result ≡ bad_user user write_back load list state.now }
{
    if user {
        return bad_marked(write_back, load, list, state);
    }
    false
}

/// Whether a load of pc returns to no mode, or another block is written back.
fn bad_return_or_base(write_back: bool, returns: bool, state: &ArmState) -> bool
    ensures { result ≡ (if returns then not (has_mode (saved state.now)) else write_back) }
{
    if returns {
        !has_mode(saved(state))
    } else {
        write_back
    }
}

/// Whether an instruction is unpredictable in a state with pc at the next instruction.
#[tactic(auto, unfolding(arm7_model::specs::ArmStep::arm_unpredictable))]
#[inline(always)]
pub fn arm_unpredictable(i: &ArmInstr, state: &ArmState) -> bool
    requires { FitsRow (arm_row i.now) (arm_fields i.now) }
    ensures { result ≡ arm_unpredictable i.now state.now }
{
    match *i {
        ArmInstr::DataImmediate {
            operation,
            set_flags,
            rd,
            ..
        }
        | ArmInstr::DataShifted {
            operation,
            set_flags,
            rd,
            ..
        } => bad_return(operation, set_flags, rd, state),
        ArmInstr::DataRegisterShifted {
            operation,
            set_flags,
            rn,
            rd,
            rs,
            rm,
            ..
        } => bad_return(operation, set_flags, rd, state)
            || rd == 15
            || rn == 15
            || rm == 15
            || rs == 15,
        ArmInstr::Multiply {
            accumulate,
            rd,
            rn,
            rs,
            rm,
            ..
        } => rd == rm || rd == 15 || rs == 15 || rm == 15 || (accumulate && rn == 15),
        ArmInstr::MultiplyLong {
            high,
            low,
            rs,
            rm,
            ..
        } => bad_long(high, low, rs, rm),
        ArmInstr::Swap { rn, rd, rm, .. } => rn == 15
            || rd == 15
            || rm == 15
            || rn == rm
            || rn == rd,
        ArmInstr::BranchExchange { rm, .. } => operand_at(state, rm) % 4 == 2,
        ArmInstr::ReadStatus { saved, rd, .. } => rd == 15 || (saved && !has_saved(state)),
        ArmInstr::WriteStatus {
            saved,
            fields,
            rm,
            ..
        } => rm == 15 || bad_write(saved, u32::from(fields), register(state, rm), state),
        ArmInstr::WriteStatusImmediate {
            saved,
            fields,
            rotation,
            byte,
            ..
        } => bad_write(
            saved,
            u32::from(fields),
            rotate(u32::from(byte), 2 * u32::from(rotation)),
            state,
        ),
        ArmInstr::TransferImmediate {
            pre,
            up,
            byte,
            write_back,
            load,
            rn,
            rd,
            offset,
            ..
        } => {
            bad_base(pre, write_back, load, rn, rd)
                || bad_pc(
                    byte,
                    load,
                    rd,
                    transfer_at(state, pre, up, rn, u32::from(offset)),
                )
        }
        ArmInstr::TransferShifted {
            pre,
            up,
            byte,
            write_back,
            load,
            rn,
            rd,
            amount,
            shift,
            rm,
            ..
        } => {
            bad_base(pre, write_back, load, rn, rd)
                || bad_offset(pre, write_back, rn, rm)
                || bad_pc(
                    byte,
                    load,
                    rd,
                    transfer_at(
                        state,
                        pre,
                        up,
                        rn,
                        shifted_operand(state, shift, amount, rm).value,
                    ),
                )
        }
        ArmInstr::TransferHalf {
            pre,
            up,
            immediate,
            write_back,
            load,
            rn,
            rd,
            high,
            kind,
            low,
            ..
        } => {
            rd == 15
                || bad_base(pre, write_back, load, rn, rd)
                || (!immediate && bad_offset(pre, write_back, rn, low))
                || bad_half(
                    kind,
                    transfer_at(state, pre, up, rn, half_offset(state, immediate, high, low)),
                )
        }
        ArmInstr::TransferBlock {
            user,
            write_back,
            load,
            rn,
            list,
            ..
        } => {
            list == 0
                || rn == 15
                || bad_block_base(write_back, load, rn, u32::from(list))
                || bad_user(user, write_back, load, u32::from(list), state)
        }
        ArmInstr::Branch { .. } | ArmInstr::SoftwareInterrupt { .. } | ArmInstr::Undefined { .. } =>
            false,
    }
}

/// Whether a long multiply names pc, or one register twice where it may not.
fn bad_long(high: u8, low: u8, rs: u8, rm: u8) -> bool
    ensures { result ≡ (high == low || (high == rm || (low == rm || (is_pc high || (is_pc low || (is_pc rs || is_pc rm)))))) }
{
    high == low || high == rm || low == rm || high == 15 || low == 15 || rs == 15 || rm == 15
}
