//! What an instruction of ARM state does to registers and bus.

ghost use Rattle.std.specs.Prelude.{◌≡◌, ◌<◌, [], false, if◌then◌else◌};
ghost use Rattle.sdt_word.specs.Rows.{FitsRow};
ghost use Rattle.arm_isa.specs.ArmRows.{arm_fields, arm_row};
ghost use Rattle.arm7_model.specs.declared.event.Exception.TheVariants as exception;
ghost use Rattle.arm7_model.specs.ArmStep.{arm_done, arm_effect};
ghost use Rattle.arm7_model.specs.Branches.{is_host};
ghost use Rattle.arm7_transfers.specs.declared.outcome.Outcome.TheVariants as outcome;
ghost use Rattle.arm7_transfers.specs.Done.{IsDone};
ghost use Rattle.arm7_transfers.specs.Ready.{IsReady};
ghost use Rattle.arm7_transfers.specs.Views.{state_of};
ghost use Rattle.arm7_core.specs.Acts.{held_back, is_on_registers};

use crate::acts::{act, is_on_registers};
use arm_isa::ArmInstr;
use arm7_bus::Bus;
use arm7_model::{ArmState, Exception};
use arm7_registers::{
    arm_condition, arm_unpredictable, branch, byte_width, calculate, carry_in, half_offset,
    half_signed, half_width, immediate_operand, is_host, passes, shifted_operand,
};
use arm7_transfers::{Base, Block, Outcome, block_moved, swapped, transferred};
use sdt_outside::Device;

/// What a software interrupt is: the host's, or an exception.
fn interrupt_outcome(number: u32) -> Outcome
    ensures { result ≡ (if is_host number then outcome.Host number else outcome.Raised exception.SoftwareInterrupt) }
{
    if is_host(number) {
        Outcome::Host(number)
    } else {
        Outcome::Raised(Exception::SoftwareInterrupt)
    }
}

/// Does what an instruction does that touches more than registers.
fn effect_outside(core: &mut ArmState, bus: &mut Bus, i: &ArmInstr) -> Outcome
    requires ready { IsReady (state_of base size state touched bus.old) }
    requires quiet { (state_of base size state touched bus.old).contents.stores ≡ [] }
    requires fits { FitsRow (arm_row i.now) (arm_fields i.now) }
    requires more { is_on_registers i.now ≡ false }
    ensures done { IsDone (λ u w. arm_effect u i.now w) core.old (state_of base size state touched bus.old) result core.new (state_of base size state touched bus.new) }
    ensures ready { IsReady (state_of base size state touched bus.new) }
{
    match *i {
        ArmInstr::Swap {
            byte,
            rn,
            rd,
            rm,
            ..
        } => swapped(core, bus, byte_width(byte), rn, rd, rm),
        ArmInstr::TransferImmediate {
            pre,
            up,
            byte,
            write_back,
            load,
            rn,
            rd,
            offset,
            ..
        } => {
            let by = Base {
                pre,
                up,
                write_back,
                register: rn,
                offset: u32::from(offset),
            };
            transferred(core, bus, load, false, byte_width(byte), rd, by)
        }
        ArmInstr::TransferShifted {
            pre,
            up,
            byte,
            write_back,
            load,
            rn,
            rd,
            amount,
            shift,
            rm,
            ..
        } => {
            let operand = shifted_operand(core, shift, amount, rm);
            let by = Base {
                pre,
                up,
                write_back,
                register: rn,
                offset: operand.value,
            };
            transferred(core, bus, load, false, byte_width(byte), rd, by)
        }
        ArmInstr::TransferHalf {
            pre,
            up,
            immediate,
            write_back,
            load,
            rn,
            rd,
            high,
            kind,
            low,
            ..
        } => {
            let offset = half_offset(core, immediate, high, low);
            let by = Base {
                pre,
                up,
                write_back,
                register: rn,
                offset,
            };
            transferred(core, bus, load, half_signed(kind), half_width(kind), rd, by)
        }
        ArmInstr::TransferBlock {
            pre,
            up,
            user,
            write_back,
            load,
            rn,
            list,
            ..
        } => {
            let by = Block {
                pre,
                up,
                user,
                write_back,
                register: rn,
                list: u32::from(list),
            };
            block_moved(core, bus, false, load, by)
        }
        ArmInstr::SoftwareInterrupt { number, .. } => interrupt_outcome(number),
        ArmInstr::Undefined { .. } => Outcome::Raised(Exception::Undefined),
        ArmInstr::DataImmediate { .. }
        | ArmInstr::DataShifted { .. }
        | ArmInstr::DataRegisterShifted { .. }
        | ArmInstr::Multiply { .. }
        | ArmInstr::MultiplyLong { .. }
        | ArmInstr::BranchExchange { .. }
        | ArmInstr::ReadStatus { .. }
        | ArmInstr::WriteStatus { .. }
        | ArmInstr::WriteStatusImmediate { .. }
        | ArmInstr::Branch { .. } => Outcome::Ran,
    }
}

/// Does what a predictable instruction does whose condition holds.
fn effect(core: &mut ArmState, bus: &mut Bus, i: &ArmInstr) -> Outcome
    requires ready { IsReady (state_of base size state touched bus.old) }
    requires quiet { (state_of base size state touched bus.old).contents.stores ≡ [] }
    requires fits { FitsRow (arm_row i.now) (arm_fields i.now) }
    ensures done { IsDone (λ u w. arm_effect u i.now w) core.old (state_of base size state touched bus.old) result core.new (state_of base size state touched bus.new) }
    ensures ready { IsReady (state_of base size state touched bus.new) }
{
    if is_on_registers(i) {
        act(core, i);
        return Outcome::Ran;
    }
    effect_outside(core, bus, i)
}

/// What an instruction ends with before it has an effect: its condition fails, or it is unpredictable.
#[inline(always)]
fn held_back(core: &ArmState, i: &ArmInstr) -> Option<Outcome>
    requires { FitsRow (arm_row i.now) (arm_fields i.now) }
    ensures { result ≡ held_back i.now core.now }
{
    if !passes(arm_condition(i), core.cpsr) {
        return Some(Outcome::Ran);
    }
    if arm_unpredictable(i, core) {
        return Some(Outcome::Unpredictable);
    }
    None
}

/// Does what an instruction does, of whichever row.
#[inline(never)]
fn do_any(core: &mut ArmState, bus: &mut Bus, i: &ArmInstr) -> Outcome
    requires ready { IsReady (state_of base size state touched bus.old) }
    requires quiet { (state_of base size state touched bus.old).contents.stores ≡ [] }
    requires fits { FitsRow (arm_row i.now) (arm_fields i.now) }
    ensures done { IsDone (λ u w. arm_done u i.now w) core.old (state_of base size state touched bus.old) result core.new (state_of base size state touched bus.new) }
    ensures ready { IsReady (state_of base size state touched bus.new) }
{
    if let Some(held) = held_back(core, i) {
        return held;
    }
    effect(core, bus, i)
}

/// Does what an instruction does. The rows that programs have most have arms of their own, in which the compiler knows the
/// row and no later test asks for it; a call keeps the others out of the loop of a run.
#[inline(always)]
pub fn do_arm(core: &mut ArmState, bus: &mut Bus, i: &ArmInstr) -> Outcome
    requires ready { IsReady (state_of base size state touched bus.old) }
    requires quiet { (state_of base size state touched bus.old).contents.stores ≡ [] }
    requires fits { FitsRow (arm_row i.now) (arm_fields i.now) }
    ensures done { IsDone (λ u w. arm_done u i.now w) core.old (state_of base size state touched bus.old) result core.new (state_of base size state touched bus.new) }
    ensures ready { IsReady (state_of base size state touched bus.new) }
{
    match *i {
        ArmInstr::DataImmediate {
            operation,
            set_flags,
            rn,
            rd,
            rotation,
            byte,
            ..
        } => {
            if let Some(held) = held_back(core, i) {
                return held;
            }
            let operand = immediate_operand(rotation, byte, carry_in(core.cpsr));
            calculate(core, operation, set_flags, rn, rd, operand);
            Outcome::Ran
        }
        ArmInstr::DataShifted {
            operation,
            set_flags,
            rn,
            rd,
            amount,
            shift,
            rm,
            ..
        } => {
            if let Some(held) = held_back(core, i) {
                return held;
            }
            let operand = shifted_operand(core, shift, amount, rm);
            calculate(core, operation, set_flags, rn, rd, operand);
            Outcome::Ran
        }
        ArmInstr::TransferImmediate {
            pre,
            up,
            byte,
            write_back,
            load,
            rn,
            rd,
            offset,
            ..
        } => {
            if let Some(held) = held_back(core, i) {
                return held;
            }
            let by = Base {
                pre,
                up,
                write_back,
                register: rn,
                offset: u32::from(offset),
            };
            transferred(core, bus, load, false, byte_width(byte), rd, by)
        }
        ArmInstr::TransferBlock {
            pre,
            up,
            user,
            write_back,
            load,
            rn,
            list,
            ..
        } => {
            if let Some(held) = held_back(core, i) {
                return held;
            }
            let by = Block {
                pre,
                up,
                user,
                write_back,
                register: rn,
                list: u32::from(list),
            };
            block_moved(core, bus, false, load, by)
        }
        ArmInstr::Branch {
            link,
            displacement,
            ..
        } => {
            if let Some(held) = held_back(core, i) {
                return held;
            }
            branch(core, link, displacement);
            Outcome::Ran
        }
        _ => do_any(core, bus, i),
    }
}
