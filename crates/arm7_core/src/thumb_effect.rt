//! What an instruction of Thumb state does to registers and bus.

ghost use Rattle.std.specs.Prelude.{◌≡◌, ◌<◌, [], if◌then◌else◌};
ghost use Rattle.arm7_model.specs.declared.event.Exception.TheVariants as exception;
ghost use Rattle.arm7_transfers.specs.declared.outcome.Outcome.TheVariants as outcome;
ghost use Rattle.sdt_word.specs.Rows.{FitsRow};
ghost use Rattle.thumb_isa.specs.ThumbRows.{thumb_fields, thumb_row};
ghost use Rattle.arm7_model.specs.Branches.{is_host};
ghost use Rattle.arm7_model.specs.ThumbStep.{thumb_done, thumb_effect};
ghost use Rattle.arm7_transfers.specs.Done.{IsDone};
ghost use Rattle.arm7_transfers.specs.Ready.{IsReady};
ghost use Rattle.arm7_transfers.specs.Views.{state_of};

use crate::rows::{
    above, add_subtract, branch_where, link_half, literal_address, multiple_block, shift_immediate,
    stack_block,
};
use arm7_bus::Bus;
use arm7_model::{ArmState, Exception};
use arm7_registers::{
    adjust_stack, branch_thumb, byte_width, do_high, do_immediate, do_register, has_sign,
    high_number, immediate_offset, is_host, load_address, register, signed_load, signed_width,
    thumb_unpredictable,
};
use arm7_transfers::{Outcome, block_moved, loaded, transferred};
use sdt_outside::Device;
use sdt_word::Width;
use thumb_isa::ThumbInstr;

/// What a software interrupt is: the host's, or an exception.
fn interrupt_outcome(number: u8) -> Outcome
    ensures { result ≡ (if is_host number then outcome.Host number else outcome.Raised exception.SoftwareInterrupt) }
{
    if is_host(u32::from(number)) {
        Outcome::Host(u32::from(number))
    } else {
        Outcome::Raised(Exception::SoftwareInterrupt)
    }
}

/// Does what a predictable instruction does.
fn effect(core: &mut ArmState, bus: &mut Bus, i: &ThumbInstr) -> Outcome
    requires ready { IsReady (state_of base size state touched bus.old) }
    requires quiet { (state_of base size state touched bus.old).contents.stores ≡ [] }
    requires fits { FitsRow (thumb_row i.now) (thumb_fields i.now) }
    ensures done { IsDone (λ u w. thumb_effect u i.now w) core.old (state_of base size state touched bus.old) result core.new (state_of base size state touched bus.new) }
    ensures ready { IsReady (state_of base size state touched bus.new) }
{
    match *i {
        ThumbInstr::ShiftImmediate {
            shift,
            amount,
            rs,
            rd,
        } => {
            shift_immediate(core, shift, amount, rs, rd);
            Outcome::Ran
        }
        ThumbInstr::AddSubtract {
            immediate,
            subtract,
            operand,
            rs,
            rd,
        } => {
            add_subtract(core, immediate, subtract, operand, rs, rd);
            Outcome::Ran
        }
        ThumbInstr::DataImmediate {
            operation,
            rd,
            immediate,
        } => {
            do_immediate(core, operation, rd, immediate);
            Outcome::Ran
        }
        ThumbInstr::DataRegister { operation, rs, rd } => {
            do_register(core, operation, rs, rd);
            Outcome::Ran
        }
        ThumbInstr::HighRegister {
            operation,
            high_rd,
            high_rs,
            rs,
            rd,
        } => {
            let source = high_number(high_rs, rs);
            let target = high_number(high_rd, rd);
            do_high(core, operation, source, target);
            Outcome::Ran
        }
        ThumbInstr::LoadAddress { stack, rd, offset } => {
            load_address(core, stack, rd, offset);
            Outcome::Ran
        }
        ThumbInstr::AdjustStack { subtract, offset } => {
            adjust_stack(core, subtract, offset);
            Outcome::Ran
        }
        ThumbInstr::BranchConditional { condition, offset } => {
            branch_where(core, condition, offset);
            Outcome::Ran
        }
        ThumbInstr::Branch { offset } => {
            branch_thumb(core, 11, u32::from(offset));
            Outcome::Ran
        }
        ThumbInstr::BranchLink { second, offset } => {
            link_half(core, second, offset);
            Outcome::Ran
        }
        ThumbInstr::SoftwareInterrupt { number } => interrupt_outcome(number),
        ThumbInstr::Undefined { .. } => Outcome::Raised(Exception::Undefined),
        ThumbInstr::LoadLiteral { rd, offset } => {
            let a = literal_address(core, offset);
            loaded(core, bus, false, Width::Word, a, rd, above(0, 0))
        }
        ThumbInstr::TransferRegister {
            load,
            byte,
            ro,
            rn,
            rd,
        } => {
            let by = above(rn, register(core, ro));
            transferred(core, bus, load, false, byte_width(byte), rd, by)
        }
        ThumbInstr::TransferSigned { kind, ro, rn, rd } => {
            let by = above(rn, register(core, ro));
            transferred(
                core,
                bus,
                signed_load(kind),
                has_sign(kind),
                signed_width(kind),
                rd,
                by,
            )
        }
        ThumbInstr::TransferImmediate {
            byte,
            load,
            offset,
            rn,
            rd,
        } => {
            let by = above(rn, immediate_offset(byte, offset));
            transferred(core, bus, load, false, byte_width(byte), rd, by)
        }
        ThumbInstr::TransferHalf {
            load,
            offset,
            rn,
            rd,
        } => {
            let by = above(rn, 2 * u32::from(offset));
            transferred(core, bus, load, false, Width::Half, rd, by)
        }
        ThumbInstr::TransferStack { load, rd, offset } => {
            let by = above(13, 4 * u32::from(offset));
            transferred(core, bus, load, false, Width::Word, rd, by)
        }
        ThumbInstr::PushPop { load, link, list } => {
            let by = stack_block(load, link, list);
            block_moved(core, bus, true, load, by)
        }
        ThumbInstr::TransferMultiple { load, rn, list } => {
            let by = multiple_block(load, rn, list);
            block_moved(core, bus, true, load, by)
        }
    }
}

/// Does what an instruction does.
#[tactic(auto, unfolding(arm7_model::specs::ThumbStep::thumb_done))]
pub fn do_thumb(core: &mut ArmState, bus: &mut Bus, i: &ThumbInstr) -> Outcome
    requires ready { IsReady (state_of base size state touched bus.old) }
    requires quiet { (state_of base size state touched bus.old).contents.stores ≡ [] }
    requires fits { FitsRow (thumb_row i.now) (thumb_fields i.now) }
    ensures done { IsDone (λ u w. thumb_done u i.now w) core.old (state_of base size state touched bus.old) result core.new (state_of base size state touched bus.new) }
    ensures ready { IsReady (state_of base size state touched bus.new) }
{
    if thumb_unpredictable(i, core) {
        return Outcome::Unpredictable;
    }
    effect(core, bus, i)
}
