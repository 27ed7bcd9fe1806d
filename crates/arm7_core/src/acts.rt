//! Instructions of ARM state that touch registers alone.

ghost use Rattle.std.specs.Prelude.{◌≡◌};
ghost use Rattle.sdt_word.specs.Rows.{FitsRow};
ghost use Rattle.arm_isa.specs.ArmRows.{arm_fields, arm_row};
ghost use Rattle.arm7_core.specs.Acts.{acted, is_on_registers};

use arm_isa::ArmInstr;
use arm7_model::ArmState;
use arm7_registers::{
    branch, calculate, carry_in, exchange_state, immediate_operand, multiply, multiply_long,
    operand_at, read_status, register, register_shifted_operand, shifted_operand, write_status,
};
use sdt_word::rotate;

/// Whether an instruction touches registers alone.
#[inline(always)]
pub fn is_on_registers(i: &ArmInstr) -> bool
    ensures { result ≡ is_on_registers i.now }
{
    match *i {
        ArmInstr::DataImmediate { .. }
        | ArmInstr::DataShifted { .. }
        | ArmInstr::DataRegisterShifted { .. }
        | ArmInstr::Multiply { .. }
        | ArmInstr::MultiplyLong { .. }
        | ArmInstr::BranchExchange { .. }
        | ArmInstr::ReadStatus { .. }
        | ArmInstr::WriteStatus { .. }
        | ArmInstr::WriteStatusImmediate { .. }
        | ArmInstr::Branch { .. } => true,
        ArmInstr::Swap { .. }
        | ArmInstr::TransferImmediate { .. }
        | ArmInstr::TransferShifted { .. }
        | ArmInstr::TransferHalf { .. }
        | ArmInstr::TransferBlock { .. }
        | ArmInstr::SoftwareInterrupt { .. }
        | ArmInstr::Undefined { .. } => false,
    }
}

/// Does what the instruction does to registers; nothing, where it touches more.
#[inline(always)]
pub fn act(state: &mut ArmState, i: &ArmInstr)
    requires { FitsRow (arm_row i.now) (arm_fields i.now) }
    ensures { state.new ≡ acted i.now state.old }
{
    match *i {
        ArmInstr::DataImmediate {
            operation,
            set_flags,
            rn,
            rd,
            rotation,
            byte,
            ..
        } => {
            let operand = immediate_operand(rotation, byte, carry_in(state.cpsr));
            calculate(state, operation, set_flags, rn, rd, operand);
        }
        ArmInstr::DataShifted {
            operation,
            set_flags,
            rn,
            rd,
            amount,
            shift,
            rm,
            ..
        } => {
            let operand = shifted_operand(state, shift, amount, rm);
            calculate(state, operation, set_flags, rn, rd, operand);
        }
        ArmInstr::DataRegisterShifted {
            operation,
            set_flags,
            rn,
            rd,
            rs,
            shift,
            rm,
            ..
        } => {
            let operand = register_shifted_operand(state, shift, rs, rm);
            calculate(state, operation, set_flags, rn, rd, operand);
        }
        ArmInstr::Multiply {
            accumulate,
            set_flags,
            rd,
            rn,
            rs,
            rm,
            ..
        } => multiply(state, accumulate, set_flags, rd, rn, rs, rm),
        ArmInstr::MultiplyLong {
            signed,
            accumulate,
            set_flags,
            high,
            low,
            rs,
            rm,
            ..
        } => multiply_long(state, signed, accumulate, set_flags, high, low, rs, rm),
        ArmInstr::BranchExchange { rm, .. } => {
            let target = operand_at(state, rm);
            exchange_state(state, target);
        }
        ArmInstr::ReadStatus { saved, rd, .. } => read_status(state, saved, rd),
        ArmInstr::WriteStatus {
            saved,
            fields,
            rm,
            ..
        } => {
            let v = register(state, rm);
            write_status(state, saved, u32::from(fields), v);
        }
        ArmInstr::WriteStatusImmediate {
            saved,
            fields,
            rotation,
            byte,
            ..
        } => {
            let v = rotate(u32::from(byte), 2 * u32::from(rotation));
            write_status(state, saved, u32::from(fields), v);
        }
        ArmInstr::Branch {
            link,
            displacement,
            ..
        } => branch(state, link, displacement),
        ArmInstr::Swap { .. }
        | ArmInstr::TransferImmediate { .. }
        | ArmInstr::TransferShifted { .. }
        | ArmInstr::TransferHalf { .. }
        | ArmInstr::TransferBlock { .. }
        | ArmInstr::SoftwareInterrupt { .. }
        | ArmInstr::Undefined { .. } => {}
    }
}
