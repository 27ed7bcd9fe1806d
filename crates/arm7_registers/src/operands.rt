//! Operands of ARM instructions.

ghost use Rattle.std.specs.Prelude.{◌≡◌, ◌<◌};
ghost use Rattle.arm7_model.specs.ArmStep.{byte_width, half_offset, half_signed, half_width, register_shifted_operand, shifted_operand, transfer_at};
ghost use Rattle.arm7_registers.specs.Values.{shifted_of};

use crate::addresses::transfer_address;
use crate::flags::carry_in;
use crate::registers::{operand_at, register};
use crate::shifter::{Operand, shifted_by_amount, shifted_by_register};
use arm_isa::HalfKind;
use arm7_model::ArmState;
use sdt_word::{ShiftKind, Width};

/// Register `rm` shifted by the amount in the instruction.
#[tactic(auto, unfolding(arm7_model::specs::ArmStep::shifted_operand))]
pub fn shifted_operand(state: &ArmState, kind: ShiftKind, amount: u8, rm: u8) -> Operand
    requires { rm < 16 }
    ensures { shifted_of result ≡ shifted_operand kind amount rm state.now }
{
    shifted_by_amount(
        kind,
        operand_at(state, rm),
        u32::from(amount),
        carry_in(state.cpsr),
    )
}

/// Register `rm` shifted by the low byte of register `rs`.
#[tactic(auto, unfolding(arm7_model::specs::ArmStep::register_shifted_operand))]
pub fn register_shifted_operand(state: &ArmState, kind: ShiftKind, rs: u8, rm: u8) -> Operand
    requires by { rs < 16 }
    requires shifted { rm < 16 }
    ensures { shifted_of result ≡ register_shifted_operand kind rs rm state.now }
{
    shifted_by_register(
        kind,
        register(state, rm),
        register(state, rs) % 256,
        carry_in(state.cpsr),
    )
}

/// The width of a transfer of a byte or a word.
pub fn byte_width(byte: bool) -> Width
    ensures { result ≡ byte_width byte }
{
    if byte { Width::Byte } else { Width::Word }
}

/// The width of a half-word transfer.
pub fn half_width(kind: HalfKind) -> Width
    ensures { result ≡ half_width kind }
{
    match kind {
        HalfKind::SignedByte => Width::Byte,
        HalfKind::Half | HalfKind::SignedHalf => Width::Half,
    }
}

/// Whether a half-word transfer has a sign.
pub fn half_signed(kind: HalfKind) -> bool
    ensures { result ≡ half_signed kind }
{
    match kind {
        HalfKind::Half => false,
        HalfKind::SignedByte | HalfKind::SignedHalf => true,
    }
}

/// The offset of a half-word transfer, in two parts or in a register.
#[tactic(auto, unfolding(arm7_model::specs::ArmStep::half_offset))]
pub fn half_offset(state: &ArmState, immediate: bool, high: u8, low: u8) -> u32
    requires { low < 16 }
    ensures { result ≡ half_offset immediate high low state.now }
{
    if immediate {
        16 * u32::from(high) + u32::from(low)
    } else {
        register(state, low)
    }
}

/// The address of a transfer with an offset from register `rn`.
#[tactic(auto, unfolding(arm7_model::specs::ArmStep::transfer_at))]
pub fn transfer_at(state: &ArmState, pre: bool, up: bool, rn: u8, offset: u32) -> u32
    requires { rn < 16 }
    ensures { result ≡ transfer_at pre up rn offset state.now }
{
    transfer_address(pre, up, operand_at(state, rn), offset)
}
