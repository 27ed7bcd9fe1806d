//! Data processing, multiplies and moves of the status registers.

ghost use Rattle.std.specs.Prelude.{◌≡◌, ◌<◌, ◌+◌, ◌*◌, ◌/◌, ◌%◌, ◌^◌, if◌then◌else◌};
ghost use Rattle.sdt_word.specs.Numbers.{bit, bits, flag};
ghost use Rattle.arm7_model.specs.Arithmetic.{carry_in, overflow_in, zero_of};
ghost use Rattle.arm7_model.specs.Data.{calculated, completed, flagged, kept_flags, long_flags, long_product, multiplied, multiplied_long, names, read_status, status_after, status_fields, status_with, written_status};
ghost use Rattle.arm7_model.specs.Registers.{register, saved};
ghost use Rattle.arm7_registers.specs.Values.{computed_of, shifted_of};

use crate::arithmetic::{Computation, computed, is_comparison, value_of};
use crate::flags::{bit, carry_in, overflow_in, with_flags};
use crate::modes::is_user;
use crate::registers::{
    operand_at, register, restore, saved, set_cpsr, set_pc, set_register, set_result, set_saved,
};
use crate::shifter::{Operand, as_64_bits};
use arm_isa::Operation;
use arm7_model::ArmState;
use sdt_word::field;

/// Sets the flags of a result.
#[tactic(auto, unfolding(arm7_model::specs::Data::flagged))]
fn set_flags_of(state: &mut ArmState, computation: Computation)
    ensures { state.new ≡ flagged state.old (computed_of computation) }
{
    state.cpsr = with_flags(
        state.cpsr,
        computation.value,
        computation.carry,
        computation.overflow,
    );
}

/// Writes a result. With S and pc, CPSR becomes SPSR and pc is cleared by the new state.
#[tactic(auto, unfolding(arm7_model::specs::Data::completed))]
fn complete(
    state: &mut ArmState,
    operation: Operation,
    set_flags: bool,
    rd: u8,
    computation: Computation,
)
    requires { rd < 16 }
    ensures { state.new ≡ completed operation set_flags rd (computed_of computation) state.old }
{
    if is_comparison(operation) {
        set_flags_of(state, computation);
    } else if !set_flags {
        set_result(state, rd, computation.value);
    } else if rd == 15 {
        restore(state);
        set_pc(state, computation.value);
    } else {
        set_flags_of(state, computation);
        set_register(state, rd, computation.value);
    }
}

/// The operation with its flags.
#[inline(never)]
#[tactic(auto, unfolding(arm7_model::specs::Data::calculated))]
fn calculate_with_flags(
    state: &mut ArmState,
    operation: Operation,
    set_flags: bool,
    rn: u8,
    rd: u8,
    operand: Operand,
)
    requires first { rn < 16 }
    requires target { rd < 16 }
    ensures { state.new ≡ calculated operation set_flags rn rd (shifted_of operand) state.old }
{
    let computation = computed(operation, operand_at(state, rn), operand, state.cpsr);
    complete(state, operation, set_flags, rd, computation);
}

/// The operation on register `rn` and the shifter's operand, into register `rd`. Without S only its value is computed.
#[inline(always)]
#[tactic(auto, unfolding(arm7_model::specs::Data::calculated, arm7_model::specs::Data::completed))]
pub fn calculate(
    state: &mut ArmState,
    operation: Operation,
    set_flags: bool,
    rn: u8,
    rd: u8,
    operand: Operand,
)
    requires first { rn < 16 }
    requires target { rd < 16 }
    ensures { state.new ≡ calculated operation set_flags rn rd (shifted_of operand) state.old }
{
    if set_flags {
        calculate_with_flags(state, operation, true, rn, rd, operand);
        return;
    }
    match value_of(operation, operand_at(state, rn), operand, state.cpsr) {
        Some(v) => set_result(state, rd, v),
        None => calculate_with_flags(state, operation, false, rn, rd, operand),
    }
}

/// Sets N and Z of a value.
fn keep_flags(state: &mut ArmState, v: u32)
    ensures { state.new ≡ kept_flags state.old v }
{
    state.cpsr = with_flags(state.cpsr, v, carry_in(state.cpsr), overflow_in(state.cpsr));
}

/// What MLA adds.
fn addend(state: &ArmState, accumulate: bool, rn: u8) -> u32
    requires { rn < 16 }
    ensures { result ≡ (if accumulate then register state.now rn else 0) }
{
    if accumulate { register(state, rn) } else { 0 }
}

/// MUL and MLA. With S they set N and Z, and keep C and V.
#[tactic(auto, unfolding(arm7_model::specs::Data::multiplied))]
pub fn multiply(
    state: &mut ArmState,
    accumulate: bool,
    set_flags: bool,
    rd: u8,
    rn: u8,
    rs: u8,
    rm: u8,
)
    requires target { rd < 16 }
    requires added { rn < 16 }
    requires first { rs < 16 }
    requires second { rm < 16 }
    ensures { state.new ≡ multiplied accumulate set_flags rd rn rs rm state.old }
{
    let product = register(state, rm).wrapping_mul(register(state, rs));
    let v = product.wrapping_add(addend(state, accumulate, rn));
    if set_flags {
        keep_flags(state, v);
    }
    set_register(state, rd, v);
}

/// The product of two words as 64 bits, with or without sign.
#[tactic(auto, unfolding(arm7_model::specs::Data::long_product))]
fn long_product(signed: bool, a: u32, b: u32) -> u64
    ensures { result ≡ long_product signed a b }
{
    if signed {
        as_64_bits(a).wrapping_mul(as_64_bits(b))
    } else {
        u64::from(a) * u64::from(b)
    }
}

/// What UMLAL and SMLAL add.
fn long_addend(state: &ArmState, accumulate: bool, high: u8, low: u8) -> u64
    requires upper { high < 16 }
    requires lower { low < 16 }
    ensures { result ≡ (if accumulate then register state.now high * 2 ^ 32 + register state.now low else 0) }
{
    if accumulate {
        u64::from(register(state, high)) * 0x1_0000_0000 + u64::from(register(state, low))
    } else {
        0
    }
}

/// 1 where all 64 bits are 0.
fn zero_of(v: u64) -> u32
    ensures { result ≡ zero_of v }
{
    if v == 0 { 1 } else { 0 }
}

/// Sets N and Z of 64 bits.
fn set_long_flags(state: &mut ArmState, v: u64)
    ensures { state.new ≡ long_flags state.old v }
{
    state.cpsr = (v >> 63) as u32 * 0x8000_0000
        + zero_of(v) * 0x4000_0000
        + u32::from(carry_in(state.cpsr)) * 0x2000_0000
        + u32::from(overflow_in(state.cpsr)) * 0x1000_0000
        + state.cpsr % 0x1000_0000;
}

/// UMULL, UMLAL, SMULL and SMLAL. With S they set N and Z of 64 bits, and keep C and V.
#[tactic(auto, unfolding(arm7_model::specs::Data::multiplied_long))]
pub fn multiply_long(
    state: &mut ArmState,
    signed: bool,
    accumulate: bool,
    set_flags: bool,
    high: u8,
    low: u8,
    rs: u8,
    rm: u8,
)
    requires upper { high < 16 }
    requires lower { low < 16 }
    requires first { rs < 16 }
    requires second { rm < 16 }
    ensures { state.new ≡ multiplied_long signed accumulate set_flags high low rs rm state.old }
{
    let product = long_product(signed, register(state, rm), register(state, rs));
    let v = product.wrapping_add(long_addend(state, accumulate, high, low));
    if set_flags {
        set_long_flags(state, v);
    }
    set_register(state, low, (v % 0x1_0000_0000) as u32);
    set_register(state, high, (v >> 32) as u32);
}

/// The flags that MSR writes: those of `v` where the mask names the field f.
fn flags_with(fields: u32, v: u32, old: u32) -> u32
    ensures { result ≡ (if names fields 3 then bits v 28 4 else bits old 28 4) }
{
    if bit(fields, 3) == 1 {
        field(v, 28, 4)
    } else {
        field(old, 28, 4)
    }
}

/// The control byte that MSR writes: that of `v` where the mask names the field c.
fn control_with(fields: u32, v: u32, old: u32) -> u32
    ensures { result ≡ (if names fields 0 then v % 256 else old % 256) }
{
    if bit(fields, 0) == 1 {
        v % 256
    } else {
        old % 256
    }
}

/// A status register with the named bytes of `v`; bits 27 to 8 read 0.
#[tactic(auto, unfolding(arm7_model::specs::Data::status_with))]
pub fn status_with(fields: u32, v: u32, old: u32) -> u32
    ensures { result ≡ status_with fields v old }
{
    flags_with(fields, v, old) * 0x1000_0000 + control_with(fields, v, old)
}

/// The mask of an MSR of CPSR: in user mode only the flags are written.
#[tactic(auto, unfolding(arm7_model::specs::Data::status_fields))]
fn status_fields(state: &ArmState, fields: u32) -> u32
    ensures { result ≡ status_fields state.now fields }
{
    if is_user(state.cpsr) {
        field(fields, 3, 1) * 8
    } else {
        fields
    }
}

/// CPSR as MSR would leave it.
#[tactic(auto, unfolding(arm7_model::specs::Data::status_after))]
pub fn status_after(state: &ArmState, fields: u32, v: u32) -> u32
    ensures { result ≡ status_after state.now fields v }
{
    status_with(status_fields(state, fields), v, state.cpsr)
}

/// SPSR or CPSR.
fn status_of(state: &ArmState, of_saved: bool) -> u32
    ensures { result ≡ (if of_saved then saved state.now else state.now.cpsr) }
{
    if of_saved { saved(state) } else { state.cpsr }
}

/// MRS.
#[tactic(auto, unfolding(arm7_model::specs::Data::read_status))]
pub fn read_status(state: &mut ArmState, of_saved: bool, rd: u8)
    requires { rd < 16 }
    ensures { state.new ≡ read_status of_saved rd state.old }
{
    let status = status_of(state, of_saved);
    set_register(state, rd, status);
}

/// MSR.
#[tactic(auto, unfolding(arm7_model::specs::Data::written_status))]
pub fn write_status(state: &mut ArmState, to_saved: bool, fields: u32, v: u32)
    ensures { state.new ≡ written_status to_saved fields v state.old }
{
    if to_saved {
        let status = status_with(fields, v, saved(state));
        set_saved(state, status);
    } else {
        let status = status_after(state, fields, v);
        set_cpsr(state, status);
    }
}
