//! Reading and writing registers: the visible ones, the banked ones and the status registers. A register's
//! number is below 16.

ghost use Rattle.std.specs.Prelude.{◌≡◌, ◌<◌, ◌≤◌, ◌-◌, if◌then◌else◌, slice_set};
ghost use Rattle.arm7_model.specs.Registers.{as_pc, bank_after, bank_in, is_thumb, operand_at, register, restored, saved, stored_at, user_register, visible_after, with_cpsr, with_high, with_other_high, with_pair, with_pc, with_register, with_result, with_saved, with_user_register};

use crate::modes::{bank_in, is_thumb};
use arm7_model::ArmState;

/// A visible register.
#[tactic(auto, unfolding(arm7_model::specs::Registers::register))]
pub fn register(state: &ArmState, k: u8) -> u32
    requires { k < 16 }
    ensures { result ≡ register state.now k }
{
    state.r[usize::from(k)]
}

/// Writes a visible register, pc too as it is.
#[tactic(auto, unfolding(arm7_model::specs::Registers::with_register))]
pub fn set_register(state: &mut ArmState, k: u8, v: u32)
    requires { k < 16 }
    ensures { state.new ≡ with_register state.old k v }
{
    state.r[usize::from(k)] = v;
}

/// An address with its low bits cleared: one in Thumb state, else two.
#[tactic(auto, unfolding(arm7_model::specs::Registers::as_pc))]
fn as_pc(status: u32, v: u32) -> u32
    ensures { result ≡ as_pc status v }
{
    if is_thumb(status) {
        v - v % 2
    } else {
        v - v % 4
    }
}

/// Writes an address to pc.
#[tactic(auto, unfolding(arm7_model::specs::Registers::with_pc))]
pub fn set_pc(state: &mut ArmState, v: u32)
    ensures { state.new ≡ with_pc state.old v }
{
    let address = as_pc(state.cpsr, v);
    set_register(state, 15, address);
}

/// Writes a result; in pc it is an address.
#[tactic(auto, unfolding(arm7_model::specs::Registers::with_result))]
pub fn set_result(state: &mut ArmState, k: u8, v: u32)
    requires { k < 16 }
    ensures { state.new ≡ with_result state.old k v }
{
    if k == 15 {
        set_pc(state, v);
    } else {
        set_register(state, k, v);
    }
}

/// How far above r15 of the state pc reads as an operand.
fn pc_ahead(status: u32) -> u32
    ensures { result ≡ (if is_thumb status then 2 else 4) }
{
    if is_thumb(status) { 2 } else { 4 }
}

/// A register as an operand: pc is the instruction's address and 8, in Thumb state 4.
#[tactic(auto, unfolding(arm7_model::specs::Registers::operand_at))]
pub fn operand_at(state: &ArmState, k: u8) -> u32
    requires { k < 16 }
    ensures { result ≡ operand_at state.now k }
{
    if k == 15 {
        register(state, 15).wrapping_add(pc_ahead(state.cpsr))
    } else {
        register(state, k)
    }
}

/// A register as a store writes it: pc is the instruction's address and 12.
#[tactic(auto, unfolding(arm7_model::specs::Registers::stored_at))]
pub fn stored_at(state: &ArmState, k: u8) -> u32
    requires { k < 16 }
    ensures { result ≡ stored_at state.now k }
{
    if k == 15 {
        register(state, 15).wrapping_add(8)
    } else {
        register(state, k)
    }
}

/// r8 to r12 change places with the banked ones.
#[tactic(auto, unfolding(arm7_model::specs::Registers::with_other_high))]
fn swap_high(state: &mut ArmState)
    ensures { state.new ≡ with_other_high state.old }
{
    state.r[8..13].swap_with_slice(&mut state.banks.high);
}

/// They do so where one of the two banks is FIQ mode's, and the other isn't.
#[tactic(auto, unfolding(arm7_model::specs::Registers::with_high))]
fn switch_high(state: &mut ArmState, from: usize, to: usize)
    ensures { state.new ≡ with_high from to state.old }
{
    if (from == 1) != (to == 1) {
        swap_high(state);
    }
}

/// Puts the visible register into its bank and takes the other mode's out, leaving 0.
fn exchange(banked: &mut [u32; 6], from: usize, to: usize, visible: u32) -> u32
    requires from_mode { from < 6 }
    requires to_mode { to < 6 }
    ensures value { result ≡ visible_after from to visible banked.old }
    ensures bank { banked.new ≡ bank_after from to visible banked.old }
{
    banked[from] = visible;
    let v = banked[to];
    banked[to] = 0;
    v
}

/// r13 and r14 become those of the other bank.
#[tactic(auto, unfolding(arm7_model::specs::Registers::with_pair))]
fn switch_pair(state: &mut ArmState, from: usize, to: usize)
    requires from_mode { from < 6 }
    requires to_mode { to < 6 }
    ensures { state.new ≡ with_pair from to state.old }
{
    state.r[13] = exchange(&mut state.banks.r13, from, to, state.r[13]);
    state.r[14] = exchange(&mut state.banks.r14, from, to, state.r[14]);
}

/// Writes CPSR; the registers of its mode become the visible ones.
#[tactic(auto, unfolding(arm7_model::specs::Registers::with_cpsr))]
pub fn set_cpsr(state: &mut ArmState, status: u32)
    ensures { state.new ≡ with_cpsr state.old status }
{
    let from = bank_in(state.cpsr);
    let to = bank_in(status);
    switch_high(state, from, to);
    switch_pair(state, from, to);
    state.cpsr = status;
}

/// The place of the mode's SPSR; 0 in a mode without one.
fn saved_place(status: u32) -> usize
    ensures value { result ≡ bank_in status - 1 }
    ensures below { result < 5 }
{
    bank_in(status).saturating_sub(1)
}

/// The SPSR of the mode.
#[tactic(auto, unfolding(arm7_model::specs::Registers::saved))]
pub fn saved(state: &ArmState) -> u32
    ensures { result ≡ saved state.now }
{
    state.spsr[saved_place(state.cpsr)]
}

/// Writes the SPSR of the mode.
#[tactic(auto, unfolding(arm7_model::specs::Registers::with_saved))]
pub fn set_saved(state: &mut ArmState, status: u32)
    ensures { state.new ≡ with_saved state.old status }
{
    state.spsr[saved_place(state.cpsr)] = status;
}

/// CPSR becomes SPSR.
#[tactic(auto, unfolding(arm7_model::specs::Registers::restored))]
pub fn restore(state: &mut ArmState)
    ensures { state.new ≡ restored state.old }
{
    let status = saved(state);
    set_cpsr(state, status);
}

/// A register of user mode, in a mode with an SPSR.
#[tactic(auto, unfolding(arm7_model::specs::Registers::user_register))]
pub fn user_register(state: &ArmState, k: u8) -> u32
    requires { k < 16 }
    ensures { result ≡ user_register state.now k }
{
    if k == 13 {
        return state.banks.r13[0];
    }
    if k == 14 {
        return state.banks.r14[0];
    }
    if k < 8 || k == 15 {
        return stored_at(state, k);
    }
    if bank_in(state.cpsr) == 1 {
        return state.banks.high[usize::from(k - 8)];
    }
    register(state, k)
}

/// Writes a register of user mode, in a mode with an SPSR. pc has no other mode's: in FIQ mode a write of
/// it does nothing.
#[tactic(auto, unfolding(arm7_model::specs::Registers::with_user_register))]
pub fn set_user_register(state: &mut ArmState, k: u8, v: u32)
    requires { k < 16 }
    ensures { state.new ≡ with_user_register state.old k v }
{
    if k == 13 {
        state.banks.r13[0] = v;
    } else if k == 14 {
        state.banks.r14[0] = v;
    } else if k >= 8 && bank_in(state.cpsr) == 1 {
        set_high(&mut state.banks.high, k, v);
    } else {
        set_register(state, k, v);
    }
}

/// Writes one of the banked r8 to r12.
fn set_high(high: &mut [u32; 5], k: u8, v: u32)
    requires { 8 ≤ k }
    ensures { high.new ≡ slice_set high.old (k - 8) v }
{
    if k < 13 {
        high[usize::from(k - 8)] = v;
    }
}
