//! Addresses of loads and stores, their lists of registers, and what they write to registers.

ghost use Rattle.std.specs.Prelude.{◌≡◌, ◌<◌, ◌≤◌, if◌then◌else◌};
ghost use Rattle.sdt_word.specs.Codes.{bytes_in};
ghost use Rattle.sdt_word.specs.Numbers.{sign_extended};
ghost use Rattle.arm7_model.specs.Accesses.{aligned, next_word};
ghost use Rattle.arm7_model.specs.ArmStep.{is_lowest};
ghost use Rattle.arm7_model.specs.Blocks.{block_end, block_start, listed_at, lists, with_block_base, with_listed, with_loaded_pc};
ghost use Rattle.arm7_model.specs.Transfers.{loaded_value, moved_by, transfer_address, with_base, writes_back};

use crate::flags::bit;
use crate::registers::{
    operand_at, register, restore, set_pc, set_register, set_user_register, stored_at,
    user_register,
};
use arm7_model::ArmState;
use sdt_word::{Width, rotate, sign_extend};

/// An address with the bits cleared that an access of this width doesn't look at.
pub fn aligned(a: u32, width: Width) -> u32
    ensures { result ≡ aligned a (bytes_in width) }
{
    match width {
        Width::Byte => a,
        Width::Half => a - a % 2,
        Width::Word => a - a % 4,
    }
}

/// The next word's address.
pub fn next_word(a: u32) -> u32
    ensures { result ≡ next_word a }
{
    a.wrapping_add(4)
}

/// A base with an offset added or, where `up` is false, taken away.
#[tactic(auto, unfolding(arm7_model::specs::Transfers::moved_by))]
pub fn moved_by(up: bool, base: u32, offset: u32) -> u32
    ensures { result ≡ moved_by up base offset }
{
    if up {
        base.wrapping_add(offset)
    } else {
        base.wrapping_sub(offset)
    }
}

/// The address of an access: the moved base before the access, or the base itself.
#[tactic(auto, unfolding(arm7_model::specs::Transfers::transfer_address))]
pub fn transfer_address(pre: bool, up: bool, base: u32, offset: u32) -> u32
    ensures { result ≡ transfer_address pre up base offset }
{
    if pre {
        moved_by(up, base, offset)
    } else {
        base
    }
}

/// Whether the base register is written.
#[tactic(auto, unfolding(arm7_model::specs::Transfers::writes_back))]
pub fn writes_back(pre: bool, write_back: bool) -> bool
    ensures { result ≡ writes_back pre write_back }
{
    !pre || write_back
}

/// Writes the moved base back, where it is to be.
#[tactic(auto, unfolding(arm7_model::specs::Transfers::with_base))]
pub fn set_base(state: &mut ArmState, pre: bool, up: bool, write_back: bool, rn: u8, offset: u32)
    requires { rn < 16 }
    ensures { state.new ≡ with_base pre up write_back rn offset state.old }
{
    if writes_back(pre, write_back) {
        let base = moved_by(up, operand_at(state, rn), offset);
        set_register(state, rn, base);
    }
}

/// What a register gets of the number `v` at address `a`: a word rotated by the low bits of its address,
/// a byte or half-word with zeros or with its sign.
#[tactic(auto, unfolding(arm7_model::specs::Transfers::loaded_value))]
pub fn loaded_value(signed: bool, width: Width, a: u32, v: u32) -> u32
    ensures { result ≡ loaded_value signed width a v }
{
    match width {
        Width::Word => rotate(v, 8 * (a % 4)),
        Width::Half => extended(signed, v, 16),
        Width::Byte => extended(signed, v, 8),
    }
}

/// A number of `bits` bits with its sign, where it has one.
fn extended(signed: bool, v: u32, bits: u32) -> u32
    requires low { 1 ≤ bits }
    requires high { bits ≤ 32 }
    ensures { result ≡ (if signed then sign_extended v bits else v) }
{
    if signed { sign_extend(v, bits) } else { v }
}

/// Whether a register stands in a list.
pub fn lists(list: u32, k: u8) -> bool
    requires { k < 16 }
    ensures { result ≡ lists list k }
{
    bit(list, u32::from(k)) == 1
}

/// Whether no register of a list lies below `k`.
pub fn is_lowest(list: u32, k: u8) -> bool
    requires { k < 16 }
    ensures { result ≡ is_lowest list k }
{
    list % (1 << k) == 0
}

/// The lowest address of a block of `n` words: at or after the base upwards, at or before it downwards.
#[tactic(auto, unfolding(arm7_model::specs::Blocks::block_start))]
pub fn block_start(pre: bool, up: bool, base: u32, n: u32) -> u32
    requires { n ≤ 16 }
    ensures { result ≡ block_start pre up base n }
{
    match (up, pre) {
        (true, true) => base.wrapping_add(4),
        (true, false) => base,
        (false, true) => base.wrapping_sub(4 * n),
        (false, false) => base.wrapping_sub(4 * n).wrapping_add(4),
    }
}

/// The base after a block of `n` words.
#[tactic(auto, unfolding(arm7_model::specs::Blocks::block_end))]
pub fn block_end(up: bool, base: u32, n: u32) -> u32
    requires { n ≤ 16 }
    ensures { result ≡ block_end up base n }
{
    if up {
        base.wrapping_add(4 * n)
    } else {
        base.wrapping_sub(4 * n)
    }
}

/// Writes a block's base back, where it is to be.
pub fn set_block_base(state: &mut ArmState, write_back: bool, rn: u8, v: u32)
    requires { rn < 16 }
    ensures { state.new ≡ with_block_base write_back rn v state.old }
{
    if write_back {
        set_register(state, rn, v);
    }
}

/// Writes a register of a list, with `^` user mode's.
#[tactic(auto, unfolding(arm7_model::specs::Blocks::with_listed))]
pub fn set_listed(state: &mut ArmState, user: bool, k: u8, v: u32)
    requires { k < 16 }
    ensures { state.new ≡ with_listed user state.old k v }
{
    if user {
        set_user_register(state, k, v);
    } else {
        set_register(state, k, v);
    }
}

/// A register of a list as it is stored, with `^` user mode's.
#[tactic(auto, unfolding(arm7_model::specs::Blocks::listed_at))]
pub fn listed_at(state: &ArmState, user: bool, k: u8) -> u32
    requires { k < 16 }
    ensures { result ≡ listed_at user state.now k }
{
    if user {
        user_register(state, k)
    } else {
        stored_at(state, k)
    }
}

/// pc as it was loaded becomes an address; with `^` CPSR becomes SPSR before.
#[tactic(auto, unfolding(arm7_model::specs::Blocks::with_loaded_pc))]
pub fn set_loaded_pc(state: &mut ArmState, user: bool)
    ensures { state.new ≡ with_loaded_pc user state.old }
{
    let address = register(state, 15);
    if user {
        restore(state);
    }
    set_pc(state, address);
}
