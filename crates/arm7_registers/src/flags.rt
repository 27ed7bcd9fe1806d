//! The flags N, Z, C and V, bits 31 to 28 of CPSR, and conditions.

ghost use Rattle.std.specs.Prelude.{◌≡◌, ◌<◌};
ghost use Rattle.sdt_word.specs.Numbers.{bit, flag};
ghost use Rattle.arm7_model.specs.Arithmetic.{carry_in, overflow_in, passes, with_flags, zero_of};

use sdt_word::{Condition, field, is_set};

/// Bit `at` of a word.
pub fn bit(w: u32, at: u32) -> u32
    requires { at < 32 }
    ensures { result ≡ bit w at }
{
    field(w, at, 1)
}

/// The carry C of CPSR.
pub fn carry_in(status: u32) -> bool
    ensures { flag result ≡ carry_in status }
{
    is_set(status, 29)
}

/// The overflow V of CPSR.
pub fn overflow_in(status: u32) -> bool
    ensures { flag result ≡ overflow_in status }
{
    is_set(status, 28)
}

fn zero_of(v: u32) -> u32
    ensures { result ≡ zero_of v }
{
    if v == 0 { 1 } else { 0 }
}

/// CPSR with the flags of a result, a carry and an overflow.
#[tactic(auto, unfolding(arm7_model::specs::Arithmetic::with_flags))]
pub fn with_flags(status: u32, v: u32, carry: bool, overflow: bool) -> u32
    ensures { result ≡ with_flags status v (flag carry) (flag overflow) }
{
    bit(v, 31) * 0x8000_0000
        + zero_of(v) * 0x4000_0000
        + u32::from(carry) * 0x2000_0000
        + u32::from(overflow) * 0x1000_0000
        + status % 0x1000_0000
}

/// Whether a condition holds of CPSR's flags. Most instructions have the one that always does.
#[inline(always)]
#[tactic(auto, unfolding(arm7_model::specs::Arithmetic::passes))]
pub fn passes(condition: Condition, status: u32) -> bool
    ensures { result ≡ passes condition status }
{
    match condition {
        Condition::Al => true,
        _ => flags_pass(condition, status),
    }
}

/// Whether the flags are those of a condition.
#[inline(never)]
#[tactic(auto, unfolding(arm7_model::specs::Arithmetic::passes))]
fn flags_pass(condition: Condition, status: u32) -> bool
    ensures { result ≡ passes condition status }
{
    match condition {
        Condition::Eq => bit(status, 30) == 1,
        Condition::Ne => bit(status, 30) == 0,
        Condition::Cs => bit(status, 29) == 1,
        Condition::Cc => bit(status, 29) == 0,
        Condition::Mi => bit(status, 31) == 1,
        Condition::Pl => bit(status, 31) == 0,
        Condition::Vs => bit(status, 28) == 1,
        Condition::Vc => bit(status, 28) == 0,
        Condition::Hi => bit(status, 29) == 1 && bit(status, 30) == 0,
        Condition::Ls => bit(status, 29) == 0 || bit(status, 30) == 1,
        Condition::Ge => bit(status, 31) == bit(status, 28),
        Condition::Lt => bit(status, 31) != bit(status, 28),
        Condition::Gt => bit(status, 30) == 0 && bit(status, 31) == bit(status, 28),
        Condition::Le => bit(status, 30) == 1 || bit(status, 31) != bit(status, 28),
        Condition::Al => true,
    }
}
