//! What a status register says: the mode with its bank, and the state.

ghost use Rattle.std.specs.Prelude.{◌≡◌, ◌<◌};
ghost use Rattle.arm7_model.specs.Registers.{bank, bank_in, has_mode, has_saved, is_thumb, is_user, mode_in, mode_named};

use arm7_model::{ArmState, Mode};
use sdt_word::field;

/// The mode of the low five bits of a status register; None where they name none.
#[tactic(auto, unfolding(arm7_model::specs::Registers::mode_named))]
pub fn mode_named(number: u32) -> Option<Mode>
    ensures { result ≡ mode_named number }
{
    match number {
        0x10 => Some(Mode::User),
        0x11 => Some(Mode::Fiq),
        0x12 => Some(Mode::Irq),
        0x13 => Some(Mode::Supervisor),
        0x17 => Some(Mode::Abort),
        0x1B => Some(Mode::Undefined),
        0x1F => Some(Mode::System),
        _ => None,
    }
}

/// The place of a mode's r13 and r14 in the banks.
pub fn bank(mode: Mode) -> usize
    ensures value { result ≡ bank mode }
    ensures below { result < 6 }
{
    match mode {
        Mode::User | Mode::System => 0,
        Mode::Fiq => 1,
        Mode::Irq => 2,
        Mode::Supervisor => 3,
        Mode::Abort => 4,
        Mode::Undefined => 5,
    }
}

/// The mode of a status register; system mode where its low five bits name none.
#[tactic(auto, unfolding(arm7_model::specs::Registers::mode_in))]
pub fn mode_in(status: u32) -> Mode
    ensures { result ≡ mode_in status }
{
    mode_named(field(status, 0, 5)).unwrap_or(Mode::System)
}

/// Whether the low five bits of a status register name a mode.
#[tactic(auto, unfolding(arm7_model::specs::Registers::has_mode))]
pub fn has_mode(status: u32) -> bool
    ensures { result ≡ has_mode status }
{
    mode_named(field(status, 0, 5)).is_some()
}

/// Whether a status register's bit T is set.
#[tactic(auto, unfolding(arm7_model::specs::Registers::is_thumb))]
pub fn is_thumb(status: u32) -> bool
    ensures { result ≡ is_thumb status }
{
    field(status, 5, 1) == 1
}

/// Whether a status register has user mode.
#[tactic(auto, unfolding(arm7_model::specs::Registers::is_user))]
pub fn is_user(status: u32) -> bool
    ensures { result ≡ is_user status }
{
    field(status, 0, 5) == 0x10
}

/// The place of the visible r13 and r14 in the banks.
#[tactic(auto, unfolding(arm7_model::specs::Registers::bank_in))]
pub fn bank_in(status: u32) -> usize
    ensures value { result ≡ bank_in status }
    ensures below { result < 6 }
{
    bank(mode_in(status))
}

/// Whether the mode has an SPSR.
#[tactic(auto, unfolding(arm7_model::specs::Registers::has_saved))]
pub fn has_saved(state: &ArmState) -> bool
    ensures { result ≡ has_saved state.now }
{
    0 < bank_in(state.cpsr)
}
