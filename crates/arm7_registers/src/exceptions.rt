//! Exceptions and interrupts, and what a fetch does to pc.

ghost use Rattle.std.specs.Prelude.{◌≡◌, ◌<◌};
ghost use Rattle.arm7_model.specs.Outcomes.{entered, entry_status, fiq_mask_after, mode_of, vector};
ghost use Rattle.arm7_model.specs.Registers.{mode_number};
ghost use Rattle.arm7_model.specs.Step.{advanced, can_fetch, fetch_width, interrupt, irq_pending};

use crate::flags::bit;
use crate::modes::is_thumb;
use crate::registers::{register, set_cpsr, set_register, set_saved};
use arm7_model::{ArmState, Exception, Mode};
use sdt_word::{Width, field};

/// The address of an exception's vector.
fn vector(exception: Exception) -> u32
    ensures { result ≡ vector exception }
{
    match exception {
        Exception::Undefined => 0x04,
        Exception::SoftwareInterrupt => 0x08,
        Exception::PrefetchAbort => 0x0C,
        Exception::DataAbort => 0x10,
        Exception::Irq => 0x18,
        Exception::Fiq => 0x1C,
    }
}

/// The mode of an exception.
fn mode_of(exception: Exception) -> Mode
    ensures { result ≡ mode_of exception }
{
    match exception {
        Exception::Undefined => Mode::Undefined,
        Exception::SoftwareInterrupt => Mode::Supervisor,
        Exception::PrefetchAbort | Exception::DataAbort => Mode::Abort,
        Exception::Irq => Mode::Irq,
        Exception::Fiq => Mode::Fiq,
    }
}

/// The number of a mode.
fn mode_number(mode: Mode) -> u32
    ensures value { result ≡ mode_number mode }
    ensures below { result < 32 }
{
    match mode {
        Mode::User => 0x10,
        Mode::Fiq => 0x11,
        Mode::Irq => 0x12,
        Mode::Supervisor => 0x13,
        Mode::Abort => 0x17,
        Mode::Undefined => 0x1B,
        Mode::System => 0x1F,
    }
}

/// Bit F after an entry.
fn fiq_mask_after(exception: Exception, status: u32) -> u32
    ensures value { result ≡ fiq_mask_after exception status }
    ensures below { result < 2 }
{
    match exception {
        Exception::Fiq => 1,
        _ => bit(status, 6),
    }
}

/// CPSR after an entry: the flags stay, I is set, and T is clear.
fn entry_status(exception: Exception, status: u32) -> u32
    ensures { result ≡ entry_status exception status }
{
    field(status, 28, 4) * 0x1000_0000
        + 128
        + fiq_mask_after(exception, status) * 64
        + mode_number(mode_of(exception))
}

/// Enters an exception with this lr: CPSR is saved in the new mode's SPSR.
#[tactic(auto, unfolding(arm7_model::specs::Outcomes::entered))]
pub fn enter(state: &mut ArmState, exception: Exception, link: u32)
    ensures { state.new ≡ entered exception link state.old }
{
    let status = state.cpsr;
    set_cpsr(state, entry_status(exception, status));
    set_saved(state, status);
    set_register(state, 14, link);
    set_register(state, 15, vector(exception));
}

/// IRQ where its mask in CPSR is clear and its line is up.
#[tactic(auto, unfolding(arm7_model::specs::Step::irq_pending))]
fn irq_pending(irq: bool, fiq: bool, status: u32) -> Option<Exception>
    ensures { result ≡ irq_pending (record { irq = irq; fiq = fiq }) status }
{
    if bit(status, 7) != 1 && irq {
        Some(Exception::Irq)
    } else {
        None
    }
}

/// The interrupt that comes next, by the levels of the lines: FIQ before IRQ.
#[tactic(auto, unfolding(arm7_model::specs::Step::interrupt))]
fn first_pending(irq: bool, fiq: bool, status: u32) -> Option<Exception>
    ensures { result ≡ interrupt (record { irq = irq; fiq = fiq }) status }
{
    if bit(status, 6) != 1 && fiq {
        return Some(Exception::Fiq);
    }
    irq_pending(irq, fiq, status)
}

/// The interrupt that comes next, by the levels of the lines. Mostly no line is up.
#[inline(always)]
#[tactic(auto, unfolding(arm7_model::specs::Step::interrupt, arm7_model::specs::Step::irq_pending))]
pub fn interrupt(irq: bool, fiq: bool, status: u32) -> Option<Exception>
    ensures { result ≡ interrupt (record { irq = irq; fiq = fiq }) status }
{
    if irq | fiq {
        return first_pending(irq, fiq, status);
    }
    None
}

/// The width of an instruction.
pub fn fetch_width(thumb: bool) -> Width
    ensures { result ≡ fetch_width thumb }
{
    if thumb { Width::Half } else { Width::Word }
}

/// Whether pc is an address of an instruction: in ARM state a multiple of 4.
#[tactic(auto, unfolding(arm7_model::specs::Step::can_fetch))]
pub fn can_fetch(state: &ArmState) -> bool
    ensures { result ≡ can_fetch state.now }
{
    is_thumb(state.cpsr) || register(state, 15) % 4 == 0
}

/// pc goes to the next instruction.
#[tactic(auto, unfolding(arm7_model::specs::Step::advanced))]
pub fn advance(state: &mut ArmState)
    ensures { state.new ≡ advanced state.old }
{
    let size = fetch_width(is_thumb(state.cpsr)).bytes();
    let next = register(state, 15).wrapping_add(size);
    set_register(state, 15, next);
}
