//! A step of the machine.

ghost use Rattle.std.specs.Prelude.{◌≡◌, ℕ, ◌<◌, true};
ghost use Rattle.arm7_model.specs.Registers.{IsValid};
ghost use Rattle.arm7_bus.specs.Buses.{after_tick};
ghost use Rattle.arm7_bus.specs.Seats.{are_idle};
ghost use Rattle.arm7_transfers.specs.Ready.{IsReady};
ghost use Rattle.arm7_transfers.specs.Views.{state_of};
ghost use Rattle.arm7_core.specs.Machines.{IsStep};

use crate::arm::step_arm;
use crate::known::Known;
use crate::thumb_step::step_half;
use arm7_bus::Bus;
use arm7_model::{ArmState, Event};
use arm7_registers::{enter, interrupt, is_thumb, register};
use sdt_outside::Device;

/// One step: each device of the bus ticks, and then the processor takes an interrupt or does one instruction. Where the
/// devices are known to be idle, none of them is asked.
#[inline(always)]
pub fn step_state(core: &mut ArmState, known: &mut Known, bus: &mut Bus, idle: bool) -> Event
    requires valid { IsValid core.old }
    requires ready { IsReady (state_of base size state touched bus.old) }
    requires idle { idle ≡ true → are_idle (state_of base size state touched bus.old).devices ≡ true }
    ensures step { IsStep core.old (state_of base size state touched bus.old) result core.new (state_of base size state touched bus.new) }
    ensures bytes { (a : ℕ) → (after_tick (state_of base size state touched bus.old)).contents.memory a < 256 }
    ensures ready { IsReady (state_of base size state touched bus.new) }
{
    let lines = bus.tick_knowing(idle);
    match interrupt(lines.irq, lines.fiq, core.cpsr) {
        Some(exception) => {
            let at = register(core, 15);
            enter(core, exception, at.wrapping_add(4));
            Event::Took(exception)
        }
        None => {
            if is_thumb(core.cpsr) {
                step_half(core, &mut known.halves, bus)
            } else {
                step_arm(core, known, bus)
            }
        }
    }
}
