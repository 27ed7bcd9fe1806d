//! The machine.

ghost use Rattle.std.specs.Prelude.{◌≡◌, ◌%◌, IsTrue, true};
ghost use Rattle.arm7_model.specs.Registers.{IsValid};
ghost use Rattle.arm7_bus.specs.Seats.{are_idle};
ghost use Rattle.arm7_transfers.specs.Ready.{IsReady};
ghost use Rattle.arm7_transfers.specs.Views.{state_of};
ghost use Rattle.arm7_core.specs.Machines.{IsStep};
ghost use Rattle.arm7_core.specs.Resets.{reset_status};

use crate::known::Known;
use crate::step::step_state;
use arm7_bus::Bus;
use arm7_model::{ArmState, Banks, Event, step_is_valid};
use sdt_outside::Device;

/// An ARM7TDMI.
#[derive(Drop)]
pub struct Machine {
    pub state: ArmState,
    known: Known,
}

fn reset_status(thumb: bool) -> u32
    ensures { result ≡ reset_status thumb }
{
    if thumb { 0xF3 } else { 0xD3 }
}

impl Machine {
    ghost use Rattle.arm7_core.specs.Resets.{IsReset};

    /// The machine after reset, at this address and in this state: supervisor mode, interrupts masked, all other
    /// registers 0.
    pub fn reset(pc: u32, thumb: bool) -> Machine
        requires { IsTrue thumb → pc % 2 ≡ 0 }
        ensures { IsReset pc thumb result.state }
    {
        let mut r = [0; 16];
        r[15] = pc;
        let banks = Banks {
            high: [0; 5],
            r13: [0; 6],
            r14: [0; 6],
        };
        Machine {
            state: ArmState {
                r,
                banks,
                cpsr: reset_status(thumb),
                spsr: [0; 5],
            },
            known: Known::new(),
        }
    }

    /// One step: each device of the bus ticks, and then the processor takes an interrupt or does one instruction. After
    /// [`Event::Unpredictable`] and [`Event::NoFrame`] the state is as before.
    #[inline(always)]
    pub fn step(&mut self, bus: &mut Bus) -> Event
        requires valid { IsValid self.old.state }
        requires ready { IsReady (state_of base size state touched bus.old) }
        ensures step { IsStep self.old.state (state_of base size state touched bus.old) result self.new.state (state_of base size state touched bus.new) }
        ensures valid { IsValid self.new.state }
        ensures ready { IsReady (state_of base size state touched bus.new) }
    {
        self.step_knowing(bus, false)
    }

    /// The same, told whether the bus's devices are idle; then none of them is asked.
    #[inline(always)]
    pub fn step_knowing(&mut self, bus: &mut Bus, idle: bool) -> Event
        requires valid { IsValid self.old.state }
        requires ready { IsReady (state_of base size state touched bus.old) }
        requires idle { idle ≡ true → are_idle (state_of base size state touched bus.old).devices ≡ true }
        ensures step { IsStep self.old.state (state_of base size state touched bus.old) result self.new.state (state_of base size state touched bus.new) }
        ensures valid { IsValid self.new.state }
        ensures ready { IsReady (state_of base size state touched bus.new) }
    {
        let event = step_state(&mut self.state, &mut self.known, bus, idle);
        step_is_valid();
        event
    }
}
