//! Steps behind which the host has nothing to do.

ghost use Rattle.std.specs.Prelude.{◌≡◌, ◌≤◌, ◌<◌};
ghost use Rattle.arm7_model.specs.Registers.{IsValid, register};
ghost use Rattle.arm7_transfers.specs.Ready.{IsReady};
ghost use Rattle.arm7_transfers.specs.Views.{state_of};
ghost use Rattle.arm7_run.specs.Quiets.{Reaches, asks};

use arm7_bus::Bus;
use arm7_core::Machine;
use arm7_model::Event;
use sdt_outside::Device;

/// A step behind which the host has something to do: what it was, and where it began.
#[derive(Clone, Copy)]
pub struct Asked {
    pub event: Event,
    pub at: u32,
}

/// How many steps were made before the host had something to do, and what that is; nothing, where all were made.
#[derive(Clone, Copy)]
pub struct Quiet {
    pub made: u64,
    pub asked: Option<Asked>,
}

#[tactic(auto, unfolding(arm7_model::specs::Registers::register))]
pub fn register(machine: &Machine, k: usize) -> u32
    requires { k < 16 }
    ensures { result ≡ register machine.now.state k }
{
    machine.state.r[k]
}

/// Whether the host has something to do behind such a step.
#[inline(always)]
fn asks(event: Event) -> bool
    ensures { result ≡ asks event }
{
    match event {
        Event::Ran | Event::Took(_) => false,
        Event::Host(_) | Event::Unpredictable(_) | Event::NoFrame(_) => true,
    }
}

/// Makes the steps behind the first `begun` ones, up to one behind which the host has something to do, and at most so many in
/// all. It knows no sink, so a program has it once, with all that a step does in one loop.
#[inline(never)]
pub fn run_quietly(m: &mut Machine, bus: &mut Bus, begun: u64, steps: u64) -> Quiet
    requires valid { IsValid m.old.state }
    requires ready { IsReady (state_of base size state touched bus.old) }
    requires few { begun ≤ steps }
    ensures reaches { Reaches begun steps m.old.state (state_of base size state touched bus.old) result.made result.asked m.new.state (state_of base size state touched bus.new) }
    ensures valid { IsValid m.new.state }
    ensures ready { IsReady (state_of base size state touched bus.new) }
{
    let mut idle = bus.is_idle();
    'steps: for made in begun..steps {
        let at = register(m, 15);
        let event = m.step_knowing(bus, idle);
        if asks(event) {
            let asked = Some(Asked { event, at });
            return Quiet { made, asked };
        }
        if !bus.kept_to_banks() {
            idle = bus.is_idle();
        }
    }
    Quiet {
        made: steps,
        asked: None,
    }
}
