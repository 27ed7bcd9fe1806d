//! The steps of a run, and what the host does at them.

ghost use Rattle.std.specs.Prelude.{◌≡◌, ◌≤◌, ◌<◌, ◌+◌, ◌-◌, ◌^◌, ◌%◌, IfSome};
ghost use Rattle.sdt_outside.specs.Counts.{Rose};
ghost use Rattle.arm7_bus.specs.Buses.{IsStarted};
ghost use Rattle.arm7_model.specs.Registers.{IsValid};
ghost use Rattle.arm7_transfers.specs.Ready.{IsReady};
ghost use Rattle.arm7_transfers.specs.Views.{state_of};
ghost use Rattle.arm7_run.specs.Runs.{RunsInto};
ghost use Rattle.arm7_run.specs.Turns.{Bytes, Strings, Turns, ended};

use crate::quiet::{register, run_quietly};
use crate::strings::{print_bytes, string_len};
use arm7_bus::Bus;
use arm7_core::Machine;
use arm7_model::Event;
use sdt_fault::answer::Stop;
use sdt_outside::{Device, Sink};

/// How a run goes on behind a step.
#[derive(Clone, Copy)]
enum Turn {
    /// With the next step.
    On,
    /// It ends by the host's interrupt 0x11.
    Exits,
    /// The string has a byte in no bank, at this address.
    Breaks(u32),
    /// The sink took a part of the text.
    Chokes,
    /// The word at the address is unpredictable; the step doesn't count.
    Unpredictable(u32, u32),
    /// There is no frame for the page of this address; the step doesn't count.
    NoFrame(u32),
}

/// How a run ended.
#[derive(Clone, Copy)]
pub struct RunEnd {
    pub stop: Stop,
    /// The number of steps that were made. A step that was found unpredictable, or that had no frame, isn't among them.
    pub steps: u64,
}

/// Prints the string at an address.
fn print_string<K: Sink>(bus: &Bus, a: u32, sink: &mut K) -> Turn
    requires { IsStarted (state_of base size state touched bus.now) }
    ensures prints { Strings result (state_of base size state touched bus.now).contents a (K.bytes sink.old) (K.bytes sink.new) (Rose (K.faults sink.old) (K.faults sink.new)) }
    ensures faults { K.faults sink.old ≤ K.faults sink.new }
{
    match string_len(bus, a) {
        Ok(count) => match print_bytes(bus, a, count, sink) {
            Ok(()) => Turn::On,
            Err(_) => Turn::Chokes,
        },
        Err(broken) => Turn::Breaks(broken),
    }
}

/// Prints the low byte of a register.
fn print_byte<K: Sink>(value: u32, sink: &mut K) -> Turn
    ensures prints { Bytes result (value % 256) (K.bytes sink.old) (K.bytes sink.new) (Rose (K.faults sink.old) (K.faults sink.new)) }
    ensures faults { K.faults sink.old ≤ K.faults sink.new }
{
    match sink.write_all(&[(value % 256) as u8]) {
        Ok(()) => Turn::On,
        Err(_) => Turn::Chokes,
    }
}

/// What the host does behind a step that began at an address.
fn answer<K: Sink>(machine: &Machine, bus: &Bus, sink: &mut K, event: Event, at: u32) -> Turn
    requires started { IsStarted (state_of base size state touched bus.now) }
    ensures turns { Turns result event at machine.now.state (state_of base size state touched bus.now) (K.bytes sink.old) (K.bytes sink.new) (Rose (K.faults sink.old) (K.faults sink.new)) }
    ensures faults { K.faults sink.old ≤ K.faults sink.new }
{
    match event {
        Event::Host(0x00) => print_byte(register(machine, 0), sink),
        Event::Host(0x02) => print_string(bus, register(machine, 0), sink),
        Event::Host(0x11) => Turn::Exits,
        Event::Ran | Event::Took(_) | Event::Host(_) => Turn::On,
        Event::Unpredictable(word) => Turn::Unpredictable(at, word),
        Event::NoFrame(a) => Turn::NoFrame(a),
    }
}

/// Makes at most so many steps, up to the first stop, and appends to the sink what SWI 0x00 and SWI 0x02 print.
pub fn run_for<K: Sink>(m: &mut Machine, bus: &mut Bus, sink: &mut K, steps: u64) -> RunEnd
    requires valid { IsValid m.old.state }
    requires ready { IsReady (state_of base size state touched bus.old) }
    ensures runs { RunsInto steps m.old.state (state_of base size state touched bus.old) result.stop result.steps m.new.state (state_of base size state touched bus.new) (K.bytes sink.old) (K.bytes sink.new) (Rose (K.faults sink.old) (K.faults sink.new)) }
    ensures few { result.steps ≤ steps }
    ensures faults { K.faults sink.old ≤ K.faults sink.new }
    ensures valid { IsValid m.new.state }
    ensures ready { IsReady (state_of base size state touched bus.new) }
{
    let mut made: u64 = 0;
    'turns: while made < steps {
        let quiet = run_quietly(m, bus, made, steps);
        let Some(asked) = quiet.asked else {
            return RunEnd {
                stop: Stop::Budget,
                steps,
            };
        };
        let turned = answer(m, bus, sink, asked.event, asked.at);
        if let Some(end) = end_of(turned, quiet.made) {
            return end;
        }
        made = quiet.made + 1;
    }
    RunEnd {
        stop: Stop::Budget,
        steps,
    }
}

/// The end of a run behind so many steps and this turn.
fn end_of(turned: Turn, made: u64) -> Option<RunEnd>
    requires { made < 2 ^ 64 - 1 }
    ensures end { result ≡ ended turned made }
    ensures few { IfSome result (λ end. end.steps ≤ made + 1) }
{
    let (stop, steps) = match turned {
        Turn::On => return None,
        Turn::Exits => (Stop::Exit, made + 1),
        Turn::Breaks(address) => (Stop::BadString { address }, made + 1),
        Turn::Chokes => (Stop::Sink, made + 1),
        Turn::Unpredictable(address, word) => (Stop::Unpredictable { address, word }, made),
        Turn::NoFrame(address) => (Stop::NoFrame { address }, made),
    };
    Some(RunEnd { stop, steps })
}
