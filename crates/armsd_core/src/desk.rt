//! What a debugger keeps beside the machine and its bus, and its commands one by one.

ghost use Rattle.std.specs.Prelude.{◌≡◌, ◌≤◌, ◌<◌, ◌+◌, ◌^◌, None, []};
ghost use Rattle.sdt_outside.specs.Counts.{Rose};
ghost use Rattle.arm7_model.specs.Registers.{IsValid, register};
ghost use Rattle.arm7_bus.specs.Buses.{after_detach};
ghost use Rattle.arm7_transfers.specs.Ready.{IsReady};
ghost use Rattle.arm7_transfers.specs.Views.{state_of};
ghost use Rattle.armsd_core.specs.declared.command.Command.TheVariants.{Step, Go, Regs, Mem, Detach};
ghost use Rattle.armsd_core.specs.Desks.{Grows, HasRoom, IsCarriedOut, Prints, desk_of};
ghost use Rattle.armsd_core.specs.Reasons.{lasting};
ghost use Rattle.armsd_core.specs.Scripts.{IsInRange};
ghost use Rattle.armsd_core.specs.Texts as texts;

use crate::command::Command;
use crate::points::Points;
use crate::reason::{Reason, lasting};
use crate::stepping::{go_for, pc_of, step_for};
use crate::texts::{memory_text, registers_text, stop_line};
use arm7_bus::Bus;
use arm7_core::Machine;
use sdt_outside::{Device, Sink, SinkError};
use sdt_word::Range32;

/// What a debugger keeps beside the machine and its bus.
#[derive(Drop)]
pub struct Notes {
    /// The breakpoints.
    pub points: Points,
    /// The watched range.
    pub watch: Option<Range32>,
    /// The steps so far.
    pub steps: u128,
    /// Why the machine stopped for good.
    pub ended: Option<Reason>,
}

impl Notes {
    pub fn new() -> Notes
        ensures { result ≡ record { points = []; watch = None; steps = 0; ended = None } }
    {
        Notes {
            points: Points::none(),
            watch: None,
            steps: 0,
            ended: None,
        }
    }

    /// Prints where the machine is, the steps so far, and why the last ones ended.
    fn print_end<K: Sink>(&self, m: &Machine, sink: &mut K, why: Reason) -> Result<(), SinkError>
        ensures prints { Prints (texts.stop_line (register m.now.state 15) self.now.steps why) (K.bytes sink.old) (K.bytes sink.new)
            (Rose (K.faults sink.old) (K.faults sink.new)) result }
        ensures faults { K.faults sink.old ≤ K.faults sink.new }
    {
        let line = stop_line(pc_of(m), self.steps, why);
        sink.write_all(line.as_slice())
    }

    /// Keeps what steps come to that were made, and prints why they ended.
    fn tell<K: Sink>(
        &mut self,
        m: &Machine,
        sink: &mut K,
        made: u64,
        why: Reason,
    ) -> Result<(), SinkError>
        requires { self.old.steps + made < 2 ^ 128 }
        ensures notes { self.new ≡ record self.old { steps = self.old.steps + made; ended = lasting why } }
        ensures prints { Prints (texts.stop_line (register m.now.state 15) (self.old.steps + made) why)
            (K.bytes sink.old) (K.bytes sink.new) (Rose (K.faults sink.old) (K.faults sink.new)) result }
        ensures faults { K.faults sink.old ≤ K.faults sink.new }
    {
        self.steps += u128::from(made);
        self.ended = lasting(why);
        self.print_end(m, sink, why)
    }
}

/// Carries out a Step.
fn step<K: Sink>(
    notes: &mut Notes,
    m: &mut Machine,
    bus: &mut Bus,
    sink: &mut K,
    n: u32,
) -> Result<(), SinkError>
    requires valid { IsValid m.old.state }
    requires ready { IsReady (state_of base size state touched bus.old) }
    requires few { notes.old.steps + n < 2 ^ 128 }
    ensures carried { IsCarriedOut (Step n) (desk_of notes.old m.old.state (state_of base size state touched bus.old))
        (desk_of notes.new m.new.state (state_of base size state touched bus.new)) (K.bytes sink.old) (K.bytes sink.new)
        (Rose (K.faults sink.old) (K.faults sink.new)) result }
    ensures points { notes.new.points ≡ notes.old.points }
    ensures steps { notes.new.steps ≤ notes.old.steps + n }
    ensures faults { K.faults sink.old ≤ K.faults sink.new }
    ensures valid { IsValid m.new.state }
    ensures ready { IsReady (state_of base size state touched bus.new) }
{
    if let Some(why) = notes.ended {
        return notes.print_end(m, sink, why);
    }
    let made = step_for(m, bus, sink, u64::from(n));
    match made.reason {
        Some(why) => notes.tell(m, sink, made.steps, why),
        None => Err(SinkError::Failed),
    }
}

/// Carries out a Go.
fn go<K: Sink>(
    notes: &mut Notes,
    m: &mut Machine,
    bus: &mut Bus,
    sink: &mut K,
    n: u32,
) -> Result<(), SinkError>
    requires valid { IsValid m.old.state }
    requires ready { IsReady (state_of base size state touched bus.old) }
    requires few { notes.old.steps + n < 2 ^ 128 }
    ensures carried { IsCarriedOut (Go n) (desk_of notes.old m.old.state (state_of base size state touched bus.old))
        (desk_of notes.new m.new.state (state_of base size state touched bus.new)) (K.bytes sink.old) (K.bytes sink.new)
        (Rose (K.faults sink.old) (K.faults sink.new)) result }
    ensures points { notes.new.points ≡ notes.old.points }
    ensures steps { notes.new.steps ≤ notes.old.steps + n }
    ensures faults { K.faults sink.old ≤ K.faults sink.new }
    ensures valid { IsValid m.new.state }
    ensures ready { IsReady (state_of base size state touched bus.new) }
{
    if let Some(why) = notes.ended {
        return notes.print_end(m, sink, why);
    }
    let made = go_for(m, bus, sink, &notes.points, notes.watch, u64::from(n));
    match made.reason {
        Some(why) => notes.tell(m, sink, made.steps, why),
        None => Err(SinkError::Failed),
    }
}

/// Prints the registers.
fn print_registers<K: Sink>(m: &Machine, sink: &mut K) -> Result<(), SinkError>
    ensures prints { Prints (texts.registers_text m.now.state) (K.bytes sink.old) (K.bytes sink.new)
        (Rose (K.faults sink.old) (K.faults sink.new)) result }
    ensures faults { K.faults sink.old ≤ K.faults sink.new }
{
    let lines = registers_text(m);
    sink.write_all(lines.as_slice())
}

/// Prints the bytes from an address on.
fn print_memory<K: Sink>(bus: &Bus, a: u32, n: u32, sink: &mut K) -> Result<(), SinkError>
    requires ready { IsReady (state_of base size state touched bus.now) }
    requires few { n ≤ 256 }
    ensures prints { Prints (texts.memory_text (state_of base size state touched bus.now).contents a n)
        (K.bytes sink.old) (K.bytes sink.new) (Rose (K.faults sink.old) (K.faults sink.new)) result }
    ensures faults { K.faults sink.old ≤ K.faults sink.new }
{
    let line = memory_text(bus, a, n);
    sink.write_all(line.as_slice())
}

/// Takes a device out of the bus, where there is one of this number.
fn detach(bus: &mut Bus, i: u32)
    requires { IsReady (state_of base size state touched bus.old) }
    ensures bus { state_of base size state touched bus.new ≡ after_detach (state_of base size state touched bus.old) i }
    ensures ready { IsReady (state_of base size state touched bus.new) }
{
    let _gone = bus.detach(i);
}

/// Carries out a command.
pub fn carry_out<K: Sink>(
    command: Command,
    notes: &mut Notes,
    m: &mut Machine,
    bus: &mut Bus,
    sink: &mut K,
) -> Result<(), SinkError>
    requires valid { IsValid m.old.state }
    requires ready { IsReady (state_of base size state touched bus.old) }
    requires range { IsInRange command }
    requires room { HasRoom command notes.old.points }
    requires few { notes.old.steps + 1000000000 < 2 ^ 128 }
    ensures carried { IsCarriedOut command (desk_of notes.old m.old.state (state_of base size state touched bus.old))
        (desk_of notes.new m.new.state (state_of base size state touched bus.new)) (K.bytes sink.old) (K.bytes sink.new)
        (Rose (K.faults sink.old) (K.faults sink.new)) result }
    ensures grows { Grows command notes.old notes.new }
    ensures faults { K.faults sink.old ≤ K.faults sink.new }
    ensures valid { IsValid m.new.state }
    ensures ready { IsReady (state_of base size state touched bus.new) }
{
    match command {
        Command::Break(a) => {
            notes.points.add(a);
            Ok(())
        }
        Command::Unbreak(a) => {
            notes.points.remove(a);
            Ok(())
        }
        Command::Watch(range) => {
            notes.watch = Some(range);
            Ok(())
        }
        Command::Unwatch => {
            notes.watch = None;
            Ok(())
        }
        Command::Step(n) => step(notes, m, bus, sink, n),
        Command::Go(n) => go(notes, m, bus, sink, n),
        Command::Regs => print_registers(m, sink),
        Command::Mem(a, n) => print_memory(bus, a, n, sink),
        Command::Detach(i) => {
            detach(bus, i);
            Ok(())
        }
        Command::Quit => Ok(()),
    }
}
