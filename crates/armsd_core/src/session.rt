//! A session.

ghost use Rattle.std.specs.Prelude.{◌≡◌, ◌≤◌, length};
ghost use Rattle.sdt_outside.specs.Counts.{Rose};
ghost use Rattle.arm7_model.specs.Registers.{IsValid};
ghost use Rattle.arm7_transfers.specs.Ready.{IsReady};
ghost use Rattle.arm7_transfers.specs.Views.{state_of};
ghost use Rattle.armsd_core.specs.Scripts.{AreGood};
ghost use Rattle.armsd_core.specs.Sessions.{IsDebugged, opened};

use crate::command::Command;
use crate::desk::{Notes, carry_out};
use arm7_bus::Bus;
use arm7_core::Machine;
use sdt_outside::{Device, Sink};

/// How a session ended.
#[derive(Clone, Copy)]
pub enum DebugEnd {
    /// By `quit`, or by the end of its commands.
    Ended,
    /// The sink failed; it got a beginning of the text.
    Sink,
}

/// Carries out commands in order, up to the first `quit`, and appends to the sink what they print. The commands are good for
/// this bus, as those that `read_script` gives; the empty list is.
pub fn debug_for<K: Sink>(
    commands: &[Command],
    m: &mut Machine,
    bus: &mut Bus,
    sink: &mut K,
) -> DebugEnd
    requires valid { IsValid m.old.state }
    requires ready { IsReady (state_of base size state touched bus.old) }
    requires good { AreGood 64 (length (state_of base size state touched bus.old).devices) commands.now }
    ensures session { IsDebugged commands.now (opened m.old.state (state_of base size state touched bus.old)) result
        m.new.state (state_of base size state touched bus.new) (K.bytes sink.old) (K.bytes sink.new)
        (Rose (K.faults sink.old) (K.faults sink.new)) }
    ensures faults { K.faults sink.old ≤ K.faults sink.new }
    ensures valid { IsValid m.new.state }
    ensures ready { IsReady (state_of base size state touched bus.new) }
{
    let mut notes = Notes::new();
    'commands: for command in commands {
        if let Command::Quit = command {
            return DebugEnd::Ended;
        }
        match carry_out(*command, &mut notes, m, bus, sink) {
            Ok(()) => {}
            Err(_) => return DebugEnd::Sink,
        }
    }
    DebugEnd::Ended
}
