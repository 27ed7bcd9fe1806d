//! The command `debug`.

ghost use Rattle.std.specs.Prelude.{◌≡◌, ◌≤◌, IfSome, length};
ghost use Rattle.std.specs.List.{AllByRecursion};
ghost use Rattle.sdt_outside.specs.Counts.{Rose};
ghost use Rattle.arm7_bus.specs.Buses.{bus_state};
ghost use Rattle.arm7_bus.specs.Seats.{seats_by};
ghost use Rattle.arm7_transfers.specs.Ready.{IsReady};
ghost use Rattle.armsd_core.specs.Scripts.{AreGood};
ghost use Rattle.tool_words.specs.declared.command.Command.TheVariants.{Debug};
ghost use Rattle.tool_words.specs.Commands.{IsGood};
ghost use Rattle.sdt_toolkit.specs.Debugging as debugging;
ghost use Rattle.sdt_toolkit.specs.Debugging.{DebugAnswers, IsSession, ScriptIs, SessionAnswers};
ghost use Rattle.sdt_toolkit.specs.Reads.{outside_of};

use arm7_core::Machine;
use armsd_core::{Command, DebugEnd, debug_for, read_script};
use sdt_fault::answer::Answer;
use sdt_fault::{List, Text};
use sdt_outside::{Device, Sink, Store};
use std::alloc::Global;
use tool_answers::read_input;
use tool_library::ends::{end_answer, fault_answer};
use tool_library::members::named_fault;
use tool_run::{Board, image_answer, open_image};
use tool_words::DebugWords;

// ---- the script

/// How many devices there are, where 32 bits hold the number.
fn count_of(devices: &[Box<dyn Device>]) -> Option<u32>
    ensures { IfSome result (λ count. count ≡ length (seats_by base size state touched devices.now)) }
{
    let count = devices.len();
    if count > 0xFFFF_FFFF {
        return None;
    }
    Some(count as u32)
}

/// The commands of the script in this file, for so many devices, or the answer where there are none.
fn commands_in<S: Store>(
    alloc: Global,
    store: &mut S,
    file: &Text,
    devices: u32,
) -> Result<List<Command>, Answer>
    ensures script { ScriptIs (S.files store.old) (Rose (S.read_faults store.old) (S.read_faults store.new)) file.now devices result }
    ensures files { S.files store.new ≡ S.files store.old }
    ensures read_faults { S.read_faults store.old ≤ S.read_faults store.new }
    ensures write_faults { S.write_faults store.new ≡ S.write_faults store.old }
{
    let text = match read_input(alloc, store, file) {
        Ok(text) => text,
        Err(end) => return Err(end_answer(end)),
    };
    match read_script(alloc, text.as_slice(), devices) {
        Ok(commands) => Ok(commands),
        Err(fault) => Err(fault_answer(named_fault(alloc, file, fault))),
    }
}

// ---- the session

/// A session that has ended, with the devices as it left them.
#[derive(Drop)]
struct Ended {
    end: DebugEnd,
    devices: Vec<Box<dyn Device>>,
}

fn debug_on<K: Sink>(board: Board, sink: &mut K, commands: &[Command]) -> Ended
    requires ready { IsReady (bus_state base size state touched board.bus) }
    requires good { AreGood 64 (length (bus_state base size state touched board.bus).devices) commands.now }
    ensures session { IsSession commands.now board.image.start board.image.thumb (bus_state base size state touched board.bus) result.end
        (K.bytes sink.old) (K.bytes sink.new) (Rose (K.faults sink.old) (K.faults sink.new))
        (seats_by base size state touched result.devices.items) }
    ensures faults { K.faults sink.old ≤ K.faults sink.new }
{
    let Board { image, mut bus } = board;
    let mut machine = Machine::reset(image.start, image.thumb);
    let end = debug_for(commands, &mut machine, &mut bus, sink);
    Ended {
        end,
        devices: bus.into_devices(),
    }
}

fn session_answer(end: DebugEnd) -> Answer
    ensures { result ≡ debugging.session_answer end }
{
    match end {
        DebugEnd::Ended => Answer::Done,
        DebugEnd::Sink => Answer::SinkFault,
    }
}

/// The answer behind a script of these commands.
fn debug_image<S: Store, K: Sink>(
    alloc: Global,
    store: &mut S,
    sink: &mut K,
    devices: &mut Vec<Box<dyn Device>>,
    words: &DebugWords,
    commands: &[Command],
) -> Answer
    requires words { IsGood (Debug words.now) }
    requires commands { AreGood 64 (length (seats_by base size state touched devices.old.items)) commands.now }
    ensures answer { SessionAnswers words.now commands.now (outside_of (S.files store.old) (S.files store.new)
        (K.bytes sink.old) (K.bytes sink.new) (S.read_faults store.old) (S.read_faults store.new)
        (S.write_faults store.old) (S.write_faults store.new) (K.faults sink.old) (K.faults sink.new))
        (seats_by base size state touched devices.old.items) (seats_by base size state touched devices.new.items) result }
    ensures read_faults { S.read_faults store.old ≤ S.read_faults store.new }
{
    let memory = words.memory.as_slice();
    let rom = words.rom.as_slice();
    match open_image(alloc, store, devices, &words.image, memory, rom) {
        Ok(board) => {
            let ended = debug_on(board, sink, commands);
            *devices = ended.devices;
            session_answer(ended.end)
        }
        Err(end) => image_answer(end),
    }
}

/// Debugs an image by a script: the script is read and judged, then the image is loaded as in a run, and then the script's
/// commands are carried out over the machine, from the image's start, and print to the sink. The devices are handed back as
/// the session left them, without those that it took out. More than 2^32 - 1 devices count as want of memory.
pub fn debug<S: Store, K: Sink>(
    alloc: Global,
    store: &mut S,
    sink: &mut K,
    devices: &mut Vec<Box<dyn Device>>,
    words: &DebugWords,
) -> Answer
    requires { IsGood (Debug words.now) }
    ensures { DebugAnswers words.now (outside_of (S.files store.old) (S.files store.new)
        (K.bytes sink.old) (K.bytes sink.new) (S.read_faults store.old) (S.read_faults store.new)
        (S.write_faults store.old) (S.write_faults store.new) (K.faults sink.old) (K.faults sink.new))
        (seats_by base size state touched devices.old.items) (seats_by base size state touched devices.new.items) result }
{
    let Some(count) = count_of(devices) else {
        return Answer::NoMemory;
    };
    match commands_in(alloc, store, &words.script, count) {
        Ok(commands) => debug_image(alloc, store, sink, devices, words, commands.as_slice()),
        Err(answer) => answer,
    }
}
