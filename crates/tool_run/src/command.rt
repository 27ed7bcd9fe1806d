//! The command `run`.

ghost use Rattle.std.specs.Prelude.{◌≡◌, ◌≤◌};
ghost use Rattle.sdt_outside.specs.Counts.{Rose};
ghost use Rattle.arm7_bus.specs.Buses.{bus_state};
ghost use Rattle.arm7_bus.specs.Seats.{seats_by};
ghost use Rattle.arm7_transfers.specs.Ready.{IsReady};
ghost use Rattle.tool_words.specs.declared.command.Command.TheVariants.{Run};
ghost use Rattle.tool_words.specs.Commands.{IsGood};
ghost use Rattle.tool_run.specs.Runs.{IsRun, RunAnswers};

use crate::ends::{image_answer, stop_answer};
use crate::opening::{Board, open_image};
use arm7_core::Machine;
use arm7_run::run_for;
use sdt_fault::answer::{Answer, Stop};
use sdt_outside::{Device, Sink, Store};
use std::alloc::Global;
use tool_words::RunWords;

/// A run that has ended, with the devices as it left them.
#[derive(Drop)]
struct Ended {
    stop: Stop,
    devices: Vec<Box<dyn Device>>,
}

fn run_on<K: Sink>(board: Board, sink: &mut K, steps: u32) -> Ended
    requires { IsReady (bus_state base size state touched board.bus) }
    ensures run { IsRun board.image.start board.image.thumb steps (bus_state base size state touched board.bus) result.stop
        (K.bytes sink.old) (K.bytes sink.new) (Rose (K.faults sink.old) (K.faults sink.new))
        (seats_by base size state touched result.devices.items) }
    ensures faults { K.faults sink.old ≤ K.faults sink.new }
{
    let Board { image, mut bus } = board;
    let mut machine = Machine::reset(image.start, image.thumb);
    let end = run_for(&mut machine, &mut bus, sink, u64::from(steps));
    Ended {
        stop: end.stop,
        devices: bus.into_devices(),
    }
}

/// Runs an image: it is read from its files, and loaded into the banks that the words tell; then the machine makes
/// steps over them and the devices, from the image's start up to the first stop. The devices are handed back as the run
/// left them, whatever the answer is.
pub fn run<S: Store, K: Sink>(
    alloc: Global,
    store: &mut S,
    sink: &mut K,
    devices: &mut Vec<Box<dyn Device>>,
    words: &RunWords,
) -> Answer
    requires { IsGood (Run words.now) }
    ensures { RunAnswers words.now (record {
      before = S.files store.old;
      after = S.files store.new;
      printed = K.bytes sink.old;
      prints = K.bytes sink.new;
      reads = S.read_faults store.old;
      reads_now = S.read_faults store.new;
      writes = S.write_faults store.old;
      writes_now = S.write_faults store.new;
      faults = K.faults sink.old;
      faults_now = K.faults sink.new;
    }) (seats_by base size state touched devices.old.items) (seats_by base size state touched devices.new.items) result }
{
    let memory = words.memory.as_slice();
    let rom = words.rom.as_slice();
    match open_image(alloc, store, devices, &words.image, memory, rom) {
        Ok(board) => {
            let ended = run_on(board, sink, words.steps);
            *devices = ended.devices;
            stop_answer(ended.stop)
        }
        Err(end) => image_answer(end),
    }
}
