//! The command `make-big`.

ghost use Rattle.std.specs.Prelude.{◌≡◌, ◌+◌, ◌≤◌, ◌<◌, ◌^◌, IfOk, length};
ghost use Rattle.sdt_outside.specs.Counts.{Rose};
ghost use Rattle.aof_object.specs.Validity.{IsValid};
ghost use Rattle.arm7_model.specs.Registers.{register};
ghost use Rattle.arm7_bus.specs.Buses.{bus_state};
ghost use Rattle.arm7_bus.specs.Seats.{seats_by};
ghost use Rattle.arm7_transfers.specs.Ready.{IsReady};
ghost use Rattle.run_opening.specs.Openings.{AreNeeded};
ghost use Rattle.big_faults.specs.Big.{big_object};
ghost use Rattle.big_model.specs.Sources.{big_text};
ghost use Rattle.sdt_toolkit.specs.Big.{BigAnswers, HasEnded, IsBigImage, PrintsLine, Reports, big_line};
ghost use Rattle.sdt_toolkit.specs.BigMade.{big_image};
ghost use Rattle.sdt_toolkit.specs.BigStarts.{big_startup};
ghost use Rattle.sdt_toolkit.specs.Inputs.{module_of};
ghost use Rattle.sdt_toolkit.specs.RunImages as images;
ghost use Rattle.sdt_toolkit.specs.Reads.{outside_of};
ghost use Rattle.sdt_toolkit.specs.Starting.{HasBytes};

use crate::big_image::{Program, build_program};
use crate::big_laws::big_law;
use arm7_bus::Bus;
use arm7_core::Machine;
use arm7_run::run_for;
use big_input::NoText;
use run_opening::open;
use sdt_fault::answer::{Answer, Stop};
use sdt_fault::digits::{push_decimal, push_hexadecimal};
use sdt_fault::{NoMemory, Text};
use sdt_outside::{Device, Sink, Store};
use std::alloc::Global;
use std::mem;
use tool_answers::{print, write};
use tool_library::ends::fault_answer;

/// How a run ended: the steps behind those of the startup code, r4, and the devices as it left them.
#[derive(Drop)]
struct Ended {
    stop: Stop,
    steps: u64,
    sum: u32,
    devices: Vec<Box<dyn Device>>,
}

/// The steps of the startup code, which moves so many words upwards, eight at once, and clears none.
fn startup_steps(words: u32) -> u64
    requires { words ≤ 50000 }
    ensures { result ≡ big_startup words }
{
    let words = u64::from(words);
    if words % 8 == 0 {
        return 18 + 5 * (words / 8);
    }
    21 + 5 * (words / 8) + 4 * (words % 8)
}

/// The register in which the program adds.
#[tactic(auto, unfolding(arm7_model::specs::Registers::register))]
fn sum_in(machine: &Machine) -> u32
    ensures { result ≡ register machine.now.state 4 }
{
    machine.state.r[4]
}

/// Runs the program of so many steps from where its startup code begins.
fn run_on(bus: Bus, start: u32, count: u32) -> Ended
    requires few { count ≤ 50000 }
    requires ready { IsReady (bus_state base size state touched bus) }
    ensures { HasEnded start count (bus_state base size state touched bus) result.stop result.steps result.sum
        (seats_by base size state touched result.devices.items) }
{
    let mut bus = bus;
    let mut machine = Machine::reset(start, false);
    let most = 5 * u64::from(count) + 51;
    let end = run_for(&mut machine, &mut bus, &mut NoText, most);
    Ended {
        stop: end.stop,
        steps: end.steps.saturating_sub(startup_steps(count)),
        sum: sum_in(&machine),
        devices: bus.into_devices(),
    }
}

// ---- the report

fn push(out: &mut Vec<u8>, bytes: &[u8]) -> Result<(), NoMemory>
    ensures { OnOk result (out.new.items ≡ out.old.items ++ bytes.now) }
{
    out.extend_from_slice(bytes)?;
    Ok(())
}

ghost use Rattle.std.specs.Prelude.{◌++◌, [], OnOk};

/// The line, into what has nothing.
fn push_line(
    alloc: Global,
    out: &mut Vec<u8>,
    count: u32,
    words: u32,
    ended: &Ended,
) -> Result<(), NoMemory>
    requires { out.old.items ≡ [] }
    ensures { OnOk result (out.new.items ≡ big_line count words ended.now.steps ended.now.sum) }
{
    push(out, b"big ")?;
    push_decimal(alloc, out, u64::from(count))?;
    push(out, b" words ")?;
    push_decimal(alloc, out, u64::from(words))?;
    push(out, b" steps ")?;
    push_decimal(alloc, out, ended.steps)?;
    push(out, b" sum ")?;
    push_hexadecimal(alloc, out, u64::from(ended.sum))?;
    push(out, b"\n")?;
    Ok(())
}

fn line(alloc: Global, count: u32, words: u32, ended: &Ended) -> Result<Vec<u8>, NoMemory>
    ensures { IfOk result (λ line. line.items ≡ big_line count words ended.now.steps ended.now.sum) }
{
    let mut out = Vec::new(alloc);
    match push_line(alloc, &mut out, count, words, ended) {
        Ok(()) => Ok(out),
        Err(NoMemory) => {
            drop(out);
            Err(NoMemory)
        }
    }
}

fn print_line<K: Sink>(alloc: Global, sink: &mut K, count: u32, words: u32, ended: &Ended) -> Answer
    ensures says { PrintsLine (big_line count words ended.now.steps ended.now.sum) (K.bytes sink.old) (K.bytes sink.new)
        (Rose (K.faults sink.old) (K.faults sink.new)) result }
    ensures faults { K.faults sink.old ≤ K.faults sink.new }
{
    match line(alloc, count, words, ended) {
        Ok(text) => {
            let answer = print(sink, text.as_slice());
            drop(text);
            answer
        }
        Err(NoMemory) => Answer::NoMemory,
    }
}

/// Prints the line of a run that ended by SWI 0x11.
fn report<K: Sink>(alloc: Global, sink: &mut K, count: u32, words: u32, ended: &Ended) -> Answer
    ensures says { Reports ended.now.stop (big_line count words ended.now.steps ended.now.sum) (K.bytes sink.old) (K.bytes sink.new)
        (Rose (K.faults sink.old) (K.faults sink.new)) result }
    ensures faults { K.faults sink.old ≤ K.faults sink.new }
{
    match ended.stop {
        Stop::Exit => print_line(alloc, sink, count, words, ended),
        stop => Answer::Stopped(stop),
    }
}

// ---- the command

/// The answer, with the devices as the run left them.
#[derive(Drop)]
struct Left {
    answer: Answer,
    devices: Vec<Box<dyn Device>>,
}

fn run_big<S: Store, K: Sink>(
    alloc: Global,
    store: &mut S,
    sink: &mut K,
    devices: Vec<Box<dyn Device>>,
    program: &Program,
    count: u32,
    output: Text,
) -> Left
    requires some { 1 ≤ count }
    requires few { count ≤ 50000 }
    requires source { program.now.source ≡ big_text count }
    requires short { length program.now.source < 2 ^ 32 }
    requires words { program.now.words ≡ count + 3 }
    requires image { program.now.image ≡ images.run_image (big_image output (module_of output) count) }
    requires needed { AreNeeded program.now.image }
    requires valid { IsValid (big_object count) }
    requires bytes { HasBytes (big_object count) }
    requires built { IsBigImage output count (big_image output (module_of output) count) }
    ensures { BigAnswers count output (outside_of (S.files store.old) (S.files store.new)
        (K.bytes sink.old) (K.bytes sink.new) (S.read_faults store.old) (S.read_faults store.new)
        (S.write_faults store.old) (S.write_faults store.new) (K.faults sink.old) (K.faults sink.new))
        (seats_by base size state touched devices.items) (seats_by base size state touched result.devices.items) result.answer }
{
    big_law();
    let bus = match open(alloc, devices, &[], &[], &program.image) {
        Ok(bus) => bus,
        Err(closed) => {
            return Left {
                answer: fault_answer(closed.fault),
                devices: closed.devices,
            };
        }
    };
    match write(alloc, store, output, program.source.as_slice()) {
        Answer::Done => {}
        answer => {
            return Left {
                answer,
                devices: bus.into_devices(),
            };
        }
    }
    let ended = run_on(bus, program.image.start, count);
    Left {
        answer: report(alloc, sink, count, program.words, &ended),
        devices: ended.devices,
    }
}

/// Writes the source of so many steps and words of data, and prints how the image that `build` makes of it runs in the
/// default bank, over the devices, which are handed back as the run left them. The source is written once the image is
/// ready to run, so that a refusal, which names an address of the bank and a device or of two devices, leaves the file as
/// it was.
pub fn make_big<S: Store, K: Sink>(
    alloc: Global,
    store: &mut S,
    sink: &mut K,
    devices: &mut Vec<Box<dyn Device>>,
    count: u32,
    output: Text,
) -> Answer
    requires some { 1 ≤ count }
    requires few { count ≤ 50000 }
    ensures { BigAnswers count output (outside_of (S.files store.old) (S.files store.new)
        (K.bytes sink.old) (K.bytes sink.new) (S.read_faults store.old) (S.read_faults store.new)
        (S.write_faults store.old) (S.write_faults store.new) (K.faults sink.old) (K.faults sink.new))
        (seats_by base size state touched devices.old.items) (seats_by base size state touched devices.new.items) result }
{
    let program = match build_program(alloc, &output, count) {
        Ok(program) => program,
        Err(fault) => {
            drop(output);
            return fault_answer(fault);
        }
    };
    let lent = mem::replace(devices, Vec::new(alloc));
    let left = run_big(alloc, store, sink, lent, &program, count, output);
    drop(program);
    *devices = left.devices;
    left.answer
}
