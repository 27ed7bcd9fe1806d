//! The top call: from the words of a command line, the files of a store and a sink for text, to an answer. What it says
//! is this project's, over the definitions of the crates below, which name their public sources. `armsdt` calls
//! `run_tool` over real files, `conformance` over files in memory; some of its clauses follow from the laws in `laws`.
#![tactic(auto)]

ghost use Rattle.std.specs.Prelude.{◌≡◌, map, string_bytes, false};
ghost use Rattle.arm7_bus.specs.Seats.{seats_by};
ghost use Rattle.sdt_toolkit.specs.Big.{MakesBig};
ghost use Rattle.sdt_toolkit.specs.Builds.{BuildsAsLinked};
ghost use Rattle.sdt_toolkit.specs.Burns.{BurnsAsLinked, StartsAsBurned};
ghost use Rattle.sdt_toolkit.specs.Commands.{Commanded, Ends, is_run, may_print};
ghost use Rattle.sdt_toolkit.specs.Debugging.{DebugsByRuns};
ghost use Rattle.sdt_toolkit.specs.Exact.{Exact};
ghost use Rattle.sdt_toolkit.specs.Headline.{Headline};
ghost use Rattle.sdt_toolkit.specs.Interrupts.{HidesInterrupts};
ghost use Rattle.sdt_toolkit.specs.Reads.{outside_of};
ghost use Rattle.sdt_toolkit.specs.Refusals.{RefusalsAreTrue};
ghost use Rattle.sdt_toolkit.specs.Runs.{RunsBySteps, StartsAsLinked};
ghost use Rattle.tool_words.specs.Commands.{command_of};

use armasm_core::laws::sources_begin;
use link_refusals::refusals_law;
use scatter_text::reading_law;
use sdt_fault::answer::Answer;
use sdt_outside::{Device, Sink, Store};
use std::alloc::Global;
use tool_run::burn_load_law;

mod assemble;
mod big;
mod big_image;
mod big_laws;
mod commands;
mod contents;
mod debug;
mod gathering;
mod images;
mod inputs;
mod kit;
pub mod laws;
mod links;
mod named;
mod names;
mod report;
mod sound;
mod writing;

/// Carries out a command: `asm`, `link`, `build`, one of the librarian's, `list`, `report`, `run`, `debug`, `burn`, `irqkit` or
/// `make-big`.
///
/// A refusal names the first defect of the words, then of the files, in order. `ReadFault`, `WriteFault`
/// and `SinkFault` come only where the store's or the sink's count of such faults rose. A run takes the devices
/// onto its bus and hands them back as it left them; so does a session of `debug`, without those that its script took out.
pub fn run_tool<S: Store, K: Sink>(
    alloc: Global,
    words: &[String],
    store: &mut S,
    sink: &mut K,
    devices: &mut Vec<Box<dyn Device>>,
) -> Answer
    // What the answer says and leaves, or the first word that breaks a rule.
    ensures commanded { Commanded (command_of (map string_bytes words.now)) (outside_of (S.files store.old) (S.files store.new)
        (K.bytes sink.old) (K.bytes sink.new) (S.read_faults store.old) (S.read_faults store.new)
        (S.write_faults store.old) (S.write_faults store.new) (K.faults sink.old) (K.faults sink.new))
        (seats_by base size state touched devices.old.items) (seats_by base size state touched devices.new.items) result }
    // The files of a link or a build that is done, put into memory, show what was linked and reach its entry.
    ensures headline { Headline (command_of (map string_bytes words.now)) (S.files store.old) (S.files store.new) result }
    // What `build` makes of sources is what `link` makes of the files that `asm` writes of them.
    ensures builds { BuildsAsLinked (command_of (map string_bytes words.now)) (outside_of (S.files store.old) (S.files store.new)
        (K.bytes sink.old) (K.bytes sink.new) (S.read_faults store.old) (S.read_faults store.new)
        (S.write_faults store.old) (S.write_faults store.new) (K.faults sink.old) (K.faults sink.new)) result }
    // What `burn` writes of the map that a link or a build left is a text from which the image starts.
    ensures burns { BurnsAsLinked (command_of (map string_bytes words.now)) (outside_of (S.files store.old) (S.files store.new)
        (K.bytes sink.old) (K.bytes sink.new) (S.read_faults store.old) (S.read_faults store.new)
        (S.write_faults store.old) (S.write_faults store.new) (K.faults sink.old) (K.faults sink.new)) result }
    // A run of what a link or a build left begins with the startup code's steps, which lead to the entry and touch no device.
    ensures starts { StartsAsLinked (command_of (map string_bytes words.now)) (outside_of (S.files store.old) (S.files store.new)
        (K.bytes sink.old) (K.bytes sink.new) (S.read_faults store.old) (S.read_faults store.new)
        (S.write_faults store.old) (S.write_faults store.new) (K.faults sink.old) (K.faults sink.new))
        (seats_by base size state touched devices.old.items) (seats_by base size state touched devices.new.items) result }
    // So does a run of the text that `burn` wrote of it.
    ensures burned { StartsAsBurned (command_of (map string_bytes words.now)) (outside_of (S.files store.old) (S.files store.new)
        (K.bytes sink.old) (K.bytes sink.new) (S.read_faults store.old) (S.read_faults store.new)
        (S.write_faults store.old) (S.write_faults store.new) (K.faults sink.old) (K.faults sink.new))
        (seats_by base size state touched devices.old.items) (seats_by base size state touched devices.new.items) result }
    // A run goes by the machine's steps, and leaves each device that none of them accesses as time alone makes it.
    ensures steps { RunsBySteps (command_of (map string_bytes words.now)) (outside_of (S.files store.old) (S.files store.new)
        (K.bytes sink.old) (K.bytes sink.new) (S.read_faults store.old) (S.read_faults store.new)
        (S.write_faults store.old) (S.write_faults store.new) (K.faults sink.old) (K.faults sink.new))
        (seats_by base size state touched devices.old.items) (seats_by base size state touched devices.new.items) result }
    // One run of the machine leads from the beginning of a session of `debug` to its end, where its script takes no device out; and
    // what makes no step leaves registers, memory and devices.
    ensures sessions { DebugsByRuns (command_of (map string_bytes words.now)) (outside_of (S.files store.old) (S.files store.new)
        (K.bytes sink.old) (K.bytes sink.new) (S.read_faults store.old) (S.read_faults store.new)
        (S.write_faults store.old) (S.write_faults store.new) (K.faults sink.old) (K.faults sink.new))
        (seats_by base size state touched devices.old.items) (seats_by base size state touched devices.new.items) result }
    // A run by the map of an image in which the interrupt kit is in force, and whose program keeps the rules, is done as the
    // run without interrupts is, with the same text.
    ensures interrupts { HidesInterrupts (command_of (map string_bytes words.now)) (outside_of (S.files store.old) (S.files store.new)
        (K.bytes sink.old) (K.bytes sink.new) (S.read_faults store.old) (S.read_faults store.new)
        (S.write_faults store.old) (S.write_faults store.new) (K.faults sink.old) (K.faults sink.new))
        (seats_by base size state touched devices.old.items) result }
    // `make-big` is done for each count, where devices meet neither the default bank nor each other and no fault is counted.
    ensures big { MakesBig (command_of (map string_bytes words.now)) (outside_of (S.files store.old) (S.files store.new)
        (K.bytes sink.old) (K.bytes sink.new) (S.read_faults store.old) (S.read_faults store.new)
        (S.write_faults store.old) (S.write_faults store.new) (K.faults sink.old) (K.faults sink.new))
        (seats_by base size state touched devices.old.items) (seats_by base size state touched devices.new.items) result }
    // Over files that are told, where no fault is counted: a first defect is refused, and nothing else is.
    ensures exact { Exact (command_of (map string_bytes words.now)) (outside_of (S.files store.old) (S.files store.new)
        (K.bytes sink.old) (K.bytes sink.new) (S.read_faults store.old) (S.read_faults store.new)
        (S.write_faults store.old) (S.write_faults store.new) (K.faults sink.old) (K.faults sink.new))
        (seats_by base size state touched devices.old.items) result }
    // What a refusal of a link or a build says is so of the linked objects and of their plan, and is the first such thing.
    ensures refusals { RefusalsAreTrue (command_of (map string_bytes words.now)) (outside_of (S.files store.old) (S.files store.new)
        (K.bytes sink.old) (K.bytes sink.new) (S.read_faults store.old) (S.read_faults store.new)
        (S.write_faults store.old) (S.write_faults store.new) (K.faults sink.old) (K.faults sink.new)) result }
    // Whatever was asked for: a refusal names the first defect and, as a read fault does, leaves everything as it was, and each
    // fault was counted.
    ensures ends { Ends (command_of (map string_bytes words.now)) (outside_of (S.files store.old) (S.files store.new)
        (K.bytes sink.old) (K.bytes sink.new) (S.read_faults store.old) (S.read_faults store.new)
        (S.write_faults store.old) (S.write_faults store.new) (K.faults sink.old) (K.faults sink.new))
        (seats_by base size state touched devices.old.items) (seats_by base size state touched devices.new.items) result }
    // The devices are touched by `run`, `debug` and `make-big` alone, and the sink by commands that print.
    ensures devices { is_run (command_of (map string_bytes words.now)) ≡ false → devices.new ≡ devices.old }
    ensures sink { may_print (command_of (map string_bytes words.now)) ≡ false → sink.new ≡ sink.old }
{
    reading_law();
    sources_begin();
    laws::interrupts_are_hidden();
    laws::one_asked();
    refusals_law();
    laws::builds_are_links();
    laws::linked_burns();
    burn_load_law();
    laws::commands_start();
    laws::linked_runs_start();
    commands::command(alloc, words, store, sink, devices)
}
