//! The commands, each by its words.

ghost use Rattle.std.specs.Prelude.{◌≡◌, Ok, false, map, string_bytes};
ghost use Rattle.arm7_bus.specs.Seats.{seats_by};
ghost use Rattle.sdt_toolkit.specs.Commands.{Commanded, is_run, may_print};
ghost use Rattle.sdt_toolkit.specs.Reads.{outside_of};
ghost use Rattle.tool_words.specs.Commands.{IsGood, command_of};

use crate::assemble::assemble_file;
use crate::big::make_big;
use crate::debug::debug;
use crate::kit::write_kit;
use crate::links::link_files;
use crate::report::print_report;
use sdt_fault::answer::Answer;
use sdt_fault::refusal::Refusal;
use sdt_outside::{Device, Sink, Store};
use std::alloc::Global;
use tool_library::{create_library, extract_member, list_file, list_members};
use tool_run::{burn, run};
use tool_words::{Command, WordsFault, read_words};

fn refused(fault: WordsFault) -> Answer
    ensures { RefusedBy fault result }
{
    match fault {
        WordsFault::Place(place) => Answer::Refused(Refusal::BadWords { place }),
        WordsFault::NoMemory => Answer::NoMemory,
    }
}

ghost use Rattle.sdt_toolkit.specs.Commands.{RefusedBy};

/// An answer, behind which these words are given up.
fn after<W: Drop>(answer: Answer, _words: W) -> Answer
    ensures { result ≡ answer }
{
    answer
}

fn carried_out<S: Store, K: Sink>(
    alloc: Global,
    command: Command,
    store: &mut S,
    sink: &mut K,
    devices: &mut Vec<Box<dyn Device>>,
) -> Answer
    requires { IsGood command }
    ensures devices { is_run (Ok command) ≡ false → devices.new ≡ devices.old }
    ensures sink { may_print (Ok command) ≡ false → sink.new ≡ sink.old }
    ensures commanded { Commanded (Ok command) (outside_of (S.files store.old) (S.files store.new)
        (K.bytes sink.old) (K.bytes sink.new) (S.read_faults store.old) (S.read_faults store.new)
        (S.write_faults store.old) (S.write_faults store.new) (K.faults sink.old) (K.faults sink.new))
        (seats_by base size state touched devices.old.items) (seats_by base size state touched devices.new.items) result }
{
    match command {
        Command::Assemble { source, output } => {
            after(assemble_file(alloc, store, &source, output), source)
        }
        Command::CreateLibrary { library, objects } => after(
            create_library(alloc, store, library, objects.as_slice()),
            objects,
        ),
        Command::ListMembers { library } => {
            after(list_members(alloc, store, sink, &library), library)
        }
        Command::ExtractMember {
            library,
            member,
            output,
        } => after(
            extract_member(alloc, store, &library, &member, output),
            (library, member),
        ),
        Command::List { file } => after(list_file(alloc, store, sink, &file), file),
        Command::Run(words) => after(run(alloc, store, sink, devices, &words), words),
        Command::Debug(words) => after(debug(alloc, store, sink, devices, &words), words),
        Command::Link(words) => after(link_files(alloc, store, false, &words), words),
        Command::Build(words) => after(link_files(alloc, store, true, &words), words),
        Command::Report(words) => after(print_report(alloc, store, sink, &words), words),
        Command::InterruptKit {
            output,
            acknowledge,
        } => write_kit(alloc, store, output, acknowledge),
        Command::MakeBig { count, output } => {
            make_big(alloc, store, sink, devices, count, output)
        }
        Command::Burn { form, map, output } => burn(alloc, store, form, map, output),
    }
}

/// Carries out the command that words ask for.
pub fn command<S: Store, K: Sink>(
    alloc: Global,
    words: &[String],
    store: &mut S,
    sink: &mut K,
    devices: &mut Vec<Box<dyn Device>>,
) -> Answer
    ensures devices { is_run (command_of (map string_bytes words.now)) ≡ false → devices.new ≡ devices.old }
    ensures sink { may_print (command_of (map string_bytes words.now)) ≡ false → sink.new ≡ sink.old }
    ensures commanded { Commanded (command_of (map string_bytes words.now)) (outside_of (S.files store.old) (S.files store.new)
        (K.bytes sink.old) (K.bytes sink.new) (S.read_faults store.old) (S.read_faults store.new)
        (S.write_faults store.old) (S.write_faults store.new) (K.faults sink.old) (K.faults sink.new))
        (seats_by base size state touched devices.old.items) (seats_by base size state touched devices.new.items) result }
{
    match read_words(alloc, words) {
        Ok(command) => carried_out(alloc, command, store, sink, devices),
        Err(fault) => refused(fault),
    }
}
