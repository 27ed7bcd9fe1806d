//! The files of a link, written in their order.

ghost use Rattle.std.specs.Prelude.{◌≡◌, ◌≤◌, ◌<◌, ◌^◌, All, length};
ghost use Rattle.sdt_outside.specs.Counts.{Rose};
ghost use Rattle.sdt_toolkit.specs.Links.{AllWritten, outputs};

use bin_image::OutFile;
use sdt_fault::NoMemory;
use sdt_fault::answer::Answer;
use sdt_outside::Store;
use std::alloc::Global;
use tool_answers::write;

fn write_file<S: Store>(alloc: Global, store: &mut S, file: &OutFile) -> Answer
    requires { length file.now.bytes < 2 ^ 32 }
    ensures says { Writes file.now.name file.now.bytes (S.files store.old) (S.files store.new)
        (Rose (S.write_faults store.old) (S.write_faults store.new)) result }
    ensures reads { S.read_faults store.new ≡ S.read_faults store.old }
    ensures writes { S.write_faults store.old ≤ S.write_faults store.new }
{
    match file.name.try_clone(alloc) {
        Ok(name) => write(alloc, store, name, file.bytes.as_slice()),
        Err(NoMemory) => Answer::NoMemory,
    }
}

/// Writes files. The first that can't be written ends it: those before it stand, and those behind it are as they were.
pub fn write_files<S: Store>(alloc: Global, store: &mut S, files: &[OutFile]) -> Answer
    requires { All (λ f. length f.bytes < 2 ^ 32) files.now }
    ensures says { AllWritten (outputs files.now) (S.files store.old) (S.files store.new)
        (Rose (S.write_faults store.old) (S.write_faults store.new)) result }
    ensures reads { S.read_faults store.new ≡ S.read_faults store.old }
    ensures writes { S.write_faults store.old ≤ S.write_faults store.new }
{
    for file in files {
        match write_file(alloc, store, file) {
            Answer::Done => {}
            end => return end,
        }
    }
    Answer::Done
}

ghost use Rattle.tool_answers.specs.Outcomes.{Writes};
