//! A new library of object files.

ghost use Rattle.std.specs.Prelude.{◌≡◌, ◌<◌, ◌^◌, ℕ, List as Items, IfOk, length};
ghost use Rattle.sdt_fault.specs.declared.answer.Answer.TheVariants as answer;
ghost use Rattle.sdt_outside.specs.Counts.{Rose};
ghost use Rattle.tool_answers.specs.Outcomes.{AnswersOver, OfAll};
ghost use Rattle.tool_library.specs.Libraries as libraries;

use crate::ends::{end_answer, fault_answer};
use crate::members::library_of;
use sdt_fault::answer::Answer;
use sdt_fault::{List, Text};
use sdt_outside::Store;
use std::alloc::Global;
use tool_answers::{read_inputs, write};

/// Writes a library of the objects, each under its file's name.
pub fn create_library<S: Store>(
    alloc: Global,
    store: &mut S,
    library: Text,
    objects: &[Text],
) -> Answer
    ensures { AnswersOver (libraries.created library objects.now) (OfAll (libraries.creates library objects.now) objects.now) objects.now
        (S.files store.old) (S.files store.new) (S.read_faults store.old) (S.read_faults store.new)
        (S.write_faults store.old) (S.write_faults store.new) result }
{
    let contents = match read_inputs(alloc, store, objects) {
        Ok(contents) => contents,
        Err(end) => return end_answer(end),
    };
    match library_of(alloc, objects, contents.as_slice()) {
        Ok(bytes) => write(alloc, store, library, bytes.as_slice()),
        Err(fault) => fault_answer(fault),
    }
}
