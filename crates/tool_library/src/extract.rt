//! What a library holds: the names of its members, and a member as an object file.

ghost use Rattle.std.specs.Prelude.{◌≡◌, ◌∷◌, [], ℕ, List as Items};
ghost use Rattle.tool_answers.specs.Outcomes.{Answers, AnswersOver, OfOne};
ghost use Rattle.tool_library.specs.Libraries as libraries;

use crate::ends::{end_answer, fault_answer};
use crate::members::extract;
use crate::printing::{Shown, print_file};
use sdt_fault::Text;
use sdt_fault::answer::Answer;
use sdt_outside::{Sink, Store};
use std::alloc::Global;
use tool_answers::{read_input, write};

/// Prints the names of a library's members, a line each.
pub fn list_members<S: Store, K: Sink>(
    alloc: Global,
    store: &mut S,
    sink: &mut K,
    library: &Text,
) -> Answer
    ensures { Answers (libraries.listed library.now) (OfOne (libraries.lists library.now)) (library.now ∷ []) (record {
      before = S.files store.old;
      after = S.files store.new;
      printed = K.bytes sink.old;
      prints = K.bytes sink.new;
      reads = S.read_faults store.old;
      reads_now = S.read_faults store.new;
      writes = S.write_faults store.old;
      writes_now = S.write_faults store.new;
      faults = K.faults sink.old;
      faults_now = K.faults sink.new;
    }) result }
{
    print_file(alloc, store, sink, library, Shown::Members)
}

/// Writes a library's member as an object file.
pub fn extract_member<S: Store>(
    alloc: Global,
    store: &mut S,
    library: &Text,
    member: &Text,
    output: Text,
) -> Answer
    ensures { AnswersOver (libraries.extracted library.now member.now output)
        (OfOne (libraries.extracts library.now member.now output)) (library.now ∷ [])
        (S.files store.old) (S.files store.new) (S.read_faults store.old) (S.read_faults store.new)
        (S.write_faults store.old) (S.write_faults store.new) result }
{
    let bytes = match read_input(alloc, store, library) {
        Ok(bytes) => bytes,
        Err(end) => return end_answer(end),
    };
    match extract(alloc, library, member, bytes.as_slice()) {
        Ok(object) => write(alloc, store, output, object.as_slice()),
        Err(fault) => fault_answer(fault),
    }
}
