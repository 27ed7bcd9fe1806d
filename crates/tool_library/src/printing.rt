//! What a command prints of a file.

ghost use Rattle.std.specs.Prelude.{◌<◌, ◌^◌, ◌∷◌, [], length};
ghost use Rattle.chunk_file.specs.Reading.{Gives};
ghost use Rattle.tool_answers.specs.Outcomes.{Answers, OfOne};
ghost use Rattle.tool_library.specs.Shown.{asked, prints, text_shown};

use crate::ends::{end_answer, fault_answer};
use crate::{listings, members};
use sdt_fault::Text;
use sdt_fault::answer::{Answer, Fault};
use sdt_outside::{Sink, Store};
use std::alloc::Global;
use tool_answers::{print, read_input};

/// What is shown of a file.
#[derive(Clone, Copy)]
pub(crate) enum Shown {
    /// Its listing.
    Listing,
    /// The names of a library's members.
    Members,
}

fn text_of(alloc: Global, shown: Shown, name: &Text, bytes: &[u8]) -> Result<Text, Fault>
    requires { length bytes.now < 2 ^ 32 }
    ensures { Gives result (text_shown shown name.now bytes.now) }
{
    match shown {
        Shown::Listing => listings::listing(alloc, name, bytes),
        Shown::Members => members::listing(alloc, name, bytes),
    }
}

/// Prints what is shown of a file.
pub(crate) fn print_file<S: Store, K: Sink>(
    alloc: Global,
    store: &mut S,
    sink: &mut K,
    file: &Text,
    shown: Shown,
) -> Answer
    ensures { Answers (asked shown file.now) (OfOne (prints shown file.now)) (file.now ∷ []) (record {
      before = S.files store.old;
      after = S.files store.new;
      printed = K.bytes sink.old;
      prints = K.bytes sink.new;
      reads = S.read_faults store.old;
      reads_now = S.read_faults store.new;
      writes = S.write_faults store.old;
      writes_now = S.write_faults store.new;
      faults = K.faults sink.old;
      faults_now = K.faults sink.new;
    }) result }
{
    let bytes = match read_input(alloc, store, file) {
        Ok(bytes) => bytes,
        Err(end) => return end_answer(end),
    };
    match text_of(alloc, shown, file, bytes.as_slice()) {
        Ok(text) => print(sink, text.as_slice()),
        Err(fault) => fault_answer(fault),
    }
}
