//! The command.

ghost use Rattle.std.specs.Prelude.{◌≡◌, ◌∷◌, [], ℕ, List as Items};
ghost use Rattle.tool_answers.specs.Outcomes.{Answers, OfOne};
ghost use Rattle.tool_library.specs.Lists.{listing_of, lists};

use crate::printing::{Shown, print_file};
use sdt_fault::Text;
use sdt_fault::answer::Answer;
use sdt_outside::{Sink, Store};
use std::alloc::Global;

/// Prints the listing of an object, of a library, of an ELF executable or of an ARM image file.
pub fn list_file<S: Store, K: Sink>(
    alloc: Global,
    store: &mut S,
    sink: &mut K,
    file: &Text,
) -> Answer
    ensures { Answers (listing_of file.now) (OfOne (lists file.now)) (file.now ∷ []) (record {
      before = S.files store.old;
      after = S.files store.new;
      printed = K.bytes sink.old;
      prints = K.bytes sink.new;
      reads = S.read_faults store.old;
      reads_now = S.read_faults store.new;
      writes = S.write_faults store.old;
      writes_now = S.write_faults store.new;
      faults = K.faults sink.old;
      faults_now = K.faults sink.new;
    }) result }
{
    print_file(alloc, store, sink, file, Shown::Listing)
}
