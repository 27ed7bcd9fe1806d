//! The two ends of a command: it writes a file, or prints a text.

ghost use Rattle.std.specs.Prelude.{◌≡◌, ◌≤◌, ◌<◌, ◌^◌, length};
ghost use Rattle.sdt_outside.specs.Counts.{Rose};
ghost use Rattle.tool_answers.specs.Outcomes.{Prints, Writes};

use sdt_fault::Text;
use sdt_fault::answer::Answer;
use sdt_outside::{Sink, Store, StoreError};
use std::alloc::Global;

/// Writes a file of fewer than 2^32 bytes.
pub fn write<S: Store>(alloc: Global, store: &mut S, name: Text, bytes: &[u8]) -> Answer
    requires { length bytes.now < 2 ^ 32 }
    ensures says { Writes name bytes.now (S.files store.old) (S.files store.new)
        (Rose (S.write_faults store.old) (S.write_faults store.new)) result }
    ensures reads { S.read_faults store.new ≡ S.read_faults store.old }
    ensures writes { S.write_faults store.old ≤ S.write_faults store.new }
{
    match store.write(alloc, &name, bytes) {
        Ok(()) => Answer::Done,
        Err(StoreError::NoMemory) => Answer::NoMemory,
        Err(_) => Answer::WriteFault(name),
    }
}

/// Prints a text.
pub fn print<K: Sink>(sink: &mut K, text: &[u8]) -> Answer
    ensures says { Prints text.now (K.bytes sink.old) (K.bytes sink.new) (Rose (K.faults sink.old) (K.faults sink.new)) result }
    ensures faults { K.faults sink.old ≤ K.faults sink.new }
{
    match sink.write_all(text) {
        Ok(()) => Answer::Done,
        Err(_) => Answer::SinkFault,
    }
}
