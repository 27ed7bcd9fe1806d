//! The command `irqkit`.

ghost use Rattle.std.specs.Prelude.{◌≡◌, ◌≤◌, ◌<◌, ◌%◌, ◌^◌, IfOk, Ok, length};
ghost use Rattle.chunk_file.specs.Reading.{Gives};
ghost use Rattle.sdt_outside.specs.Counts.{Rose};
ghost use Rattle.sdt_toolkit.specs.Kits.{kit_file};
ghost use Rattle.tool_answers.specs.Outcomes.{Writes};

use aof_object::write_object;
use chunk_file::size_law;
use irq_kit::kit_object;
use sdt_fault::answer::{Answer, Fault};
use sdt_fault::{Bytes, Text};
use sdt_outside::Store;
use std::alloc::Global;
use tool_answers::write;
use tool_library::ends::fault_answer;

/// The file of the kit's object, which is short enough for every store.
fn kit_bytes(alloc: Global, acknowledge: u32) -> Result<Bytes, Fault>
    requires { acknowledge % 4 ≡ 0 }
    ensures exact { Gives result (Ok (kit_file acknowledge)) }
    ensures short { IfOk result (λ bytes. length bytes < 2 ^ 32) }
{
    size_law();
    let object = kit_object(alloc, acknowledge)?;
    let bytes = write_object(alloc, &object);
    drop(object);
    bytes
}

/// Writes the object of the interrupt kit, whose handler stores to the address `acknowledge`.
pub fn write_kit<S: Store>(alloc: Global, store: &mut S, output: Text, acknowledge: u32) -> Answer
    requires { acknowledge % 4 ≡ 0 }
    ensures says { Writes output (kit_file acknowledge) (S.files store.old) (S.files store.new)
        (Rose (S.write_faults store.old) (S.write_faults store.new)) result }
    ensures reads { S.read_faults store.new ≡ S.read_faults store.old }
    ensures writes { S.write_faults store.old ≤ S.write_faults store.new }
{
    match kit_bytes(alloc, acknowledge) {
        Ok(bytes) => write(alloc, store, output, bytes.as_slice()),
        Err(fault) => fault_answer(fault),
    }
}
