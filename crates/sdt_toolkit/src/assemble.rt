//! The command.

ghost use Rattle.std.specs.Prelude.{◌≡◌, ◌<◌, ◌≤◌, ◌^◌, IfOk, length};
ghost use Rattle.armasm_core.specs.Assembling.{MayGet, most_bytes};
ghost use Rattle.sdt_fault.specs.declared.answer.Fault.TheVariants as fault;
ghost use Rattle.sdt_fault.specs.declared.kinds.Quantity.TheVariants.{SourceBytes};
ghost use Rattle.sdt_fault.specs.declared.refusal.Refusal.TheVariants.{TooLarge};
ghost use Rattle.sdt_toolkit.specs.Reads.{Told};
ghost use Rattle.sdt_toolkit.specs.Sources.{AssemblyAnswersOver, Spells};

use crate::sound::object_fits;
use aof_object::write_object;
use armasm_core::{MOST_BYTES, assemble};
use chunk_file::size_law;
use sdt_fault::answer::{Answer, Fault};
use sdt_fault::kinds::Quantity;
use sdt_fault::{Bytes, Text};
use sdt_outside::Store;
use std::alloc::Global;
use tool_answers::{read_input_up_to, write};
use tool_library::ends::{end_answer, fault_answer};

/// The object file of a source's text, with the files that its GETs name.
fn object_file<S: Store>(
    alloc: Global,
    store: &mut S,
    source: &Text,
    text: &[u8],
) -> Result<Bytes, Fault>
    ensures spells { Told (S.files store.old) (S.read_faults store.old) (S.read_faults store.new)
        result (λ s. Spells s source.now text.now) (λ s. MayGet s.told source.now text.now) }
    ensures short { IfOk result (λ bytes. length bytes < 2 ^ 32) }
    ensures files { S.files store.new ≡ S.files store.old }
    ensures read_faults { S.read_faults store.old ≤ S.read_faults store.new }
    ensures write_faults { S.write_faults store.new ≡ S.write_faults store.old }
{
    size_law();
    let object = assemble(alloc, source, text, store)?;
    object_fits(&object);
    let bytes = write_object(alloc, &object);
    drop(object);
    bytes
}

/// Of a source that has more than `MOST_BYTES` bytes.
pub fn long_source() -> Fault
    ensures { result ≡ fault.Refused (TooLarge SourceBytes most_bytes) }
{
    Fault::too_large(Quantity::SourceBytes, MOST_BYTES as u64)
}

/// Writes the object of a source. A file of more than `MOST_BYTES` bytes is not read to its end.
pub fn assemble_file<S: Store>(alloc: Global, store: &mut S, source: &Text, output: Text) -> Answer
    ensures { AssemblyAnswersOver source.now output (S.files store.old) (S.files store.new)
        (S.read_faults store.old) (S.read_faults store.new) (S.write_faults store.old) (S.write_faults store.new) result }
{
    let text = match read_input_up_to(alloc, store, source, MOST_BYTES as u32) {
        Ok(Some(text)) => text,
        Ok(None) => return fault_answer(long_source()),
        Err(end) => return end_answer(end),
    };
    match object_file(alloc, store, source, text.as_slice()) {
        Ok(object) => write(alloc, store, output, object.as_slice()),
        Err(fault) => fault_answer(fault),
    }
}
