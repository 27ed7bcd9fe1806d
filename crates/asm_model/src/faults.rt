//! The fault of a line.

ghost use Rattle.asm_model.specs.Told.{IsBadLine};

use sdt_fault::Text;
use sdt_fault::answer::Fault;
use sdt_fault::kinds::LineKind;
use sdt_fault::refusal::Refusal;
use std::alloc::Global;

/// The refusal of a line, or want of memory.
pub fn bad_line(alloc: Global, source: &Text, number: u32, kind: LineKind) -> Fault
    ensures { IsBadLine source.now number kind result }
{
    match source.try_clone(alloc) {
        Ok(source) => Fault::Refused(Refusal::BadLine {
            source,
            line: number,
            kind,
        }),
        Err(_) => Fault::NoMemory,
    }
}
