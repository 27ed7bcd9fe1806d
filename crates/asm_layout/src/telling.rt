//! The refusal of a faulty line.

ghost use Rattle.std.specs.Prelude.{Some};
ghost use Rattle.asm_layout.specs.Layout.{IsTold};

use asm_model::Statement;
use sdt_fault::answer::Fault;
use sdt_fault::kinds::LineKind;
use sdt_fault::refusal::Refusal;
use std::alloc::Global;

/// The refusal of a statement's line.
pub fn told_of(alloc: Global, statement: &Statement, kind: LineKind) -> Fault
    ensures { IsTold (Some (statement.now, kind)) result }
{
    match statement.source.as_text().try_clone(alloc) {
        Ok(source) => Fault::Refused(Refusal::BadLine {
            source,
            line: statement.number,
            kind,
        }),
        Err(_) => Fault::NoMemory,
    }
}
