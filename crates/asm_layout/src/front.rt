//! The first lines of a source.

ghost use Rattle.std.specs.Prelude.{◌+◌, ◌<◌, [], length};
ghost use Rattle.asm_model.specs.Laid.{reversed};
ghost use Rattle.asm_model.specs.Said.{AllSaid};
ghost use Rattle.asm_laying.specs.Carried.{most_statements};
ghost use Rattle.asm_layout.specs.Front.{front_laid};
ghost use Rattle.asm_layout.specs.Late.{IsCleared};

use crate::outline::outline_of;
use crate::walking::walked_front;
use asm_model::Statement;
use sdt_fault::answer::Fault;
use std::alloc::Global;

/// Judges the first lines of a source, `count` of them or all where there are fewer, by the faults that are told at them.
/// A refusal is BadLine at the first of them with such a fault. The names that any statement of the source gives count.
pub fn front_fault(alloc: Global, statements: &[Statement], count: usize) -> Result<(), Fault>
    requires few { length statements.now < most_statements + 1 }
    requires said { AllSaid statements.now }
    ensures { IsCleared (front_laid (reversed statements.now []) count) result }
{
    let outline = outline_of(alloc, statements)?;
    let walked = walked_front(alloc, &outline, statements, count);
    drop(outline);
    match walked {
        Ok(walk) => {
            drop(walk);
            Ok(())
        }
        Err(fault) => Err(fault),
    }
}
