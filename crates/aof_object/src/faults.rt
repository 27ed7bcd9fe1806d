//! The refusal of an object.

ghost use Rattle.std.specs.Prelude.{◌≡◌, ◌+◌, ◌^◌, ◌<◌, ◌≤◌, []};
ghost use Rattle.sdt_fault.specs.declared.answer.Fault.TheVariants.{Refused};
ghost use Rattle.sdt_fault.specs.declared.refusal.Refusal.TheVariants.{BadObject};

use crate::checks::Flaw;
use sdt_fault::Text;
use sdt_fault::answer::Fault;
use sdt_fault::kinds::FileKind;
use sdt_fault::refusal::Refusal;
use std::alloc::Global;

/// A check failed at an offset of the file.
pub fn bad_object(alloc: Global, at: usize, kind: FileKind) -> Fault
    requires { at < 2 ^ 32 }
    ensures { result ≡ Refused (BadObject [] at kind) }
{
    Fault::Refused(Refusal::BadObject {
        file: Text::from_vec(Vec::new(alloc)),
        offset: at as u32,
        kind,
    })
}
