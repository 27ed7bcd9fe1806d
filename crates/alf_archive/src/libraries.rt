//! Which files are libraries.

ghost use Rattle.std.specs.Prelude.{◌≡◌, ◌<◌, ◌^◌, IfOk, length};
ghost use Rattle.alf_archive.specs.Archives as archives;

use aof_object::{Found, find};
use chunk_file::{Span, read_table};
use sdt_fault::NoMemory;
use sdt_fault::answer::Fault;
use std::alloc::Global;

fn names_directory(spans: &[Option<Span>]) -> bool
    ensures { result ≡ archives.names_directory spans.now }
{
    match find(spans, *b"LIB_DIRY") {
        Found::Absent => false,
        _ => true,
    }
}

/// Whether a file is taken for a library. What it lacks as one is found by reading it.
#[tactic(auto, unfolding(crate::specs::Archives::is_library))]
pub fn is_library(alloc: Global, b: &[u8]) -> Result<bool, NoMemory>
    requires { length b.now < 2 ^ 32 }
    ensures { IfOk result (λ found. found ≡ archives.is_library b.now) }
{
    match read_table(alloc, b) {
        Ok(spans) => Ok(names_directory(spans.as_slice())),
        Err(Fault::NoMemory) => Err(NoMemory),
        Err(_) => Ok(false),
    }
}
