//! The answers where a command can't be done.

ghost use Rattle.std.specs.Prelude.{◌≡◌};
ghost use Rattle.tool_library.specs.Libraries as libraries;

use sdt_fault::answer::{Answer, Fault};
use sdt_fault::refusal::Refusal;
use tool_answers::InputEnd;

/// The answer where an input was not read.
pub fn end_answer(end: InputEnd) -> Answer
    ensures { result ≡ libraries.end_answer end }
{
    match end {
        InputEnd::Missing(name) => Answer::Refused(Refusal::Missing { name }),
        InputEnd::Failed(name) => Answer::ReadFault(name),
        InputEnd::NoMemory => Answer::NoMemory,
    }
}

/// The answer where a file is refused.
pub fn fault_answer(fault: Fault) -> Answer
    ensures { result ≡ libraries.fault_answer fault }
{
    match fault {
        Fault::Refused(refusal) => Answer::Refused(refusal),
        Fault::ReadFault(name) => Answer::ReadFault(name),
        Fault::NoMemory => Answer::NoMemory,
    }
}
