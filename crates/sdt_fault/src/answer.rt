//! The answer of a command, with its exit status, and the error of the engines below.

ghost use Rattle.std.specs.Prelude.{◌≡◌};
ghost use Rattle.sdt_fault.specs.Answers.{status};
ghost use Rattle.sdt_fault.specs.declared.answer.Fault.TheVariants as fault;
ghost use Rattle.sdt_fault.specs.declared.refusal.Refusal.TheVariants.{TooLarge};

use crate::NoMemory;
use crate::contents::Text;
use crate::kinds::Quantity;
use crate::refusal::Refusal;
use std::alloc::{AllocError, AllocFailed};

/// What a command answers.
#[derive(Drop)]
pub enum Answer {
    /// All was done; for `run`, the program ended by SWI 0x11.
    Done,
    /// The input has the defect.
    Refused(Refusal),
    /// A read of the input with this name failed.
    ReadFault(Text),
    /// A write of the output with this name failed; earlier outputs stand.
    WriteFault(Text),
    /// The text could not be written; a prefix of it was.
    SinkFault,
    /// A run ended otherwise than by SWI 0x11.
    Stopped(Stop),
    /// Memory was refused.
    NoMemory,
}

/// Why a run ended.
#[derive(Clone, Copy)]
pub enum Stop {
    /// SWI 0x11.
    Exit,
    /// All the steps were made.
    Budget,
    /// The instruction word at the address is unpredictable in this state.
    Unpredictable { address: u32, word: u32 },
    /// The byte at the address, of the string of SWI 0x02, is in no bank.
    BadString { address: u32 },
    /// A store to the address would need a page more than there is.
    NoFrame { address: u32 },
    /// The text could not be written.
    Sink,
}

/// The error of an engine. `ReadFault` comes from the assembler's GET alone.
#[derive(Drop)]
pub enum Fault {
    Refused(Refusal),
    ReadFault(Text),
    NoMemory,
}

/// The exit status of the program at this answer.
pub fn status_of(answer: &Answer) -> u8
    ensures { result ≡ status answer.now }
{
    match answer {
        Answer::Done => 0,
        Answer::Refused(_) => 1,
        Answer::ReadFault(_) => 2,
        Answer::WriteFault(_) => 3,
        Answer::SinkFault => 4,
        Answer::Stopped(_) => 5,
        Answer::NoMemory => 6,
    }
}

impl Fault {
    /// That there would be more of something than its limit.
    pub fn too_large(quantity: Quantity, limit: u64) -> Fault
        ensures { result ≡ fault.Refused (TooLarge quantity limit) }
    {
        Fault::Refused(Refusal::TooLarge { quantity, limit })
    }
}

impl From<NoMemory> for Fault {
    ghost from_gives = { λ _ e. e ≡ fault.NoMemory };

    fn from(_e: NoMemory) -> Fault {
        Fault::NoMemory
    }
}

impl From<AllocError> for Fault {
    ghost from_gives = { λ _ e. e ≡ fault.NoMemory };

    fn from(_e: AllocError) -> Fault {
        Fault::NoMemory
    }
}

impl<T: Drop> From<AllocFailed<T>> for Fault {
    ghost from_gives = { λ _ e. e ≡ fault.NoMemory };

    fn from(_e: AllocFailed<T>) -> Fault {
        Fault::NoMemory
    }
}
