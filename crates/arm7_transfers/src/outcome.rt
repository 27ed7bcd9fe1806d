//! How an instruction ended.

use arm7_model::Exception;

/// How an instruction ended. Only one that ran has changed registers or memory.
#[derive(Clone, Copy)]
pub enum Outcome {
    /// It ran.
    Ran,
    /// An access of it is absent, or a store of it meets a read-only byte.
    Aborted,
    /// It is unpredictable.
    Unpredictable,
    /// It takes this exception, with the next instruction's address as lr.
    Raised(Exception),
    /// It is a software interrupt of the host.
    Host(u32),
    /// It would store at this address, whose page has no frame.
    NoFrame(u32),
}
