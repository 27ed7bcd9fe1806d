//! What one step was.

/// An exception that the processor takes (ARM Architecture Reference Manual, exceptions).
#[derive(Clone, Copy)]
pub enum Exception {
    Undefined,
    SoftwareInterrupt,
    PrefetchAbort,
    DataAbort,
    Irq,
    Fiq,
}

/// What one step of the machine was.
#[derive(Clone, Copy)]
pub enum Event {
    /// An ordinary instruction, or one whose condition failed.
    Ran,
    /// An exception was entered.
    Took(Exception),
    /// A software interrupt of the host, with its number: 0x00, 0x02 or 0x11. The text is the caller's
    /// work.
    Host(u32),
    /// An unpredictable instruction, with its word; the state is as before the step.
    Unpredictable(u32),
    /// An instruction would store to a page that has no frame, at this address; nothing was done.
    NoFrame(u32),
}
