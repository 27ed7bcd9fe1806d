//! The commands of a script.

use sdt_word::Range32;

/// A command of a script.
#[derive(Clone, Copy)]
pub enum Command {
    /// `break A`: the address becomes a breakpoint.
    Break(u32),
    /// `unbreak A`: the address is no breakpoint.
    Unbreak(u32),
    /// `watch BASE SIZE`: the range, and no other, is watched.
    Watch(Range32),
    /// `unwatch`: no range is watched.
    Unwatch,
    /// `step N`: N steps.
    Step(u32),
    /// `go N`: at most N steps, up to a breakpoint or a store to the watched range.
    Go(u32),
    /// `regs`: prints the registers.
    Regs,
    /// `mem A N`: prints N bytes from the address on.
    Mem(u32, u32),
    /// `detach N`: takes the device of this number, from 0, out of the bus; the later ones move up by one.
    Detach(u32),
    /// `quit`: ends the session.
    Quit,
}
