//! Why the program stopped, and the short replies.

ghost use Rattle.std.specs.Prelude.{◌≡◌, IfOk, codes};
ghost use Rattle.gdb_packets.specs.Shown as shown;
ghost use Rattle.gdb_packets.specs.declared.stops.Stopped.TheVariants as stopped;

use crate::shown::put_number;
use sdt_fault::NoMemory;
use std::alloc::Global;

/// Why the program stands still.
#[derive(Clone, Copy, PartialEq, Eq, Debug)]
pub enum Stopped {
    /// A step was made, or none yet.
    Stepped,
    /// It stands at a breakpoint.
    Break,
    /// It stored to a watched address.
    Watch(u32),
    /// It was interrupted.
    Interrupt,
    /// It ended.
    Exit,
    /// What comes next is unpredictable.
    Unpredictable,
    /// It would print a text that has no end.
    BadString,
    /// It would return from an interrupt that has no frame.
    NoFrame,
}

fn watch_reply(alloc: Global, a: u32) -> Result<Vec<u8>, NoMemory>
    ensures { IfOk result (λ reply. reply.items ≡ shown.stop_reply (stopped.Watch a)) }
{
    let mut reply = Vec::new(alloc);
    reply.extend_from_slice(b"T05watch:")?;
    put_number(&mut reply, a)?;
    reply.push(b';')?;
    Ok(reply)
}

fn copied(alloc: Global, text: &[u8]) -> Result<Vec<u8>, NoMemory>
    ensures { IfOk result (λ reply. reply.items ≡ text.now) }
{
    let mut reply = Vec::new(alloc);
    reply.extend_from_slice(text)?;
    Ok(reply)
}

/// The reply that says why the program stopped.
pub fn stop_reply(alloc: Global, why: Stopped) -> Result<Vec<u8>, NoMemory>
    ensures { IfOk result (λ reply. reply.items ≡ shown.stop_reply why) }
{
    match why {
        Stopped::Stepped => copied(alloc, b"T05"),
        Stopped::Break => copied(alloc, b"T05swbreak:;"),
        Stopped::Watch(a) => watch_reply(alloc, a),
        Stopped::Interrupt => copied(alloc, b"T02"),
        Stopped::Exit => copied(alloc, b"W00"),
        Stopped::Unpredictable => copied(alloc, b"T04"),
        Stopped::BadString => copied(alloc, b"T0a"),
        Stopped::NoFrame => copied(alloc, b"T0b"),
    }
}

/// What was asked is done.
pub fn done() -> &'static [u8]
    ensures { result.now ≡ codes "OK" }
{
    b"OK"
}

/// What was asked can't be done.
pub fn failed() -> &'static [u8]
    ensures { result.now ≡ codes "E01" }
{
    b"E01"
}

/// A question behind a slice of steps, which gdb answers by itself: in front of the answer an interrupt comes through.
pub fn question() -> &'static [u8]
    ensures { result.now ≡ codes "Fisatty,0" }
{
    b"Fisatty,0"
}
