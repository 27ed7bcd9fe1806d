//! Why a Step or a Go ends.

ghost use Rattle.std.specs.Prelude.{◌≡◌};
ghost use Rattle.armsd_core.specs.Reasons as reasons;

use sdt_fault::answer::Stop;

/// Why a Step or a Go ends. The machine stops for good by all but the first three.
#[derive(Clone, Copy)]
pub enum Reason {
    /// All its steps were made.
    Count,
    /// The next step's address is a breakpoint.
    Break,
    /// The last step stored to the watched range, to this address and to none before it.
    Watch(u32),
    /// SWI 0x11.
    Exit,
    /// This word is unpredictable.
    Unpredictable(u32),
    /// The string of SWI 0x02 has a byte in no bank, at this address.
    BadString(u32),
    /// There is no frame for the page of this address.
    NoFrame(u32),
}

/// The reason that a run's stop is; None where the sink failed.
pub fn reason_of(stop: Stop) -> Option<Reason>
    ensures { result ≡ reasons.reason_of stop }
{
    match stop {
        Stop::Budget => Some(Reason::Count),
        Stop::Exit => Some(Reason::Exit),
        Stop::Unpredictable { address: _, word } => Some(Reason::Unpredictable(word)),
        Stop::BadString { address } => Some(Reason::BadString(address)),
        Stop::NoFrame { address } => Some(Reason::NoFrame(address)),
        Stop::Sink => None,
    }
}

/// The reason by which the machine stops for good, where it does.
pub fn lasting(why: Reason) -> Option<Reason>
    ensures { result ≡ reasons.lasting why }
{
    match why {
        Reason::Count | Reason::Break | Reason::Watch(_) => None,
        Reason::Exit | Reason::Unpredictable(_) | Reason::BadString(_) | Reason::NoFrame(_) => {
            Some(why)
        }
    }
}
