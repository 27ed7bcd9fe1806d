//! Why reading stops at a part.

ghost use Rattle.std.specs.Prelude.{◌≡◌};
ghost use Rattle.scatter_text.specs.declared.stops.Stop.TheVariants as stop;

use sdt_fault::NoMemory;
use sdt_fault::kinds::ScatterKind;
use std::alloc::{AllocError, AllocFailed};

/// A fault at the part, or memory that was refused.
#[derive(Drop)]
pub enum Stop {
    At(ScatterKind),
    NoMemory,
}

impl From<NoMemory> for Stop {
    ghost from_gives = { λ _ e. e ≡ stop.NoMemory };

    fn from(_e: NoMemory) -> Stop {
        Stop::NoMemory
    }
}

impl From<AllocError> for Stop {
    ghost from_gives = { λ _ e. e ≡ stop.NoMemory };

    fn from(_e: AllocError) -> Stop {
        Stop::NoMemory
    }
}

impl<T: Drop> From<AllocFailed<T>> for Stop {
    ghost from_gives = { λ _ e. e ≡ stop.NoMemory };

    fn from(_e: AllocFailed<T>) -> Stop {
        Stop::NoMemory
    }
}
