//! A sink for no text.

ghost use Rattle.std.specs.Prelude.{None};

use sdt_outside::{Sink, SinkError};

/// A sink that takes each text and keeps and tells none. No call of it is counted as a fault.
#[derive(Clone, Copy, Drop)]
pub struct NoText;

impl Sink for NoText {
    ghost bytes = { λ _. None };

    ghost faults = { λ _. 0 };

    fn write_all(&mut self, _piece: &[u8]) -> Result<(), SinkError> {
        Ok(())
    }
}
