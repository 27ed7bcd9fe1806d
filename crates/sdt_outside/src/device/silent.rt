//! A device that does nothing.

ghost use Rattle.std.specs.Prelude.{◌≡◌, ◌%◌};
ghost use Rattle.sdt_outside.specs.declared.device.DeviceState.TheVariants.{Quiet};

use crate::device::{Device, Lines};
use sdt_word::{Range32, Width};

/// Reads 0, ignores writes and raises no line.
#[derive(Drop)]
pub struct Silent {
    range: Range32,
    touches: u64,
    ghost base_aligned: { range.base % 4 ≡ 0 },
    ghost size_aligned: { range.size % 4 ≡ 0 },
}

impl Silent {
    /// A device at these addresses, which are whole words.
    pub fn new(range: Range32) -> Silent
        requires base { range.base % 4 ≡ 0 }
        requires size { range.size % 4 ≡ 0 }
        ensures { (result.range ≡ range) × (result.touches ≡ 0) }
    {
        Silent { range, touches: 0 }
    }
}

impl Device for Silent {
    ghost base = { λ silent. silent.range.base };

    ghost size = { λ silent. silent.range.size };

    ghost state = { λ _. Quiet };

    ghost touched = { λ silent. silent.touches };

    fn range(&self) -> Range32 {
        self.range
    }

    fn read(&mut self, _offset: u32, _width: Width) -> u32 {
        self.touches = self.touches.saturating_add(1);
        0
    }

    fn write(&mut self, _offset: u32, _width: Width, _value: u32) {
        self.touches = self.touches.saturating_add(1);
    }

    fn tick(&mut self) -> Lines {
        Lines {
            irq: false,
            fiq: false,
        }
    }

    fn is_idle(&self) -> bool {
        true
    }

    fn touches(&self) -> u64 {
        self.touches
    }
}
