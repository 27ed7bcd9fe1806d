//! A serial port.

ghost use Rattle.std.specs.Prelude.{◌≡◌, ◌≤◌, ◌<◌, ◌%◌, ◌+◌, ◌^◌, ℕ};

use crate::device::words::{part_of, replaced};
use crate::device::{Device, Lines};
use sdt_word::{Range32, Width};

/// A serial port of two words: the last byte that was written, and the number of bytes.
#[derive(Drop)]
pub struct Uart {
    pub base: u32,
    /// The last byte, below 256.
    pub last: u32,
    /// The number of bytes, modulo 2^32.
    pub number: u32,
    touches: u64,
    ghost base_aligned: { base % 4 ≡ 0 },
    ghost in_space: { base + 8 ≤ 2 ^ 32 },
}

impl Uart {
    ghost use Rattle.sdt_outside.specs.DeviceStates.{uart_state};
    ghost use Rattle.sdt_outside.specs.Devices.{word_of};
    ghost use Rattle.std.specs.Prelude.{◌≡◌};

    /// A port that nothing was written to, at this multiple of 4.
    pub fn new(base: u32) -> Uart
        requires aligned { base % 4 ≡ 0 }
        requires room { base + 8 ≤ 2 ^ 32 }
        ensures state { (result.base ≡ base) × (result.last ≡ 0) × (result.number ≡ 0) }
        ensures touches { result.touches ≡ 0 }
    {
        Uart {
            base,
            last: 0,
            number: 0,
            touches: 0,
        }
    }

    fn word(&self, index: u32) -> u32
        ensures { result ≡ word_of (uart_state self.now) index }
    {
        if index == 0 { self.last } else { self.number }
    }
}

impl Device for Uart {
    ghost use Rattle.sdt_outside.specs.DeviceStates.{uart_state};

    ghost base = { λ uart. uart.base };

    ghost size = { λ _. 8 };

    ghost state = { uart_state };

    ghost touched = { λ uart. uart.touches };

    fn range(&self) -> Range32 {
        Range32 {
            base: self.base,
            size: 8,
        }
    }

    fn read(&mut self, offset: u32, width: Width) -> u32 {
        self.touches = self.touches.saturating_add(1);
        part_of(self.word(offset / 4), offset, width)
    }

    fn write(&mut self, offset: u32, width: Width, value: u32) {
        self.touches = self.touches.saturating_add(1);
        let value = replaced(self.word(offset / 4), offset, width, value);
        if offset / 4 == 0 {
            self.last = value % 0x100;
            self.number = self.number.wrapping_add(1);
        }
    }

    fn tick(&mut self) -> Lines {
        Lines {
            irq: false,
            fiq: false,
        }
    }

    fn is_idle(&self) -> bool {
        true
    }

    fn touches(&self) -> u64 {
        self.touches
    }
}
