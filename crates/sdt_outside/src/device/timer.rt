//! A timer.

ghost use Rattle.std.specs.Prelude.{◌≡◌, ◌≤◌, ◌%◌, ◌+◌, ◌^◌, false, ℕ};

use crate::device::words::{part_of, replaced};
use crate::device::{Device, Lines};
use sdt_word::{Range32, Width};

/// A timer of four words: period, control, count and acknowledge.
#[derive(Drop)]
pub struct Timer {
    pub base: u32,
    pub period: u32,
    pub control: u32,
    pub count: u32,
    /// Whether the IRQ line is up.
    pub line_up: bool,
    touches: u64,
    ghost base_aligned: { base % 4 ≡ 0 },
    ghost in_space: { base + 16 ≤ 2 ^ 32 },
}

impl Timer {
    ghost use Rattle.sdt_outside.specs.DeviceStates.{timer_state};
    ghost use Rattle.sdt_outside.specs.Devices.{with_word, word_of};
    ghost use Rattle.std.specs.Prelude.{◌≡◌, false};

    /// A timer that stands still, at this multiple of 4.
    pub fn new(base: u32) -> Timer
        requires aligned { base % 4 ≡ 0 }
        requires room { base + 16 ≤ 2 ^ 32 }
        ensures state { (result.base ≡ base) × (result.period ≡ 0) × (result.control ≡ 0) × (result.count ≡ 0) × (result.line_up ≡ false) }
        ensures touches { result.touches ≡ 0 }
    {
        Timer {
            base,
            period: 0,
            control: 0,
            count: 0,
            line_up: false,
            touches: 0,
        }
    }

    fn word(&self, index: u32) -> u32
        ensures { result ≡ word_of (timer_state self.now) index }
    {
        match index {
            0 => self.period,
            1 => self.control,
            2 => self.count,
            _ => 0,
        }
    }

    fn set_word(&mut self, index: u32, value: u32)
        ensures state { timer_state self.new ≡ with_word (timer_state self.old) index value }
        ensures same { (self.new.base ≡ self.old.base) × (self.new.touches ≡ self.old.touches) }
    {
        match index {
            0 => self.period = value,
            1 => self.control = value,
            2 => self.count = value,
            _ => self.line_up = false,
        }
    }
}

impl Device for Timer {
    ghost use Rattle.sdt_outside.specs.DeviceStates.{timer_state};

    ghost base = { λ timer. timer.base };

    ghost size = { λ _. 16 };

    ghost state = { timer_state };

    ghost touched = { λ timer. timer.touches };

    fn range(&self) -> Range32 {
        Range32 {
            base: self.base,
            size: 16,
        }
    }

    fn read(&mut self, offset: u32, width: Width) -> u32 {
        self.touches = self.touches.saturating_add(1);
        part_of(self.word(offset / 4), offset, width)
    }

    fn write(&mut self, offset: u32, width: Width, value: u32) {
        self.touches = self.touches.saturating_add(1);
        let value = replaced(self.word(offset / 4), offset, width, value);
        self.set_word(offset / 4, value);
    }

    fn tick(&mut self) -> Lines {
        if self.control % 2 == 1 && self.period != 0 {
            self.count = self.count.wrapping_add(1);
            if self.count == self.period {
                self.count = 0;
                self.line_up = true;
            }
        }
        Lines {
            irq: self.line_up,
            fiq: false,
        }
    }

    fn is_idle(&self) -> bool {
        !self.line_up && !(self.control % 2 == 1 && self.period != 0)
    }

    fn touches(&self) -> u64 {
        self.touches
    }
}
