//! Devices on the machine's bus.

ghost use Rattle.std.specs.Prelude.{◌≡◌, ℕ, ◌<◌, ◌^◌};
ghost use Rattle.sdt_outside.specs.Counts.{counted};

use sdt_word::{Range32, Width};

mod silent;
mod timer;
mod uart;
mod words;

pub use crate::device::silent::Silent;
pub use crate::device::timer::Timer;
pub use crate::device::uart::Uart;

/// What a device is, as far as accesses and ticks tell.
#[derive(Clone, Copy)]
pub enum DeviceState {
    /// Reads 0, ignores writes and raises no line.
    Quiet,
    /// Words at 0 period, 4 control, 8 count, 12 acknowledge. While bit 0 of control is set and the period
    /// isn't 0, a tick adds 1 to the count; where it comes to the period it begins at 0 and the IRQ line
    /// goes up, until a write to 12.
    TimerState {
        period: u32,
        control: u32,
        count: u32,
        up: bool,
    },
    /// Words at 0 the last byte that was written to it, 4 the number of bytes that were.
    UartState {
        last: u32,
        number: u32,
    },
}

/// Interrupt lines.
#[derive(Clone, Copy)]
pub struct Lines {
    pub irq: bool,
    pub fiq: bool,
}

/// A device. Its meanings are its base address and size, its state, and the count of reads and writes that touched it,
/// which stays at its last value.
pub trait Device: Drop {
    ghost use Rattle.std.specs.Prelude.{◌≡◌, ℕ};
    ghost use Rattle.sdt_outside.specs.declared.device.DeviceState.{DeviceState as State};
    ghost use Rattle.sdt_outside.specs.Devices.{IsPlaced, IsWithin, answered, stored, ticked, lines_of, is_idle};

    ghost base: { Self → ℕ };

    ghost size: { Self → ℕ };

    ghost state: { Self → State };

    ghost touched: { Self → ℕ };

    /// Its addresses: whole words, 16 bytes for a timer and 8 for a serial port. They never change.
    fn range(&self) -> Range32
        ensures value { (result.base ≡ base self.now) × (result.size ≡ size self.now) }
        ensures placed { IsPlaced (state self.now) (base self.now) (size self.now) };

    /// The bytes at an offset, lowest first.
    fn read(&mut self, offset: u32, width: Width) -> u32
        requires { IsWithin offset width (size self.old) }
        ensures answer { result ≡ answered (state self.old) offset width }
        ensures state { state self.new ≡ state self.old }
        ensures place { (base self.new ≡ base self.old) × (size self.new ≡ size self.old) }
        ensures touched { touched self.new ≡ counted (touched self.old) };

    /// Writes the low bytes of the value.
    fn write(&mut self, offset: u32, width: Width, value: u32)
        requires { IsWithin offset width (size self.old) }
        ensures state { state self.new ≡ stored (state self.old) offset width value }
        ensures place { (base self.new ≡ base self.old) × (size self.new ≡ size self.old) }
        ensures touched { touched self.new ≡ counted (touched self.old) };

    /// One step of time. It touches nothing.
    fn tick(&mut self) -> Lines
        ensures lines { result ≡ lines_of (state self.new) }
        ensures state { state self.new ≡ ticked (state self.old) }
        ensures place { (base self.new ≡ base self.old) × (size self.new ≡ size self.old) }
        ensures touched { touched self.new ≡ touched self.old };

    /// Whether a step of time changes nothing and raises no line.
    fn is_idle(&self) -> bool
        ensures { result ≡ is_idle (state self.now) };

    /// How many reads and writes there were.
    fn touches(&self) -> u64
        ensures { result ≡ touched self.now };
}
