//! Devices behind a command, and their states as steps write them.

ghost use Rattle.std.specs.Prelude.{◌≡◌, ◌≤◌, ◌+◌, ◌%◌, ◌^◌, IsTrue};
ghost use Rattle.sdt_word.specs.declared.codes.Width.TheVariants.{Word};
ghost use Rattle.sdt_outside.specs.Devices.{IsWithin};

use crate::told::Growing;
use sdt_fault::NoMemory;
use sdt_outside::Device;
use sdt_word::Width;

/// A device, and where it stands.
#[derive(Clone, Copy)]
pub struct Seat {
    pub base: u32,
    pub is_timer: bool,
    /// The period and the control word with which a timer begins.
    pub period: u32,
    pub control: u32,
    ghost aligned: { base % 4 ≡ 0 },
    ghost in_space: { base + 16 ≤ 2 ^ 32 },
}

/// What a command left of the device at an address.
#[derive(Clone, Copy)]
pub struct Left {
    pub base: u32,
    pub kind: LeftKind,
    /// Its words.
    pub first: u32,
    pub second: u32,
    pub third: u32,
}

#[derive(Clone, Copy)]
pub enum LeftKind {
    /// The device was taken out.
    Gone,
    TimerUp,
    TimerDown,
    Port,
}

/// What is left of the devices on these seats. It reads them and lets a tick go by, so they are used no more.
pub fn put_left(
    left: &mut Vec<Left>,
    devices: &mut Vec<Box<dyn Device>>,
    seats: &[Seat],
) -> Result<(), NoMemory> {
    for seat in seats {
        left.push(left_on(devices, seat))?;
    }
    Ok(())
}

fn left_on(devices: &mut Vec<Box<dyn Device>>, seat: &Seat) -> Left {
    let mut left = Left {
        base: seat.base,
        kind: LeftKind::Gone,
        first: 0,
        second: 0,
        third: 0,
    };
    for device in devices.iter_mut() {
        if device.range().base == seat.base {
            left.first = word_at(device, 0);
            left.second = word_at(device, 4);
            left.third = word_at(device, 8);
            left.kind = LeftKind::Port;
            if seat.is_timer {
                left.kind = timer_line(device);
            }
        }
    }
    left
}

// The device's word at an offset, or 0 where it has none.
fn word_at(device: &mut Box<dyn Device>, offset: u32) -> u32 {
    if !has_word(device, offset) {
        return 0;
    }
    device.read(offset, Width::Word)
}

fn has_word(device: &Box<dyn Device>, offset: u32) -> bool
    ensures { IsTrue result → IsWithin offset Word (size device.now) }
{
    if offset % 4 != 0 {
        return false;
    }
    u64::from(offset) + 4 <= device.range().size
}

// Only a tick tells of a line. The timer is stopped in front of it, so that it raises none.
fn timer_line(device: &mut Box<dyn Device>) -> LeftKind {
    if has_word(device, 4) {
        device.write(4, Width::Word, 0);
    }
    if device.tick().irq {
        return LeftKind::TimerUp;
    }
    LeftKind::TimerDown
}

/// What is left of a device, as a step `shows` has it, without the address; nothing of one that was taken out.
pub fn say_left(out: &mut Growing, left: &Left) {
    let (kind, line) = match left.kind {
        LeftKind::Gone => return,
        LeftKind::TimerUp => ("timer ", " up"),
        LeftKind::TimerDown => ("timer ", " down"),
        LeftKind::Port => ("uart ", ""),
    };
    out.say(kind);
    out.say_number(u64::from(left.first));
    out.say(" ");
    out.say_number(u64::from(left.second));
    if !line.is_empty() {
        out.say(" ");
        out.say_number(u64::from(left.third));
        out.say(line);
    }
}
