//! The devices on the bus, by the addresses that they have.

ghost use Rattle.std.specs.Prelude.{is_some, IfSome, false, ◌≡◌, ◌<◌, ◌≤◌, ◌+◌, ◌-◌, ◌%◌, ◌^◌, ◌||◌, ℕ, length, map, true, position, IsTrue, vec_len, option_map, slice_get};
ghost use Rattle.sdt_word.specs.Codes.{bytes_in};
ghost use Rattle.sdt_outside.specs.Counts.{counted};
ghost use Rattle.sdt_outside.specs.Devices.{answered, stored, ticked, lines_of, is_idle};
ghost use Rattle.std.specs.Prelude.{◌&&◌};
ghost use Rattle.arm7_bus.specs.Meets.{IsFound, seats_have, seats_share};
ghost use Rattle.arm7_bus.specs.WholeWords.{IsWhole, AreWholeSeats};
ghost use Rattle.arm7_bus.specs.Seats.{first_place, has_access, seats_by, device_at, changed_at, seat_read, seat_written, seat_answer, seat_ticked, ticked_at, lines_at, lines_up, are_idle};

use crate::meets::{first_shared, lesser};
use crate::memory::range_has;
use sdt_outside::{Device, Lines};
use sdt_word::{Range32, Width};

fn device_has(device: &Box<dyn Device>, a: u32, n: u32) -> bool
    ensures { result ≡ has_access (base device.now) (size device.now) a n }
{
    range_has(device.range(), u64::from(a), n)
}

fn read_one(device: &mut Box<dyn Device>, a: u32, width: Width) -> u32
    requires within { IsTrue (has_access (base device.old) (size device.old) a (bytes_in width)) }
    requires aligned { a % bytes_in width ≡ 0 }
    ensures answer { result ≡ answered (state device.old) (a - base device.old) width }
    ensures state { state device.new ≡ state device.old }
    ensures place { (base device.new ≡ base device.old) × (size device.new ≡ size device.old) }
    ensures touched { touched device.new ≡ counted (touched device.old) }
{
    let base = device.range().base;
    device.read(a - base, width)
}

fn write_one(device: &mut Box<dyn Device>, a: u32, width: Width, value: u32)
    requires within { IsTrue (has_access (base device.old) (size device.old) a (bytes_in width)) }
    requires aligned { a % bytes_in width ≡ 0 }
    ensures state { state device.new ≡ stored (state device.old) (a - base device.old) width value }
    ensures place { (base device.new ≡ base device.old) × (size device.new ≡ size device.old) }
    ensures touched { touched device.new ≡ counted (touched device.old) }
{
    let base = device.range().base;
    device.write(a - base, width, value);
}

fn tick_one(device: &mut Box<dyn Device>) -> Lines
    ensures lines { result ≡ lines_of (ticked (state device.old)) }
    ensures state { state device.new ≡ ticked (state device.old) }
    ensures place { (base device.new ≡ base device.old) × (size device.new ≡ size device.old) }
    ensures touched { touched device.new ≡ touched device.old }
{
    device.tick()
}

/// Ticks the device at a place.
fn tick_at(devices: &mut Vec<Box<dyn Device>>, i: usize) -> Lines
    requires { i < length devices.old.items }
    ensures devices { seats_by base size state touched devices.new.items ≡ ticked_at i (seats_by base size state touched devices.old.items) }
    ensures lines { result ≡ lines_at i (seats_by base size state touched devices.new.items) }
    ensures len { length devices.new.items ≡ length devices.old.items }
{
    tick_one(&mut devices[i])
}

/// Ticks two devices, which is what the machine has, in their turn.
#[inline(always)]
fn tick_two(devices: &mut Vec<Box<dyn Device>>) -> Lines
    requires { length devices.old.items ≡ 2 }
    ensures devices { seats_by base size state touched devices.new.items ≡ map seat_ticked (seats_by base size state touched devices.old.items) }
    ensures lines { result ≡ lines_up (seats_by base size state touched devices.new.items) }
{
    let first = tick_at(devices, 0);
    let second = tick_at(devices, 1);
    joined(first, second)
}

/// Ticks each device in its turn. A line is up where a device raises it.
#[inline(always)]
pub fn tick(devices: &mut Vec<Box<dyn Device>>) -> Lines
    ensures devices { seats_by base size state touched devices.new.items ≡ map seat_ticked (seats_by base size state touched devices.old.items) }
    ensures lines { result ≡ lines_up (seats_by base size state touched devices.new.items) }
{
    if devices.len() == 2 {
        return tick_two(devices);
    }
    tick_each(devices)
}

/// The same for any number of devices.
#[inline(never)]
fn tick_each(devices: &mut Vec<Box<dyn Device>>) -> Lines
    ensures devices { seats_by base size state touched devices.new.items ≡ map seat_ticked (seats_by base size state touched devices.old.items) }
    ensures lines { result ≡ lines_up (seats_by base size state touched devices.new.items) }
{
    let mut lines = Lines {
        irq: false,
        fiq: false,
    };
    for i in 0..devices.len() {
        lines = joined(lines, tick_at(devices, i));
    }
    lines
}

fn device_idle(device: &Box<dyn Device>) -> bool
    ensures { result ≡ is_idle (state device.now) }
{
    device.is_idle()
}

/// Whether no step of time changes a device, and none raises a line.
pub fn are_idle(devices: &[Box<dyn Device>]) -> bool
    ensures { result ≡ are_idle (seats_by base size state touched devices.now) }
{
    let [first, rest @ ..] = devices else {
        return true;
    };
    if !device_idle(first) {
        return false;
    }
    are_idle(rest)
}

fn joined(a: Lines, b: Lines) -> Lines
    ensures irq { result.irq ≡ (a.irq || b.irq) }
    ensures fiq { result.fiq ≡ (a.fiq || b.fiq) }
{
    Lines {
        irq: a.irq | b.irq,
        fiq: a.fiq | b.fiq,
    }
}

/// The place in the list of the first device that has the access.
fn find(devices: &[Box<dyn Device>], a: u32, n: u32) -> Option<usize>
    ensures place { result ≡ first_place (λ d. has_access (base d) (size d) a n) devices.now }
    ensures within { IfSome result (λ i. i < length devices.now) }
{
    let [first, rest @ ..] = devices else {
        return None;
    };
    if device_has(first, a, n) {
        return Some(0);
    }
    match find(rest, a, n) {
        Some(i) => Some(i + 1),
        None => None,
    }
}

/// The answer of the device that has the access.
#[inline(never)]
pub fn read(devices: &mut Vec<Box<dyn Device>>, a: u32, width: Width) -> Option<u32>
    requires { a % bytes_in width ≡ 0 }
    ensures answer { result ≡ option_map (seat_answer a width) (device_at (seats_by base size state touched devices.old.items) a (bytes_in width)) }
    ensures devices { seats_by base size state touched devices.new.items ≡ changed_at seat_read a (bytes_in width) (seats_by base size state touched devices.old.items) }
{
    match find(devices, a, width.bytes()) {
        Some(i) => Some(read_one(&mut devices[i], a, width)),
        None => None,
    }
}

/// Writes to the device that has the access; false where there is none.
#[inline(never)]
pub fn write(devices: &mut Vec<Box<dyn Device>>, a: u32, width: Width, value: u32) -> bool
    requires { a % bytes_in width ≡ 0 }
    ensures found { result ≡ is_some (device_at (seats_by base size state touched devices.old.items) a (bytes_in width)) }
    ensures same { result ≡ false → seats_by base size state touched devices.new.items ≡ seats_by base size state touched devices.old.items }
    ensures devices { seats_by base size state touched devices.new.items ≡ changed_at (seat_written a width value) a (bytes_in width) (seats_by base size state touched devices.old.items) }
{
    match find(devices, a, width.bytes()) {
        Some(i) => {
            write_one(&mut devices[i], a, width, value);
            true
        }
        None => false,
    }
}

/// Whether a device has the whole access.
pub fn has(devices: &[Box<dyn Device>], a: u32, n: u32) -> bool
    ensures { result ≡ is_some (device_at (seats_by base size state touched devices.now) a n) }
{
    let [first, rest @ ..] = devices else {
        return false;
    };
    if device_has(first, a, n) {
        return true;
    }
    has(rest, a, n)
}

fn range_of(device: &Box<dyn Device>) -> Range32
    ensures place { (result.base ≡ base device.now) × (result.size ≡ size device.now) }
    ensures whole { IsWhole (base device.now) (size device.now) }
{
    device.range()
}

fn shared_with(device: &Box<dyn Device>, r: Range32) -> Option<u32>
    ensures { IsFound (λ a. has_access r.base r.size a 1 && has_access (base device.now) (size device.now) a 1) result }
{
    first_shared(r, range_of(device))
}

/// The least address that the range shares with a device.
pub fn meeting(devices: &[Box<dyn Device>], r: Range32) -> Option<u32>
    ensures { IsFound (λ a. has_access r.base r.size a 1 && seats_have (seats_by base size state touched devices.now) a) result }
{
    let [first, rest @ ..] = devices else {
        return None;
    };
    lesser(shared_with(first, r), meeting(rest, r))
}

/// The least address that two devices share. Each device has whole words.
pub fn least_shared(devices: &[Box<dyn Device>]) -> Option<u32>
    ensures found { IsFound (λ a. seats_share (seats_by base size state touched devices.now) a) result }
    ensures whole { AreWholeSeats (seats_by base size state touched devices.now) }
{
    let [first, rest @ ..] = devices else {
        return None;
    };
    lesser(meeting(rest, range_of(first)), least_shared(rest))
}
