//! The image that the words name, in the banks of memory that they tell.

ghost use Rattle.std.specs.Prelude.{◌≡◌, ◌≤◌, IfErr, IfOk};
ghost use Rattle.std.specs.List.{AllByRecursion};
ghost use Rattle.sdt_outside.specs.Counts.{Rose};
ghost use Rattle.arm7_bus.specs.Buses.{bus_state};
ghost use Rattle.arm7_bus.specs.Seats.{seats_by};
ghost use Rattle.arm7_transfers.specs.Ready.{IsReady};
ghost use Rattle.run_opening.specs.Openings.{AreNeeded};
ghost use Rattle.tool_words.specs.Commands.{IsBank};
ghost use Rattle.tool_run.specs.Openings.{IsClosed, IsFilled, IsOpen, IsUnopened};

use crate::banks::ranges;
use crate::ends::{ImageEnd, fault_end};
use crate::image::read_image;
use arm7_bus::Bus;
use run_opening::{Closed, Image, open};
use sdt_fault::NoMemory;
use sdt_fault::answer::Fault;
use sdt_outside::{Device, Store};
use std::alloc::Global;
use std::mem;
use tool_words::{Bank, RunImage};

/// An image, and the bus of devices and banks of memory that it was loaded into.
#[derive(Drop)]
pub struct Board {
    pub image: Image,
    pub bus: Bus,
}

/// The image in banks of memory; otherwise the devices are handed back.
fn open_banks(
    alloc: Global,
    devices: Vec<Box<dyn Device>>,
    memory: &[Bank],
    rom: &[Bank],
    image: &Image,
) -> Result<Bus, Closed>
    requires memory { AllByRecursion IsBank memory.now }
    requires rom { AllByRecursion IsBank rom.now }
    requires needed { AreNeeded image.now }
    ensures filled { IfOk result (λ bus. IsFilled memory.now rom.now image.now (seats_by base size state touched devices.items)
        (bus_state base size state touched bus)) }
    ensures ready { IfOk result (λ bus. IsReady (bus_state base size state touched bus)) }
    ensures closed { IfErr result (λ e. IsClosed memory.now rom.now image.now (seats_by base size state touched devices.items) e.fault) }
    ensures devices { let seats = seats_by base size state touched devices.items in
        IfErr result (λ e. seats_by base size state touched e.devices.items ≡ seats) }
{
    let Ok(memory) = ranges(alloc, memory) else {
        return Err(Closed {
            devices,
            fault: Fault::NoMemory,
        });
    };
    let Ok(rom) = ranges(alloc, rom) else {
        return Err(Closed {
            devices,
            fault: Fault::NoMemory,
        });
    };
    open(alloc, devices, memory.as_slice(), rom.as_slice(), image)
}

/// Reads the image that the words name, and loads it into banks of memory beside the devices, which the bus takes. Where
/// that fails, no device was touched.
pub fn open_image<S: Store>(
    alloc: Global,
    store: &mut S,
    devices: &mut Vec<Box<dyn Device>>,
    words: &RunImage,
    memory: &[Bank],
    rom: &[Bank],
) -> Result<Board, ImageEnd>
    requires memory { AllByRecursion IsBank memory.now }
    requires rom { AllByRecursion IsBank rom.now }
    ensures opened { let told = S.files store.old in let rose = Rose (S.read_faults store.old) (S.read_faults store.new) in
        IfOk result (λ board. IsOpen words.now memory.now rom.now told rose (seats_by base size state touched devices.old.items)
        board.image (bus_state base size state touched board.bus)) }
    ensures ready { IfOk result (λ board. IsReady (bus_state base size state touched board.bus)) }
    ensures unopened { let told = S.files store.old in let rose = Rose (S.read_faults store.old) (S.read_faults store.new) in
        IfErr result (λ end. IsUnopened words.now memory.now rom.now told rose (seats_by base size state touched devices.old.items) end) }
    ensures devices { let seats = seats_by base size state touched devices.old.items in
        IfErr result (λ end. seats_by base size state touched devices.new.items ≡ seats) }
    ensures files { S.files store.new ≡ S.files store.old }
    ensures read_faults { S.read_faults store.old ≤ S.read_faults store.new }
    ensures write_faults { S.write_faults store.new ≡ S.write_faults store.old }
{
    let image = match read_image(alloc, store, words) {
        Ok(image) => image,
        Err(end) => return Err(end),
    };
    let lent = mem::replace(devices, Vec::new(alloc));
    match open_banks(alloc, lent, memory, rom, &image) {
        Ok(bus) => Ok(Board { image, bus }),
        Err(closed) => {
            *devices = closed.devices;
            Err(fault_end(closed.fault))
        }
    }
}
