//! The opening of a run.

ghost use Rattle.std.specs.Prelude.{◌≡◌, map, IfErr, IfOk, MatchOption};
ghost use Rattle.std.specs.List.{AllByRecursion};
ghost use Rattle.arm7_bus.specs.Buses.{bus_state};
ghost use Rattle.arm7_bus.specs.Meets.{IsNowhere};
ghost use Rattle.arm7_bus.specs.Seats.{seats_by};
ghost use Rattle.arm7_bus.specs.WholeWords.{AreWholeSeats};
ghost use Rattle.arm7_transfers.specs.Ready.{IsReady};
ghost use Rattle.run_opening.specs.Banks.{IsBank, IsDefect, IsRoomy, banks_of, is_lacking, memory_bank, two_have};
ghost use Rattle.run_opening.specs.Fills.{IsFilled, IsUnprepared, protected_all, ranges_of};
ghost use Rattle.run_opening.specs.Openings.{AreNeeded, IsClosed, IsOpening};

use crate::filling::fill;
use crate::image::{Image, Need};
use crate::judging::{least_lacking, least_shared};
use arm7_bus::{Bus, NoBus};
use sdt_fault::NoMemory;
use sdt_fault::answer::Fault;
use sdt_fault::refusal::Refusal;
use sdt_outside::Device;
use sdt_word::Range32;
use std::alloc::Global;

/// Why a run isn't opened. The devices are handed back.
#[derive(Drop)]
pub struct Closed {
    pub devices: Vec<Box<dyn Device>>,
    pub fault: Fault,
}

/// The ranges of all banks.
fn all_ranges(alloc: Global, memory: &[Range32], rom: &[Range32]) -> Result<Vec<Range32>, NoMemory>
    ensures { IfOk result (λ ranges. ranges.items ≡ ranges_of memory.now rom.now) }
{
    if memory.is_empty() && rom.is_empty() {
        let whole = Range32 {
            base: 0,
            size: 0x0100_0000,
        };
        return Ok(Vec::from_slice(alloc, &[whole])?);
    }
    let mut ranges = Vec::from_slice(alloc, memory)?;
    ranges.extend_from_slice(rom)?;
    Ok(ranges)
}

/// What meets, or else what is needed and no memory.
fn misplaced(ranges: &[Range32], devices: &[Box<dyn Device>], needs: &[Need]) -> Option<Refusal>
    ensures { MatchOption result (IsNowhere (two_have (map memory_bank ranges.now) (seats_by base size state touched devices.now)) × IsNowhere (is_lacking (map memory_bank ranges.now) needs.now)) (λ r. IsDefect (map memory_bank ranges.now) (seats_by base size state touched devices.now) needs.now r) }
{
    if let Some(address) = least_shared(ranges, devices) {
        return Some(Refusal::BankOverlap { address });
    }
    match least_lacking(ranges, needs) {
        Some(address) => Some(Refusal::NoRoom { address }),
        None => None,
    }
}

/// A bus of these devices with the banks of these ranges. None of them meets another, and all that is needed is memory.
fn build(
    alloc: Global,
    devices: Vec<Box<dyn Device>>,
    ranges: &[Range32],
    rom: &[Range32],
    image: &Image,
) -> Result<Bus, Closed>
    requires banks { AllByRecursion IsBank ranges.now }
    requires apart { IsNowhere (two_have (map memory_bank ranges.now) (seats_by base size state touched devices.items)) }
    requires room { IsNowhere (is_lacking (map memory_bank ranges.now) image.now.needs) }
    requires needed { AreNeeded image.now }
    ensures filled { IfOk result (λ bus. IsFilled (map memory_bank ranges.now) (protected_all rom.now (map memory_bank ranges.now)) image.now (seats_by base size state touched devices.items) (bus_state base size state touched bus)) }
    ensures whole { AreWholeSeats (seats_by base size state touched devices.items) }
    ensures closed { IfErr result (λ e. IsUnprepared (map memory_bank ranges.now) image.now.needs e.fault) }
    ensures devices { IfErr result (λ e. seats_by base size state touched e.devices.items ≡ seats_by base size state touched devices.items) }
{
    match Bus::new(alloc, devices) {
        Err(NoBus { devices, address }) => Err(Closed {
            devices,
            fault: Fault::Refused(Refusal::BankOverlap { address }),
        }),
        Ok(mut bus) => match fill(&mut bus, ranges, rom, image) {
            Ok(()) => Ok(bus),
            Err(fault) => Err(Closed {
                devices: bus.into_devices(),
                fault,
            }),
        },
    }
}

/// Banks of memory with the image's files in them: those of `memory`, and those of `rom`, which are read-only; where there
/// is neither, 0x01000000 bytes from 0 on.
pub fn open(
    alloc: Global,
    devices: Vec<Box<dyn Device>>,
    memory: &[Range32],
    rom: &[Range32],
    image: &Image,
) -> Result<Bus, Closed>
    requires memory { AllByRecursion IsBank memory.now }
    requires rom { AllByRecursion IsBank rom.now }
    requires needed { AreNeeded image.now }
    ensures opened { IfOk result (λ bus. IsOpening (banks_of memory.now rom.now) image.now (seats_by base size state touched devices.items) (bus_state base size state touched bus)) }
    ensures roomy { IfOk result (λ bus. IsRoomy (banks_of memory.now rom.now) (seats_by base size state touched devices.items) image.now.needs) }
    ensures ready { IfOk result (λ bus. IsReady (bus_state base size state touched bus)) }
    ensures closed { IfErr result (λ e. IsClosed (banks_of memory.now rom.now) (seats_by base size state touched devices.items) image.now e.fault) }
    ensures devices { IfErr result (λ e. seats_by base size state touched e.devices.items ≡ seats_by base size state touched devices.items) }
{
    let Ok(ranges) = all_ranges(alloc, memory, rom) else {
        return Err(Closed {
            devices,
            fault: Fault::NoMemory,
        });
    };
    if let Some(defect) = misplaced(&ranges, &devices, image.needs.as_slice()) {
        return Err(Closed {
            devices,
            fault: Fault::Refused(defect),
        });
    }
    build(alloc, devices, &ranges, rom, image)
}
