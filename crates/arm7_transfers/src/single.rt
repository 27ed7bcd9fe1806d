//! Loads and stores of one register, and the swap.

ghost use Rattle.std.specs.Prelude.{◌≡◌, ◌<◌, ◌%◌, ◌==◌, ◌&&◌, not, [], false};
ghost use Rattle.arm7_model.specs.Transfers.{loaded, stored, swapped, transferred, with_base};
ghost use Rattle.arm7_transfers.specs.Done.{IsDone};
ghost use Rattle.arm7_transfers.specs.Ready.{IsReady};
ghost use Rattle.arm7_transfers.specs.Views.{state_of};

use crate::access::{lacks_frame, load, may_store, read, store, write};
use crate::outcome::Outcome;
use arm7_bus::{Bus, BusFault};
use arm7_model::ArmState;
use arm7_registers::{
    aligned, loaded_value, operand_at, register, set_base, set_register, set_result, stored_at,
    transfer_address,
};
use sdt_outside::Device;
use sdt_word::Width;

/// The base of a load or store: its register, an offset that is added to it or, where `up` is false, taken
/// away, whether that is done before the access, and whether the moved base is written back. After an access
/// it always is.
#[derive(Clone, Copy)]
pub struct Base {
    pub pre: bool,
    pub up: bool,
    pub write_back: bool,
    pub register: u8,
    pub offset: u32,
}

/// Whether a loaded value would be pc and is no address of ARM state.
fn is_no_address(rd: u8, v: u32) -> bool
    ensures { result ≡ (rd == 15 && not (v % 4 == 0)) }
{
    rd == 15 && v % 4 != 0
}

/// Loads register `rd` from address `a`, after the base is written back.
#[inline(always)]
pub fn loaded(
    core: &mut ArmState,
    bus: &mut Bus,
    signed: bool,
    width: Width,
    a: u32,
    rd: u8,
    by: Base,
) -> Outcome
    requires ready { IsReady (state_of base size state touched bus.old) }
    requires to { rd < 16 }
    requires from { by.register < 16 }
    ensures done { IsDone (λ u w. loaded u signed width a rd (with_base by.pre by.up by.write_back by.register by.offset w.core) w) core.old (state_of base size state touched bus.old) result core.new (state_of base size state touched bus.new) }
    ensures ready { IsReady (state_of base size state touched bus.new) }
{
    let at = aligned(a, width);
    let Some(found) = load(bus, at, width) else {
        return Outcome::Aborted;
    };
    let v = loaded_value(signed, width, a, found);
    if is_no_address(rd, v) {
        return Outcome::Unpredictable;
    }
    set_base(core, by.pre, by.up, by.write_back, by.register, by.offset);
    set_result(core, rd, v);
    Outcome::Ran
}

/// Stores register `rd` at address `a`, and then writes the base back.
#[inline(always)]
pub fn stored(core: &mut ArmState, bus: &mut Bus, width: Width, a: u32, rd: u8, by: Base) -> Outcome
    requires ready { IsReady (state_of base size state touched bus.old) }
    requires quiet { (state_of base size state touched bus.old).contents.stores ≡ [] }
    requires to { rd < 16 }
    requires from { by.register < 16 }
    ensures done { IsDone (λ u w. stored u width a rd (with_base by.pre by.up by.write_back by.register by.offset w.core) w) core.old (state_of base size state touched bus.old) result core.new (state_of base size state touched bus.new) }
    ensures ready { IsReady (state_of base size state touched bus.new) }
{
    let at = aligned(a, width);
    match store(bus, at, width, stored_at(core, rd)) {
        Ok(()) => {
            set_base(core, by.pre, by.up, by.write_back, by.register, by.offset);
            Outcome::Ran
        }
        Err(fault) => match fault {
            BusFault::NoFrame(_) => Outcome::NoFrame(at),
            BusFault::Absent => Outcome::Aborted,
            BusFault::ReadOnly => Outcome::Aborted,
        },
    }
}

/// Loads register `rd` from the address in register `rn`, and stores register `rm` there.
pub fn swapped(core: &mut ArmState, bus: &mut Bus, width: Width, rn: u8, rd: u8, rm: u8) -> Outcome
    requires ready { IsReady (state_of base size state touched bus.old) }
    requires quiet { (state_of base size state touched bus.old).contents.stores ≡ [] }
    requires at { rn < 16 }
    requires to { rd < 16 }
    requires from { rm < 16 }
    ensures done { IsDone (λ u w. swapped u width rn rd rm w) core.old (state_of base size state touched bus.old) result core.new (state_of base size state touched bus.new) }
    ensures ready { IsReady (state_of base size state touched bus.new) }
{
    let a = register(core, rn);
    let place = aligned(a, width);
    if !may_store(bus, place, width) {
        return Outcome::Aborted;
    }
    if lacks_frame(bus, place, width) {
        return Outcome::NoFrame(place);
    }
    let v = loaded_value(false, width, a, read(bus, place, width));
    write(bus, place, width, register(core, rm));
    set_register(core, rd, v);
    Outcome::Ran
}

/// Loads or stores register `rd` at an offset from a base.
#[inline(always)]
pub fn transferred(
    core: &mut ArmState,
    bus: &mut Bus,
    load: bool,
    signed: bool,
    width: Width,
    rd: u8,
    by: Base,
) -> Outcome
    requires ready { IsReady (state_of base size state touched bus.old) }
    requires quiet { (state_of base size state touched bus.old).contents.stores ≡ [] }
    requires to { rd < 16 }
    requires from { by.register < 16 }
    ensures done { IsDone (λ u w. transferred u load signed by.pre by.up by.write_back width by.register rd by.offset w) core.old (state_of base size state touched bus.old) result core.new (state_of base size state touched bus.new) }
    ensures ready { IsReady (state_of base size state touched bus.new) }
{
    let a = transfer_address(by.pre, by.up, operand_at(core, by.register), by.offset);
    if load {
        loaded(core, bus, signed, width, a, rd, by)
    } else {
        stored(core, bus, width, a, rd, by)
    }
}
