//! Single accesses to a bus, and what the machine asks before it makes one.

ghost use Rattle.std.specs.Prelude.{◌≡◌, ◌<◌, ◌%◌, ◌^◌, ◌==◌, ◌&&◌, not, length, is_some, None, IfSome, OnErr};
ghost use Rattle.sdt_word.specs.Codes.{bytes_in};
ghost use Rattle.arm7_bus.specs.Buses.{after_read, after_write, has_whole};
ghost use Rattle.arm7_transfers.specs.Frames.{IsJudged, lacks_frame, may_be_stored};
ghost use Rattle.arm7_transfers.specs.Ready.{IsReady};
ghost use Rattle.arm7_transfers.specs.Served.{value_at};
ghost use Rattle.arm7_transfers.specs.Views.{state_of};

use arm7_bus::{Bus, BusFault};
use sdt_outside::Device;
use sdt_word::Width;

/// Whether one bank or one device has the whole access.
pub fn is_there(bus: &Bus, a: u32, width: Width) -> bool
    ensures { result ≡ has_whole (state_of base size state touched bus.now) a (bytes_in width) }
{
    bus.holds(a, width)
}

/// Whether a store may be made, as far as banks, devices and protection go.
pub fn may_store(bus: &Bus, a: u32, width: Width) -> bool
    ensures { result ≡ may_be_stored (state_of base size state touched bus.now) a (bytes_in width) }
{
    bus.holds(a, width) && !bus.is_read_only(a, width)
}

/// Whether a store would use one more page, and there is no frame left.
pub fn lacks_frame(bus: &Bus, a: u32, width: Width) -> bool
    requires { IsReady (state_of base size state touched bus.now) }
    ensures { result ≡ lacks_frame (state_of base size state touched bus.now) a (bytes_in width) }
{
    bus.needs_page(a, width) && bus.pages_left() == 0
}

/// Reads an access that one bank or one device has.
#[inline(always)]
pub fn load(bus: &mut Bus, a: u32, width: Width) -> Option<u32>
    requires ready { IsReady (state_of base size state touched bus.old) }
    requires aligned { a % bytes_in width ≡ 0 }
    ensures there { is_some result ≡ has_whole (state_of base size state touched bus.old) a (bytes_in width) }
    ensures value { IfSome result (λ v. v ≡ value_at (state_of base size state touched bus.old) a width) }
    ensures after { state_of base size state touched bus.new ≡ after_read (state_of base size state touched bus.old) a width }
    ensures same { result ≡ None → state_of base size state touched bus.new ≡ state_of base size state touched bus.old }
    ensures ready { IsReady (state_of base size state touched bus.new) }
{
    match bus.read(a, width) {
        Ok(v) => Some(v),
        Err(_absent) => None,
    }
}

/// The same for an instruction, mostly by the window of the last fetch.
#[inline(always)]
pub fn fetch(bus: &mut Bus, a: u32, width: Width) -> Option<u32>
    requires ready { IsReady (state_of base size state touched bus.old) }
    requires aligned { a % bytes_in width ≡ 0 }
    ensures there { is_some result ≡ has_whole (state_of base size state touched bus.old) a (bytes_in width) }
    ensures value { IfSome result (λ v. v ≡ value_at (state_of base size state touched bus.old) a width) }
    ensures after { state_of base size state touched bus.new ≡ after_read (state_of base size state touched bus.old) a width }
    ensures same { result ≡ None → state_of base size state touched bus.new ≡ state_of base size state touched bus.old }
    ensures ready { IsReady (state_of base size state touched bus.new) }
{
    match bus.fetch(a, width) {
        Ok(v) => Some(v),
        Err(_absent) => None,
    }
}

/// Writes the low bytes of a value where a store may be made, as far as banks, devices, protection and frames go.
#[inline(always)]
pub fn store(bus: &mut Bus, a: u32, width: Width, v: u32) -> Result<(), BusFault>
    requires ready { IsReady (state_of base size state touched bus.old) }
    requires aligned { a % bytes_in width ≡ 0 }
    requires few { length (state_of base size state touched bus.old).contents.stores < 16 }
    ensures judged { IsJudged (state_of base size state touched bus.old) a (bytes_in width) result }
    ensures after { state_of base size state touched bus.new ≡ after_write (state_of base size state touched bus.old) a width (v % 256 ^ bytes_in width) }
    ensures same { OnErr result (state_of base size state touched bus.new ≡ state_of base size state touched bus.old) }
    ensures ready { IsReady (state_of base size state touched bus.new) }
{
    bus.write(a, width, low_bytes(v, width))
}

/// Reads an access; 0 where it is absent.
#[inline(always)]
pub fn read(bus: &mut Bus, a: u32, width: Width) -> u32
    requires ready { IsReady (state_of base size state touched bus.old) }
    requires aligned { a % bytes_in width ≡ 0 }
    ensures value { result ≡ value_at (state_of base size state touched bus.old) a width }
    ensures after { state_of base size state touched bus.new ≡ after_read (state_of base size state touched bus.old) a width }
    ensures ready { IsReady (state_of base size state touched bus.new) }
{
    match bus.read(a, width) {
        Ok(v) => v,
        Err(_absent) => 0,
    }
}

/// Writes the low bytes of a value.
#[inline(always)]
pub fn write(bus: &mut Bus, a: u32, width: Width, v: u32)
    requires ready { IsReady (state_of base size state touched bus.old) }
    requires aligned { a % bytes_in width ≡ 0 }
    requires few { length (state_of base size state touched bus.old).contents.stores < 16 }
    ensures after { state_of base size state touched bus.new ≡ after_write (state_of base size state touched bus.old) a width (v % 256 ^ bytes_in width) }
    ensures ready { IsReady (state_of base size state touched bus.new) }
{
    let _judged = bus.write(a, width, low_bytes(v, width));
}

#[inline(always)]
fn low_bytes(v: u32, width: Width) -> u32
    ensures { result ≡ v % 256 ^ bytes_in width }
{
    match width {
        Width::Byte => v % 0x100,
        Width::Half => v % 0x1_0000,
        Width::Word => v,
    }
}
