//! A bus that gets its banks, its pages and its files.

ghost use Rattle.std.specs.Prelude.{◌≡◌, ◌<◌, ◌≤◌, ◌+◌, ◌-◌, ◌%◌, ◌/◌, ◌++◌, ℕ, length, map, take, drop, true, IfErr, OnErr, OnOk};
ghost use Rattle.std.specs.List.{AllByRecursion};
ghost use Rattle.sdt_word.specs.Bytes.{bytes_of};
ghost use Rattle.sdt_word.specs.Codes.{bytes_in};
ghost use Rattle.arm7_bus.specs.Buses.{IsNew, IsStarted};
ghost use Rattle.arm7_transfers.specs.Views.{state_of};
ghost use Rattle.arm7_bus.specs.States.{claimed, pages_of};
ghost use Rattle.arm7_bus.specs.Paging.{used_count};
ghost use Rattle.arm7_bus.specs.WholeWords.{IsWhole};
ghost use Rattle.run_opening.specs.Banks.{IsBank, is_lacking, memory_bank};
ghost use Rattle.arm7_bus.specs.Meets.{IsNowhere};
ghost use Rattle.run_opening.specs.Openings.{AreNeeded};
ghost use Rattle.run_opening.specs.Fills.{EndsBelow, IsFilled, IsOpen, IsPrepared, IsUnprepared, IsUsable, after_loads, after_put, claimed_all, protected_all, with_banks, with_used};

use crate::image::{Image, Load, Need};
use arm7_bus::{Bus, PagesFull};
use sdt_fault::NoMemory;
use sdt_fault::answer::Fault;
use sdt_fault::kinds::Quantity;
use sdt_fault::refusal::Refusal;
use sdt_outside::Device;
use sdt_word::{Range32, Width, word_at};

/// Adds a bank for each range. None of them meets another or a device: only memory can be wanting.
fn add_banks(bus: &mut Bus, ranges: &[Range32]) -> Result<(), NoMemory>
    requires unstarted { length (state_of base size state touched bus.old).contents.used ≡ 0 }
    requires banks { AllByRecursion IsBank ranges.now }
    ensures ok { OnOk result (state_of base size state touched bus.new ≡ with_banks (state_of base size state touched bus.old) ((state_of base size state touched bus.old).contents.banks ++ map memory_bank ranges.now)) }
    ensures devices { (state_of base size state touched bus.new).devices ≡ (state_of base size state touched bus.old).devices }
{
    let [first, rest @ ..] = ranges else {
        return Ok(());
    };
    if bus.add_bank(*first).is_err() {
        return Err(NoMemory);
    }
    add_banks(bus, rest)
}

/// Uses the pages of a need.
fn claim(bus: &mut Bus, need: Need) -> Result<(), PagesFull>
    requires started { IsStarted (state_of base size state touched bus.old) }
    requires fits { EndsBelow need }
    ensures ok { OnOk result (state_of base size state touched bus.new ≡ with_used (state_of base size state touched bus.old) (claimed (state_of base size state touched bus.old).contents.used (need.base / 4096) (pages_of need.base need.size))) }
    ensures few { OnOk result (used_count (claimed (state_of base size state touched bus.old).contents.used (need.base / 4096) (pages_of need.base need.size)) ≤ (state_of base size state touched bus.old).contents.frames) }
    ensures err { OnErr result ((state_of base size state touched bus.old).contents.frames < used_count (claimed (state_of base size state touched bus.old).contents.used (need.base / 4096) (pages_of need.base need.size))) }
    ensures same { OnErr result (state_of base size state touched bus.new ≡ state_of base size state touched bus.old) }
{
    bus.claim_pages(Range32 {
        base: need.base,
        size: need.size,
    })
}

/// Uses the pages of the needs.
fn claim_all(bus: &mut Bus, needs: &[Need]) -> Result<(), PagesFull>
    requires started { IsStarted (state_of base size state touched bus.old) }
    requires fits { AllByRecursion EndsBelow needs.now }
    requires room { used_count (state_of base size state touched bus.old).contents.used ≤ (state_of base size state touched bus.old).contents.frames }
    ensures ok { OnOk result (state_of base size state touched bus.new ≡ with_used (state_of base size state touched bus.old) (claimed_all (state_of base size state touched bus.old).contents.used needs.now)) }
    ensures few { OnOk result (used_count (claimed_all (state_of base size state touched bus.old).contents.used needs.now) ≤ (state_of base size state touched bus.old).contents.frames) }
    ensures err { OnErr result ((state_of base size state touched bus.old).contents.frames < used_count (claimed_all (state_of base size state touched bus.old).contents.used needs.now)) }
    ensures devices { (state_of base size state touched bus.new).devices ≡ (state_of base size state touched bus.old).devices }
{
    let [first, rest @ ..] = needs else {
        return Ok(());
    };
    claim(bus, *first)?;
    claim_all(bus, rest)
}

/// The banks, the pages, and those that are needed in use.
fn prepare(bus: &mut Bus, ranges: &[Range32], needs: &[Need]) -> Result<(), Fault>
    requires fresh { IsNew (state_of base size state touched bus.old).devices (state_of base size state touched bus.old) }
    requires banks { AllByRecursion IsBank ranges.now }
    requires fits { AllByRecursion EndsBelow needs.now }
    ensures ok { OnOk result (IsPrepared (map memory_bank ranges.now) needs.now (state_of base size state touched bus.old).devices (state_of base size state touched bus.new)) }
    ensures err { IfErr result (λ fault. IsUnprepared (map memory_bank ranges.now) needs.now fault) }
    ensures devices { (state_of base size state touched bus.new).devices ≡ (state_of base size state touched bus.old).devices }
{
    let Ok(()) = add_banks(bus, ranges) else {
        return Err(Fault::NoMemory);
    };
    let Ok(()) = bus.start_pages() else {
        return Err(Fault::NoMemory);
    };
    let Ok(()) = claim_all(bus, needs) else {
        return Err(Fault::Refused(Refusal::TooLarge {
            quantity: Quantity::MemoryBytes,
            limit: 0x1000_0000,
        }));
    };
    Ok(())
}

/// Puts the bytes of an access into memory, and notes nothing.
fn put(bus: &mut Bus, a: u32, w: Width, v: u32)
    requires open { IsOpen (state_of base size state touched bus.old) }
    requires usable { IsUsable (state_of base size state touched bus.old).contents a (bytes_in w) }
    requires aligned { a % bytes_in w ≡ 0 }
    ensures { state_of base size state touched bus.new ≡ after_put (state_of base size state touched bus.old) a (bytes_of v (bytes_in w)) }
{
    let _stored = bus.write(a, w, v);
    bus.forget_stores();
}

fn takes_word(a: u32, left: usize) -> bool
    ensures { result ≡ true → (a % 4 ≡ 0) × (4 ≤ left) }
{
    if a % 4 != 0 {
        return false;
    }
    left >= 4
}

/// Puts the word at the place in the bytes, or the byte where no whole word is left or its address isn't aligned; the place
/// behind it.
fn put_next(bus: &mut Bus, base_of: u32, bytes: &[u8], i: usize) -> usize
    requires open { IsOpen (state_of base size state touched bus.old) }
    requires usable { IsUsable (state_of base size state touched bus.old).contents base_of (length bytes.now) }
    requires left { i < length bytes.now }
    ensures next { (i < result) × (result ≤ length bytes.now) }
    ensures after { state_of base size state touched bus.new ≡ after_put (state_of base size state touched bus.old) (base_of + i) (take (result - i) (drop i bytes.now)) }
{
    let a = base_of + i as u32;
    if takes_word(a, bytes.len() - i) {
        put(bus, a, Width::Word, word_at(bytes, i));
        return i + 4;
    }
    put(bus, a, Width::Byte, u32::from(bytes[i]));
    i + 1
}

/// Puts bytes into memory from an address on.
fn put_all(bus: &mut Bus, base_of: u32, bytes: &[u8])
    requires open { IsOpen (state_of base size state touched bus.old) }
    requires usable { IsUsable (state_of base size state touched bus.old).contents base_of (length bytes.now) }
    ensures { state_of base size state touched bus.new ≡ after_put (state_of base size state touched bus.old) base_of bytes.now }
{
    let mut i = 0;
    'bytes: while i < bytes.len() {
        i = put_next(bus, base_of, bytes, i);
    }
}

/// Puts the files into memory, in their order.
fn load_all(bus: &mut Bus, loads: &[Load])
    requires open { IsOpen (state_of base size state touched bus.old) }
    requires usable { AllByRecursion (λ l. IsUsable (state_of base size state touched bus.old).contents l.base (length l.bytes)) loads.now }
    ensures { state_of base size state touched bus.new ≡ after_loads (state_of base size state touched bus.old) loads.now }
{
    let [first, rest @ ..] = loads else {
        return;
    };
    put_all(bus, first.base, first.bytes.as_slice());
    load_all(bus, rest)
}

/// Protects the bank of each range.
fn protect_all(bus: &mut Bus, ranges: &[Range32])
    requires { IsStarted (state_of base size state touched bus.old) }
    ensures { state_of base size state touched bus.new ≡ with_banks (state_of base size state touched bus.old) (protected_all ranges.now (state_of base size state touched bus.old).contents.banks) }
{
    let [first, rest @ ..] = ranges else {
        return;
    };
    bus.protect(*first);
    protect_all(bus, rest)
}

/// The banks, the files, and the protection of the banks of `rom`.
pub fn fill(bus: &mut Bus, ranges: &[Range32], rom: &[Range32], image: &Image) -> Result<(), Fault>
    requires fresh { IsNew (state_of base size state touched bus.old).devices (state_of base size state touched bus.old) }
    requires banks { AllByRecursion IsBank ranges.now }
    requires room { IsNowhere (is_lacking (map memory_bank ranges.now) image.now.needs) }
    requires needed { AreNeeded image.now }
    ensures ok { OnOk result (IsFilled (map memory_bank ranges.now) (protected_all rom.now (map memory_bank ranges.now)) image.now (state_of base size state touched bus.old).devices (state_of base size state touched bus.new)) }
    ensures err { IfErr result (λ fault. IsUnprepared (map memory_bank ranges.now) image.now.needs fault) }
    ensures devices { OnErr result ((state_of base size state touched bus.new).devices ≡ (state_of base size state touched bus.old).devices) }
{
    prepare(bus, ranges, image.needs.as_slice())?;
    load_all(bus, image.loads.as_slice());
    protect_all(bus, rom);
    Ok(())
}
