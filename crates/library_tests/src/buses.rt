//! Generated accesses to buses of three banks and a serial port, whose frames run out, and to a plain list of bytes.

ghost use Rattle.std.specs.Prelude.{◌≡◌, ◌%◌, ◌<◌, length, true};
ghost use Rattle.sdt_word.specs.Codes.{bytes_in};
ghost use Rattle.arm7_bus.specs.Buses.{IsStarted};
ghost use Rattle.arm7_bus.specs.WholeWords.{IsWhole};
ghost use Rattle.arm7_transfers.specs.Views.{state_of};

use arm7_bus::{Absent, Bus, BusFault, PagesFull};
use sdt_outside::{Device, Uart};
use sdt_word::{Range32, Width};
use std::alloc::Global;
use std::test::*;

/// The banks touch the pages 0 to 2, 4 and 5, and 8. The last one becomes protected.
const BANKS: [Range32; 3] = [
    Range32 {
        base: 0,
        size: 0x2800,
    },
    Range32 {
        base: 0x4000,
        size: 0x1804,
    },
    Range32 {
        base: 0x8000,
        size: 0x1000,
    },
];

/// One for each of these pages.
const FRAMES: usize = 6;

const PORT: Range32 = Range32 {
    base: 0x9000,
    size: 8,
};

/// Accesses begin below this address.
const REACH: u32 = 0xA000;

/// As many pages as accesses and claimed ranges reach.
const PAGES: usize = 12;

/// Accesses and claims that are made of each bus.
const ACTS: u32 = 2_500;

/// The bus as plain lists: a byte for each address, the used pages, the noted stores, and the serial port's last byte and
/// number of bytes.
#[derive(Drop)]
struct Plain {
    bytes: Vec<u8>,
    used: [bool; PAGES],
    noted: [Range32; 16],
    count: usize,
    last: u32,
    sent: u32,
    /// Writes and claims that found no frame.
    full: Full,
}

#[derive(Clone, Copy)]
struct Full {
    writes: u32,
    claims: u32,
}

/// The bytes from an address on, as a number.
fn loaded(bytes: &[u8], a: u32, n: u32) -> u32 {
    let part = bytes.get(a as usize..a.saturating_add(n) as usize);
    let mut total: u32 = 0;
    for byte in part.unwrap_or(&[]).iter().rev() {
        total = total.wrapping_mul(0x100).wrapping_add(u32::from(*byte));
    }
    total
}

/// Sets the bytes from an address on to the low bytes of a value.
fn store(bytes: &mut [u8], a: u32, n: u32, v: u32) {
    let mut left = v;
    if let Some(part) = bytes.get_mut(a as usize..a.saturating_add(n) as usize) {
        for byte in part.iter_mut() {
            *byte = (left % 0x100) as u8;
            left /= 0x100;
        }
    }
}

fn width_of(x: u32) -> Width {
    match x >> 24 & 3 {
        0 => Width::Byte,
        1 => Width::Half,
        _ => Width::Word,
    }
}

fn is_in(r: Range32, a: u32, n: u32) -> bool {
    r.base <= a && u64::from(a) + u64::from(n) <= u64::from(r.base) + r.size
}

fn is_in_bank(a: u32, n: u32) -> bool {
    is_in(BANKS[0], a, n) || is_in(BANKS[1], a, n) || is_in(BANKS[2], a, n)
}

/// The low `n` bytes of a word behind so many bits.
fn part(word: u32, bits: u32, n: u32) -> u32 {
    let behind = word.checked_shr(bits).unwrap_or(0);
    match n {
        1 => behind & 0xFF,
        2 => behind & 0xFFFF,
        _ => behind,
    }
}

fn used_pages(used: &[bool; PAGES]) -> usize {
    let mut count = 0usize;
    for page in used {
        if *page {
            count = count.wrapping_add(1);
        }
    }
    count
}

fn read_plain(plain: &Plain, a: u32, n: u32) -> Result<u32, Absent> {
    if is_in(PORT, a, n) {
        let word = if a < PORT.base + 4 {
            plain.last
        } else {
            plain.sent
        };
        return Ok(part(word, 8 * (a % 4), n));
    }
    if !is_in_bank(a, n) {
        return Err(Absent);
    }
    Ok(loaded(&plain.bytes, a, n))
}

fn peeked_plain(plain: &Plain, a: u32) -> Option<u8> {
    if !is_in_bank(a, 1) {
        return None;
    }
    plain.bytes.get(a as usize).copied()
}

fn note(plain: &mut Plain, a: u32, n: u32) {
    if plain.count < 16 && a < REACH && n <= 4 {
        plain.noted[plain.count] = Range32 {
            base: a,
            size: u64::from(n),
        };
        plain.count += 1;
    }
}

/// A byte goes out with each write to the first word, of which the lowest byte stays.
fn write_port(plain: &mut Plain, a: u32, v: u32) {
    if a == PORT.base {
        plain.last = v & 0xFF;
    }
    if a < PORT.base + 4 {
        plain.sent = plain.sent.wrapping_add(1);
    }
}

fn write_plain(plain: &mut Plain, a: u32, n: u32, v: u32) -> Result<(), BusFault> {
    if is_in(PORT, a, n) {
        write_port(plain, a, v);
        note(plain, a, n);
        return Ok(());
    }
    if !is_in_bank(a, n) {
        return Err(BusFault::Absent);
    }
    if a >= BANKS[2].base {
        return Err(BusFault::ReadOnly);
    }
    let page = a as usize / 4096;
    if !plain.used[page] && used_pages(&plain.used) == FRAMES {
        plain.full.writes = plain.full.writes.wrapping_add(1);
        return Err(BusFault::NoFrame(a));
    }
    plain.used[page] = true;
    note(plain, a, n);
    store(&mut plain.bytes, a, n, v);
    Ok(())
}

/// The range touches the page.
fn is_touched(r: Range32, page: usize) -> bool {
    let begin = (page as u64).saturating_mul(4096);
    u64::from(r.base).max(begin) < (u64::from(r.base) + r.size).min(begin.saturating_add(4096))
}

fn claim_plain(plain: &mut Plain, r: Range32) -> Result<(), PagesFull> {
    let mut used = plain.used;
    for page in 0..PAGES {
        used[page] = used[page] || is_touched(r, page);
    }
    if used_pages(&used) > FRAMES {
        plain.full.claims = plain.full.claims.wrapping_add(1);
        return Err(PagesFull);
    }
    plain.used = used;
    Ok(())
}

/// No more stores are noted than a write may find.
fn forget_full(bus: &mut Bus, plain: &mut Plain)
    requires started { IsStarted (state_of base size state touched bus.old) }
    ensures started { IsStarted (state_of base size state touched bus.new) }
    ensures few { length (state_of base size state touched bus.new).contents.stores < 16 }
{
    if bus.last_stores().count >= 16 {
        bus.forget_stores();
        plain.count = 0;
    }
}

#[tactic(auto, using(arm7_bus::proofs::ClaimLemmas::claimed_length))]
fn claims_alike(bus: &mut Bus, plain: &mut Plain, r: Range32) -> bool
    requires started { IsStarted (state_of base size state touched bus.old) }
    ensures started { IsStarted (state_of base size state touched bus.new) }
{
    let claimed = bus.claim_pages(r);
    claimed == claim_plain(plain, r)
}

fn writes_alike(bus: &mut Bus, plain: &mut Plain, a: u32, width: Width, v: u32) -> bool
    requires started { IsStarted (state_of base size state touched bus.old) }
    requires few { length (state_of base size state touched bus.old).contents.stores < 16 }
    requires aligned { a % bytes_in width ≡ 0 }
    ensures started { IsStarted (state_of base size state touched bus.new) }
{
    let written = bus.write(a, width, v);
    written == write_plain(plain, a, width.bytes(), v)
}

fn reads_alike(bus: &mut Bus, plain: &Plain, a: u32, width: Width) -> bool
    requires started { IsStarted (state_of base size state touched bus.old) }
    requires aligned { a % bytes_in width ≡ 0 }
    ensures started { IsStarted (state_of base size state touched bus.new) }
{
    let peeked = bus.peek(a);
    let read = bus.read(a, width);
    peeked == peeked_plain(plain, a) && read == read_plain(plain, a, width.bytes())
}

/// The access or the claim that a number makes.
fn acts_alike(bus: &mut Bus, plain: &mut Plain, x: u32) -> bool
    requires started { IsStarted (state_of base size state touched bus.old) }
    requires few { length (state_of base size state touched bus.old).contents.stores < 16 }
    ensures started { IsStarted (state_of base size state touched bus.new) }
{
    let width = width_of(x);
    let n = width.bytes();
    let place = (x >> 8) % REACH;
    let near = if x >> 26 & 3 == 3 {
        PORT.base + place % 16
    } else {
        place
    };
    let a = near / n * n;
    let kind = x >> 28;
    if kind == 5 {
        let r = Range32 {
            base: place,
            size: u64::from(x % 0x1800),
        };
        return claims_alike(bus, plain, r);
    }
    if kind < 5 {
        return reads_alike(bus, plain, a, width);
    }
    writes_alike(bus, plain, a, width, x.wrapping_mul(0x9E37_79B1))
}

/// The pages, and the stores that are noted.
fn notes_alike(bus: &Bus, plain: &Plain) -> bool
    requires { IsStarted (state_of base size state touched bus.now) }
{
    for page in 0..PAGES {
        if bus.page_used(4096 * page as u32) != plain.used[page] {
            return false;
        }
    }
    if (bus.pages_left() as usize).wrapping_add(used_pages(&plain.used)) != FRAMES {
        return false;
    }
    let stores = bus.last_stores();
    for k in 0..16 {
        if k < plain.count && stores.list[k] != plain.noted[k] {
            return false;
        }
    }
    stores.count as usize == plain.count
}

/// How many acts are alike from the first one on. Each number is made of the one before (a linear congruential generator).
fn alike(bus: &mut Bus, plain: &mut Plain, seed: u32) -> u32
    requires { IsStarted (state_of base size state touched bus.old) }
{
    let mut x = seed;
    'numbers: for made in 0..ACTS {
        x = x.wrapping_mul(0x0019_660D).wrapping_add(0x3C6E_F35F);
        forget_full(bus, plain);
        if !acts_alike(bus, plain, x) || !notes_alike(bus, plain) {
            return made;
        }
    }
    ACTS
}

fn is_added(bus: &mut Bus, bank: Range32) -> bool
    requires unstarted { length (state_of base size state touched bus.old).contents.used ≡ 0 }
    requires whole { IsWhole bank.base bank.size }
    ensures { length (state_of base size state touched bus.new).contents.used ≡ 0 }
{
    bus.add_bank(bank).is_ok()
}

fn start(bus: &mut Bus) -> bool
    requires { length (state_of base size state touched bus.old).contents.used ≡ 0 }
    ensures { result ≡ true → IsStarted (state_of base size state touched bus.new) }
{
    let first = is_added(bus, BANKS[0]);
    let second = is_added(bus, BANKS[1]);
    let third = is_added(bus, BANKS[2]);
    if !first || !second || !third || bus.start_pages().is_err() {
        return false;
    }
    bus.protect(BANKS[2]);
    true
}

// What found no frame, where all acts are alike.
fn full_from_start(alloc: Global, bus: &mut Bus, seed: u32) -> Result<Option<Full>, Fail>
    requires { length (state_of base size state touched bus.old).contents.used ≡ 0 }
{
    if !start(bus) {
        return Ok(None);
    }
    let mut plain = Plain {
        bytes: vec![in alloc; 0u8; REACH as usize]?,
        used: [false; PAGES],
        noted: [Range32 { base: 0, size: 0 }; 16],
        count: 0,
        last: 0,
        sent: 0,
        full: Full {
            writes: 0,
            claims: 0,
        },
    };
    if alike(bus, &mut plain, seed) < ACTS {
        return Ok(None);
    }
    Ok(Some(plain.full))
}

/// Four buses, with 2,500 accesses and claims for each. How many find no frame was counted by a program of another language
/// that makes the same numbers.
#[test]
fn accesses_without_frames(rt: HostRuntime) -> Result<(), Fail> {
    let alloc = rt.alloc();
    let mut writes: u32 = 0;
    let mut claims: u32 = 0;
    for seed in 0..4 {
        let mut devices: Vec<Box<dyn Device>> = Vec::new(alloc);
        devices.push(Box::new(alloc, Uart::new(PORT.base))?)?;
        let Ok(mut bus) = Bus::new(alloc, devices) else {
            return Err("one device meets none".into());
        };
        let found = full_from_start(alloc, &mut bus, seed);
        drop(bus);
        let full = found?.ok_or("an act is unlike")?;
        writes = writes.wrapping_add(full.writes);
        claims = claims.wrapping_add(full.claims);
    }
    assert_eq!(rt; writes, 443);
    assert_eq!(rt; claims, 373);
    Ok(())
}
