//! The bus: memory and devices.

ghost use Rattle.std.specs.Prelude.{◌≡◌, ◌<◌, ◌%◌, ◌+◌, ◌-◌, ◌*◌, [], length, map};
ghost use Rattle.std.specs.Result.{result_ok};
ghost use Rattle.sdt_word.specs.Codes.{bytes_in};
ghost use Rattle.sdt_word.specs.Numbers.{registers};
ghost use Rattle.arm7_bus.specs.Paging.{page_used_in, used_count};
ghost use Rattle.arm7_bus.specs.Picked.{IsPicked};
ghost use Rattle.arm7_bus.specs.Picks.{picked_bytes};
ghost use Rattle.arm7_bus.specs.Pieces.{IsPart, IsPiece};
ghost use Rattle.arm7_bus.specs.Places.{place_of};
ghost use Rattle.arm7_bus.specs.Seats.{are_idle, lines_up, seats_by};
ghost use Rattle.std.specs.Prelude.{◌↔◌, IsOk, OnOk, OnErr};
ghost use Rattle.std.specs.Prelude.{true, false};
ghost use Rattle.arm7_bus.specs.States.{IsStart, bank_has, lie_in_banks, is_protected, peeked, store_answer};
ghost use Rattle.arm7_bus.specs.Buses.{bus_state, IsStarted, has_whole, read_answer, after_read, write_fault, after_write, after_bank, after_claim, after_forget, after_protect, after_tick, after_detach};
ghost use Rattle.std.specs.Prelude.{take, ℕ, ◌≤◌, IfOk, IfErr, IfSome};
ghost use Rattle.arm7_bus.specs.Buses.{IsNew, needs_page};
ghost use Rattle.arm7_bus.specs.WholeWords.{IsWhole, AreWholeSeats};
ghost use Rattle.arm7_bus.specs.Overlaps.{IsBankFault, range_shares};
ghost use Rattle.arm7_bus.specs.Meets.{IsLeast, IsNowhere, seats_share};

use crate::devices;
use crate::meets::lesser;
use crate::memory::{BusFault, Memory};
use crate::notes::Stores;
use crate::pages::PAGE;
use sdt_fault::NoMemory;
use sdt_fault::answer::Fault;
use sdt_fault::refusal::Refusal;
use sdt_outside::{Device, Lines};
use sdt_word::{Range32, Width};
use std::alloc::Global;

/// No bank and no device has the whole access.
#[derive(Clone, Copy, PartialEq, Eq)]
pub struct Absent;

/// There is no device of this number.
#[derive(Clone, Copy)]
pub struct NoDevice;

/// More pages would be used than there are frames.
#[derive(Clone, Copy, PartialEq, Eq)]
pub struct PagesFull;

/// Two devices have this address, the least that two of them have. The devices are handed back.
#[derive(Drop)]
pub struct NoBus {
    pub devices: Vec<Box<dyn Device>>,
    pub address: u32,
}

/// Memory and devices. It owns its devices.
#[derive(Drop)]
pub struct Bus {
    memory: Memory,
    devices: Vec<Box<dyn Device>>,
}

impl Bus {
    /// A bus of these devices, with no bank. It is refused exactly where two devices have one address.
    pub fn new(alloc: Global, devices: Vec<Box<dyn Device>>) -> Result<Bus, NoBus>
        ensures ok { IfOk result (λ bus. IsNew (seats_by base size state touched devices.items) (bus_state base size state touched bus)) }
        ensures apart { IfOk result (λ bus. IsNowhere (λ a. seats_share (seats_by base size state touched devices.items) a)) }
        ensures whole { AreWholeSeats (seats_by base size state touched devices.items) }
        ensures err { IfErr result (λ e. IsLeast (λ a. seats_share (seats_by base size state touched devices.items) a) e.address) }
        ensures same { IfErr result (λ e. e.devices ≡ devices) }
    {
        match devices::least_shared(&devices) {
            Some(address) => Err(NoBus { devices, address }),
            None => Ok(Bus {
                memory: Memory::new(alloc),
                devices,
            }),
        }
    }

    /// Gives the devices back in their order.
    pub fn into_devices(self) -> Vec<Box<dyn Device>>
        ensures { seats_by base size state touched result.items ≡ (bus_state base size state touched self).devices }
    {
        let Bus { memory: _, devices } = self;
        devices
    }

    /// Whether one bank or one device has the whole access. No device is touched.
    pub fn holds(&self, a: u32, w: Width) -> bool
        ensures { result ≡ has_whole (bus_state base size state touched self.now) a (bytes_in w) }
    {
        if self.memory.holds(a, w.bytes()) {
            return true;
        }
        devices::has(&self.devices, a, w.bytes())
    }

    /// The bytes at an address, lowest first, or what the device there answers; mostly by the window of data.
    #[inline(always)]
    pub fn read(&mut self, a: u32, w: Width) -> Result<u32, Absent>
        requires started { IsStarted (bus_state base size state touched self.old) }
        requires aligned { a % bytes_in w ≡ 0 }
        ensures answer { result_ok result ≡ read_answer (bus_state base size state touched self.old) a w }
        ensures after { bus_state base size state touched self.new ≡ after_read (bus_state base size state touched self.old) a w }
    {
        if self.memory.data_window.has(a) {
            return Ok(self.memory.read_in_data_window(a, w));
        }
        self.read_anew(a, w)
    }

    #[inline(never)]
    fn read_anew(&mut self, a: u32, w: Width) -> Result<u32, Absent>
        requires started { IsStarted (bus_state base size state touched self.old) }
        requires aligned { a % bytes_in w ≡ 0 }
        ensures answer { result_ok result ≡ read_answer (bus_state base size state touched self.old) a w }
        ensures after { bus_state base size state touched self.new ≡ after_read (bus_state base size state touched self.old) a w }
    {
        if self.memory.fetch_window.has(a) {
            return Ok(self.memory.read_in_fetch_window(a, w));
        }
        if self.memory.finds(a, w.bytes()) {
            return Ok(self.memory.read(a, w));
        }
        match devices::read(&mut self.devices, a, w) {
            Some(v) => Ok(v),
            None => Err(Absent),
        }
    }

    /// The same, mostly by the window of fetches.
    #[inline(always)]
    pub fn fetch(&mut self, a: u32, w: Width) -> Result<u32, Absent>
        requires started { IsStarted (bus_state base size state touched self.old) }
        requires aligned { a % bytes_in w ≡ 0 }
        ensures answer { result_ok result ≡ read_answer (bus_state base size state touched self.old) a w }
        ensures after { bus_state base size state touched self.new ≡ after_read (bus_state base size state touched self.old) a w }
    {
        if self.memory.fetch_window.has(a) {
            return Ok(self.memory.read_in_fetch_window(a, w));
        }
        self.fetch_anew(a, w)
    }

    #[inline(never)]
    fn fetch_anew(&mut self, a: u32, w: Width) -> Result<u32, Absent>
        requires started { IsStarted (bus_state base size state touched self.old) }
        requires aligned { a % bytes_in w ≡ 0 }
        ensures answer { result_ok result ≡ read_answer (bus_state base size state touched self.old) a w }
        ensures after { bus_state base size state touched self.new ≡ after_read (bus_state base size state touched self.old) a w }
    {
        let answer = self.read_anew(a, w);
        self.memory.move_fetch_window(a);
        answer
    }

    /// Writes the low bytes of a value to memory or to a device.
    #[inline(always)]
    pub fn write(&mut self, a: u32, w: Width, v: u32) -> Result<(), BusFault>
        requires started { IsStarted (bus_state base size state touched self.old) }
        requires aligned { a % bytes_in w ≡ 0 }
        requires few { length (bus_state base size state touched self.old).contents.stores < 16 }
        ensures answer { result ≡ store_answer (write_fault (bus_state base size state touched self.old) a (bytes_in w)) }
        ensures after { bus_state base size state touched self.new ≡ after_write (bus_state base size state touched self.old) a w v }
    {
        if self.memory.data_window.has(a) {
            self.memory.store_in_data_window(a, w, v);
            return Ok(());
        }
        self.write_anew(a, w, v)
    }

    #[inline(never)]
    fn write_anew(&mut self, a: u32, w: Width, v: u32) -> Result<(), BusFault>
        requires started { IsStarted (bus_state base size state touched self.old) }
        requires aligned { a % bytes_in w ≡ 0 }
        requires few { length (bus_state base size state touched self.old).contents.stores < 16 }
        ensures answer { result ≡ store_answer (write_fault (bus_state base size state touched self.old) a (bytes_in w)) }
        ensures after { bus_state base size state touched self.new ≡ after_write (bus_state base size state touched self.old) a w v }
    {
        if self.memory.finds(a, w.bytes()) {
            if self.memory.move_data_window(a) {
                self.memory.store_in_data_window(a, w, v);
                return Ok(());
            }
            return self.memory.store(a, w, v);
        }
        if devices::write(&mut self.devices, a, w, v) {
            self.memory.note(a, w);
            return Ok(());
        }
        Err(BusFault::Absent)
    }

    /// Stores the `n` words from an address on, those of a table at the places where `list` has a 1, and notes each; false, and
    /// nothing changes, where one page or one bank that isn't protected hasn't all of them, or the page isn't used.
    #[inline(always)]
    pub fn write_picked(&mut self, a: u32, words: &[u32; 16], list: u32, n: u32) -> bool
        requires started { IsStarted (bus_state base size state touched self.old) }
        requires aligned { a % 4 ≡ 0 }
        requires counted { n ≡ length (registers 16 list) }
        requires some { 1 ≤ n }
        requires left { length (bus_state base size state touched self.old).contents.stores + n ≤ 16 }
        ensures stored { result ≡ true → IsPicked (bus_state base size state touched self.old).contents a n (picked_bytes words.now (registers 16 list)) (bus_state base size state touched self.new).contents }
        ensures devices { (bus_state base size state touched self.new).devices ≡ (bus_state base size state touched self.old).devices }
        ensures same { result ≡ false → bus_state base size state touched self.new ≡ bus_state base size state touched self.old }
    {
        if a % PAGE + 4 * n > PAGE {
            return false;
        }
        if self.memory.data_window.has(a) {
            self.memory.store_picked_in_data_window(a, words, list, n);
            return true;
        }
        self.write_picked_anew(a, words, list, n)
    }

    #[inline(never)]
    fn write_picked_anew(&mut self, a: u32, words: &[u32; 16], list: u32, n: u32) -> bool
        requires started { IsStarted (bus_state base size state touched self.old) }
        requires aligned { a % 4 ≡ 0 }
        requires within { a % 4096 + 4 * n ≤ 4096 }
        requires counted { n ≡ length (registers 16 list) }
        requires some { 1 ≤ n }
        requires left { length (bus_state base size state touched self.old).contents.stores + n ≤ 16 }
        ensures stored { result ≡ true → IsPicked (bus_state base size state touched self.old).contents a n (picked_bytes words.now (registers 16 list)) (bus_state base size state touched self.new).contents }
        ensures devices { (bus_state base size state touched self.new).devices ≡ (bus_state base size state touched self.old).devices }
        ensures same { result ≡ false → bus_state base size state touched self.new ≡ bus_state base size state touched self.old }
    {
        if !self.memory.finds(a, 4 * n) {
            return false;
        }
        if self.memory.move_data_window(a) {
            self.memory.store_picked_in_data_window(a, words, list, n);
            return true;
        }
        self.memory.store_picked(a, words, list, n)
    }

    /// The byte at an address, where a bank has it. No device is touched.
    pub fn peek(&self, a: u32) -> Option<u8>
        requires { IsStarted (bus_state base size state touched self.now) }
        ensures { result ≡ peeked (bus_state base size state touched self.now).contents a }
    {
        self.memory.peek(a)
    }

    /// The bytes from an address on that its bank and its page have; none where no bank has it, or its page has no bytes yet,
    /// which are zeros. No device is touched.
    pub fn piece(&self, a: u32) -> &[u8]
        requires { IsStarted (bus_state base size state touched self.now) }
        ensures { IsPiece (bus_state base size state touched self.now).contents a result.now }
    {
        self.memory.piece(a)
    }

    /// The `n` bytes from an address on; None where one bank or one page hasn't all of them, or they aren't made yet. No device
    /// is touched.
    #[inline(always)]
    pub fn part(&self, a: u32, n: u32) -> Option<&[u8]>
        requires started { IsStarted (bus_state base size state touched self.now) }
        requires few { n ≤ 64 }
        ensures { IfSome result (λ part. IsPart (bus_state base size state touched self.now).contents a n part.now) }
    {
        if self.memory.data_window.has(a) {
            return self.memory.part_in_data_window(a, n);
        }
        self.part_anew(a, n)
    }

    #[inline(never)]
    fn part_anew(&self, a: u32, n: u32) -> Option<&[u8]>
        requires started { IsStarted (bus_state base size state touched self.now) }
        requires few { n ≤ 64 }
        ensures { IfSome result (λ part. IsPart (bus_state base size state touched self.now).contents a n part.now) }
    {
        self.memory.part(a, n)
    }

    /// Whether a byte of the access is protected.
    pub fn is_read_only(&self, a: u32, w: Width) -> bool
        ensures { result ≡ is_protected (bus_state base size state touched self.now).contents.banks a (bytes_in w) }
    {
        self.memory.is_protected(a, w.bytes())
    }

    /// Whether the bank that was found last has these bytes; where it hasn't, another may have them.
    #[inline(always)]
    pub fn last_has(&self, a: u32, n: u32) -> bool
        ensures { result ≡ true → bank_has (bus_state base size state touched self.now).contents.banks a n ≡ true }
    {
        self.memory.last_has(a, n)
    }

    /// Whether the bank that was found last has these bytes and isn't protected.
    #[inline(always)]
    pub fn last_takes(&self, a: u32, n: u32) -> bool
        requires { 1 ≤ n }
        ensures has { result ≡ true → bank_has (bus_state base size state touched self.now).contents.banks a n ≡ true }
        ensures free { result ≡ true → is_protected (bus_state base size state touched self.now).contents.banks a n ≡ false }
    {
        self.memory.last_takes(a, n)
    }

    /// Whether the page of an address is used.
    pub fn page_used(&self, a: u32) -> bool
        requires { IsStarted (bus_state base size state touched self.now) }
        ensures { result ≡ page_used_in (bus_state base size state touched self.now).contents.used a }
    {
        self.memory.page_used(a)
    }

    /// Whether a store there would use one more page: it lies in a bank, and its page isn't used.
    pub fn needs_page(&self, a: u32, w: Width) -> bool
        requires { IsStarted (bus_state base size state touched self.now) }
        ensures { result ≡ needs_page (bus_state base size state touched self.now) a (bytes_in w) }
    {
        self.memory.holds(a, w.bytes()) && !self.memory.page_used(a)
    }

    /// How many more pages can be used.
    pub fn pages_left(&self) -> u32
        ensures { let c = (bus_state base size state touched self.now).contents in result ≡ c.frames - used_count c.used }
    {
        self.memory.pages_left()
    }

    /// The stores since the last tick, in order.
    pub fn last_stores(&self) -> Stores
        ensures { map place_of (take result.count result.list) ≡ (bus_state base size state touched self.now).contents.stores }
    {
        self.memory.last_stores()
    }

    /// No store since the last tick is noted any more.
    pub fn forget_stores(&mut self)
        ensures { bus_state base size state touched self.new ≡ after_forget (bus_state base size state touched self.old) }
    {
        self.memory.forget_stores();
    }

    /// Adds a bank of zeros, which isn't protected: whole words. It is refused exactly where the range has an address of a
    /// bank or a device, and where there is no memory.
    pub fn add_bank(&mut self, r: Range32) -> Result<(), Fault>
        requires unstarted { length (bus_state base size state touched self.old).contents.used ≡ 0 }
        requires whole { IsWhole r.base r.size }
        ensures apart { OnOk result (IsNowhere (range_shares r (bus_state base size state touched self.old))) }
        ensures after { OnOk result (bus_state base size state touched self.new ≡ after_bank (bus_state base size state touched self.old) r) }
        ensures zeros { OnOk result ((a : ℕ) → (bus_state base size state touched self.new).contents.memory a ≡ 0) }
        ensures err { IfErr result (λ fault. IsBankFault (range_shares r (bus_state base size state touched self.old)) fault) }
        ensures same { OnErr result (bus_state base size state touched self.new ≡ bus_state base size state touched self.old) }
    {
        match lesser(self.memory.meeting(r), devices::meeting(&self.devices, r)) {
            Some(address) => Err(Fault::Refused(Refusal::BankOverlap { address })),
            None => match self.memory.add_bank(r) {
                Ok(()) => Ok(()),
                Err(_) => Err(Fault::NoMemory),
            },
        }
    }

    /// Protects the bank of this range.
    pub fn protect(&mut self, r: Range32)
        ensures { bus_state base size state touched self.new ≡ after_protect (bus_state base size state touched self.old) r }
    {
        self.memory.protect(r);
    }

    /// Uses the pages of the range. It is refused exactly where more pages would be used than there are frames.
    pub fn claim_pages(&mut self, r: Range32) -> Result<(), PagesFull>
        requires { IsStarted (bus_state base size state touched self.old) }
        ensures answer { IsOk result ↔ (used_count (after_claim (bus_state base size state touched self.old) r).contents.used ≤ (bus_state base size state touched self.old).contents.frames) }
        ensures ok { OnOk result (bus_state base size state touched self.new ≡ after_claim (bus_state base size state touched self.old) r) }
        ensures err { OnErr result (bus_state base size state touched self.new ≡ bus_state base size state touched self.old) }
    {
        if self.memory.claim_pages(r) {
            Ok(())
        } else {
            Err(PagesFull)
        }
    }

    /// Each device ticks once, in order. A line is up exactly where a device gives it; no store is noted any more.
    #[tactic(auto, using(crate::proofs::PagingLemmas::memory_small))]
    pub fn tick(&mut self) -> Lines
        ensures lines { result ≡ lines_up (bus_state base size state touched self.new).devices }
        ensures after { bus_state base size state touched self.new ≡ after_tick (bus_state base size state touched self.old) }
        ensures bytes { (a : ℕ) → (bus_state base size state touched self.new).contents.memory a < 256 }
    {
        self.memory.forget_stores();
        self.memory.pages.frames.are_bytes();
        devices::tick(&mut self.devices)
    }

    /// Whether no step of time changes a device or raises a line, as long as nothing is written to one.
    #[inline(never)]
    pub fn is_idle(&self) -> bool
        ensures { result ≡ are_idle (bus_state base size state touched self.now).devices }
    {
        devices::are_idle(&self.devices)
    }

    /// The same step of time, told whether the devices are idle; then none of them is asked.
    #[inline(always)]
    #[tactic(auto, using(crate::proofs::PagingLemmas::memory_small, crate::proofs::IdleLemmas::seats_same, crate::proofs::IdleLemmas::no_lines))]
    pub fn tick_knowing(&mut self, idle: bool) -> Lines
        requires idle { idle ≡ true → are_idle (bus_state base size state touched self.old).devices ≡ true }
        ensures lines { result ≡ lines_up (bus_state base size state touched self.new).devices }
        ensures after { bus_state base size state touched self.new ≡ after_tick (bus_state base size state touched self.old) }
        ensures bytes { (a : ℕ) → (bus_state base size state touched self.new).contents.memory a < 256 }
    {
        if !idle {
            return self.tick();
        }
        self.memory.forget_stores();
        self.memory.pages.frames.are_bytes();
        Lines {
            irq: false,
            fiq: false,
        }
    }

    /// Whether each store since the last tick was one to memory.
    #[inline(always)]
    pub fn kept_to_banks(&self) -> bool
        ensures { let c = (bus_state base size state touched self.now).contents in result ≡ true → lie_in_banks c.banks c.stores ≡ true }
    {
        self.memory.kept_to_banks()
    }

    /// Takes a device out of the list; the later ones move up by one.
    pub fn detach(&mut self, i: u32) -> Result<(), NoDevice>
        ensures answer { IsOk result ↔ (i < length (bus_state base size state touched self.old).devices) }
        ensures ok { OnOk result (bus_state base size state touched self.new ≡ after_detach (bus_state base size state touched self.old) i) }
        ensures err { OnErr result (bus_state base size state touched self.new ≡ bus_state base size state touched self.old) }
    {
        if i as usize >= self.devices.len() {
            return Err(NoDevice);
        }
        let _device = self.devices.remove(i as usize);
        Ok(())
    }

    /// Makes the pages, and frames for as many of them as the banks touch, at most 65,536.
    pub fn start_pages(&mut self) -> Result<(), NoMemory>
        requires { length (bus_state base size state touched self.old).contents.used ≡ 0 }
        ensures ok { OnOk result (IsStart (bus_state base size state touched self.old).contents (bus_state base size state touched self.new).contents) }
        ensures err { OnErr result (bus_state base size state touched self.new ≡ bus_state base size state touched self.old) }
        ensures devices { (bus_state base size state touched self.new).devices ≡ (bus_state base size state touched self.old).devices }
    {
        self.memory.start()
    }
}
