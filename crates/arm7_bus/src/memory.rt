//! Banks of memory over pages.

ghost use Rattle.std.specs.Prelude.{◌≡◌, ◌<◌, ◌≤◌, ◌+◌, ◌-◌, ◌/◌, ◌%◌, ◌^◌, ◌∷◌, [], ◌++◌, ◌||◌, nat_lt, length, map, take, true, false, IsTrue, is_some, Some, None, Ok, Err, OnOk, OnErr, IfErr, MatchResult, slice_set};
ghost use Rattle.sdt_word.specs.Bytes.{bytes_of, load, number_of};
ghost use Rattle.sdt_word.specs.Codes.{bytes_in};
ghost use Rattle.arm7_bus.specs.Lookups.{AreApartBanks, HasFrom, IsBankAt, lie_in_banks};
ghost use Rattle.arm7_bus.specs.Notes.{noted_in};
ghost use Rattle.arm7_bus.specs.Places.{place_of};
ghost use Rattle.arm7_bus.specs.Windows.{IsDataWindow, IsWindow};

use crate::meets::{first_shared, lesser};
use crate::notes::{Notes, Stores};
use crate::pages::{PAGE, PARTS, Pages, place_in};
use sdt_fault::NoMemory;
use sdt_word::{Range32, Width};
use std::alloc::Global;

/// A bank of memory, and whether it is protected from stores.
#[derive(Clone, Copy)]
pub struct Bank {
    pub range: Range32,
    pub read_only: bool,
}

/// Why a store isn't made.
#[derive(Clone, Copy, PartialEq, Eq)]
pub enum BusFault {
    /// No bank and no device has the whole access.
    Absent,
    /// The page of this address isn't used, and all frames are.
    NoFrame(u32),
    /// A byte of the access is protected.
    ReadOnly,
}

/// A page that one bank has whole and that has a frame, and what takes its addresses to their places among the bytes of all
/// frames, where it is added to them and wraps.
#[derive(Clone, Copy)]
pub struct Window {
    pub page: u32,
    pub shift: u32,
}

impl Window {
    /// Whether an address lies in the page.
    #[inline(always)]
    pub fn has(self, a: u32) -> bool
        ensures { result ≡ true → self.page ≡ a / 4096 }
    {
        self.page == a / PAGE
    }

    /// Where the byte of an address of the page stands among the bytes of all frames.
    #[inline(always)]
    fn place(self, a: u32) -> u32
        ensures { result ≡ (a + self.shift) % 2 ^ 32 }
    {
        a.wrapping_add(self.shift)
    }
}

/// There is no such page: no address has its number.
const CLOSED: Window = Window {
    page: 0xFFFF_FFFF,
    shift: 0,
};

/// The banks, their bytes, and the stores since the last tick. `last` is the place of the bank that was found last, with
/// which a search begins. The windows spare a fetch, and a load or a store of data, the search: that of fetches moves where a
/// fetch found its bytes by a search, and that of data where a store did. They are no part of what memory means, and decide no
/// answer.
#[derive(Drop)]
pub struct Memory {
    pub alloc: Global,
    pub banks: Vec<Bank>,
    pub pages: Pages,
    pub stores: Notes,
    pub last: usize,
    pub fetch_window: Window,
    pub data_window: Window,
    /// Whether a store since the last tick went to a device.
    pub strayed: bool,
    pub ghost apart: { AreApartBanks banks.items },
    pub ghost fetched: { IsWindow banks.items pages.table fetch_window.page fetch_window.shift },
    pub ghost stored: { IsDataWindow banks.items pages.table data_window.page data_window.shift },
    pub ghost in_banks: { strayed ≡ false → lie_in_banks banks.items (noted_in stores) ≡ true },
}

/// Whether the range has the whole access of `n` bytes.
pub fn range_has(range: Range32, a: u64, n: u32) -> bool
    requires { a ≤ 2 ^ 33 }
    ensures { result ≡ has_access range.base range.size a n }
{
    let base = u64::from(range.base);
    base <= a && a + u64::from(n) <= base + range.size
}

ghost use Rattle.arm7_bus.specs.Seats.{has_access};

fn bank_has_access(banks: &[Bank], a: u64, n: u32) -> bool
    requires { a ≤ 2 ^ 33 }
    ensures { result ≡ list_any (λ b. has_access b.range.base b.range.size a n) banks.now }
{
    banks.iter().any(|bank| range_has(bank.range, a, n))
}

/// The place of the first bank that has the whole access.
#[inline(never)]
#[tactic(auto, using(crate::proofs::LookupLemmas::at_first, crate::proofs::LookupLemmas::at_later))]
fn place_of_bank(banks: &[Bank], a: u64, n: u32) -> Option<usize>
    requires { a ≤ 2 ^ 33 }
    ensures found { is_some result ≡ list_any (λ b. has_access b.range.base b.range.size a n) banks.now }
    ensures at { IfSome result (λ i. IsBankAt banks.now i a n) }
{
    let [first, rest @ ..] = banks else {
        return None;
    };
    if range_has(first.range, a, n) {
        return Some(0);
    }
    match place_of_bank(rest, a, n) {
        Some(i) => Some(i + 1),
        None => None,
    }
}

ghost use Rattle.std.specs.List.{list_any};
ghost use Rattle.std.specs.Prelude.{ℕ, IfSome, min};
ghost use Rattle.arm7_bus.specs.Touches.{IsRun, range_touches, pages_touched};

fn byte_protected(banks: &[Bank], a: u64) -> bool
    requires { a ≤ 2 ^ 33 }
    ensures { result ≡ list_any (λ b. b.read_only && has_access b.range.base b.range.size a 1) banks.now }
{
    banks
        .iter()
        .any(|bank| bank.read_only && range_has(bank.range, a, 1))
}

ghost use Rattle.std.specs.Prelude.{◌&&◌};
ghost use Rattle.arm7_bus.specs.Meets.{IsFound};

fn protect_one(bank: &mut Bank, r: Range32)
    ensures { bank.new ≡ protected_bank r bank.old }
{
    if bank.range.base == r.base && bank.range.size == r.size {
        bank.read_only = true;
    }
}

/// Protects the banks of this range.
#[tactic(auto, using(crate::proofs::ProtectLemmas::protected_start, crate::proofs::ProtectLemmas::protected_next, crate::proofs::ProtectLemmas::protected_all))]
fn protect_banks(banks: &mut [Bank], r: Range32)
    ensures { banks.new ≡ map (protected_bank r) banks.old }
{
    for i in 0..banks.len() {
        protect_one(&mut banks[i], r);
    }
}

ghost use Rattle.arm7_bus.specs.Protection.{protected_bank};

/// The least address that the range shares with a bank.
fn bank_meeting(banks: &[Bank], r: Range32) -> Option<u32>
    ensures { IsFound (λ a. has_access r.base r.size a 1 && list_any (λ b. has_access b.range.base b.range.size a 1) banks.now) result }
{
    let [first, rest @ ..] = banks else {
        return None;
    };
    lesser(first_shared(r, first.range), bank_meeting(rest, r))
}

/// How many addresses from this one on its bank has.
#[tactic(auto, using(crate::proofs::PieceLemmas::left_first, crate::proofs::PieceLemmas::left_later))]
fn left_in(banks: &[Bank], a: u32) -> usize
    ensures held { HasFrom banks.now a result }
    ensures none { result ≡ 0 → list_any (λ b. has_access b.range.base b.range.size a 1) banks.now ≡ false }
    ensures within { a + result ≤ 2 ^ 32 }
{
    let [first, rest @ ..] = banks else {
        return 0;
    };
    if range_has(first.range, u64::from(a), 1) {
        return (u64::from(first.range.base) + first.range.size - u64::from(a)) as usize;
    }
    left_in(rest, a)
}

impl Memory {
    ghost use Rattle.std.specs.Prelude.{◌&&◌, ◌*◌, nat_le};
    ghost use Rattle.arm7_bus.specs.Pieces.{IsPart, IsPiece};
    ghost use Rattle.arm7_bus.specs.Picked.{IsPicked};
    ghost use Rattle.arm7_bus.specs.Picks.{picked_bytes};
    ghost use Rattle.sdt_word.specs.Numbers.{registers};
    ghost use Rattle.arm7_bus.specs.States.{claimed, pages_of};
    ghost use Rattle.arm7_bus.specs.Buses.{with_bank, with_protected};
    ghost use Rattle.arm7_bus.specs.Meets.{IsFound, IsNowhere};
    ghost use Rattle.arm7_bus.specs.Seats.{has_access};
    ghost use Rattle.std.specs.Prelude.{◌≡◌, ◌≤◌, ◌<◌, ◌+◌, ◌%◌, ◌/◌, true, false, IsTrue, length, MatchOption, is_some, IfSome, OnOk, OnErr, Ok, Err, ◌-◌, Some, None, ◌∷◌, [], ◌++◌, ℕ};
    ghost use Rattle.sdt_word.specs.Bytes.{load, number_of};
    ghost use Rattle.sdt_word.specs.Codes.{bytes_in};
    ghost use Rattle.arm7_bus.specs.Paging.{page_used_in, used_count};
    ghost use Rattle.arm7_bus.specs.States.{contents_of, noted, IsStart, bank_has, lie_in_banks, is_protected, store_fault, after_store, store_answer, store_leaves, peeked};

    /// Whether the bank that was found last has the whole access.
    #[inline(always)]
    fn is_last(&self, a: u32, n: u32) -> bool
        ensures { result ≡ true → IsBankAt self.now.banks.items self.now.last a n }
    {
        if self.last >= self.banks.len() {
            return false;
        }
        range_has(self.banks[self.last].range, u64::from(a), n)
    }

    /// Whether one bank has the whole access.
    pub fn holds(&self, a: u32, n: u32) -> bool
        ensures { result ≡ bank_has (contents_of self.now).banks a n }
    {
        if self.is_last(a, n) {
            return true;
        }
        bank_has_access(&self.banks, u64::from(a), n)
    }

    /// The same, by a search that begins with the bank that was found last. The bank that has the access becomes the last one.
    #[inline(always)]
    pub fn finds(&mut self, a: u32, n: u32) -> bool
        ensures found { result ≡ bank_has (contents_of self.old).banks a n }
        ensures at { result ≡ true → IsBankAt self.new.banks.items self.new.last a n }
        ensures same { contents_of self.new ≡ contents_of self.old }
        ensures stores { self.new.stores ≡ self.old.stores }
    {
        if self.is_last(a, n) {
            return true;
        }
        match place_of_bank(&self.banks, u64::from(a), n) {
            Some(i) => {
                self.last = i;
                true
            }
            None => false,
        }
    }

    /// Whether a byte of the access is protected. Where the bank that was found last has it, no other bank has a byte of it.
    pub fn is_protected(&self, a: u32, n: u32) -> bool
        requires some { 1 ≤ n }
        requires few { n ≤ 4 }
        ensures { result ≡ is_protected (contents_of self.now).banks a n }
    {
        if self.is_last(a, n) {
            return self.banks[self.last].read_only;
        }
        let first = u64::from(a);
        for x in first..first + u64::from(n) {
            if byte_protected(&self.banks, x) {
                return true;
            }
        }
        false
    }

    /// Whether the bank that was found last, which has the access, is protected.
    #[inline(always)]
    fn last_protects(&self, _a: u32, _n: u32) -> bool
        requires found { IsBankAt self.now.banks.items self.now.last _a _n }
        requires some { 1 ≤ _n }
        ensures { result ≡ is_protected (contents_of self.now).banks _a _n }
    {
        self.banks[self.last].read_only
    }

    /// Whether the bank that was found last has these bytes; where it hasn't, another may have them.
    #[inline(always)]
    pub fn last_has(&self, a: u32, n: u32) -> bool
        ensures { result ≡ true → bank_has (contents_of self.now).banks a n ≡ true }
    {
        self.is_last(a, n)
    }

    /// Whether the bank that was found last has these bytes and isn't protected.
    #[inline(always)]
    pub fn last_takes(&self, a: u32, n: u32) -> bool
        requires { 1 ≤ n }
        ensures has { result ≡ true → bank_has (contents_of self.now).banks a n ≡ true }
        ensures free { result ≡ true → is_protected (contents_of self.now).banks a n ≡ false }
    {
        if !self.is_last(a, n) {
            return false;
        }
        !self.last_protects(a, n)
    }

    /// The bytes of an access, as a number.
    #[inline(always)]
    pub fn read(&self, a: u32, width: Width) -> u32
        requires started { length (contents_of self.now).used ≡ 1048576 }
        requires aligned { a % bytes_in width ≡ 0 }
        ensures { result ≡ number_of (load (contents_of self.now).memory a (bytes_in width)) }
    {
        self.pages.read(a, width)
    }

    /// The bytes of an access in the page of the window of fetches, as a number.
    #[inline(always)]
    #[tactic(auto, using(crate::proofs::PagingLemmas::in_page, crate::proofs::WindowLemmas::window_has, crate::proofs::WindowLemmas::window_place))]
    pub fn read_in_fetch_window(&self, a: u32, width: Width) -> u32
        requires page { self.now.fetch_window.page ≡ a / 4096 }
        requires aligned { a % bytes_in width ≡ 0 }
        ensures has { bank_has (contents_of self.now).banks a (bytes_in width) ≡ true }
        ensures value { result ≡ number_of (load (contents_of self.now).memory a (bytes_in width)) }
    {
        self.pages.read_from(self.fetch_window.place(a), a, width)
    }

    /// The bytes of an access in the page of the window of data, as a number.
    #[inline(always)]
    #[tactic(auto, using(crate::proofs::PagingLemmas::in_page, crate::proofs::WindowLemmas::data_has, crate::proofs::WindowLemmas::data_place))]
    pub fn read_in_data_window(&self, a: u32, width: Width) -> u32
        requires page { self.now.data_window.page ≡ a / 4096 }
        requires aligned { a % bytes_in width ≡ 0 }
        ensures has { bank_has (contents_of self.now).banks a (bytes_in width) ≡ true }
        ensures value { result ≡ number_of (load (contents_of self.now).memory a (bytes_in width)) }
    {
        self.pages.read_from(self.data_window.place(a), a, width)
    }

    /// The `n` bytes from an address of that page on; None where it hasn't all of them, or they aren't made yet.
    #[inline(always)]
    #[tactic(auto, using(crate::proofs::WindowLemmas::data_place))]
    pub fn part_in_data_window(&self, a: u32, n: u32) -> Option<&[u8]>
        requires page { self.now.data_window.page ≡ a / 4096 }
        requires few { n ≤ 64 }
        ensures { IfSome result (λ part. IsPart (contents_of self.now) a n part.now) }
    {
        if a % PAGE + n > PAGE {
            return None;
        }
        self.pages.part_from(self.data_window.place(a), a, n)
    }

    /// Makes a store in that page, and notes it.
    #[inline(always)]
    #[tactic(auto, using(crate::proofs::PagingLemmas::in_page, crate::proofs::WindowLemmas::frames_same, crate::proofs::WindowLemmas::window_stored, crate::proofs::WindowLemmas::data_stored, crate::proofs::WindowLemmas::data_place))]
    pub fn store_in_data_window(&mut self, a: u32, width: Width, v: u32)
        requires page { self.old.data_window.page ≡ a / 4096 }
        requires aligned { a % bytes_in width ≡ 0 }
        requires few { length (contents_of self.old).stores < 16 }
        ensures has { bank_has (contents_of self.old).banks a (bytes_in width) ≡ true }
        ensures fault { store_fault (contents_of self.old) a (bytes_in width) ≡ None }
        ensures after { contents_of self.new ≡ after_store (contents_of self.old) a width v }
    {
        self.pages.put_from(self.data_window.place(a), a, width, v);
        self.stores.note(a, width);
    }

    /// Stores the `n` words from an address of that page on, those of a table at the places where `list` has a 1, and notes each.
    #[inline(always)]
    #[tactic(auto, using(crate::proofs::WindowLemmas::frames_same, crate::proofs::WindowLemmas::window_stored, crate::proofs::WindowLemmas::data_stored, crate::proofs::WindowLemmas::data_place, crate::proofs::StoreLemmas::words_more))]
    pub fn store_picked_in_data_window(&mut self, a: u32, words: &[u32; 16], list: u32, n: u32)
        requires page { self.old.data_window.page ≡ a / 4096 }
        requires within { a % 4096 + 4 * n ≤ 4096 }
        requires aligned { a % 4 ≡ 0 }
        requires counted { n ≡ length (registers 16 list) }
        requires some { 1 ≤ n }
        requires left { length (contents_of self.old).stores + n ≤ 16 }
        ensures { IsPicked (contents_of self.old) a n (picked_bytes words.now (registers 16 list)) (contents_of self.new) }
    {
        self.pages
            .put_picked_from(self.data_window.place(a), a, words, list);
        self.stores.note_words(a, n);
    }

    /// A window on the page of an address, which the bank that was found last has; None where it has no frame.
    fn window_on(&self, a: u32) -> Option<Window>
        requires started { length (contents_of self.now).used ≡ 1048576 }
        requires found { IsBankAt self.now.banks.items self.now.last (a - a % 4096) 4096 }
        ensures page { IfSome result (λ window. window.page ≡ a / 4096) }
        ensures window { IfSome result (λ window. IsWindow self.now.banks.items self.now.pages.table window.page window.shift) }
    {
        match self.pages.table.lookup((a / PAGE) as usize) {
            Some(frame) => Some(Window {
                page: a / PAGE,
                shift: (u32::from(frame) * PAGE).wrapping_sub(a - a % PAGE),
            }),
            None => None,
        }
    }

    /// Moves the window of fetches to the page of an address, where the bank that was found last has it and it has a frame.
    pub fn move_fetch_window(&mut self, a: u32)
        requires { length (contents_of self.old).used ≡ 1048576 }
        ensures { contents_of self.new ≡ contents_of self.old }
    {
        if !self.is_last(a - a % PAGE, PAGE) {
            return;
        }
        match self.window_on(a) {
            Some(window) => self.fetch_window = window,
            None => {}
        }
    }

    /// Moves the window of data to the page of an address; false where the bank that was found last hasn't the whole page or is
    /// protected, or the page has no frame.
    #[inline(always)]
    pub fn move_data_window(&mut self, a: u32) -> bool
        requires { length (contents_of self.old).used ≡ 1048576 }
        ensures page { result ≡ true → self.new.data_window.page ≡ a / 4096 }
        ensures last { (self.new.banks ≡ self.old.banks) × (self.new.last ≡ self.old.last) }
        ensures same { contents_of self.new ≡ contents_of self.old }
    {
        let first = a - a % PAGE;
        if !self.is_last(first, PAGE) || self.last_protects(first, PAGE) {
            return false;
        }
        match self.window_on(a) {
            Some(window) => {
                self.data_window = window;
                true
            }
            None => false,
        }
    }

    /// The byte at an address, where a bank has it.
    pub fn peek(&self, a: u32) -> Option<u8>
        requires { length (contents_of self.now).used ≡ 1048576 }
        ensures { result ≡ peeked (contents_of self.now) a }
    {
        if self.holds(a, 1) {
            Some(self.pages.peek(a))
        } else {
            None
        }
    }

    /// The bytes from an address on that its bank and its page have; none where no bank has it, or its page has no bytes yet.
    pub fn piece(&self, a: u32) -> &[u8]
        requires { length (contents_of self.now).used ≡ 1048576 }
        ensures { IsPiece (contents_of self.now) a result.now }
    {
        let bytes = self.pages.piece(a);
        let count = left_in(&self.banks, a);
        &bytes[..bytes.len().min(count)]
    }

    /// The `n` bytes from an address on; None where one bank or one page hasn't all of them, or they aren't made yet.
    pub fn part(&self, a: u32, n: u32) -> Option<&[u8]>
        requires started { length (contents_of self.now).used ≡ 1048576 }
        requires few { n ≤ 64 }
        ensures { IfSome result (λ part. IsPart (contents_of self.now) a n part.now) }
    {
        if !self.holds(a, n) {
            return None;
        }
        self.pages.part(a, n)
    }

    pub fn page_used(&self, a: u32) -> bool
        requires { length (contents_of self.now).used ≡ 1048576 }
        ensures { result ≡ page_used_in (contents_of self.now).used a }
    {
        self.pages.is_used((a / PAGE) as usize)
    }

    pub fn pages_left(&self) -> u32
        ensures { result ≡ (contents_of self.now).frames - used_count (contents_of self.now).used }
    {
        self.pages.left()
    }

    /// Makes a store that lies in the bank that was found last, and notes it.
    #[inline(always)]
    #[tactic(auto, using(crate::proofs::WindowLemmas::window_stored, crate::proofs::WindowLemmas::data_stored))]
    pub fn store(&mut self, a: u32, width: Width, v: u32) -> Result<(), BusFault>
        requires found { IsBankAt self.old.banks.items self.old.last a (bytes_in width) }
        requires started { length (contents_of self.old).used ≡ 1048576 }
        requires aligned { a % bytes_in width ≡ 0 }
        requires few { length (contents_of self.old).stores < 16 }
        ensures answer { result ≡ store_answer (store_fault (contents_of self.old) a (bytes_in width)) }
        ensures after { contents_of self.new ≡ store_leaves (store_fault (contents_of self.old) a (bytes_in width)) (contents_of self.old) (after_store (contents_of self.old) a width v) }
    {
        if self.last_protects(a, width.bytes()) {
            return Err(BusFault::ReadOnly);
        }
        if !self.pages.write(a, width, v) {
            return Err(BusFault::NoFrame(a));
        }
        self.stores.note(a, width);
        Ok(())
    }

    /// Stores the `n` words from an address on, which lie in the bank that was found last and in one page, those of a table at the
    /// places where `list` has a 1, and notes each; false, and nothing changes, where the bank is protected or the page isn't used.
    #[tactic(auto, using(crate::proofs::WindowLemmas::frames_same, crate::proofs::WindowLemmas::window_stored, crate::proofs::WindowLemmas::data_stored, crate::proofs::StoreLemmas::words_more))]
    pub fn store_picked(&mut self, a: u32, words: &[u32; 16], list: u32, n: u32) -> bool
        requires found { IsBankAt self.old.banks.items self.old.last a (4 * n) }
        requires started { length (contents_of self.old).used ≡ 1048576 }
        requires within { a % 4096 + 4 * n ≤ 4096 }
        requires aligned { a % 4 ≡ 0 }
        requires counted { n ≡ length (registers 16 list) }
        requires some { 1 ≤ n }
        requires left { length (contents_of self.old).stores + n ≤ 16 }
        ensures stored { result ≡ true → IsPicked (contents_of self.old) a n (picked_bytes words.now (registers 16 list)) (contents_of self.new) }
        ensures same { result ≡ false → contents_of self.new ≡ contents_of self.old }
    {
        if self.last_protects(a, 4 * n) {
            return false;
        }
        match self.pages.table.lookup((a / PAGE) as usize) {
            Some(frame) => {
                self.pages
                    .put_picked_from(place_in(frame, a), a, words, list);
                self.stores.note_words(a, n);
                true
            }
            None => false,
        }
    }

    /// No banks.
    #[tactic(auto, using(crate::proofs::PagingLemmas::memory_clear, crate::proofs::LookupLemmas::apart_none, crate::proofs::WindowLemmas::window_closed, crate::proofs::WindowLemmas::data_closed))]
    pub fn new(alloc: Global) -> Memory
        ensures banks { (contents_of result).banks ≡ [] }
        ensures memory { (a : ℕ) → (contents_of result).memory a ≡ 0 }
        ensures used { (contents_of result).used ≡ [] }
        ensures frames { (contents_of result).frames ≡ 0 }
        ensures stores { (contents_of result).stores ≡ [] }
    {
        Memory {
            alloc,
            banks: Vec::new(alloc),
            pages: Pages::none(alloc),
            stores: Notes::none(),
            last: 0,
            fetch_window: CLOSED,
            data_window: CLOSED,
            strayed: false,
        }
    }

    /// The least address that the range shares with a bank.
    pub fn meeting(&self, r: Range32) -> Option<u32>
        ensures { IsFound (λ a. has_access r.base r.size a 1 && bank_has (contents_of self.now).banks a 1) result }
    {
        bank_meeting(&self.banks, r)
    }

    /// One more bank, which isn't protected and has no address of another.
    pub fn add_bank(&mut self, range: Range32) -> Result<(), NoMemory>
        requires { IsNowhere (λ a. has_access range.base range.size a 1 && bank_has (contents_of self.old).banks a 1) }
        ensures ok { OnOk result (contents_of self.new ≡ with_bank (contents_of self.old) range) }
        ensures err { OnErr result (contents_of self.new ≡ contents_of self.old) }
    {
        self.fetch_window = CLOSED;
        self.data_window = CLOSED;
        self.banks.push(Bank {
            range,
            read_only: false,
        })?;
        Ok(())
    }

    /// Protects the banks of this range.
    pub fn protect(&mut self, r: Range32)
        ensures { contents_of self.new ≡ with_protected (contents_of self.old) r }
    {
        self.fetch_window = CLOSED;
        self.data_window = CLOSED;
        protect_banks(&mut self.banks, r);
    }

    /// Makes the pages, and frames for those that the banks touch.
    #[tactic(auto, using(crate::proofs::WindowLemmas::window_closed, crate::proofs::WindowLemmas::data_closed))]
    pub fn start(&mut self) -> Result<(), NoMemory>
        requires { length (contents_of self.old).used ≡ 0 }
        ensures ok { OnOk result (IsStart (contents_of self.old) (contents_of self.new)) }
        ensures err { OnErr result (contents_of self.new ≡ contents_of self.old) }
    {
        let room = frames_for(&self.banks);
        let pages = Pages::make(self.alloc, PARTS, room)?;
        self.pages = pages;
        self.fetch_window = CLOSED;
        self.data_window = CLOSED;
        Ok(())
    }

    #[tactic(auto, using(crate::proofs::ClaimLemmas::pages_none, crate::proofs::ClaimLemmas::pages_some))]
    fn page_count(r: Range32) -> usize
        ensures count { result ≡ pages_of r.base r.size }
        ensures within { r.base / 4096 + result ≤ 1048576 }
    {
        if r.size == 0 {
            return 0;
        }
        let last = (u64::from(r.base) + (r.size - 1)) / 4096;
        (last + 1 - u64::from(r.base / PAGE)) as usize
    }

    /// Uses the pages of the range; false, and nothing changes, where there are fewer frames than pages would be used.
    #[tactic(auto, using(crate::proofs::WindowLemmas::window_closed, crate::proofs::WindowLemmas::data_closed))]
    pub fn claim_pages(&mut self, r: Range32) -> bool
        requires { length (contents_of self.old).used ≡ 1048576 }
        ensures answer { result ≡ nat_le (used_count (claimed (contents_of self.old).used (r.base / 4096) (pages_of r.base r.size))) (contents_of self.old).frames }
        ensures after { result ≡ true → contents_of self.new ≡ record (contents_of self.old) { used = claimed (contents_of self.old).used (r.base / 4096) (pages_of r.base r.size) } }
        ensures same { result ≡ false → contents_of self.new ≡ contents_of self.old }
    {
        self.fetch_window = CLOSED;
        self.data_window = CLOSED;
        self.pages
            .claim_all((r.base / PAGE) as usize, Memory::page_count(r))
    }

    /// Notes a store to a device.
    pub fn note(&mut self, a: u32, width: Width)
        requires aligned { a % bytes_in width ≡ 0 }
        requires few { length (contents_of self.old).stores < 16 }
        ensures { contents_of self.new ≡ noted (contents_of self.old) a (bytes_in width) }
    {
        self.strayed = true;
        self.stores.note(a, width);
    }

    /// The stores since the last tick, in order.
    pub fn last_stores(&self) -> Stores
        ensures { map place_of (take result.count result.list) ≡ (contents_of self.now).stores }
    {
        self.stores.ranges()
    }

    /// No store is noted any more.
    pub fn forget_stores(&mut self)
        ensures { contents_of self.new ≡ record (contents_of self.old) { stores = [] } }
    {
        self.stores.forget();
        self.strayed = false;
    }

    /// Whether each store since the last tick was one to memory.
    #[inline(always)]
    pub fn kept_to_banks(&self) -> bool
        ensures { result ≡ true → lie_in_banks (contents_of self.now).banks (contents_of self.now).stores ≡ true }
    {
        !self.strayed
    }
}

fn touches_page(range: Range32, page: u64) -> bool
    requires { page < 1048576 }
    ensures { result ≡ range_touches range.base range.size page }
{
    let base = u64::from(range.base);
    base.max(4096 * page) < (base + range.size).min(4096 * page + 4096)
}

fn page_touched(banks: &[Bank], page: u64) -> bool
    requires { page < 1048576 }
    ensures { result ≡ list_any (λ b. range_touches b.range.base b.range.size page) banks.now }
{
    banks.iter().any(|bank| touches_page(bank.range, page))
}

/// The page behind a page with which a range begins or ends, or the end of all pages: the range touches all pages before it
/// or none.
#[tactic(auto, using(crate::proofs::EdgeLemmas::same_before, crate::proofs::EdgeLemmas::same_within, crate::proofs::EdgeLemmas::same_behind))]
fn edge_of(range: Range32, page: u64) -> u64
    requires { page < 1048576 }
    ensures edge { (page < result) × (result ≤ 1048576) }
    ensures same { (x : ℕ) → page ≤ x → x < result → range_touches range.base range.size x ≡ range_touches range.base range.size page }
{
    let first = u64::from(range.base) / 4096;
    let end = (u64::from(range.base) + range.size + 4095) / 4096;
    if page < first {
        return first;
    }
    if page < end {
        return end;
    }
    1048576
}

/// The page behind a page with which a bank begins or ends, or the end of all pages: the banks touch all pages before it or
/// none.
#[tactic(auto, using(crate::proofs::EdgeLemmas::run_more, crate::proofs::EdgeLemmas::run_none))]
fn next_edge(banks: &[Bank], page: u64) -> u64
    requires { page < 1048576 }
    ensures edge { (page < result) × (result ≤ 1048576) }
    ensures same { IsRun banks.now page result }
{
    let [first, rest @ ..] = banks else {
        return 1048576;
    };
    edge_of(first.range, page).min(next_edge(rest, page))
}

/// How many pages before an edge, from a page on, the banks touch.
#[tactic(auto, using(crate::proofs::EdgeLemmas::run_touched, crate::proofs::EdgeLemmas::run_untouched))]
fn touched_to(banks: &[Bank], page: u64, edge: u64) -> u64
    requires start { page < 1048576 }
    requires edge { page ≤ edge }
    requires run { IsRun banks.now page edge }
    ensures count { result + pages_touched banks.now page ≡ pages_touched banks.now edge }
    ensures few { result ≤ edge - page }
{
    if page_touched(banks, page) {
        return edge - page;
    }
    0
}

/// How many frames there are for the pages that the banks touch. It goes from edge to edge.
#[tactic(auto, using(crate::proofs::TestLemmas::touched_none))]
fn frames_for(banks: &[Bank]) -> u32
    ensures { result ≡ min 65536 (pages_touched banks.now 1048576) }
{
    let mut n: u64 = 0;
    let mut page: u64 = 0;
    'pages: while page < 1048576 {
        let edge = next_edge(banks, page);
        n += touched_to(banks, page, edge);
        page = edge;
    }
    n.min(65536) as u32
}
