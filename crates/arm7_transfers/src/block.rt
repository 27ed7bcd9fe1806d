//! Loads and stores of several registers.

ghost use Rattle.std.specs.Prelude.{◌≡◌, ℕ, true, false, ◌<◌, ◌≤◌, ◌+◌, ◌-◌, ◌*◌, ◌%◌, ◌^◌, ◌==◌, ◌&&◌, not, [], length, Some, MatchOption};
ghost use Rattle.sdt_word.specs.Numbers.{places_from, registers};
ghost use Rattle.arm7_model.specs.Blocks.{all_may_store, all_there, block_loaded, block_moved, block_stored, lists, with_block_base};
ghost use Rattle.arm7_bus.specs.Buses.{needs_page};
ghost use Rattle.arm7_bus.specs.Meets.{lesser_of};
ghost use Rattle.arm7_bus.specs.Paging.{used_count};
ghost use Rattle.arm7_bus.specs.Picks.{four_from};
ghost use Rattle.arm7_transfers.specs.BlockAccesses.{IsTaken, drawn, is_page_of, loads_of, pages_needed, stores_of, taken, words_in};
ghost use Rattle.arm7_transfers.specs.Boards.{board_of};
ghost use Rattle.arm7_transfers.specs.declared.outcome.Outcome.TheVariants as outcome;
ghost use Rattle.arm7_transfers.specs.Done.{IsDone};
ghost use Rattle.arm7_transfers.specs.Frames.{Fits, Misses, least_unused, used_with};
ghost use Rattle.arm7_transfers.specs.Ready.{IsReady};
ghost use Rattle.arm7_transfers.specs.Served.{served};
ghost use Rattle.arm7_transfers.specs.Views.{state_of};

use crate::access::{is_there, may_store, read, write};
use crate::outcome::Outcome;
use arm7_bus::Bus;
use arm7_model::ArmState;
use arm7_registers::{
    aligned, block_end, block_start, listed_at, lists, next_word, register, set_block_base,
    set_listed, set_loaded_pc,
};
use sdt_outside::Device;
use sdt_word::{Width, field, is_set, word_at};

/// A block: whether the base moves before each word, whether it moves up, whether the list names user mode's
/// registers or returns, whether the moved base is written back, the base's register, and the list, a bit for
/// each register.
#[derive(Clone, Copy)]
pub struct Block {
    pub pre: bool,
    pub up: bool,
    pub user: bool,
    pub write_back: bool,
    pub register: u8,
    pub list: u32,
}

/// How many registers there are.
fn count(list: u32) -> u32
    ensures value { result ≡ length (registers 16 list) }
    ensures few { result ≤ 16 }
{
    (list % 0x1_0000).count_ones()
}

// A function with a place `k` goes along the registers of a list from `k` on, and along the words from address `a` on.

/// Whether each word is there.
fn all_there(bus: &Bus, list: u32, k: u8, a: u32) -> bool
    requires ready { IsReady (state_of base size state touched bus.now) }
    requires within { k ≤ 16 }
    requires aligned { a % 4 ≡ 0 }
    ensures { result ≡ all_there (board_of (state_of base size state touched bus.now)) (places_from k (16 - k) list) a }
{
    if k == 16 {
        return true;
    }
    if !lists(list, k) {
        return all_there(bus, list, k + 1, a);
    }
    if !is_there(bus, a, Width::Word) {
        return false;
    }
    all_there(bus, list, k + 1, next_word(a))
}

/// Whether each word may be stored.
fn all_may_store(bus: &Bus, list: u32, k: u8, a: u32) -> bool
    requires ready { IsReady (state_of base size state touched bus.now) }
    requires within { k ≤ 16 }
    requires aligned { a % 4 ≡ 0 }
    ensures { result ≡ all_may_store (board_of (state_of base size state touched bus.now)) (places_from k (16 - k) list) a }
{
    if k == 16 {
        return true;
    }
    if !lists(list, k) {
        return all_may_store(bus, list, k + 1, a);
    }
    if !may_store(bus, a, Width::Word) {
        return false;
    }
    all_may_store(bus, list, k + 1, next_word(a))
}

/// Whether each word of a list is there. Mostly the bank that was found last has them all.
fn are_there(bus: &Bus, list: u32, a: u32) -> bool
    requires ready { IsReady (state_of base size state touched bus.now) }
    requires aligned { a % 4 ≡ 0 }
    ensures { result ≡ all_there (board_of (state_of base size state touched bus.now)) (registers 16 list) a }
{
    if a <= 0xFFFF_FFC0 {
        if bus.last_has(a, 64) {
            return true;
        }
    }
    all_there(bus, list, 0, a)
}

/// Whether each word of a list may be stored. Mostly the bank that was found last takes them all.
fn are_storable(bus: &Bus, list: u32, a: u32) -> bool
    requires ready { IsReady (state_of base size state touched bus.now) }
    requires aligned { a % 4 ≡ 0 }
    ensures { result ≡ all_may_store (board_of (state_of base size state touched bus.now)) (registers 16 list) a }
{
    if a <= 0xFFFF_FFC0 {
        if bus.last_takes(a, 64) {
            return true;
        }
    }
    all_may_store(bus, list, 0, a)
}

/// Loads each register.
fn take_all(core: &mut ArmState, bus: &mut Bus, user: bool, list: u32, k: u8, a: u32)
    requires ready { IsReady (state_of base size state touched bus.old) }
    requires within { k ≤ 16 }
    requires aligned { a % 4 ≡ 0 }
    ensures core { core.new ≡ taken user (places_from k (16 - k) list) a core.old (state_of base size state touched bus.old) }
    ensures served { state_of base size state touched bus.new ≡ served (state_of base size state touched bus.old) (loads_of (places_from k (16 - k) list) a) }
    ensures ready { IsReady (state_of base size state touched bus.new) }
{
    if k == 16 {
        return;
    }
    if !lists(list, k) {
        take_all(core, bus, user, list, k + 1, a);
        return;
    }
    let v = read(bus, a, Width::Word);
    set_listed(core, user, k, v);
    take_all(core, bus, user, list, k + 1, next_word(a));
}

// These load the registers from `k` on that a list has from the words of some bytes, from a place on, and give the place behind
// them.

/// One register.
#[inline(always)]
fn take_one(core: &mut ArmState, bytes: &[u8], at: usize, list: u32, k: u32) -> usize
    requires place { k < 16 }
    requires room { at + 4 * length (places_from k 1 list) ≤ length bytes.now }
    ensures behind { result ≡ at + 4 * length (places_from k 1 list) }
    ensures core { core.new ≡ drawn false (places_from k 1 list) at core.old bytes.now }
{
    if !is_set(list, k) {
        return at;
    }
    let v = word_at(bytes, at);
    set_listed(core, false, k as u8, v);
    at + 4
}

/// Four registers, one by one.
#[inline(always)]
fn take_each(core: &mut ArmState, bytes: &[u8], at: usize, list: u32, k: u32) -> usize
    requires places { k + 4 ≤ 16 }
    requires room { at + 4 * length (places_from k 4 list) ≤ length bytes.now }
    ensures behind { result ≡ at + 4 * length (places_from k 4 list) }
    ensures core { core.new ≡ drawn false (places_from k 4 list) at core.old bytes.now }
{
    let second = take_one(core, bytes, at, list, k);
    let third = take_one(core, bytes, second, list, k + 1);
    let fourth = take_one(core, bytes, third, list, k + 2);
    take_one(core, bytes, fourth, list, k + 3)
}

/// Four registers of which the list has each.
#[inline(always)]
fn take_run(core: &mut ArmState, bytes: &[u8], at: usize, k: u32) -> usize
    requires places { k + 4 ≤ 16 }
    requires room { at + 16 ≤ length bytes.now }
    ensures behind { result ≡ at + 16 }
    ensures core { core.new ≡ drawn false (four_from k) at core.old bytes.now }
{
    let second = at + 4;
    let third = second + 4;
    let fourth = third + 4;
    let a = word_at(bytes, at);
    let b = word_at(bytes, second);
    let c = word_at(bytes, third);
    let d = word_at(bytes, fourth);
    let k = k as u8;
    set_listed(core, false, k, a);
    set_listed(core, false, k + 1, b);
    set_listed(core, false, k + 2, c);
    set_listed(core, false, k + 3, d);
    fourth + 4
}

/// Four registers.
#[inline(always)]
fn take_four(core: &mut ArmState, bytes: &[u8], at: usize, list: u32, k: u32) -> usize
    requires places { k + 4 ≤ 16 }
    requires room { at + 4 * length (places_from k 4 list) ≤ length bytes.now }
    ensures behind { result ≡ at + 4 * length (places_from k 4 list) }
    ensures core { core.new ≡ drawn false (places_from k 4 list) at core.old bytes.now }
{
    let some = field(list, k, 4);
    if some == 0 {
        return at;
    }
    if some == 15 {
        return take_run(core, bytes, at, k);
    }
    take_each(core, bytes, at, list, k)
}

/// All sixteen, from the first word on.
#[inline(never)]
fn take_words(core: &mut ArmState, bytes: &[u8], list: u32)
    requires room { 4 * length (registers 16 list) ≤ length bytes.now }
    ensures { core.new ≡ drawn false (registers 16 list) 0 core.old bytes.now }
{
    let second = take_four(core, bytes, 0, list, 0);
    let third = take_four(core, bytes, second, list, 4);
    if list < 256 {
        return;
    }
    let fourth = take_four(core, bytes, third, list, 8);
    take_four(core, bytes, fourth, list, 12);
}

/// Writes the base back and loads each register of a list from the bytes that one bank and one page have; false, and nothing
/// changes, where they haven't all of them.
#[inline(never)]
fn taken_of_piece(
    core: &mut ArmState,
    bus: &Bus,
    write_back: bool,
    rn: u8,
    list: u32,
    a: u32,
    end: u32,
) -> bool
    requires ready { IsReady (state_of base size state touched bus.now) }
    requires from { rn < 16 }
    requires aligned { a % 4 ≡ 0 }
    ensures taken { result ≡ true → IsTaken write_back rn list a end core.old core.new (state_of base size state touched bus.now) }
    ensures same { result ≡ false → core.new ≡ core.old }
{
    let n = count(list);
    let bytes = bus.piece(a);
    if bytes.len() < 4 * n as usize {
        return false;
    }
    set_block_base(core, write_back, rn, end);
    take_words(core, bytes, list);
    true
}

/// The same, mostly at once: one bank and one page have the words, and they are made.
#[inline(always)]
fn taken_at_once(
    core: &mut ArmState,
    bus: &Bus,
    write_back: bool,
    rn: u8,
    list: u32,
    a: u32,
    end: u32,
) -> bool
    requires ready { IsReady (state_of base size state touched bus.now) }
    requires from { rn < 16 }
    requires aligned { a % 4 ≡ 0 }
    ensures taken { result ≡ true → IsTaken write_back rn list a end core.old core.new (state_of base size state touched bus.now) }
    ensures same { result ≡ false → core.new ≡ core.old }
{
    let n = count(list);
    let Some(part) = bus.part(a, 4 * n) else {
        return taken_of_piece(core, bus, write_back, rn, list, a, end);
    };
    set_block_base(core, write_back, rn, end);
    take_words(core, part, list);
    true
}

/// Writes the base back and loads each register by itself; false, and nothing changes, where a word is absent.
fn each_loaded(core: &mut ArmState, bus: &mut Bus, user: bool, by: Block, a: u32, end: u32) -> bool
    requires ready { IsReady (state_of base size state touched bus.old) }
    requires from { by.register < 16 }
    requires aligned { a % 4 ≡ 0 }
    ensures there { result ≡ all_there (board_of (state_of base size state touched bus.old)) (registers 16 by.list) a }
    ensures core { result ≡ true → core.new ≡ taken user (registers 16 by.list) a (with_block_base by.write_back by.register end core.old) (state_of base size state touched bus.old) }
    ensures served { result ≡ true → state_of base size state touched bus.new ≡ served (state_of base size state touched bus.old) (loads_of (registers 16 by.list) a) }
    ensures same { result ≡ false → (core.new ≡ core.old) × (state_of base size state touched bus.new ≡ state_of base size state touched bus.old) }
    ensures ready { IsReady (state_of base size state touched bus.new) }
{
    if !are_there(bus, by.list, a) {
        return false;
    }
    set_block_base(core, by.write_back, by.register, end);
    take_all(core, bus, user, by.list, 0, a);
    true
}

/// Writes the base back and loads each register of a list, mostly at once; false, and nothing changes, where a word is absent.
fn all_loaded(core: &mut ArmState, bus: &mut Bus, user: bool, by: Block, a: u32, end: u32) -> bool
    requires ready { IsReady (state_of base size state touched bus.old) }
    requires from { by.register < 16 }
    requires aligned { a % 4 ≡ 0 }
    ensures there { result ≡ all_there (board_of (state_of base size state touched bus.old)) (registers 16 by.list) a }
    ensures core { result ≡ true → core.new ≡ taken user (registers 16 by.list) a (with_block_base by.write_back by.register end core.old) (state_of base size state touched bus.old) }
    ensures served { result ≡ true → state_of base size state touched bus.new ≡ served (state_of base size state touched bus.old) (loads_of (registers 16 by.list) a) }
    ensures same { result ≡ false → (core.new ≡ core.old) × (state_of base size state touched bus.new ≡ state_of base size state touched bus.old) }
    ensures ready { IsReady (state_of base size state touched bus.new) }
{
    if user {
        return each_loaded(core, bus, user, by, a, end);
    }
    if taken_at_once(core, bus, by.write_back, by.register, by.list, a, end) {
        return true;
    }
    each_loaded(core, bus, user, by, a, end)
}

/// Stores each register.
fn give_all(core: &ArmState, bus: &mut Bus, user: bool, list: u32, k: u8, a: u32)
    requires ready { IsReady (state_of base size state touched bus.old) }
    requires within { k ≤ 16 }
    requires aligned { a % 4 ≡ 0 }
    requires few { length (state_of base size state touched bus.old).contents.stores ≤ k }
    ensures served { state_of base size state touched bus.new ≡ served (state_of base size state touched bus.old) (stores_of user core.now (places_from k (16 - k) list) a) }
    ensures ready { IsReady (state_of base size state touched bus.new) }
{
    if k == 16 {
        return;
    }
    if !lists(list, k) {
        give_all(core, bus, user, list, k + 1, a);
        return;
    }
    let v = listed_at(core, user, k);
    write(bus, a, Width::Word, v);
    give_all(core, bus, user, list, k + 1, next_word(a));
}

/// Stores each register where one bank and one used page have all words, as they mostly do; false, and nothing changes, where
/// they haven't, and where the list has pc or no register.
#[inline(always)]
fn gave_at_once(core: &ArmState, bus: &mut Bus, list: u32, a: u32) -> bool
    requires ready { IsReady (state_of base size state touched bus.old) }
    requires quiet { (state_of base size state touched bus.old).contents.stores ≡ [] }
    requires aligned { a % 4 ≡ 0 }
    ensures may { result ≡ true → all_may_store (board_of (state_of base size state touched bus.old)) (registers 16 list) a ≡ true }
    ensures fits { result ≡ true → let s = state_of base size state touched bus.old in Fits s (words_in s.contents.banks (registers 16 list) a) }
    ensures served { result ≡ true → state_of base size state touched bus.new ≡ served (state_of base size state touched bus.old) (stores_of false core.now (registers 16 list) a) }
    ensures ready { result ≡ true → IsReady (state_of base size state touched bus.new) }
    ensures same { result ≡ false → state_of base size state touched bus.new ≡ state_of base size state touched bus.old }
{
    if lists(list, 15) {
        return false;
    }
    let n = count(list);
    if n == 0 {
        return false;
    }
    bus.write_picked(a, &core.r, list, n)
}

/// Whether an address, where there is one, has the page of another.
fn is_page_of(last: Option<u32>, a: u32) -> bool
    ensures { result ≡ is_page_of last a }
{
    match last {
        Some(l) => l / 4096 == a / 4096,
        None => false,
    }
}

/// Whether a word needs a page that isn't the last one's.
fn needs_new_page(bus: &Bus, a: u32, last: Option<u32>) -> bool
    requires { IsReady (state_of base size state touched bus.now) }
    ensures { result ≡ (needs_page (state_of base size state touched bus.now) a 4 && not (is_page_of last a)) }
{
    bus.needs_page(a, Width::Word) && !is_page_of(last, a)
}

/// How many pages the words need, where the page of the last one that needed one is counted.
fn pages_needed(bus: &Bus, list: u32, k: u8, a: u32, last: Option<u32>) -> u32
    requires ready { IsReady (state_of base size state touched bus.now) }
    requires within { k ≤ 16 }
    ensures value { result ≡ pages_needed (state_of base size state touched bus.now) (places_from k (16 - k) list) a last }
    ensures few { result + k ≤ 16 }
{
    if k == 16 {
        return 0;
    }
    if !lists(list, k) {
        return pages_needed(bus, list, k + 1, a, last);
    }
    if needs_new_page(bus, a, last) {
        return 1 + pages_needed(bus, list, k + 1, next_word(a), Some(a));
    }
    pages_needed(bus, list, k + 1, next_word(a), last)
}

fn lesser(a: u32, other: Option<u32>) -> u32
    ensures { Some result ≡ lesser_of (Some a) other }
{
    match other {
        Some(b) => a.min(b),
        None => a,
    }
}

/// The least address of a word that needs a page.
fn least_unused(bus: &Bus, list: u32, k: u8, a: u32) -> Option<u32>
    requires ready { IsReady (state_of base size state touched bus.now) }
    requires within { k ≤ 16 }
    ensures { let s = state_of base size state touched bus.now in result ≡ least_unused s.contents.used (words_in s.contents.banks (places_from k (16 - k) list) a) }
{
    if k == 16 {
        return None;
    }
    if !lists(list, k) {
        return least_unused(bus, list, k + 1, a);
    }
    let others = least_unused(bus, list, k + 1, next_word(a));
    if bus.needs_page(a, Width::Word) {
        return Some(lesser(a, others));
    }
    others
}

/// The least address that would be stored in an unused page, where there is no frame for all such pages. For sixteen words
/// no more pages than that are asked for.
fn missing_frame(bus: &Bus, list: u32, a: u32) -> Option<u32>
    requires { IsReady (state_of base size state touched bus.now) }
    ensures { let s = state_of base size state touched bus.now in MatchOption result (Fits s (words_in s.contents.banks (registers 16 list) a)) (Misses s (words_in s.contents.banks (registers 16 list) a)) }
{
    if bus.pages_left() >= 16 {
        return None;
    }
    let Some(address) = least_unused(bus, list, 0, a) else {
        return None;
    };
    if pages_needed(bus, list, 0, a, None) > bus.pages_left() {
        Some(address)
    } else {
        None
    }
}

/// Stores each register by itself.
fn each_stored(core: &mut ArmState, bus: &mut Bus, by: Block, a: u32, end: u32) -> Outcome
    requires ready { IsReady (state_of base size state touched bus.old) }
    requires quiet { (state_of base size state touched bus.old).contents.stores ≡ [] }
    requires from { by.register < 16 }
    requires aligned { a % 4 ≡ 0 }
    ensures done { IsDone (λ u w. block_stored u by.user by.write_back (registers 16 by.list) a by.register end w) core.old (state_of base size state touched bus.old) result core.new (state_of base size state touched bus.new) }
    ensures ready { IsReady (state_of base size state touched bus.new) }
{
    if !are_storable(bus, by.list, a) {
        return Outcome::Aborted;
    }
    if let Some(address) = missing_frame(bus, by.list, a) {
        return Outcome::NoFrame(address);
    }
    give_all(core, bus, by.user, by.list, 0, a);
    set_block_base(core, by.write_back, by.register, end);
    Outcome::Ran
}

/// Stores each register at once and writes the base back; false, and nothing changes, where that can't be.
#[inline(always)]
fn stored_at_once(
    core: &mut ArmState,
    bus: &mut Bus,
    write_back: bool,
    rn: u8,
    list: u32,
    a: u32,
    end: u32,
) -> bool
    requires ready { IsReady (state_of base size state touched bus.old) }
    requires quiet { (state_of base size state touched bus.old).contents.stores ≡ [] }
    requires from { rn < 16 }
    requires aligned { a % 4 ≡ 0 }
    ensures done { result ≡ true → IsDone (λ u w. block_stored u false write_back (registers 16 list) a rn end w) core.old (state_of base size state touched bus.old) outcome.Ran core.new (state_of base size state touched bus.new) }
    ensures same { result ≡ false → (core.new ≡ core.old) × (state_of base size state touched bus.new ≡ state_of base size state touched bus.old) }
    ensures ready { IsReady (state_of base size state touched bus.new) }
{
    if !gave_at_once(core, bus, list, a) {
        return false;
    }
    set_block_base(core, write_back, rn, end);
    true
}

/// Whether a loaded pc is no address of ARM state.
fn is_no_return(thumb: bool, user: bool, pc: u32) -> bool
    ensures { result ≡ (not thumb && (not user && not (pc % 4 == 0))) }
{
    !thumb && !user && pc % 4 != 0
}

/// Loads a list with pc: with `^` it returns from an exception.
fn pc_loaded(
    core: &mut ArmState,
    bus: &mut Bus,
    thumb: bool,
    by: Block,
    a: u32,
    end: u32,
) -> Outcome
    requires ready { IsReady (state_of base size state touched bus.old) }
    requires from { by.register < 16 }
    requires pc { lists by.list 15 ≡ true }
    requires aligned { a % 4 ≡ 0 }
    ensures done { IsDone (λ u w. block_loaded u thumb by.user by.write_back (registers 16 by.list) a by.register end (lists by.list 15) w) core.old (state_of base size state touched bus.old) result core.new (state_of base size state touched bus.new) }
    ensures ready { IsReady (state_of base size state touched bus.new) }
{
    let mut next = *core;
    if !all_loaded(&mut next, bus, false, by, a, end) {
        return Outcome::Aborted;
    }
    if is_no_return(thumb, by.user, register(&next, 15)) {
        return Outcome::Unpredictable;
    }
    set_loaded_pc(&mut next, by.user);
    *core = next;
    Outcome::Ran
}

fn block_loaded(
    core: &mut ArmState,
    bus: &mut Bus,
    thumb: bool,
    by: Block,
    a: u32,
    end: u32,
) -> Outcome
    requires ready { IsReady (state_of base size state touched bus.old) }
    requires from { by.register < 16 }
    requires aligned { a % 4 ≡ 0 }
    ensures done { IsDone (λ u w. block_loaded u thumb by.user by.write_back (registers 16 by.list) a by.register end (lists by.list 15) w) core.old (state_of base size state touched bus.old) result core.new (state_of base size state touched bus.new) }
    ensures ready { IsReady (state_of base size state touched bus.new) }
{
    if lists(by.list, 15) {
        return pc_loaded(core, bus, thumb, by, a, end);
    }
    if all_loaded(core, bus, by.user, by, a, end) {
        Outcome::Ran
    } else {
        Outcome::Aborted
    }
}

/// Loads or stores a list without `^` and without pc at once, where one bank and one used page have all words; false, and
/// nothing changes, where they haven't.
#[inline(always)]
fn moved_at_once(
    core: &mut ArmState,
    bus: &mut Bus,
    _thumb: bool,
    load: bool,
    pre: bool,
    up: bool,
    write_back: bool,
    rn: u8,
    list: u32,
) -> bool
    requires ready { IsReady (state_of base size state touched bus.old) }
    requires quiet { (state_of base size state touched bus.old).contents.stores ≡ [] }
    requires from { rn < 16 }
    ensures done { result ≡ true → IsDone (λ u w. block_moved u _thumb load pre up false write_back rn list w) core.old (state_of base size state touched bus.old) outcome.Ran core.new (state_of base size state touched bus.new) }
    ensures same { result ≡ false → (core.new ≡ core.old) × (state_of base size state touched bus.new ≡ state_of base size state touched bus.old) }
    ensures ready { IsReady (state_of base size state touched bus.new) }
{
    if lists(list, 15) {
        return false;
    }
    let n = count(list);
    let b = register(core, rn);
    if load {
        let a = aligned(block_start(pre, up, b, n), Width::Word);
        let end = block_end(up, b, n);
        taken_at_once(core, bus, write_back, rn, list, a, end)
    } else {
        let a = aligned(block_start(pre, up, b, n), Width::Word);
        let end = block_end(up, b, n);
        stored_at_once(core, bus, write_back, rn, list, a, end)
    }
}

/// Loads or stores the registers of a list, one by one where they aren't loaded at once. Its block comes in parts, so that the
/// call that needs none of them makes none.
#[inline(never)]
fn each_moved(
    core: &mut ArmState,
    bus: &mut Bus,
    thumb: bool,
    load: bool,
    pre: bool,
    up: bool,
    user: bool,
    write_back: bool,
    rn: u8,
    list: u32,
) -> Outcome
    requires ready { IsReady (state_of base size state touched bus.old) }
    requires quiet { (state_of base size state touched bus.old).contents.stores ≡ [] }
    requires from { rn < 16 }
    ensures done { IsDone (λ u w. block_moved u thumb load pre up user write_back rn list w) core.old (state_of base size state touched bus.old) result core.new (state_of base size state touched bus.new) }
    ensures ready { IsReady (state_of base size state touched bus.new) }
{
    let n = count(list);
    let b = register(core, rn);
    let a = aligned(block_start(pre, up, b, n), Width::Word);
    let end = block_end(up, b, n);
    let by = Block {
        pre,
        up,
        user,
        write_back,
        register: rn,
        list,
    };
    if load {
        block_loaded(core, bus, thumb, by, a, end)
    } else {
        each_stored(core, bus, by, a, end)
    }
}

/// Loads or stores the registers of a list, in rising order at rising addresses: mostly at once.
#[inline(always)]
pub fn block_moved(
    core: &mut ArmState,
    bus: &mut Bus,
    thumb: bool,
    load: bool,
    by: Block,
) -> Outcome
    requires ready { IsReady (state_of base size state touched bus.old) }
    requires quiet { (state_of base size state touched bus.old).contents.stores ≡ [] }
    requires from { by.register < 16 }
    ensures done { IsDone (λ u w. block_moved u thumb load by.pre by.up by.user by.write_back by.register by.list w) core.old (state_of base size state touched bus.old) result core.new (state_of base size state touched bus.new) }
    ensures ready { IsReady (state_of base size state touched bus.new) }
{
    let Block {
        pre,
        up,
        user,
        write_back,
        register: rn,
        list,
    } = by;
    if user {
        return each_moved(core, bus, thumb, load, pre, up, user, write_back, rn, list);
    }
    if !moved_at_once(core, bus, thumb, load, pre, up, write_back, rn, list) {
        return each_moved(core, bus, thumb, load, pre, up, user, write_back, rn, list);
    }
    Outcome::Ran
}
