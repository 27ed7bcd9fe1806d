//! Memory in pages that take a frame when they are first written.

ghost use Rattle.std.specs.Prelude.{◌≡◌, ℕ, ◌<◌, ◌≤◌, ◌+◌, ◌*◌, ◌/◌, ◌%◌, List, [], length, IsTrue, is_some, None, Some, IfOk, IfSome, OnOk, map, false, slice_index, slice_index_or, slice_set, true, ◌-◌, ◌||◌, nat_lt};
ghost use Rattle.sdt_word.specs.Bytes.{bytes_of, load, number_of};
ghost use Rattle.sdt_word.specs.Codes.{bytes_in};
ghost use Rattle.sdt_word.specs.Numbers.{registers};
ghost use Rattle.arm7_model.specs.Memory.{store};
ghost use Rattle.arm7_bus.specs.Paging.{frame_of, memory_in, used_in, page_used_in, used_count, IsPaging, IsUnused};
ghost use Rattle.arm7_bus.specs.Picks.{picked_bytes};
ghost use Rattle.arm7_bus.specs.Windows.{KeepsFrames};

use crate::frames::Frames;
use crate::table::Table;
use sdt_fault::NoMemory;
use sdt_word::Width;
use std::alloc::Global;

/// The bytes in a page.
pub const PAGE: u32 = 4096;

/// How many parts of the table have all 1,048,576 pages that there are addresses for.
pub const PARTS: usize = 256;

/// Where the byte of an address stands among the bytes of all frames, in this frame.
#[inline(always)]
pub fn place_in(frame: u16, a: u32) -> u32
    ensures frame { result / 4096 ≡ frame }
    ensures place { result % 4096 ≡ a % 4096 }
{
    u32::from(frame) * PAGE + a % PAGE
}

/// The frame of each page, the frames, how many of them are in use, and how many there are. The table is
/// empty until memory is started.
#[derive(Drop)]
pub struct Pages {
    pub table: Table,
    pub frames: Frames,
    pub used: u32,
    pub room: u32,
    pub ghost paging: { IsPaging table frames used room },
}

impl Pages {
    ghost use Rattle.std.specs.Prelude.{cond, nat_le};
    ghost use Rattle.arm7_bus.specs.States.{claimed};

    /// The bytes of an access, as a number.
    #[inline(always)]
    pub fn read(&self, a: u32, width: Width) -> u32
        requires started { length self.now.table ≡ 1048576 }
        requires aligned { a % bytes_in width ≡ 0 }
        ensures { result ≡ number_of (load (memory_in self.now.table self.now.frames) a (bytes_in width)) }
    {
        match self.table.lookup((a / PAGE) as usize) {
            Some(frame) => self.read_from(place_in(frame, a), a, width),
            None => 0,
        }
    }

    /// The bytes of an access, as a number, from its place among the bytes of all frames.
    #[inline(always)]
    pub fn read_from(&self, at: u32, _a: u32, width: Width) -> u32
        requires aligned { _a % bytes_in width ≡ 0 }
        requires frame { frame_of self.now.table (_a / 4096) ≡ Some (at / 4096) }
        requires place { at % 4096 ≡ _a % 4096 }
        ensures { result ≡ number_of (load (memory_in self.now.table self.now.frames) _a (bytes_in width)) }
    {
        self.frames.read(at, width)
    }

    /// The `n` bytes from an address on, from its place among the bytes of all frames; None where they aren't made yet.
    #[inline(always)]
    pub fn part_from(&self, at: u32, _a: u32, n: u32) -> Option<&[u8]>
        requires within { _a % 4096 + n ≤ 4096 }
        requires frame { frame_of self.now.table (_a / 4096) ≡ Some (at / 4096) }
        requires place { at % 4096 ≡ _a % 4096 }
        ensures { IfSome result (λ part. part.now ≡ load (memory_in self.now.table self.now.frames) _a n) }
    {
        self.frames.part(at, n)
    }

    /// Sets the bytes of an access, from its place among the bytes of all frames.
    #[inline(always)]
    pub fn put_from(&mut self, at: u32, _a: u32, width: Width, v: u32)
        requires aligned { _a % bytes_in width ≡ 0 }
        requires frame { frame_of self.old.table (_a / 4096) ≡ Some (at / 4096) }
        requires place { at % 4096 ≡ _a % 4096 }
        ensures memory { memory_in self.new.table self.new.frames ≡ store (memory_in self.old.table self.old.frames) _a (bytes_of v (bytes_in width)) }
        ensures table { self.new.table ≡ self.old.table }
        ensures counts { (self.new.used ≡ self.old.used) × (self.new.room ≡ self.old.room) }
        ensures used { used_in self.new.table ≡ slice_set (used_in self.old.table) (_a / 4096) true }
    {
        self.frames.write(at, width, v);
    }

    /// Sets the words from an address on, from its place among the bytes of all frames.
    #[inline(always)]
    pub fn put_picked_from(&mut self, at: u32, _a: u32, words: &[u32; 16], list: u32)
        requires within { _a % 4096 + 4 * length (registers 16 list) ≤ 4096 }
        requires frame { frame_of self.old.table (_a / 4096) ≡ Some (at / 4096) }
        requires place { at % 4096 ≡ _a % 4096 }
        ensures memory { memory_in self.new.table self.new.frames ≡ store (memory_in self.old.table self.old.frames) _a (picked_bytes words.now (registers 16 list)) }
        ensures table { self.new.table ≡ self.old.table }
        ensures counts { (self.new.used ≡ self.old.used) × (self.new.room ≡ self.old.room) }
        ensures used { page_used_in (used_in self.old.table) _a ≡ true }
    {
        self.frames.write_picked(at, words, list);
    }

    /// Gives a frame to a page that has none.
    pub fn claim(&mut self, page: usize)
        requires page { page < length self.old.table }
        requires fresh { frame_of self.old.table page ≡ None }
        requires left { self.old.used < self.old.room }
        ensures memory { memory_in self.new.table self.new.frames ≡ memory_in self.old.table self.old.frames }
        ensures table { self.new.table ≡ slice_set self.old.table page (Some self.old.used) }
        ensures counts { (self.new.used ≡ self.old.used + 1) × (self.new.room ≡ self.old.room) }
    {
        self.table.set(page, self.used as u16);
        self.used += 1;
    }

    /// The byte at an address.
    pub fn peek(&self, a: u32) -> u8
        requires { length self.now.table ≡ 1048576 }
        ensures { result ≡ memory_in self.now.table self.now.frames a }
    {
        match self.table.lookup((a / PAGE) as usize) {
            Some(frame) => self.frames.read_byte(place_in(frame, a)),
            None => 0,
        }
    }

    /// The bytes from an address on, up to the end of its page; none where its page has no frame, or no byte of it was made.
    pub fn piece(&self, a: u32) -> &[u8]
        requires { length self.now.table ≡ 1048576 }
        ensures bytes { result.now ≡ load (memory_in self.now.table self.now.frames) a (length result.now) }
        ensures some { length result.now ≡ 0 → memory_in self.now.table self.now.frames a ≡ 0 }
    {
        match self.table.lookup((a / PAGE) as usize) {
            Some(frame) => self.frames.rest(place_in(frame, a)),
            None => &[],
        }
    }

    /// The `n` bytes from an address on; None where one page hasn't all of them, it has no frame, or they aren't made yet.
    #[inline(always)]
    pub fn part(&self, a: u32, n: u32) -> Option<&[u8]>
        requires started { length self.now.table ≡ 1048576 }
        requires few { n ≤ 64 }
        ensures { IfSome result (λ part. (part.now ≡ load (memory_in self.now.table self.now.frames) a n) × (a % 4096 + n ≤ 4096)) }
    {
        if a % PAGE + n > PAGE {
            return None;
        }
        match self.table.lookup((a / PAGE) as usize) {
            Some(frame) => self.part_from(place_in(frame, a), a, n),
            None => None,
        }
    }

    pub fn is_used(&self, page: usize) -> bool
        requires { page < length self.now.table }
        ensures { result ≡ slice_index_or (used_in self.now.table) page false }
    {
        self.table.lookup(page).is_some()
    }

    /// How many pages can still take a frame.
    pub fn left(&self) -> u32
        ensures { result ≡ self.now.room - used_count (used_in self.now.table) }
    {
        self.room - self.used
    }

    #[inline(never)]
    fn put_fresh(&mut self, a: u32, width: Width, v: u32) -> bool
        requires started { length self.old.table ≡ 1048576 }
        requires aligned { a % bytes_in width ≡ 0 }
        requires fresh { frame_of self.old.table (a / 4096) ≡ None }
        ensures answer { result ≡ nat_lt (used_count (used_in self.old.table)) self.old.room }
        ensures memory { result ≡ true → memory_in self.new.table self.new.frames ≡ store (memory_in self.old.table self.old.frames) a (bytes_of v (bytes_in width)) }
        ensures used { result ≡ true → used_in self.new.table ≡ slice_set (used_in self.old.table) (a / 4096) true }
        ensures room { self.new.room ≡ self.old.room }
        ensures frames { KeepsFrames self.old.table self.new.table }
        ensures same { result ≡ false → self.new ≡ self.old }
    {
        if self.used >= self.room {
            return false;
        }
        let frame = self.used as u16;
        self.claim((a / PAGE) as usize);
        self.put_from(place_in(frame, a), a, width, v);
        true
    }

    /// Sets the bytes of an access, for which its page takes a frame where it has none; false where it can't.
    #[inline(always)]
    pub fn write(&mut self, a: u32, width: Width, v: u32) -> bool
        requires started { length self.old.table ≡ 1048576 }
        requires aligned { a % bytes_in width ≡ 0 }
        ensures answer { result ≡ (page_used_in (used_in self.old.table) a || nat_lt (used_count (used_in self.old.table)) self.old.room) }
        ensures memory { result ≡ true → memory_in self.new.table self.new.frames ≡ store (memory_in self.old.table self.old.frames) a (bytes_of v (bytes_in width)) }
        ensures used { result ≡ true → used_in self.new.table ≡ slice_set (used_in self.old.table) (a / 4096) true }
        ensures room { self.new.room ≡ self.old.room }
        ensures frames { KeepsFrames self.old.table self.new.table }
        ensures same { result ≡ false → self.new ≡ self.old }
    {
        match self.table.lookup((a / PAGE) as usize) {
            Some(frame) => {
                self.put_from(place_in(frame, a), a, width, v);
                true
            }
            None => self.put_fresh(a, width, v),
        }
    }

    fn added(&self, page: usize) -> u32
        requires { page < length self.now.table }
        ensures { result ≡ cond (slice_index_or (used_in self.now.table) page false) 0 1 }
    {
        if self.is_used(page) { 0 } else { 1 }
    }

    /// How many of these pages aren't used.
    #[tactic(auto, using(crate::proofs::ClaimLemmas::added_more))]
    fn fresh(&self, first: usize, count: usize) -> u32
        requires few { first + count ≤ 1048576 }
        requires within { first + count ≤ length self.now.table }
        ensures { result + used_count (used_in self.now.table) ≡ used_count (claimed (used_in self.now.table) first count) }
    {
        let mut n: u32 = 0;
        for k in 0..count {
            n += self.added(first + k);
        }
        n
    }

    /// Uses a page, for which there is a frame where it has none.
    #[tactic(auto, using(crate::proofs::ClaimLemmas::page_fresh, crate::proofs::ClaimLemmas::page_kept, crate::proofs::ClaimLemmas::page_room))]
    fn use_page(&mut self, page: usize)
        requires page { page < length self.old.table }
        requires room { used_count (slice_set (used_in self.old.table) page true) ≤ self.old.room }
        ensures memory { memory_in self.new.table self.new.frames ≡ memory_in self.old.table self.old.frames }
        ensures used { used_in self.new.table ≡ slice_set (used_in self.old.table) page true }
        ensures room { self.new.room ≡ self.old.room }
    {
        if self.is_used(page) {
            return;
        }
        self.claim(page);
    }

    /// Uses these pages, for which there are frames.
    fn use_all(&mut self, first: usize, count: usize)
        requires few { first + count ≤ 1048576 }
        requires within { first + count ≤ length self.old.table }
        requires room { used_count (claimed (used_in self.old.table) first count) ≤ self.old.room }
        ensures memory { memory_in self.new.table self.new.frames ≡ memory_in self.old.table self.old.frames }
        ensures used { used_in self.new.table ≡ claimed (used_in self.old.table) first count }
        ensures room { self.new.room ≡ self.old.room }
    {
        for k in 0..count {
            self.use_page(first + k);
        }
    }

    /// Uses these pages; false, and nothing changes, where there are fewer frames than pages would be used.
    #[tactic(auto, using(crate::proofs::ClaimLemmas::paging_count))]
    pub fn claim_all(&mut self, first: usize, count: usize) -> bool
        requires few { first + count ≤ 1048576 }
        requires within { first + count ≤ length self.old.table }
        ensures answer { result ≡ nat_le (used_count (claimed (used_in self.old.table) first count)) self.old.room }
        ensures memory { memory_in self.new.table self.new.frames ≡ memory_in self.old.table self.old.frames }
        ensures used { result ≡ true → used_in self.new.table ≡ claimed (used_in self.old.table) first count }
        ensures room { self.new.room ≡ self.old.room }
        ensures same { result ≡ false → self.new ≡ self.old }
    {
        if self.fresh(first, count) > self.room - self.used {
            return false;
        }
        self.use_all(first, count);
        true
    }

    /// No pages yet.
    pub fn none(alloc: Global) -> Pages
        ensures table { result.table ≡ [] }
        ensures room { result.room ≡ 0 }
    {
        Pages {
            table: Table::none(alloc),
            frames: Frames::none(alloc),
            used: 0,
            room: 0,
        }
    }

    /// The pages of so many parts of the table, none of them used, and this many frames.
    pub fn make(alloc: Global, parts: usize, room: u32) -> Result<Pages, NoMemory>
        requires parts { parts ≤ 256 }
        requires room { room ≤ 65536 }
        ensures table { IfOk result (λ made. IsUnused made.table (4096 * parts)) }
        ensures room { IfOk result (λ made. made.room ≡ room) }
    {
        let table = Table::make(alloc, parts)?;
        let frames = Frames::make(alloc, room)?;
        Ok(Pages {
            table,
            frames,
            used: 0,
            room,
        })
    }
}
