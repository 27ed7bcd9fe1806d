//! One block of the allocator's memory, which is reached through a raw pointer.

ghost use Rattle.std.specs.Prelude.{◌≡◌, ℕ, ◌<◌, ◌≤◌, ◌+◌, ◌-◌, ◌^◌, List, [], ◌∷◌, ◌++◌, length, take, drop, slice_index, slice_set, IfSome};
ghost use Rattle.std.specs.Prelude.{replicate, IfOk};
ghost use Rattle.std.specs.Option.{ForSome};
ghost use denote.RawPtr.{Ptr};
ghost use Rattle.sdt_word.specs.Bytes.{bytes_of, half_in, word_in, written};
ghost use Rattle.arm7_bus.specs.Blocks.{cells_own, cells_lent, lease_owns};

use sdt_fault::NoMemory;
use sdt_word::{half_at, word_at};
use std::alloc::{Allocator, Global};
use std::marker::{Model, PhantomData};
use std::ptr::null_mut;
use std::{fmt, slice};

/// Room for bytes, of which the first ones are made. There is memory at `at` unless the room is 0.
#[derive(Drop)]
pub(crate) struct Cells {
    at: *mut u8,
    room: usize,
    pub ghost bytes: { List ℕ },
    ghost fits: { (length bytes ≤ room) × (room < 2 ^ 63) },
}

impl Model for Cells {
    ghost also_owns = { λ c. cells_own c.at c.room c.bytes };

    ghost also_shares = { λ c _ κ. cells_lent c.at c.room c.bytes κ };
}

/// The right to give the memory of cells back to its allocator.
#[derive(Drop)]
pub(crate) struct Lease<A: Allocator> {
    marker: PhantomData<A>,
    ghost alloc: { A },
    ghost at: { Ptr },
    ghost room: { ℕ },
}

impl<A: Allocator> Model for Lease<A> {
    ghost also_owns = { λ l. lease_owns (A.dealloc_token l.alloc) l.at l.room };
}

impl Cells {
    /// No room, and no block.
    fn none() -> Cells
        ensures { (result.room ≡ 0) × (result.bytes ≡ []) }
    {
        Cells {
            at: null_mut(),
            room: 0,
        }
    }

    /// Room for this many bytes, none of which is made.
    fn new<A: Allocator>(alloc: &A, room: usize) -> Option<(Cells, Lease<A>)>
        requires { room < 2 ^ 63 }
        ensures { IfSome result (λ m. (m.0.room ≡ room) × (m.0.bytes ≡ []) × (m.1.alloc ≡ alloc.now) × (m.1.at ≡ m.0.at) × (m.1.room ≡ room)) }
    {
        match alloc.allocate(room, 1) {
            Ok(at) => {
                let marker = PhantomData;
                Some((Cells { at, room }, Lease { marker }))
            }
            Err(_) => None,
        }
    }

    /// Gives the block back.
    fn free<A: Allocator>(self, lease: Lease<A>, alloc: &A)
        requires some { 0 < self.room }
        requires same { (lease.alloc ≡ alloc.now) × (lease.at ≡ self.at) × (lease.room ≡ self.room) }
    {
        let Cells { at, room } = self;
        let Lease { marker: _ } = lease;
        unsafe { alloc.deallocate(at, room, 1) }
    }

    #[inline(always)]
    fn read(&self, i: usize) -> u8
        requires { i < length self.now.bytes }
        ensures { result ≡ slice_index self.now.bytes i }
    {
        unsafe { *self.at.add(i) }
    }

    #[inline(always)]
    fn write(&mut self, i: usize, v: u8)
        requires { i < length self.old.bytes }
        ensures { (self.new.bytes ≡ slice_set self.old.bytes i v) × (self.new.at ≡ self.old.at) × (self.new.room ≡ self.old.room) }
    {
        unsafe { *self.at.add(i) = v };
    }

    /// Sets two bytes, through one pointer, so that they are one store.
    #[inline(always)]
    fn write_two(&mut self, i: usize, a: u8, b: u8)
        requires { i + 2 ≤ length self.old.bytes }
        ensures { (self.new.bytes ≡ slice_set (slice_set self.old.bytes i a) (i + 1) b) × (self.new.at ≡ self.old.at) × (self.new.room ≡ self.old.room) }
    {
        unsafe {
            let at = self.at.add(i);
            *at = a;
            *at.add(1) = b;
        }
    }

    /// Sets four bytes, through one pointer, so that they are one store.
    #[inline(always)]
    fn write_four(&mut self, i: usize, a: u8, b: u8, c: u8, d: u8)
        requires { i + 4 ≤ length self.old.bytes }
        ensures { (self.new.bytes ≡ slice_set (slice_set (slice_set (slice_set self.old.bytes i a) (i + 1) b) (i + 2) c) (i + 3) d) × (self.new.at ≡ self.old.at) × (self.new.room ≡ self.old.room) }
    {
        unsafe {
            let at = self.at.add(i);
            *at = a;
            *at.add(1) = b;
            *at.add(2) = c;
            *at.add(3) = d;
        }
    }

    /// Sets sixteen bytes, through one pointer, so that they are one store.
    #[inline(always)]
    fn write_sixteen(
        &mut self,
        start: usize,
        a: u8,
        b: u8,
        c: u8,
        d: u8,
        e: u8,
        f: u8,
        g: u8,
        h: u8,
        i: u8,
        j: u8,
        k: u8,
        l: u8,
        m: u8,
        n: u8,
        o: u8,
        p: u8,
    )
        requires { start + 16 ≤ length self.old.bytes }
        ensures { (self.new.bytes ≡ written self.old.bytes start (a ∷ b ∷ c ∷ d ∷ e ∷ f ∷ g ∷ h ∷ i ∷ j ∷ k ∷ l ∷ m ∷ n ∷ o ∷ p ∷ [])) × (self.new.at ≡ self.old.at) × (self.new.room ≡ self.old.room) }
    {
        unsafe {
            let at = self.at.add(start);
            *at = a;
            *at.add(1) = b;
            *at.add(2) = c;
            *at.add(3) = d;
            *at.add(4) = e;
            *at.add(5) = f;
            *at.add(6) = g;
            *at.add(7) = h;
            *at.add(8) = i;
            *at.add(9) = j;
            *at.add(10) = k;
            *at.add(11) = l;
            *at.add(12) = m;
            *at.add(13) = n;
            *at.add(14) = o;
            *at.add(15) = p;
        }
    }

    /// Makes the next byte.
    #[inline(always)]
    fn push(&mut self, i: usize, v: u8)
        requires next { i ≡ length self.old.bytes }
        requires room { i < self.old.room }
        ensures { (self.new.bytes ≡ self.old.bytes ++ v ∷ []) × (self.new.at ≡ self.old.at) × (self.new.room ≡ self.old.room) }
    {
        unsafe { self.at.add(i).write(v) };
    }

    /// Makes the next `n` bytes behind those that are made, as zeros.
    #[tactic(auto, using(crate::proofs::WriteLemmas::zero_more))]
    fn add_zeros(&mut self, made: usize, n: usize)
        requires next { made ≡ length self.old.bytes }
        requires room { made + n ≤ self.old.room }
        ensures bytes { self.new.bytes ≡ self.old.bytes ++ replicate n 0 }
        ensures place { (self.new.at ≡ self.old.at) × (self.new.room ≡ self.old.room) }
    {
        for k in 0..n {
            self.push(made + k, 0);
        }
    }

    /// The `n` bytes from `i` on.
    #[inline(always)]
    fn slice(&self, i: usize, n: usize) -> &[u8]
        requires some { i < length self.now.bytes }
        requires within { i + n ≤ length self.now.bytes }
        ensures { result.now ≡ take n (drop i self.now.bytes) }
    {
        unsafe { slice::from_raw_parts(self.at.add(i), n) }
    }
}

/// One block of memory for bytes, of which the first ones are made; the others hold nothing yet. Without room
/// there is no block. Its drop gives it back.
pub(crate) struct Block {
    pub(crate) cells: Cells,
    lease: Option<Lease<Global>>,
    alloc: Global,
    made: usize,
    ghost counted: { made ≡ length cells.bytes },
    ghost owned: { ForSome lease (λ l. (0 < cells.room) × (l.alloc ≡ alloc) × (l.at ≡ cells.at) × (l.room ≡ cells.room)) },
}

impl fmt::Debug for Block {
    fn fmt<W: fmt::Write>(&self, f: &mut fmt::Formatter<W>) -> fmt::Result {
        f.write_str("Block")
    }
}

impl Drop for Block {
    fn drop(self) {
        let Block {
            cells,
            lease,
            alloc,
            made: _,
        } = self;
        match lease {
            Some(lease) => cells.free(lease, &alloc),
            None => drop(cells),
        }
    }
}

impl Block {
    /// No room.
    pub(crate) fn none(alloc: Global) -> Block
        ensures { (result.cells.room ≡ 0) × (result.cells.bytes ≡ []) }
    {
        Block {
            cells: Cells::none(),
            lease: None,
            alloc,
            made: 0,
        }
    }

    /// Room for this many bytes, none of which is made.
    pub(crate) fn make(alloc: Global, room: usize) -> Result<Block, NoMemory>
        requires { room < 2 ^ 63 }
        ensures { IfOk result (λ block. (block.cells.room ≡ room) × (block.cells.bytes ≡ [])) }
    {
        if room == 0 {
            return Ok(Block::none(alloc));
        }
        match Cells::new(&alloc, room) {
            Some((cells, lease)) => Ok(Block {
                cells,
                lease: Some(lease),
                alloc,
                made: 0,
            }),
            None => Err(NoMemory),
        }
    }

    /// How many bytes are made.
    #[inline(always)]
    pub(crate) fn len(&self) -> usize
        ensures { result ≡ length self.now.cells.bytes }
    {
        self.made
    }

    /// Each byte is below 256, as bytes are.
    pub(crate) fn are_bytes(&self)
        ensures { (k : ℕ) → slice_index self.now.cells.bytes k < 256 }
    {
        if self.made > 0 {
            each_fits(self.cells.slice(0, self.made));
        }
    }

    #[inline(always)]
    pub(crate) fn read_byte(&self, at: usize) -> u8
        requires { at < length self.now.cells.bytes }
        ensures { result ≡ slice_index self.now.cells.bytes at }
    {
        self.cells.read(at)
    }

    #[inline(always)]
    pub(crate) fn read_half(&self, at: usize) -> u16
        requires { at + 2 ≤ length self.now.cells.bytes }
        ensures { result ≡ half_in self.now.cells.bytes at }
    {
        half_at(self.cells.slice(at, 2), 0)
    }

    #[inline(always)]
    pub(crate) fn read_word(&self, at: usize) -> u32
        requires { at + 4 ≤ length self.now.cells.bytes }
        ensures { result ≡ word_in self.now.cells.bytes at }
    {
        word_at(self.cells.slice(at, 4), 0)
    }

    /// The `n` bytes from a place on.
    #[inline(always)]
    pub(crate) fn slice(&self, at: usize, n: usize) -> &[u8]
        requires some { at < length self.now.cells.bytes }
        requires within { at + n ≤ length self.now.cells.bytes }
        ensures { result.now ≡ take n (drop at self.now.cells.bytes) }
    {
        self.cells.slice(at, n)
    }

    #[inline(always)]
    pub(crate) fn write_byte(&mut self, at: usize, v: u8)
        requires { at < length self.old.cells.bytes }
        ensures bytes { self.new.cells.bytes ≡ slice_set self.old.cells.bytes at v }
        ensures count { length self.new.cells.bytes ≡ length self.old.cells.bytes }
        ensures room { self.new.cells.room ≡ self.old.cells.room }
    {
        self.cells.write(at, v);
    }

    #[inline(always)]
    pub(crate) fn write_half(&mut self, at: usize, v: u16)
        requires { at + 2 ≤ length self.old.cells.bytes }
        ensures bytes { self.new.cells.bytes ≡ written self.old.cells.bytes at (bytes_of v 2) }
        ensures count { length self.new.cells.bytes ≡ length self.old.cells.bytes }
        ensures room { self.new.cells.room ≡ self.old.cells.room }
    {
        self.cells
            .write_two(at, (v % 256) as u8, (v / 256 % 256) as u8);
    }

    #[inline(always)]
    pub(crate) fn write_word(&mut self, at: usize, v: u32)
        requires { at + 4 ≤ length self.old.cells.bytes }
        ensures bytes { self.new.cells.bytes ≡ written self.old.cells.bytes at (bytes_of v 4) }
        ensures count { length self.new.cells.bytes ≡ length self.old.cells.bytes }
        ensures room { self.new.cells.room ≡ self.old.cells.room }
    {
        self.cells.write_four(
            at,
            (v % 256) as u8,
            (v / 256 % 256) as u8,
            (v / 256 / 256 % 256) as u8,
            (v / 256 / 256 / 256 % 256) as u8,
        );
    }

    /// Sets four words, one behind the other.
    #[inline(always)]
    pub(crate) fn write_words(&mut self, at: usize, a: u32, b: u32, c: u32, d: u32)
        requires { at + 16 ≤ length self.old.cells.bytes }
        ensures bytes { self.new.cells.bytes ≡ written self.old.cells.bytes at (bytes_of a 4 ++ (bytes_of b 4 ++ (bytes_of c 4 ++ bytes_of d 4))) }
        ensures count { length self.new.cells.bytes ≡ length self.old.cells.bytes }
        ensures room { self.new.cells.room ≡ self.old.cells.room }
    {
        self.cells.write_sixteen(
            at,
            (a % 256) as u8,
            (a / 256 % 256) as u8,
            (a / 256 / 256 % 256) as u8,
            (a / 256 / 256 / 256 % 256) as u8,
            (b % 256) as u8,
            (b / 256 % 256) as u8,
            (b / 256 / 256 % 256) as u8,
            (b / 256 / 256 / 256 % 256) as u8,
            (c % 256) as u8,
            (c / 256 % 256) as u8,
            (c / 256 / 256 % 256) as u8,
            (c / 256 / 256 / 256 % 256) as u8,
            (d % 256) as u8,
            (d / 256 % 256) as u8,
            (d / 256 / 256 % 256) as u8,
            (d / 256 / 256 / 256 % 256) as u8,
        );
    }

    /// Makes the next `n` bytes, as zeros.
    pub(crate) fn add_zeros(&mut self, n: usize)
        requires { length self.old.cells.bytes + n ≤ self.old.cells.room }
        ensures bytes { self.new.cells.bytes ≡ self.old.cells.bytes ++ replicate n 0 }
        ensures room { self.new.cells.room ≡ self.old.cells.room }
    {
        let made = self.made;
        self.made = made + n;
        self.cells.add_zeros(made, n);
    }
}

fn each_fits(bytes: &[u8])
    ensures { (k : ℕ) → slice_index bytes.now k < 256 }
{
    let _first = bytes.first();
}
