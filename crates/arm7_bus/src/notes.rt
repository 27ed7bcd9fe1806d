//! The stores since the last tick.

ghost use Rattle.std.specs.Prelude.{◌≡◌, ◌<◌, ◌≤◌, ◌+◌, ◌%◌, ◌∷◌, [], ◌++◌, length, map, take};
ghost use Rattle.sdt_word.specs.Codes.{bytes_in};
ghost use Rattle.arm7_bus.specs.Picks.{word_places};
ghost use Rattle.arm7_bus.specs.Places.{place_of};

use sdt_word::{Range32, Width};

/// The first `count` ranges of the list, in order.
#[derive(Clone, Copy)]
pub struct Stores {
    pub list: [Range32; 16],
    pub count: u32,
    pub ghost few: { count ≤ 16 },
}

/// The first `count` ranges of the list, in order, and behind them the `run` words from `run_at` on: a block's words are noted
/// by two numbers.
#[derive(Clone, Copy)]
pub struct Notes {
    pub list: [Range32; 16],
    pub count: u32,
    pub run_at: u32,
    pub run: u32,
    pub ghost few: { count + run ≤ 16 },
    pub ghost aligned: { run_at % 4 ≡ 0 },
}

impl Notes {
    ghost use Rattle.arm7_bus.specs.Notes.{noted_in};

    #[tactic(auto, unfolding(crate::specs::Notes::noted_in))]
    pub fn none() -> Notes
        ensures { noted_in result ≡ [] }
    {
        Notes {
            list: [Range32 { base: 0, size: 0 }; 16],
            count: 0,
            run_at: 0,
            run: 0,
        }
    }

    /// All stores, as ranges.
    #[tactic(auto, unfolding(crate::specs::Notes::noted_in))]
    pub fn ranges(&self) -> Stores
        ensures stores { map place_of (take result.count result.list) ≡ noted_in self.now }
        ensures count { result.count ≡ self.now.count + self.now.run }
    {
        let mut list = self.list;
        put_ranges(&mut list, self.count, self.run_at, self.run);
        Stores {
            list,
            count: self.count + self.run,
        }
    }

    /// Puts the words of the run into the list.
    #[inline(never)]
    #[tactic(auto, unfolding(crate::specs::Notes::noted_in), using(crate::proofs::NoteLemmas::noted_count, crate::proofs::NoteLemmas::listed_alone))]
    fn list_run(&mut self)
        ensures same { noted_in self.new ≡ noted_in self.old }
        ensures none { self.new.run ≡ 0 }
    {
        let Stores { list, count } = self.ranges();
        self.list = list;
        self.count = count;
        self.run = 0;
    }

    /// Adds the range of an access where there is no run.
    #[inline(always)]
    #[tactic(auto, unfolding(crate::specs::Notes::noted_in), using(crate::proofs::NoteLemmas::noted_count, crate::proofs::NoteLemmas::listed_alone))]
    fn put(&mut self, a: u32, width: Width)
        requires aligned { a % bytes_in width ≡ 0 }
        requires few { length (noted_in self.old) < 16 }
        requires none { self.old.run ≡ 0 }
        ensures { noted_in self.new ≡ noted_in self.old ++ (a, bytes_in width) ∷ [] }
    {
        self.list[self.count as usize] = access_range(a, width);
        self.count += 1;
    }

    #[inline(never)]
    fn put_behind(&mut self, a: u32, width: Width)
        requires aligned { a % bytes_in width ≡ 0 }
        requires few { length (noted_in self.old) < 16 }
        ensures { noted_in self.new ≡ noted_in self.old ++ (a, bytes_in width) ∷ [] }
    {
        self.list_run();
        self.put(a, width);
    }

    /// Adds the range of an access.
    #[inline(always)]
    pub fn note(&mut self, a: u32, width: Width)
        requires aligned { a % bytes_in width ≡ 0 }
        requires few { length (noted_in self.old) < 16 }
        ensures { noted_in self.new ≡ noted_in self.old ++ (a, bytes_in width) ∷ [] }
    {
        if self.run > 0 {
            self.put_behind(a, width);
            return;
        }
        self.put(a, width);
    }

    /// Adds the ranges of `n` words from an address on where there is no run.
    #[inline(always)]
    #[tactic(auto, unfolding(crate::specs::Notes::noted_in), using(crate::proofs::NoteLemmas::noted_count, crate::proofs::NoteLemmas::listed_alone))]
    fn put_words(&mut self, a: u32, n: u32)
        requires aligned { a % 4 ≡ 0 }
        requires left { length (noted_in self.old) + n ≤ 16 }
        requires none { self.old.run ≡ 0 }
        ensures { noted_in self.new ≡ noted_in self.old ++ word_places a n }
    {
        self.run_at = a;
        self.run = n;
    }

    #[inline(never)]
    fn put_words_behind(&mut self, a: u32, n: u32)
        requires aligned { a % 4 ≡ 0 }
        requires left { length (noted_in self.old) + n ≤ 16 }
        ensures { noted_in self.new ≡ noted_in self.old ++ word_places a n }
    {
        self.list_run();
        self.put_words(a, n);
    }

    /// Adds the ranges of `n` words from an address on.
    #[inline(always)]
    pub fn note_words(&mut self, a: u32, n: u32)
        requires aligned { a % 4 ≡ 0 }
        requires left { length (noted_in self.old) + n ≤ 16 }
        ensures { noted_in self.new ≡ noted_in self.old ++ word_places a n }
    {
        if self.run > 0 {
            self.put_words_behind(a, n);
            return;
        }
        self.put_words(a, n);
    }

    #[inline(always)]
    #[tactic(auto, unfolding(crate::specs::Notes::noted_in))]
    pub fn forget(&mut self)
        ensures { noted_in self.new ≡ [] }
    {
        self.count = 0;
        self.run = 0;
    }
}

/// Puts the range of a word at a place of a list.
#[inline(always)]
fn put_range(list: &mut [Range32; 16], at: u32, a: u32)
    requires aligned { a % 4 ≡ 0 }
    requires few { at < 16 }
    ensures { map place_of (take (at + 1) list.new) ≡ map place_of (take at list.old) ++ (a, 4) ∷ [] }
{
    list[at as usize] = access_range(a, Width::Word);
}

/// Puts the ranges of `n` words from an address on at a place of a list and behind it.
fn put_ranges(list: &mut [Range32; 16], at: u32, a: u32, n: u32)
    requires aligned { a % 4 ≡ 0 }
    requires left { at + n ≤ 16 }
    ensures { map place_of (take (at + n) list.new) ≡ map place_of (take at list.old) ++ word_places a n }
{
    if n == 0 {
        return;
    }
    put_range(list, at, a);
    put_ranges(list, at + 1, a.wrapping_add(4), n - 1);
}

#[inline(always)]
fn access_range(a: u32, width: Width) -> Range32
    requires { a % bytes_in width ≡ 0 }
    ensures { (result.base ≡ a) × (result.size ≡ bytes_in width) }
{
    match width {
        Width::Byte => Range32 { base: a, size: 1 },
        Width::Half => Range32 { base: a, size: 2 },
        Width::Word => Range32 { base: a, size: 4 },
    }
}
