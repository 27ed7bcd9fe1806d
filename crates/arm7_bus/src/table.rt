//! The frame of each page. Entries stand in parts, each of 4,096 pages, and a part is made when one of its pages takes a frame.

ghost use Rattle.std.specs.Prelude.{◌≡◌, ℕ, ◌<◌, ◌≤◌, ◌+◌, ◌*◌, ◌^◌, [], length, Some, IfOk, slice_index, slice_set, vec_capacity};
ghost use Rattle.arm7_bus.specs.Paging.{frame_of, IsUnused};
ghost use Rattle.arm7_bus.specs.Tables.{opened, IsTable};

use sdt_fault::NoMemory;
use std::alloc::Global;
use std::marker::Model;

/// The pages of a part, which have 16 MiB of addresses.
const PART: usize = 4096;

/// The frame, or none, of each page. Contracts see it as one list.
#[derive(Drop)]
pub struct Table {
    /// Where each part's entries begin. Those of all parts that aren't made are the first ones, which stay None.
    starts: Vec<usize>,
    /// There is room for the entries of all parts, so that a part is made without an allocation.
    entries: Vec<Option<u16>>,
}

impl Model for Table {
    ghost use Rattle.std.specs.Prelude.{ℕ, List, Option, vec_capacity};
    ghost use Rattle.arm7_bus.specs.Tables.{opened, IsTable};

    ghost Value = { List (Option ℕ) };

    ghost view = { λ table. opened table.starts.items table.entries.items };

    ghost invariant = { λ table. IsTable table.starts.items table.entries.items (vec_capacity table.entries) };
}

impl Table {
    /// No pages.
    #[tactic(auto, using(crate::proofs::TableLemmas::no_table))]
    pub fn none(alloc: Global) -> Table
        ensures { result ≡ [] }
    {
        Table {
            starts: Vec::new(alloc),
            entries: Vec::new(alloc),
        }
    }

    /// The pages of so many parts, none of which has a frame.
    #[tactic(auto, using(crate::proofs::TableLemmas::table_made, crate::proofs::TableLemmas::table_unused))]
    pub fn make(alloc: Global, parts: usize) -> Result<Table, NoMemory>
        requires { parts ≤ 256 }
        ensures { IfOk result (λ table. IsUnused table (4096 * parts)) }
    {
        let mut starts = Vec::new(alloc);
        starts.resize(parts, 0)?;
        let mut entries = Vec::with_capacity(alloc, PART * (parts + 1))?;
        entries.resize(PART, None)?;
        Ok(Table { starts, entries })
    }

    /// The frame of a page.
    #[inline(always)]
    #[tactic(auto, using(crate::proofs::TableLemmas::opened_length))]
    pub fn lookup(&self, page: usize) -> Option<u16>
        requires { page < length self.now }
        ensures { result ≡ frame_of self.now page }
    {
        entry_of(&self.starts, &self.entries, page)
    }

    /// Gives a page a frame.
    #[tactic(auto, using(crate::proofs::TableLemmas::opened_length, crate::proofs::TableLemmas::table_set, crate::proofs::TableLemmas::opened_set))]
    pub fn set(&mut self, page: usize, frame: u16)
        requires { page < length self.old }
        ensures { self.new ≡ slice_set self.old page (Some frame) }
    {
        let start = start_of(&mut self.starts, &mut self.entries, page / PART);
        self.entries[start + page % PART] = Some(frame);
    }
}

/// The entry of a page.
#[inline(always)]
#[tactic(auto, using(crate::proofs::TableLemmas::opened_at))]
fn entry_of(starts: &[usize], entries: &[Option<u16>], page: usize) -> Option<u16>
    requires page { page < 4096 * length starts.now }
    requires within { (k : ℕ) → k < length starts.now → slice_index starts.now k + 4096 ≤ length entries.now }
    ensures { result ≡ frame_of (opened starts.now entries.now) page }
{
    entries[starts[page / PART] + page % PART]
}

/// Where the entries of a part begin, which is made where it isn't yet.
#[tactic(auto, using(crate::proofs::TableLemmas::room_left, crate::proofs::TableLemmas::table_more, crate::proofs::TableLemmas::opened_more))]
fn start_of(starts: &mut Vec<usize>, entries: &mut Vec<Option<u16>>, part: usize) -> usize
    requires part { part < length starts.old.items }
    requires table { IsTable starts.old.items entries.old.items (vec_capacity entries.old) }
    ensures start { result ≡ slice_index starts.new.items part }
    ensures made { 0 < result }
    ensures same { opened starts.new.items entries.new.items ≡ opened starts.old.items entries.old.items }
    ensures table { IsTable starts.new.items entries.new.items (vec_capacity entries.new) }
{
    let start = starts[part];
    if start != 0 {
        return start;
    }
    let start = entries.len();
    entries.resize(start + PART, None).unwrap();
    starts[part] = start;
    start
}
