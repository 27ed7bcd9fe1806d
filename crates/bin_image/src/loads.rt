//! The load lines of a map, with an index of their ranges.

ghost use Rattle.std.specs.Prelude.{◌≡◌, ℕ, ◌∷◌, ◌++◌, [], if◌then◌else◌, None, Some, IfOk, option_map};
ghost use Rattle.std.specs.List.{list_any};
ghost use Rattle.std.specs.Ordering.{nat_cmp};
ghost use Rattle.std.specs.BTreeMap.{get};
ghost use Rattle.bin_image.specs.Ranges.{IsIndexed, IsLastBefore, meets, with_end};

use crate::records::MapLoad;
use sdt_fault::NoMemory;
use std::alloc::Global;
use std::collections::BTreeMap;

/// Load lines in their order, of which no two share an address.
#[derive(Drop)]
pub struct Loads {
    pub lines: Vec<MapLoad>,
    /// For the base of each range that has bytes the address behind its last byte.
    ends: BTreeMap<u64, u64>,
    ghost indexed: { IsIndexed (get nat_cmp ends) lines.items },
}

/// The end of the range that begins last before an address.
fn end_before(ends: &BTreeMap<u64, u64>, address: u64) -> Option<u64>
    ensures { IsLastBefore (get nat_cmp ends.now) address result }
{
    match ends.range(..address).next_back() {
        Some((_, end)) => Some(*end),
        None => None,
    }
}

/// The index with one more line.
fn noted(ends: BTreeMap<u64, u64>, load: &MapLoad) -> Result<BTreeMap<u64, u64>, NoMemory>
    ensures { IfOk result (λ more. (q : ℕ) → get nat_cmp more q ≡ with_end (get nat_cmp ends) load.now q) }
{
    let mut more = ends;
    if load.size > 0 {
        let base = u64::from(load.base);
        more.insert(base, base + u64::from(load.size))?;
    }
    Ok(more)
}

impl Loads {
    pub fn new(alloc: Global) -> Loads
        ensures { result.lines.items ≡ [] }
    {
        Loads {
            lines: Vec::new(alloc),
            ends: BTreeMap::new(alloc),
        }
    }

    /// Whether a line shares an address with one of these, of which only that can which begins last before its end.
    #[tactic(auto, using(crate::proofs::RangeLemmas::none_meets_empty, crate::proofs::RangeLemmas::none_meets_first, crate::proofs::RangeLemmas::last_meets))]
    fn meets(&self, load: &MapLoad) -> bool
        ensures { result ≡ list_any (λ k. meets k load.now) self.now.lines.items }
    {
        if load.size == 0 {
            return false;
        }
        let base = u64::from(load.base);
        match end_before(&self.ends, base + u64::from(load.size)) {
            Some(end) => base < end,
            None => false,
        }
    }

    /// With one more line; None where it shares an address with an earlier one.
    #[tactic(auto, using(crate::proofs::RangeLemmas::with_more))]
    pub fn with(self, load: MapLoad) -> Result<Option<Loads>, NoMemory>
        ensures { IfOk result (λ more. option_map (λ l. l.lines.items) more
            ≡ (if list_any (λ k. meets k load) self.lines.items then None else Some (self.lines.items ++ load ∷ []))) }
    {
        if self.meets(&load) {
            return Ok(None);
        }
        let Loads { lines, ends } = self;
        let ends = noted(ends, &load)?;
        let mut lines = lines;
        lines.push(load)?;
        Ok(Some(Loads { lines, ends }))
    }

    /// The lines in their order.
    pub fn into_lines(self) -> Vec<MapLoad>
        ensures { result ≡ self.lines }
    {
        let Loads { lines, ends: _ } = self;
        lines
    }
}
