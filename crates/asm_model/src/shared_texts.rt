//! Texts that share their bytes.

ghost use Rattle.std.specs.Prelude.{◌≡◌, ◌≤◌, ◌<◌, ◌-◌, ◌^◌, ℕ, List, length, nat_eq, refl, take, drop, IfOk, Some};
ghost use Rattle.std.proofs.Common.{rules};
ghost use Rattle.std.specs.Ordering.{nat_cmp};
ghost use Rattle.std.specs.Hash as fed;
ghost use Rattle.std.specs.Cmp.{on_equiv, on_total, on_po, on_per, partial_equiv_from_equiv};
ghost use Rattle.std.specs.Cmp.Lexicographic.{pointwise, slice_cmp, nat_list_eq_equiv, nat_list_cmp_total, texts_ties, texts_po};
ghost use Rattle.std.specs.Cmp.Rules.{hashing};

use sdt_fault::{Bytes, NoMemory, Text};
use std::alloc::Global;
use std::cmp::Ordering;
use std::hash::{Hash, Hasher};
use std::marker::Model;
use std::rc::Rc;

/// A line or a name: a part of a text whose bytes its copies and parts share.
#[derive(Drop)]
pub struct SharedText {
    whole: Rc<Bytes>,
    start: u32,
    end: u32,
    ghost within: { (start ≤ end) × (end ≤ length whole.value) × (end < 2 ^ 32) },
}

impl Model for SharedText {
    ghost Value = { List ℕ };

    ghost view = { λ text. take (text.end - text.start) (drop text.start text.whole.value) };
}

impl SharedText {
    /// Takes the bytes, with no copy. 2^32 bytes or more count as want of memory.
    pub fn from_vec(alloc: Global, bytes: Vec<u8>) -> Result<SharedText, NoMemory>
        ensures { IfOk result (λ text. text ≡ bytes.items) }
    {
        let len = bytes.len();
        if len > 0xFFFF_FFFF {
            return Err(NoMemory);
        }
        let whole = Rc::new(alloc, Bytes::from_vec(bytes))?;
        Ok(SharedText {
            whole,
            start: 0,
            end: len as u32,
        })
    }

    /// Copies the bytes. 2^32 bytes or more count as want of memory.
    pub fn from_slice(alloc: Global, bytes: &[u8]) -> Result<SharedText, NoMemory>
        ensures { IfOk result (λ text. text ≡ bytes.now) }
    {
        SharedText::from_vec(alloc, Vec::from_slice(alloc, bytes)?)
    }

    /// The same text, shared.
    pub fn share(&self) -> Result<SharedText, NoMemory>
        ensures { IfOk result (λ text. text ≡ self.now) }
    {
        Ok(SharedText {
            whole: self.whole.clone()?,
            start: self.start,
            end: self.end,
        })
    }

    /// The bytes from a place up to another, shared.
    pub fn part(&self, from: usize, to: usize) -> Result<SharedText, NoMemory>
        requires { (from ≤ to) × (to ≤ length self.now) }
        ensures { IfOk result (λ text. text ≡ take (to - from) (drop from self.now)) }
    {
        Ok(SharedText {
            whole: self.whole.clone()?,
            start: self.start + from as u32,
            end: self.start + to as u32,
        })
    }

    /// The bytes.
    pub fn as_slice(&self) -> &[u8]
        ensures { result.now ≡ self.now }
    {
        &self.whole.as_slice()[self.start as usize..self.end as usize]
    }

    /// A copy of its own.
    pub fn to_text(&self, alloc: Global) -> Result<Text, NoMemory>
        ensures { IfOk result (λ text. text ≡ self.now) }
    {
        Text::from_slice(alloc, self.as_slice())
    }
}

impl PartialEq for SharedText {
    ghost eq = { pointwise nat_eq };

    ghost laws = { partial_equiv_from_equiv nat_list_eq_equiv };

    fn eq(&self, other: &SharedText) -> bool {
        self.as_slice() == other.as_slice()
    }
}

impl Eq for SharedText {
    ghost laws = { nat_list_eq_equiv };
}

impl PartialOrd for SharedText {
    ghost partial_cmp = { λ a b. Some (slice_cmp nat_cmp a b) };

    ghost laws = { texts_po };

    fn partial_cmp(&self, other: &SharedText) -> Option<Ordering> {
        Some(self.cmp(other))
    }
}

impl Ord for SharedText {
    ghost cmp = { slice_cmp nat_cmp };

    ghost total = { nat_list_cmp_total };

    ghost matches_partial_cmp = { λ a b. refl };

    ghost matches_eq = { texts_ties };

    fn cmp(&self, other: &SharedText) -> Ordering {
        self.as_slice().cmp(&other.as_slice())
    }
}

impl Hash for SharedText {
    ghost hash_input = { fed.slice fed.u8 };

    ghost respects_eq = { Prim.search (hashing, rules) };

    fn hash<H: Hasher>(&self, state: &mut H) {
        self.as_slice().hash(state);
    }
}
