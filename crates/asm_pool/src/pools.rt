//! The literal pools of an area.

ghost use Rattle.std.specs.Prelude.{◌≡◌, ◌≤◌, ◌<◌, ◌+◌, ◌*◌, ◌%◌, ◌^◌, [], ◌++◌, length, drop, slice_get, IfOk, OnOk, OnErr};
ghost use Rattle.asm_pool.specs.Pooled as pooled;
ghost use Rattle.asm_pool.specs.Index.{offsets_from};

use crate::index::{add, find, forget};
use asm_model::Value;
use sdt_fault::NoMemory;
use std::alloc::Global;
use std::collections::BTreeMap;
use std::marker::Model;

/// The literals that an area loads from its pools. Equal literals share an entry between one pool and the next.
#[derive(Drop)]
pub struct Pools {
    alloc: Global,
    /// Those of all entries, by their numbers.
    literals: Vec<Value>,
    /// Those of the entries that are placed, which come first.
    offsets: Vec<u32>,
    /// The numbers of the entries that wait for the next pool.
    index: BTreeMap<Value, u32>,
}

impl Model for Pools {
    ghost use Rattle.asm_pool.specs.Pooled.{Pooled};

    ghost Value = { Pooled };

    ghost use Rattle.asm_pool.specs.Index.{pooled, IsKept};

    ghost view = { λ a. pooled a.literals.items a.offsets.items };

    ghost invariant = { λ a. IsKept a.literals.items a.offsets.items a.index };
}

/// The offsets of words, one for each literal.
fn offsets_of(alloc: Global, offset: u32, literals: &[Value]) -> Result<Vec<u32>, NoMemory>
    requires { offset + 4 * length literals.now < 2 ^ 32 }
    ensures { IfOk result (λ offsets. offsets.items ≡ offsets_from offset literals.now) }
{
    let mut offsets = Vec::with_capacity(alloc, literals.len())?;
    let mut at = offset;
    'literals: for _literal in literals {
        offsets.push(at)?;
        at += 4;
    }
    Ok(offsets)
}

/// The offsets of the literals that have none, from an offset on. An `Err` changes nothing.
fn place(
    alloc: Global,
    literals: &[Value],
    offsets: &mut Vec<u32>,
    offset: u32,
) -> Result<(), NoMemory>
    requires within { length offsets.old.items ≤ length literals.now }
    requires room { offset + 4 * length literals.now < 2 ^ 32 }
    ensures ok { OnOk result (offsets.new.items
        ≡ offsets.old.items ++ offsets_from offset (drop (length offsets.old.items) literals.now)) }
    ensures err { OnErr result (offsets.new.items ≡ offsets.old.items) }
{
    let waiting = &literals[offsets.len()..];
    let more = offsets_of(alloc, offset, waiting)?;
    offsets.extend_from_slice(more.as_slice())?;
    Ok(())
}

fn offset_at(offsets: &[u32], entry: u32) -> Option<u32>
    ensures { result ≡ slice_get offsets.now entry }
{
    offsets.get(entry as usize).copied()
}

impl Pools {
    /// The empty pools of one area. The allocator is kept for `note` and `flush`.
    pub fn new(alloc: Global) -> Pools
        ensures { result ≡ record { placed = []; waiting = [] } }
    {
        Pools {
            alloc,
            literals: Vec::new(alloc),
            offsets: Vec::new(alloc),
            index: BTreeMap::new(alloc),
        }
    }

    /// The number of a literal's entry.
    pub fn note(&mut self, literal: &Value) -> Result<u32, NoMemory>
        requires { length self.old.placed + length self.old.waiting < 2 ^ 24 }
        ensures ok { IfOk result (λ number. (number, self.new)
            ≡ pooled.noted literal.now self.old) }
        ensures err { OnErr result (self.new ≡ self.old) }
    {
        match find(&self.index, literal) {
            Some(number) => Ok(number),
            None => {
                let number = self.literals.len() as u32;
                let literals = &mut self.literals;
                add(self.alloc, literals, &mut self.index, literal, number)?;
                Ok(number)
            }
        }
    }

    /// A pool with the entries that wait, one word each, from an offset on.
    pub fn flush(&mut self, offset: u32) -> Result<(), NoMemory>
        requires aligned { offset % 4 ≡ 0 }
        requires low { offset ≤ 2 ^ 24 }
        ensures ok { OnOk result (self.new ≡ pooled.flushed offset self.old) }
        ensures err { OnErr result (self.new ≡ self.old) }
    {
        let literals = self.literals.as_slice();
        place(self.alloc, literals, &mut self.offsets, offset)?;
        forget(&mut self.index);
        Ok(())
    }

    /// The offset of an entry that is placed.
    pub fn place_of(&self, entry: u32) -> Option<u32>
        ensures { result ≡ pooled.place_of entry self.now }
    {
        offset_at(self.offsets.as_slice(), entry)
    }

    /// How many entries there are.
    pub fn len(&self) -> u32
        ensures count { result ≡ length self.now.placed + length self.now.waiting }
        ensures few { result ≤ 2 ^ 24 }
    {
        self.literals.len() as u32
    }

    /// The literals of all entries, by their numbers.
    pub fn literals(&self) -> &[Value]
        ensures { result.now ≡ pooled.literals_of self.now }
    {
        self.literals.as_slice()
    }

    /// The offsets of the entries that are placed, by their numbers.
    pub fn offsets(&self) -> &[u32]
        ensures { result.now ≡ pooled.offsets_of self.now }
    {
        self.offsets.as_slice()
    }

    /// How many entries wait for the next pool.
    pub fn waiting(&self) -> u32
        ensures { result ≡ length self.now.waiting }
    {
        (self.literals.len() - self.offsets.len()) as u32
    }
}
