//! The search for expressions whose names are known: each waits for one unknown name at a time, and goes on behind it.

ghost use Rattle.std.specs.Prelude.{◌≡◌, ◌+◌, ◌<◌, ◌≤◌, ◌^◌, ℕ, List, [], ◌∷◌, ◌++◌, length, drop, false, replicate, OnOk, IfOk};
ghost use Rattle.asm_names.specs.Equals.{pairs_of};
ghost use Rattle.asm_names.specs.Index.{IsIndexOf, IsWithin};
ghost use Rattle.asm_names.specs.Search.{unknown_in as unknown_number, unknown_from, items_at, starts, AreEmpty, IsReplaced, IsLonger, Looked, Kept, CanBeLookedAt};

use crate::equals::Equal;
use crate::index::{find, number_of};
use asm_model::ExprItem;
use indexmap::IndexMap;
use sdt_fault::NoMemory;
use std::alloc::Global;
use std::mem;

/// An expression that waits.
#[derive(Clone, Copy)]
pub struct Waiting {
    /// Its number.
    pub equal: u32,
    /// The place among its items up to which its names are known.
    pub item: usize,
}

/// A name that is not known.
#[derive(Clone, Copy)]
pub struct Unknown {
    pub number: u32,
    /// The place of the item that mentions it.
    pub item: usize,
}

/// How far the search has come. Names stand at the numbers of their first expressions.
#[derive(Drop)]
pub struct Progress {
    pub known: Vec<bool>,
    /// What waits for each name.
    pub waits: Vec<Vec<Waiting>>,
    /// The expressions whose names are known.
    pub places: Vec<u32>,
    /// How many of these have made their own names known.
    pub done: usize,
}

/// The number of the name that an item mentions, where it is not known.
fn unknown_in(index: &IndexMap<&[u8], u32>, known: &[bool], item: &ExprItem) -> Option<u32>
    requires { IsWithin index.now (length known.now) }
    ensures { result ≡ unknown_number index.now known.now item.now }
{
    let ExprItem::Name(name) = item else {
        return None;
    };
    let Some(number) = find(index, name) else {
        return None;
    };
    if known[number as usize] {
        return None;
    }
    Some(number)
}

/// The first unknown name among items, from a place on.
fn next_unknown(
    index: &IndexMap<&[u8], u32>,
    known: &[bool],
    items: &[ExprItem],
    from: usize,
) -> Option<Unknown>
    requires within { IsWithin index.now (length known.now) }
    requires from { from ≤ length items.now }
    ensures { result ≡ unknown_from index.now known.now from (drop from items.now) }
{
    let mut item = from;
    'items: while item < items.len() {
        if let Some(number) = unknown_in(index, known, &items[item]) {
            return Some(Unknown { number, item });
        }
        item += 1;
    }
    None
}

fn wait(waits: &mut Vec<Vec<Waiting>>, number: usize, waiting: Waiting) -> Result<(), NoMemory>
    requires { number < length waits.old.items }
    ensures { OnOk result (IsLonger number waiting waits.old.items waits.new.items) }
{
    waits[number].push(waiting)?;
    Ok(())
}

/// Lets an expression wait for its next unknown name. Without one it has its place.
fn look_at(
    equals: &[Equal<'_>],
    index: &IndexMap<&[u8], u32>,
    known: &[bool],
    waits: &mut Vec<Vec<Waiting>>,
    places: &mut Vec<u32>,
    waiting: Waiting,
) -> Result<(), NoMemory>
    requires within { IsWithin index.now (length known.now) }
    requires lists { length waits.old.items ≡ length known.now }
    requires waiting { CanBeLookedAt (pairs_of equals.now) waiting }
    ensures { OnOk result
        (Looked (unknown_from index.now known.now waiting.item
        (drop waiting.item (items_at
        (pairs_of equals.now) waiting.equal))) waiting.equal waits.old.items waits.new.items
        places.old.items places.new.items) }
{
    let value = equals[waiting.equal as usize].value;
    let items = value.items.as_slice();
    match next_unknown(index, known, items, waiting.item) {
        None => {
            places.push(waiting.equal)?;
            Ok(())
        }
        Some(unknown) => wait(
            waits,
            unknown.number as usize,
            Waiting {
                equal: waiting.equal,
                item: unknown.item,
            },
        ),
    }
}

/// Looks at each of these expressions.
fn look_at_all(
    equals: &[Equal<'_>],
    index: &IndexMap<&[u8], u32>,
    progress: &mut Progress,
    hand: Vec<Waiting>,
) -> Result<(), NoMemory>
    requires { Kept (pairs_of equals.now) index.now progress.old hand.items }
    ensures kept { OnOk result (Kept (pairs_of equals.now) index.now progress.new []) }
    ensures done { OnOk result (progress.new.done ≡ progress.old.done) }
{
    let mut hand = hand;
    while let Some(waiting) = hand.pop() {
        look_at(
            equals,
            index,
            progress.known.as_slice(),
            &mut progress.waits,
            &mut progress.places,
            waiting,
        )?;
    }
    Ok(())
}

fn take_waiting(alloc: Global, waits: &mut Vec<Vec<Waiting>>, number: usize) -> Vec<Waiting>
    requires { number < length waits.old.items }
    ensures { IsReplaced number result.items waits.old.items waits.new.items }
{
    mem::replace(&mut waits[number], Vec::new(alloc))
}

/// Makes the name of the next place known, and looks at what waited for it.
pub fn settle_next(
    alloc: Global,
    equals: &[Equal<'_>],
    index: &IndexMap<&[u8], u32>,
    progress: &mut Progress,
) -> Result<(), NoMemory>
    requires kept { Kept (pairs_of equals.now) index.now progress.old [] }
    requires next { progress.old.done < length progress.old.places.items }
    ensures kept { OnOk result (Kept (pairs_of equals.now) index.now progress.new []) }
    ensures done { OnOk result (progress.new.done ≡ progress.old.done + 1) }
{
    let equal = progress.places[progress.done] as usize;
    let number = number_of(index, equals[equal].name) as usize;
    progress.known[number] = true;
    progress.done += 1;
    let hand = take_waiting(alloc, &mut progress.waits, number);
    look_at_all(equals, index, progress, hand)
}

fn none_known(alloc: Global, count: usize) -> Result<Vec<bool>, NoMemory>
    ensures { IfOk result (λ known. known.items ≡ replicate count false) }
{
    Ok(vec![in alloc; false; count]?)
}

fn no_waiting(alloc: Global, count: usize) -> Result<Vec<Vec<Waiting>>, NoMemory>
    ensures { IfOk result (λ waits. AreEmpty count waits.items) }
{
    let mut waits = Vec::new(alloc);
    'lists: while waits.len() < count {
        waits.push(Vec::new(alloc))?;
    }
    Ok(waits)
}

/// Each expression, to be looked at from its first item on. The first one stands last.
fn all_waiting(alloc: Global, count: usize) -> Result<Vec<Waiting>, NoMemory>
    requires { count < 2 ^ 32 }
    ensures { IfOk result (λ hand. hand.items ≡ starts count) }
{
    let mut hand = Vec::new(alloc);
    for i in (0..count).rev() {
        hand.push(Waiting {
            equal: i as u32,
            item: 0,
        })?;
    }
    Ok(hand)
}

/// The search with no name known, behind a first look at each expression.
pub fn start(
    alloc: Global,
    equals: &[Equal<'_>],
    index: &IndexMap<&[u8], u32>,
) -> Result<Progress, NoMemory>
    requires few { length equals.now < 2 ^ 32 }
    requires index { IsIndexOf 0 (pairs_of equals.now) index.now }
    ensures { IfOk result (λ progress. Kept (pairs_of equals.now) index.now progress []) }
{
    let mut progress = Progress {
        known: none_known(alloc, equals.len())?,
        waits: no_waiting(alloc, equals.len())?,
        places: Vec::new(alloc),
        done: 0,
    };
    let hand = all_waiting(alloc, equals.len())?;
    look_at_all(equals, index, &mut progress, hand)?;
    Ok(progress)
}
