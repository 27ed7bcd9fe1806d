//! The chosen members: those that the command-line objects need, those that these need, and so on. Each is
//! looked at once.

ghost use Rattle.std.specs.Prelude.{◌≡◌, ◌<◌, [], ◌∷◌, ◌++◌, ℕ, false, replicate, length, OnOk, IfOk};
ghost use Rattle.std.specs.Option.{option_to_list};
ghost use Rattle.std.specs.List.{flat_map, filter_map, AllByRecursion};
ghost use Rattle.link_model.specs.Members.{members_of, objects_in};
ghost use Rattle.link_model.specs.Chosen.{asked, wanted, IsLeast};
ghost use Rattle.link_select.specs.Index.{IsIndexOf};
ghost use Rattle.link_select.specs.Places.{places_from};
ghost use Rattle.link_select.specs.Search.{supply_of, marked, Takes, IsWithin};

use crate::index::find;
use crate::members::{MemberPlace, symbols_of_member};
use alf_archive::Archive;
use aof_object::{Object, Symbol};
use indexmap::IndexMap;
use link_model::Named;
use sdt_fault::NoMemory;
use std::alloc::Global;

/// The names that command-line objects define, and those that members offer, with the number of the first
/// that exports each.
#[derive(Drop)]
pub struct Supply<'a> {
    pub defined: IndexMap<&'a [u8], usize>,
    pub offered: IndexMap<&'a [u8], usize>,
}

/// The member that a symbol asks for.
fn asked_by(supply: &Supply, symbol: &Symbol) -> Option<usize>
    ensures { result ≡ asked (supply_of supply.now) symbol.now }
{
    if !symbol.flags().is_reference() {
        return None;
    }
    if symbol.flags().is_weak() {
        return None;
    }
    if find(&supply.defined, symbol.name.as_slice()).is_some() {
        return None;
    }
    find(&supply.offered, symbol.name.as_slice())
}

fn push_given(numbers: &mut Vec<usize>, number: Option<usize>) -> Result<(), NoMemory>
    ensures { OnOk result (numbers.new.items ≡ numbers.old.items ++ option_to_list number) }
{
    if let Some(number) = number {
        numbers.push(number)?;
    }
    Ok(())
}

/// The members that an object's symbols ask for.
fn wanted_by(alloc: Global, supply: &Supply, symbols: &[Symbol]) -> Result<Vec<usize>, NoMemory>
    ensures { IfOk result (λ numbers. numbers.items ≡ filter_map (asked (supply_of supply.now)) symbols.now) }
{
    let mut numbers = Vec::new(alloc);
    for symbol in symbols {
        push_given(&mut numbers, asked_by(supply, symbol))?;
    }
    Ok(numbers)
}

fn take_one(marks: &mut Vec<bool>, waiting: &mut Vec<usize>, number: usize) -> Result<(), NoMemory>
    requires { number < length marks.old.items }
    ensures { OnOk result (Takes marks.old.items marks.new.items waiting.old.items waiting.new.items (number ∷ [])) }
{
    if !marks[number] {
        marks[number] = true;
        waiting.push(number)?;
    }
    Ok(())
}

/// Marks members; those that were not yet marked are to be looked at.
fn take_all(
    marks: &mut Vec<bool>,
    waiting: &mut Vec<usize>,
    numbers: &[usize],
) -> Result<(), NoMemory>
    requires { AllByRecursion (λ k. k < length marks.old.items) numbers.now }
    ensures { OnOk result (Takes marks.old.items marks.new.items waiting.old.items waiting.new.items numbers.now) }
{
    for number in numbers {
        take_one(marks, waiting, *number)?;
    }
    Ok(())
}

/// Marks what an object asks for by these symbols.
fn look_at(
    alloc: Global,
    supply: &Supply,
    symbols: &[Symbol],
    marks: &mut Vec<bool>,
    waiting: &mut Vec<usize>,
) -> Result<(), NoMemory>
    requires { IsWithin (supply_of supply.now) (length marks.old.items) }
    ensures { OnOk result (Takes marks.old.items marks.new.items
        waiting.old.items waiting.new.items (filter_map (asked (supply_of supply.now)) symbols.now)) }
{
    let numbers = wanted_by(alloc, supply, symbols)?;
    take_all(marks, waiting, numbers.as_slice())
}

/// Marks what the command-line objects ask for.
fn ask_all(
    alloc: Global,
    supply: &Supply,
    objects: &[Named<Object>],
    marks: &mut Vec<bool>,
    waiting: &mut Vec<usize>,
) -> Result<(), NoMemory>
    requires { IsWithin (supply_of supply.now) (length marks.old.items) }
    ensures { OnOk result (Takes marks.old.items marks.new.items
        waiting.old.items waiting.new.items (flat_map (λ object. wanted (supply_of supply.now) object.value) objects.now)) }
{
    for object in objects {
        look_at(
            alloc,
            supply,
            object.value.symbols.as_slice(),
            marks,
            waiting,
        )?;
    }
    Ok(())
}

fn no_marks(alloc: Global, count: usize) -> Result<Vec<bool>, NoMemory>
    ensures { IfOk result (λ marks. marks.items ≡ replicate count false) }
{
    Ok(vec![in alloc; false; count]?)
}

/// Which members are chosen: for each a mark, in library order.
pub fn choose(
    alloc: Global,
    supply: &Supply,
    objects: &[Named<Object>],
    archives: &[Named<Archive>],
    places: &[MemberPlace],
) -> Result<Vec<bool>, NoMemory>
    requires places { places.now ≡ places_from 0 archives.now }
    requires offered { IsIndexOf 0 (objects_in (members_of archives.now)) supply.now.offered }
    ensures size { IfOk result (λ marks. length marks.items ≡ length places.now) }
    ensures least { IfOk result (λ marks. IsLeast (supply_of supply.now) (objects_in objects.now) (objects_in (members_of archives.now)) (marked marks.items)) }
{
    let mut marks = no_marks(alloc, places.len())?;
    let mut waiting = Vec::new(alloc);
    ask_all(alloc, supply, objects, &mut marks, &mut waiting)?;
    while let Some(number) = waiting.pop() {
        let symbols = symbols_of_member(archives, places, number);
        look_at(alloc, supply, symbols, &mut marks, &mut waiting)?;
    }
    Ok(marks)
}
