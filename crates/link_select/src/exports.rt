//! Which object exports a name, and whether two do.

ghost use Rattle.std.specs.Prelude.{◌≡◌, ℕ, List, ◌+◌, ◌<◌, ◌&&◌, drop, length, Option, Some, None, OnOk, IfOk, if◌then◌else◌, slice_get};
ghost use Rattle.std.specs.Option.{option_or, option_copied, option_map};
ghost use Rattle.std.specs.Str.{bytes_eq};
ghost use Rattle.chunk_file.specs.Reading.{Gives};
ghost use Rattle.aof_object.specs.Names.{among};
ghost use Rattle.aof_object.specs.Checks.{is_exported};
ghost use Rattle.aof_object.specs.Objects.{exported};
ghost use Rattle.link_model.specs.Options.{first_given};
ghost use Rattle.link_model.specs.Members.{members_of, objects_in};
ghost use Rattle.link_select.specs.Index.{number_in, IsIndexOf};
ghost use Rattle.link_select.specs.Places.{places_from};
ghost use Rattle.link_select.specs.Exports.{clash, duplicate, told};
ghost use Rattle.link_select.specs.Selection.{passes};

use crate::index::{find, put};
use crate::members::{MemberPlace, symbols_of_member};
use alf_archive::Archive;
use aof_object::{Object, Symbol};
use indexmap::IndexMap;
use link_model::Named;
use sdt_fault::answer::Fault;
use sdt_fault::refusal::Refusal;
use sdt_fault::{NoMemory, Text};
use std::alloc::Global;

fn put_export<'a>(
    index: &mut IndexMap<&'a [u8], usize>,
    symbol: &'a Symbol,
    number: usize,
) -> Result<(), NoMemory>
    ensures { OnOk result ((q : List ℕ) → number_in index.new q ≡ (if is_exported symbol.now.attributes && bytes_eq symbol.now.name q then Some number else number_in index.old q)) }
{
    if symbol.flags().is_exported() {
        put(index, symbol.name.as_slice(), number)?;
    }
    Ok(())
}

fn put_each<'a>(
    index: &mut IndexMap<&'a [u8], usize>,
    symbols: &'a [Symbol],
    number: usize,
) -> Result<(), NoMemory>
    ensures { OnOk result ((q : List ℕ) → number_in index.new q ≡ (if among q (exported symbols.now) then Some number else number_in index.old q)) }
{
    for symbol in symbols {
        put_export(index, symbol, number)?;
    }
    Ok(())
}

/// Gives each exported name the number of its object. The index grows once, and not a name at a time.
fn put_exports<'a>(
    index: &mut IndexMap<&'a [u8], usize>,
    symbols: &'a [Symbol],
    number: usize,
) -> Result<(), NoMemory>
    ensures { OnOk result ((q : List ℕ) → number_in index.new q ≡ (if among q (exported symbols.now) then Some number else number_in index.old q)) }
{
    index.reserve(symbols.len())?;
    put_each(index, symbols, number)
}

/// Notes the first object that exports each name, where none is noted yet. The last one is noted first, and gives
/// way to earlier ones.
pub fn index_objects<'a>(
    index: &mut IndexMap<&'a [u8], usize>,
    objects: &'a [Named<Object>],
) -> Result<(), NoMemory>
    requires { (q : List ℕ) → number_in index.old q ≡ None }
    ensures { OnOk result (IsIndexOf 0 (objects_in objects.now) index.new) }
{
    for i in (0..objects.len()).rev() {
        put_exports(index, objects[i].value.symbols.as_slice(), i)?;
    }
    Ok(())
}

/// Notes the first member that exports each name, by its number in library order, where none is noted yet.
pub fn index_members<'a>(
    index: &mut IndexMap<&'a [u8], usize>,
    archives: &'a [Named<Archive>],
    places: &[MemberPlace],
) -> Result<(), NoMemory>
    requires none { (q : List ℕ) → number_in index.old q ≡ None }
    requires places { places.now ≡ places_from 0 archives.now }
    ensures { OnOk result (IsIndexOf 0 (objects_in (members_of archives.now)) index.new) }
{
    for i in (0..places.len()).rev() {
        put_exports(index, symbols_of_member(archives, places, i), i)?;
    }
    Ok(())
}

fn name_at<'a>(objects: &'a [Named<Object>], number: usize) -> Option<&'a Text>
    ensures { option_copied result ≡ option_map (λ o. o.name) (slice_get objects.now number) }
{
    match objects.get(number) {
        None => None,
        Some(object) => Some(&object.name),
    }
}

/// A name that two objects export, by the objects' names.
#[derive(Clone, Copy)]
pub struct TwoExports<'a> {
    pub symbol: &'a Text,
    pub first: &'a Text,
    pub second: &'a Text,
}

/// The name of a symbol of the object called `name`, where a later object exports it too. The index has the
/// later objects, of which the first is the object of a number.
fn clash_of<'a>(
    index: &IndexMap<&[u8], usize>,
    objects: &'a [Named<Object>],
    first: usize,
    name: &'a Text,
    symbol: &'a Symbol,
) -> Option<TwoExports<'a>>
    requires { IsIndexOf first (objects_in (drop first objects.now)) index.now }
    ensures { told result ≡ clash name.now (drop first objects.now) symbol.now }
{
    if !symbol.flags().is_exported() {
        return None;
    }
    let Some(number) = find(index, symbol.name.as_slice()) else {
        return None;
    };
    let Some(other) = name_at(objects, number) else {
        return None;
    };
    Some(TwoExports {
        symbol: &symbol.name,
        first: name,
        second: other,
    })
}

fn first_clash<'a>(
    index: &IndexMap<&[u8], usize>,
    objects: &'a [Named<Object>],
    first: usize,
    name: &'a Text,
    symbols: &'a [Symbol],
) -> Option<TwoExports<'a>>
    requires { IsIndexOf first (objects_in (drop first objects.now)) index.now }
    ensures { told result ≡ first_given (clash name.now (drop first objects.now)) symbols.now }
{
    for symbol in symbols {
        let clash = clash_of(index, objects, first, name, symbol);
        if clash.is_some() {
            return clash;
        }
    }
    None
}

fn earlier<'a>(
    first: Option<TwoExports<'a>>,
    second: Option<TwoExports<'a>>,
) -> Option<TwoExports<'a>>
    ensures { told result ≡ option_or (told first.entry) (told second.entry) }
{
    match first {
        Some(names) => Some(names),
        None => second,
    }
}

/// Notes which linked object exports each name, where none is noted yet. Gives the first name that two export.
pub fn judge_exports<'a>(
    index: &mut IndexMap<&'a [u8], usize>,
    objects: &'a [Named<Object>],
) -> Result<Option<TwoExports<'a>>, NoMemory>
    requires { (q : List ℕ) → number_in index.old q ≡ None }
    ensures index { OnOk result (IsIndexOf 0 (objects_in objects.now) index.new) }
    ensures duplicate { IfOk result (λ names. told names ≡ duplicate objects.now) }
{
    let mut duplicate = None;
    for i in (0..objects.len()).rev() {
        let object = &objects[i];
        let symbols = object.value.symbols.as_slice();
        let clash = first_clash(index, objects, i + 1, &object.name, symbols);
        duplicate = earlier(clash, duplicate);
        put_exports(index, symbols, i)?;
    }
    Ok(duplicate)
}

/// Refuses a name that two objects export.
pub fn refuse_duplicate(alloc: Global, duplicate: Option<TwoExports<'_>>) -> Result<(), Fault>
    ensures { Gives result (passes (told duplicate.entry)) }
{
    let Some(names) = duplicate else {
        return Ok(());
    };
    Err(Fault::Refused(Refusal::Duplicate {
        symbol: names.symbol.try_clone(alloc)?,
        first: names.first.try_clone(alloc)?,
        second: names.second.try_clone(alloc)?,
    }))
}
