//! The selection.

ghost use Rattle.std.specs.Prelude.{◌≡◌, ◌++◌, ◌+◌, ◌^◌, ◌<◌, ◌≤◌, length, ℕ, None, OnOk, IfOk, List as Items};
ghost use Rattle.std.specs.Option.{option_copied};
ghost use Rattle.sdt_fault.specs.declared.answer.Fault.TheVariants.{Refused};
ghost use Rattle.sdt_fault.specs.declared.refusal.Refusal.TheVariants.{TooLarge};
ghost use Rattle.chunk_file.specs.Reading.{Gives};
ghost use Rattle.aof_object.specs.declared.records.Object.{Object as AofObject};
ghost use Rattle.link_model.specs.Members.{members_of, objects_in};
ghost use Rattle.link_model.specs.Chosen.{AreChosen, AreLinked};
ghost use Rattle.link_model.specs.Definitions.{definition_in, definitions_in, definitions_from};
ghost use Rattle.link_model.specs.declared.selection.Named.{Named as NamedValue};
ghost use Rattle.link_select.specs.Laws.{AreDefinedOnce, HaveMeanings};
ghost use Rattle.link_select.specs.Search.{marked};
ghost use Rattle.link_select.specs.Selection.{count_symbols, judged, passes, refused, selection_of, sized, Selects};
ghost use Rattle.link_select.specs.Exports.{duplicate};
ghost use Rattle.link_select.specs.Index.{number_in};
ghost use Rattle.link_select.specs.Places.{places_from};
ghost use Rattle.link_select.specs.Undefined.{undefined};

use crate::choosing::{Supply, choose};
use crate::entries::one_entry;
use crate::exports::{index_members, index_objects, judge_exports, refuse_duplicate};
use crate::limits::{more_areas_than, more_symbols_than};
use crate::linking::linked_objects;
use crate::members::{MemberPlace, places_of};
use crate::undefined::refuse_undefined;
use alf_archive::Archive;
use aof_object::{Object, Symbol};
use indexmap::IndexMap;
use link_model::{Definition, Linked, LinkedEntry, Named};
use sdt_fault::answer::Fault;
use sdt_fault::kinds::Quantity;
use sdt_fault::refusal::Refusal;
use sdt_fault::{List, NoMemory, Text};
use std::alloc::Global;

/// The most areas and symbols that a link may have.
const MOST_AREAS: usize = 65_535;

const MOST_SYMBOLS: usize = 1_000_000;

/// The members that are linked, by the names that objects define and members offer, of which none is noted yet.
fn mark_supplied<'a>(
    alloc: Global,
    supply: &mut Supply<'a>,
    objects: &'a [Named<Object>],
    archives: &'a [Named<Archive>],
    places: &[MemberPlace],
) -> Result<Vec<bool>, NoMemory>
    requires defined { (q : Items ℕ) → number_in supply.old.defined q ≡ None }
    requires offered { (q : Items ℕ) → number_in supply.old.offered q ≡ None }
    requires places { places.now ≡ places_from 0 archives.now }
    ensures size { IfOk result (λ marks. length marks.items ≡ length (members_of archives.now)) }
    ensures chosen { IfOk result (λ marks. AreChosen (objects_in objects.now) (objects_in (members_of archives.now)) (marked marks.items)) }
{
    index_objects(&mut supply.defined, objects)?;
    index_members(&mut supply.offered, archives, places)?;
    choose(alloc, supply, objects, archives, places)
}

/// The members that are linked: for each a mark, in library order.
fn mark_members(
    alloc: Global,
    objects: &[Named<Object>],
    archives: &[Named<Archive>],
) -> Result<Vec<bool>, NoMemory>
    ensures size { IfOk result (λ marks. length marks.items ≡ length (members_of archives.now)) }
    ensures chosen { IfOk result (λ marks. AreChosen (objects_in objects.now) (objects_in (members_of archives.now)) (marked marks.items)) }
{
    let places = places_of(alloc, archives)?;
    let mut supply = Supply {
        defined: IndexMap::new(alloc),
        offered: IndexMap::new(alloc),
    };
    let marks = mark_supplied(alloc, &mut supply, objects, archives, places.as_slice());
    drop(supply);
    marks
}

/// The objects that are linked.
fn choose_objects(
    alloc: Global,
    objects: Vec<Named<Object>>,
    archives: Vec<Named<Archive>>,
) -> Result<Vec<Named<Object>>, NoMemory>
    ensures { IfOk result (λ linked. AreLinked objects.items archives.items linked.items) }
{
    let marks = mark_members(alloc, objects.as_slice(), archives.as_slice())?;
    linked_objects(alloc, objects, archives, marks.as_slice())
}

fn too_large(quantity: Quantity, limit: u64) -> Fault
    ensures { result ≡ Refused (TooLarge quantity limit) }
{
    Fault::Refused(Refusal::TooLarge { quantity, limit })
}

fn push_definition(
    alloc: Global,
    definitions: &mut Vec<Definition>,
    object: u32,
    number: u32,
    symbol: &Symbol,
) -> Result<(), NoMemory>
    ensures { OnOk result (definitions.new.items ≡ definitions.old.items ++ definition_in object number symbol.now) }
{
    if symbol.flags().is_exported() {
        definitions.push(Definition {
            name: symbol.name.try_clone(alloc)?,
            object,
            symbol: number,
        })?;
    }
    Ok(())
}

fn push_definitions(
    alloc: Global,
    definitions: &mut Vec<Definition>,
    object: u32,
    symbols: &[Symbol],
) -> Result<(), NoMemory>
    requires { length symbols.now < 2 ^ 32 }
    ensures { OnOk result (definitions.new.items ≡ definitions.old.items ++ definitions_in object 0 symbols.now) }
{
    for (k, symbol) in symbols.iter().enumerate() {
        push_definition(alloc, definitions, object, k as u32, symbol)?;
    }
    Ok(())
}

/// Each symbol that an object exports.
fn definitions_of(alloc: Global, objects: &[Named<Object>]) -> Result<List<Definition>, NoMemory>
    requires objects { length objects.now < 2 ^ 32 }
    requires symbols { count_symbols objects.now < 2 ^ 32 }
    ensures { IfOk result (λ definitions. definitions ≡ definitions_from 0 (objects_in objects.now)) }
{
    let mut definitions = Vec::new(alloc);
    for (i, object) in objects.iter().enumerate() {
        let symbols = object.value.symbols.as_slice();
        definitions.reserve(symbols.len())?;
        push_definitions(alloc, &mut definitions, i as u32, symbols)?;
    }
    Ok(List::from_vec(definitions))
}

/// Refuses names of the linked objects that don't have one meaning each; notes which object exports each name, where none is
/// noted yet.
fn judge_names<'a>(
    alloc: Global,
    index: &mut IndexMap<&'a [u8], usize>,
    objects: &'a [Named<Object>],
    regions: Option<&[Text]>,
) -> Result<(), Fault>
    requires { (q : Items ℕ) → number_in index.old q ≡ None }
    ensures { Gives result (refused (duplicate objects.now)
        (passes (undefined (option_copied regions.entry) objects.now))) }
{
    let duplicate = judge_exports(index, objects)?;
    refuse_duplicate(alloc, duplicate)?;
    refuse_undefined(alloc, index, regions, objects)
}

/// The entry of the linked objects, where their names have one meaning each and there are not too many.
fn judge(
    alloc: Global,
    objects: &[Named<Object>],
    regions: Option<&[Text]>,
) -> Result<LinkedEntry, Fault>
    requires { length objects.now < 2 ^ 32 }
    ensures { Gives result (judged (option_copied regions.entry) objects.now) }
{
    let mut index = IndexMap::new(alloc);
    let named = judge_names(alloc, &mut index, objects, regions);
    drop(index);
    named?;
    judge_size(alloc, objects)
}

/// The entry of the linked objects, where there are not too many.
fn judge_size(alloc: Global, objects: &[Named<Object>]) -> Result<LinkedEntry, Fault>
    requires { length objects.now < 2 ^ 32 }
    ensures { Gives result (sized objects.now) }
{
    let entry = one_entry(alloc, objects)?;
    if more_areas_than(MOST_AREAS, objects) {
        return Err(too_large(Quantity::Areas, 65_535));
    }
    if more_symbols_than(MOST_SYMBOLS, objects) {
        return Err(too_large(Quantity::Symbols, 1_000_000));
    }
    Ok(entry)
}

/// What is linked of these objects.
#[tactic(auto, unfolding(crate::specs::Selection::selection_of))]
fn link(
    alloc: Global,
    objects: Vec<Named<Object>>,
    regions: Option<&[Text]>,
) -> Result<Linked, Fault>
    ensures { Gives result (selection_of (option_copied regions.entry) objects.items) }
{
    // No memory holds so many objects, whose numbers have 32 bits.
    if objects.len() > u32::MAX as usize {
        return Err(Fault::NoMemory);
    }
    let entry = judge(alloc, objects.as_slice(), regions)?;
    let definitions = definitions_of(alloc, objects.as_slice())?;
    Ok(Linked {
        objects: List::from_vec(objects),
        definitions,
        entry,
    })
}

/// The objects of the command line and the members of the libraries that they need, with each exported
/// name's definition and the entry. They are moved and not copied; members that aren't needed are let go.
///
/// `regions` lists the region symbols that the image has, without the Base and Limit of areas, which are
/// those of the linked areas; without such a list every name of a region symbol's form has a meaning.
///
/// Refusals, the first of these that is present: `Duplicate` where two linked objects export a name,
/// `Undefined` where a non-weak reference has no meaning, `NoEntry`, `TwoEntries`, `TooLarge` above 65,535
/// areas or 1,000,000 symbols.
pub fn select(
    alloc: Global,
    objects: Vec<Named<Object>>,
    archives: Vec<Named<Archive>>,
    regions: Option<&[Text]>,
) -> Result<Linked, Fault>
    // What is linked: the command line's objects, then the least set of members that these need.
    ensures linked { IfOk result (λ l. AreLinked objects.items archives.items l.objects) }
    // No name is exported by two of them, and each of their symbols has a meaning.
    ensures one_definition { IfOk result (λ l. AreDefinedOnce (objects_in l.objects)) }
    ensures meanings { IfOk result (λ l. HaveMeanings (option_copied regions.entry) l) }
    // The answer is that of the linked objects, of which there is one list, unless memory was refused.
    ensures exact { Selects objects.items archives.items (option_copied regions.entry) result }
    ensures only { (os : Items (NamedValue AofObject)) → AreLinked objects.items archives.items os → Gives result (selection_of (option_copied regions.entry) os) }
{
    let chosen = choose_objects(alloc, objects, archives)?;
    link(alloc, chosen, regions)
}
