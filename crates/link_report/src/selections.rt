//! The selections of a description that took no area.

ghost use Rattle.std.specs.Prelude.{◌≡◌, ◌++◌, ◌||◌, ℕ, List, OnOk, IfOk, if◌then◌else◌, true};
ghost use Rattle.std.specs.List.{flat_map, list_any};
ghost use Rattle.place_model.specs.Assignment.{Offer, offers_from};
ghost use Rattle.place_model.specs.Items.{Item};
ghost use Rattle.link_items.specs.LinkedItems.{item_of, items_in, items_of};
ghost use Rattle.place_model.specs.Keys.{class_by};
ghost use Rattle.link_report.specs.Keys.{choice_in, has_key, home_in, is_alike, is_key, same_key, selection_at};
ghost use Rattle.link_report.specs.Keys.{AreSought, AreTaken, NoneBelow};
ghost use Rattle.place_model.specs.declared.scatter.Choice.TheVariants as chosen;
ghost use Rattle.link_report.specs.Selections as texts;
ghost use Rattle.link_report.specs.Selections.{has_taken, takes_area};

use crate::lines::{push, push_field};
use aof_object::{Area, Object};
use indexmap::IndexSet;
use link_model::Named;
use place_model::{Choice, Kind, ScatterLoad, ScatterRegion, Selection};
use sdt_fault::digits::push_decimal;
use sdt_fault::{NoMemory, Text};
use std::alloc::Global;

// ---- keys

/// What a selection chooses.
#[derive(Clone, Copy, PartialEq, Eq, Hash)]
pub enum Sought<'a> {
    Named(&'a [u8]),
    Ro,
    Rw,
    Zi,
}

/// What selections are found by: a module, or any, and what they choose.
#[derive(Clone, Copy, PartialEq, Eq, Hash)]
pub struct Key<'a> {
    pub home: Option<&'a [u8]>,
    pub sought: Sought<'a>,
}

fn home_of(named: &Option<Text>) -> Option<&[u8]>
    ensures { home_in result ≡ named.now }
{
    match named {
        None => None,
        Some(home) => Some(home.as_slice()),
    }
}

fn sought_of(choice: &Choice) -> Sought<'_>
    ensures { choice_in result ≡ choice.now }
{
    match choice {
        Choice::Named(name) => Sought::Named(name.as_slice()),
        Choice::Ro => Sought::Ro,
        Choice::Rw => Sought::Rw,
        Choice::Zi => Sought::Zi,
    }
}

fn key_of(selection: &Selection) -> Key<'_>
    ensures home { home_in result.home ≡ selection.now.«module» }
    ensures sought { choice_in result.sought ≡ selection.now.choice }
{
    Key {
        home: home_of(&selection.module),
        sought: sought_of(&selection.choice),
    }
}

/// The class that takes an area.
fn class_of<'a>(area: &Area) -> Sought<'a>
    ensures { choice_in result ≡ class_by area.now.attributes }
{
    if area.flags().is_zero_initialised() {
        return Sought::Zi;
    }
    if area.flags().is_read_only() {
        return Sought::Ro;
    }
    Sought::Rw
}

fn insert<'a>(keys: &mut IndexSet<Key<'a>>, key: Key<'a>) -> Result<(), NoMemory>
    ensures { OnOk result ((q : Key) → has_key keys.new q ≡ (if same_key key.entry q then true else has_key keys.old q)) }
{
    keys.insert(key)?;
    Ok(())
}

fn add<'a>(keys: &mut IndexSet<Key<'a>>, key: Key<'a>) -> Result<(), NoMemory>
    ensures { OnOk result ((q : Key) → has_key keys.new q ≡ (same_key key.entry q || has_key keys.old q)) }
{
    insert(keys, key)?;
    Ok(())
}

ghost use Rattle.link_report.specs.declared.selections.Key.{Key};

fn is_there(keys: &IndexSet<Key>, key: Key) -> bool
    ensures { result ≡ has_key keys.now key.entry }
{
    keys.contains(&key)
}

// ---- the keys of selections

fn add_selections<'a>(
    keys: &mut IndexSet<Key<'a>>,
    selections: &'a [Selection],
) -> Result<(), NoMemory>
    ensures { OnOk result ((q : Key) → has_key keys.new q
        ≡ (list_any (λ s. is_alike s (selection_at q)) selections.now || has_key keys.old q)) }
{
    for selection in selections {
        add(keys, key_of(selection))?;
    }
    Ok(())
}

fn add_regions<'a>(
    keys: &mut IndexSet<Key<'a>>,
    regions: &'a [ScatterRegion],
) -> Result<(), NoMemory>
    ensures { OnOk result ((q : Key) → has_key keys.new q
        ≡ (list_any (λ s. is_alike s (selection_at q)) (flat_map (λ r. r.selections) regions.now) || has_key keys.old q)) }
{
    for region in regions {
        add_selections(keys, region.selections.as_slice())?;
    }
    Ok(())
}

/// Those of the selections of a description.
fn sought_keys<'a>(alloc: Global, loads: &'a [ScatterLoad]) -> Result<IndexSet<Key<'a>>, NoMemory>
    ensures { IfOk result (AreSought (offers_from 0 (flat_map (λ l. l.regions) loads.now))) }
{
    let mut keys = IndexSet::new(alloc);
    for load in loads {
        add_regions(&mut keys, load.regions.as_slice())?;
    }
    Ok(keys)
}

// ---- the keys of those that took an area

/// The key of selections of an area's name.
fn named_key<'a>(home: Option<&'a [u8]>, area: &'a Area) -> Key<'a>
    ensures home { home_in result.home ≡ home_in home.entry }
    ensures sought { choice_in result.sought ≡ chosen.Named area.now.name }
{
    Key {
        home,
        sought: Sought::Named(area.name.as_slice()),
    }
}

/// The key of selections of an area's class.
fn class_key<'a>(home: Option<&'a [u8]>, area: &Area) -> Key<'a>
    ensures home { home_in result.home ≡ home_in home.entry }
    ensures sought { choice_in result.sought ≡ class_by area.now.attributes }
{
    Key {
        home,
        sought: class_of(area),
    }
}

/// The key of the best selection of an area, where it is that of its class.
fn class_anywhere<'a>(keys: &IndexSet<Key<'a>>, area: &'a Area) -> Option<Key<'a>>
    ensures { (offers : List Offer) → AreSought offers keys.now → (q : Key) (object number : ℕ) (home : List ℕ)
        → NoneBelow offers (item_of object home number area.now) 3
        → is_key q result ≡ takes_area offers (selection_at q) (item_of object home number area.now) }
{
    let key = class_key(None, area);
    if is_there(keys, key) {
        return Some(key);
    }
    None
}

/// Where none names its module.
fn best_anywhere<'a>(keys: &IndexSet<Key<'a>>, area: &'a Area) -> Option<Key<'a>>
    ensures { (offers : List Offer) → AreSought offers keys.now → (q : Key) (object number : ℕ) (home : List ℕ)
        → NoneBelow offers (item_of object home number area.now) 2
        → is_key q result ≡ takes_area offers (selection_at q) (item_of object home number area.now) }
{
    let key = named_key(None, area);
    if is_there(keys, key) {
        return Some(key);
    }
    class_anywhere(keys, area)
}

/// Where none names its module and its name.
fn class_in_module<'a>(keys: &IndexSet<Key<'a>>, home: &'a [u8], area: &'a Area) -> Option<Key<'a>>
    ensures { (offers : List Offer) → AreSought offers keys.now → (q : Key) (object number : ℕ)
        → NoneBelow offers (item_of object home.now number area.now) 1
        → is_key q result ≡ takes_area offers (selection_at q) (item_of object home.now number area.now) }
{
    let key = class_key(Some(home), area);
    if is_there(keys, key) {
        return Some(key);
    }
    best_anywhere(keys, area)
}

/// The key of the best selection of an area of a module.
fn best_key<'a>(keys: &IndexSet<Key<'a>>, home: &'a [u8], area: &'a Area) -> Option<Key<'a>>
    ensures { (offers : List Offer) → AreSought offers keys.now → (q : Key) (object number : ℕ)
        → is_key q result ≡ takes_area offers (selection_at q) (item_of object home.now number area.now) }
{
    let key = named_key(Some(home), area);
    if is_there(keys, key) {
        return Some(key);
    }
    class_in_module(keys, home, area)
}

fn add_best<'a>(
    taken: &mut IndexSet<Key<'a>>,
    keys: &IndexSet<Key<'a>>,
    home: &'a [u8],
    area: &'a Area,
) -> Result<(), NoMemory>
    ensures { (offers : List Offer) → AreSought offers keys.now → OnOk result ((q : Key) (object number : ℕ)
        → has_key taken.new q ≡ (takes_area offers (selection_at q) (item_of object home.now number area.now) || has_key taken.old q)) }
{
    let Some(key) = best_key(keys, home, area) else {
        return Ok(());
    };
    add(taken, key)?;
    Ok(())
}

fn add_areas<'a>(
    taken: &mut IndexSet<Key<'a>>,
    keys: &IndexSet<Key<'a>>,
    home: &'a [u8],
    areas: &'a [Area],
) -> Result<(), NoMemory>
    ensures { (offers : List Offer) → AreSought offers keys.now → OnOk result ((q : Key) (object : ℕ)
        → has_key taken.new q ≡ (has_taken offers (items_of object home.now 0 areas.now) (selection_at q) || has_key taken.old q)) }
{
    for area in areas {
        add_best(taken, keys, home, area)?;
    }
    Ok(())
}

/// Those of the selections that took an area of objects.
fn taken_keys<'a>(
    alloc: Global,
    keys: &IndexSet<Key<'a>>,
    objects: &'a [Named<Object>],
) -> Result<IndexSet<Key<'a>>, NoMemory>
    ensures { IfOk result (λ taken. (offers : List Offer) → AreSought offers keys.now → AreTaken offers (items_in objects.now) taken) }
{
    let mut taken = IndexSet::new(alloc);
    for object in objects {
        let areas = object.value.areas.as_slice();
        add_areas(&mut taken, keys, object.module.as_slice(), areas)?;
    }
    Ok(taken)
}

// ---- lines

fn module_text(named: &Option<Text>) -> &[u8]
    ensures { result.now ≡ texts.module_text named.now }
{
    match named {
        None => b"*",
        Some(home) => home.as_slice(),
    }
}

fn choice_text(choice: &Choice) -> &[u8]
    ensures { result.now ≡ texts.choice_text choice.now }
{
    match choice {
        Choice::Named(name) => name.as_slice(),
        Choice::Ro => b"+RO",
        Choice::Rw => b"+RW",
        Choice::Zi => b"+ZI",
    }
}

fn push_line(
    alloc: Global,
    out: &mut Vec<u8>,
    region: &[u8],
    selection: &Selection,
) -> Result<(), NoMemory>
    ensures { OnOk result (out.new.items ≡ out.old.items ++ texts.unused_line region.now selection.now) }
{
    push(out, b"unused ")?;
    push_decimal(alloc, out, u64::from(selection.line))?;
    push_field(out, region)?;
    push_field(out, module_text(&selection.module))?;
    push_field(out, choice_text(&selection.choice))?;
    push(out, b"\n")
}

fn push_unused(
    alloc: Global,
    out: &mut Vec<u8>,
    taken: &IndexSet<Key>,
    region: &[u8],
    selection: &Selection,
) -> Result<(), NoMemory>
    ensures { (offers : List Offer) (items : List Item) → AreTaken offers items taken.now
        → OnOk result (out.new.items ≡ out.old.items ++ texts.unused_text (has_taken offers items) region.now selection.now) }
{
    if is_there(taken, key_of(selection)) {
        return Ok(());
    }
    push_line(alloc, out, region, selection)?;
    Ok(())
}

fn push_region(
    alloc: Global,
    out: &mut Vec<u8>,
    taken: &IndexSet<Key>,
    region: &[u8],
    selections: &[Selection],
) -> Result<(), NoMemory>
    ensures { (offers : List Offer) (items : List Item) → AreTaken offers items taken.now
        → OnOk result (out.new.items ≡ out.old.items ++ flat_map (texts.unused_text (has_taken offers items) region.now) selections.now) }
{
    for selection in selections {
        push_unused(alloc, out, taken, region, selection)?;
    }
    Ok(())
}

fn push_load(
    alloc: Global,
    out: &mut Vec<u8>,
    taken: &IndexSet<Key>,
    regions: &[ScatterRegion],
) -> Result<(), NoMemory>
    ensures { (offers : List Offer) (items : List Item) → AreTaken offers items taken.now
        → OnOk result (out.new.items ≡ out.old.items ++ flat_map (texts.region_unused (has_taken offers items)) regions.now) }
{
    for region in regions {
        let name = region.name.as_slice();
        push_region(alloc, out, taken, name, region.selections.as_slice())?;
    }
    Ok(())
}

fn push_loads(
    alloc: Global,
    out: &mut Vec<u8>,
    taken: &IndexSet<Key>,
    loads: &[ScatterLoad],
) -> Result<(), NoMemory>
    ensures { (offers : List Offer) (items : List Item) → AreTaken offers items taken.now
        → OnOk result (out.new.items ≡ out.old.items ++ flat_map (texts.load_unused (has_taken offers items)) loads.now) }
{
    for load in loads {
        push_load(alloc, out, taken, load.regions.as_slice())?;
    }
    Ok(())
}

fn push_described(
    alloc: Global,
    out: &mut Vec<u8>,
    loads: &[ScatterLoad],
    objects: &[Named<Object>],
) -> Result<(), NoMemory>
    ensures { OnOk result (out.new.items ≡ out.old.items ++ texts.described_text loads.now objects.now) }
{
    let keys = sought_keys(alloc, loads)?;
    let taken = taken_keys(alloc, &keys, objects)?;
    push_loads(alloc, out, &taken, loads)?;
    Ok(())
}

/// Appends the lines of the selections that took no area of linked objects; where no description made the image, none.
pub fn push_selections(
    alloc: Global,
    out: &mut Vec<u8>,
    kind: &Kind,
    objects: &[Named<Object>],
) -> Result<(), NoMemory>
    ensures { OnOk result (out.new.items ≡ out.old.items ++ texts.selections_text kind.now objects.now) }
{
    match kind {
        Kind::Scatter(scatter) => push_described(alloc, out, scatter.loads.as_slice(), objects),
        Kind::Plain { .. } | Kind::Aif { .. } => Ok(()),
    }
}
