//! The values of symbols.

ghost use Rattle.std.specs.Prelude.{◌≡◌, map, false, Some, IfOk};
ghost use Rattle.link_model.specs.Members.{link_of, objects_in};
ghost use Rattle.link_model.specs.Meaning.{symbol_of};
ghost use Rattle.link_model.specs.RegionValues.{numbers_by};
ghost use Rattle.link_model.specs.Values.{home_area as home, meant_of, unplaced as alone};
ghost use Rattle.link_values.specs.Bases.{base_of, AreBases};
ghost use Rattle.link_values.specs.Placed.{reduced_meant};
ghost use Rattle.link_values.specs.Values.{meant, of_region, known_value, taken_value, all_values, value_in, AreValues, Knows};

use crate::bases::{AreaBases, base_at, reduced};
use crate::definitions::{Defined, index_definitions};
use crate::names::find;
use crate::objects::{sum, symbol_at};
use crate::regions::{RegionSymbols, region_number, region_numbers, region_symbols};
use aof_object::{Object, Symbol};
use indexmap::IndexMap;
use link_model::{Linked, Named, Placement, to_u32};
use sdt_fault::{List, NoMemory, Text};
use std::alloc::Global;

/// A place in an area of a linked object, by an offset in bytes.
#[derive(Clone, Copy)]
pub struct AreaOffset {
    pub object: u32,
    pub area: u32,
    pub offset: u32,
}

/// What a branch by a veneer leads to: a place, and whether it is of Thumb code.
#[derive(Clone, Copy)]
pub struct BranchTarget {
    pub place: AreaOffset,
    pub thumb: bool,
}

/// A symbol's number, whether it is of Thumb code and whether it is a datum there, and its place where it
/// stands in an area.
#[derive(Clone, Copy)]
pub struct SymbolValue {
    pub number: u64,
    pub thumb: bool,
    pub datum: bool,
    pub home: Option<AreaOffset>,
}

/// What tells the value of a symbol.
#[derive(Drop)]
pub struct SymbolContext<'a> {
    pub objects: &'a [Named<Object>],
    pub bases: &'a AreaBases,
    pub definitions: IndexMap<&'a [u8], Defined>,
    pub symbols: RegionSymbols<'a>,
}

/// What a link and its placement tell of names, by the numbers of the region symbols of its regions.
pub fn gathered<'a>(
    alloc: Global,
    linked: &'a Linked,
    placement: &'a Placement,
    bases: &'a AreaBases,
    numbers: &'a [(Text, u64)],
) -> Result<SymbolContext<'a>, NoMemory>
    requires bases { AreBases placement.now bases.now }
    requires numbers { numbers.now ≡ numbers_by placement.now.boot placement.now.regions }
    ensures { IfOk result (λ known. Knows (link_of linked.now) placement.now known) }
{
    let objects = linked.objects.as_slice();
    Ok(SymbolContext {
        objects,
        bases,
        definitions: index_definitions(alloc, linked.definitions.as_slice())?,
        symbols: region_symbols(alloc, placement, objects, numbers)?,
    })
}

pub fn home_area(symbol: &Symbol) -> Option<u32>
    ensures { result ≡ home symbol.now }
{
    if !symbol.flags().is_placed() {
        return None;
    }
    symbol.area
}

fn unplaced(number: u64) -> SymbolValue
    ensures { meant result ≡ alone number false false }
{
    SymbolValue {
        number,
        thumb: false,
        datum: false,
        home: None,
    }
}

/// The value of a definition.
fn own_value(bases: &AreaBases, object: u32, symbol: &Symbol) -> Result<SymbolValue, NoMemory>
    ensures { IfOk result (λ v. meant v ≡ meant_of (base_of bases.now) object (Some symbol.now)) }
{
    let thumb = symbol.flags().is_thumb();
    let datum = symbol.flags().is_datum();
    let Some(area) = home_area(symbol) else {
        return Ok(SymbolValue {
            number: symbol.value as u64,
            thumb,
            datum,
            home: None,
        });
    };
    Ok(SymbolValue {
        number: sum(base_at(bases, object, area), symbol.value as u64)?,
        thumb,
        datum,
        home: Some(AreaOffset {
            object,
            area,
            offset: symbol.value,
        }),
    })
}

fn value_of_definition(
    objects: &[Named<Object>],
    bases: &AreaBases,
    defined: Defined,
) -> Result<SymbolValue, NoMemory>
    ensures { IfOk result (λ v. meant v ≡ meant_of (base_of bases.now) defined.object
        (symbol_of (objects_in objects.now) defined.object defined.symbol)) }
{
    match symbol_at(objects, defined.object, defined.symbol) {
        None => Ok(unplaced(0)),
        Some(symbol) => own_value(bases, defined.object, symbol),
    }
}

/// The value of a name that isn't defined: a region symbol's, or that of an undefined weak reference.
fn value_of_region(number: Option<u64>) -> SymbolValue
    ensures { meant result ≡ of_region number }
{
    match number {
        None => unplaced(0),
        Some(number) => unplaced(number),
    }
}

/// The value of a symbol of an object.
fn value_of(known: &SymbolContext, object: u32, symbol: &Symbol) -> Result<SymbolValue, NoMemory>
    ensures { IfOk result (λ v. meant v ≡ known_value known.now object symbol.now) }
{
    if symbol.flags().is_definition() {
        return own_value(known.bases, object, symbol);
    }
    let name = symbol.name.as_slice();
    match find(&known.definitions, name) {
        Some(defined) => value_of_definition(known.objects, known.bases, defined),
        None => Ok(value_of_region(region_number(&known.symbols, name))),
    }
}

/// The number of a value, in a scatter image modulo 2^32 where it is an address.
fn reduced_number(boot: Option<u32>, value: SymbolValue) -> u64
    ensures { result ≡ (reduced_meant boot (meant value)).number }
{
    match value.home {
        None => value.number,
        Some(_) => reduced(boot, value.number),
    }
}

/// The same value with its number as branches take it.
fn reduced_value(boot: Option<u32>, value: SymbolValue) -> SymbolValue
    ensures { meant result ≡ reduced_meant boot (meant value) }
{
    SymbolValue {
        number: reduced_number(boot, value),
        thumb: value.thumb,
        datum: value.datum,
        home: value.home,
    }
}

fn object_values(
    alloc: Global,
    boot: Option<u32>,
    known: &SymbolContext,
    object: u32,
    symbols: &[Symbol],
) -> Result<List<SymbolValue>, NoMemory>
    ensures { IfOk result (λ vs. map meant vs ≡ map (taken_value boot known.now object) symbols.now) }
{
    let mut values = Vec::new(alloc);
    for symbol in symbols {
        values.push(reduced_value(boot, value_of(known, object, symbol)?))?;
    }
    Ok(List::from_vec(values))
}

fn values_of_objects(
    alloc: Global,
    boot: Option<u32>,
    known: &SymbolContext,
    objects: &[Named<Object>],
) -> Result<Vec<List<SymbolValue>>, NoMemory>
    ensures { IfOk result (λ vs. map (map meant) vs.items
        ≡ all_values (taken_value boot known.now) 0 (objects_in objects.now)) }
{
    let mut values = Vec::new(alloc);
    for (i, object) in objects.iter().enumerate() {
        let symbols = object.value.symbols.as_slice();
        values.push(object_values(alloc, boot, known, to_u32(i)?, symbols)?)?;
    }
    Ok(values)
}

/// The values of the symbols of all linked objects, by the numbers of objects and symbols; in a scatter
/// image numbers are taken modulo 2^32.
pub fn symbol_values(
    alloc: Global,
    linked: &Linked,
    placement: &Placement,
    bases: &AreaBases,
) -> Result<List<List<SymbolValue>>, NoMemory>
    requires { AreBases placement.now bases.now }
    ensures exact { IfOk result (λ values. AreValues (link_of linked.now) placement.now values) }
{
    let objects = linked.objects.as_slice();
    let numbers = region_numbers(alloc, placement.boot, placement.regions.as_slice())?;
    let known = gathered(alloc, linked, placement, bases, numbers.as_slice())?;
    let values = values_of_objects(alloc, placement.boot, &known, objects)?;
    Ok(List::from_vec(values))
}

/// The value of the symbol of a number of an object; 0, absolute, where none is there.
pub fn value_at(values: &[List<SymbolValue>], object: u32, symbol: u32) -> SymbolValue
    ensures { meant result ≡ value_in values.now object symbol }
{
    match values.get(object as usize) {
        None => unplaced(0),
        Some(values) => match values.as_slice().get(symbol as usize) {
            None => unplaced(0),
            Some(value) => *value,
        },
    }
}
