//! Branches to code of the other state whose area has no interworking bit.

ghost use Rattle.std.specs.Prelude.{◌≡◌, IfOk};
ghost use Rattle.std.specs.Option.{option_copied};
ghost use Rattle.link_model.specs.Members.{link_of, objects_in};
ghost use Rattle.link_model.specs.Options.{first_given};
ghost use Rattle.link_model.specs.Veneers.{IsIn};
ghost use Rattle.link_veneer.specs.Fields.{AreMarks};
ghost use Rattle.link_values.specs.Index.{IsIndexOf};
ghost use Rattle.link_veneer.specs.Interworking.{not_interworking, refusal_by, refused_by, refused_in};

use crate::fields::marks_of;
use crate::needing::{has_other_state, needed};
use aof_object::{Area, Object, Reloc, Symbol};
use indexmap::IndexMap;
use link_model::{AreaName, Linked, Named, Veneer, to_u32};
use link_values::{Defined, area_at, symbol_at};
use sdt_fault::NoMemory;
use sdt_fault::refusal::Refusal;
use std::alloc::Global;

/// The refusal of a branch by a symbol that needs a veneer.
fn refusal_of(
    alloc: Global,
    objects: &[Named<Object>],
    symbol: Option<&Symbol>,
    need: Option<Veneer>,
) -> Result<Option<Refusal>, NoMemory>
    ensures { IfOk result (λ refusal. refusal ≡ refusal_by (objects_in objects.now)
        (option_copied symbol.entry) need) }
{
    let Some(symbol) = symbol else {
        return Ok(None);
    };
    let Some(need) = need else {
        return Ok(None);
    };
    let Some(area) = area_at(objects, need.area) else {
        return Ok(None);
    };
    if area.flags().interworks() {
        return Ok(None);
    }
    Ok(Some(Refusal::NotInterworking {
        symbol: symbol.name.try_clone(alloc)?,
        area: area.name.try_clone(alloc)?,
    }))
}

/// The first refusal of an area's relocations.
fn refusal_in_area(
    alloc: Global,
    linked: &Linked,
    index: &IndexMap<&[u8], Defined>,
    name: AreaName,
    area: &Area,
) -> Result<Option<Refusal>, NoMemory>
    requires { IsIndexOf linked.now.definitions index.now }
    ensures { IfOk result (λ refusal. refusal ≡ first_given
        (refused_by (link_of linked.now) name area.now) area.now.relocs) }
{
    if !has_other_state(linked, index, name, area) {
        return Ok(None);
    }
    refusal_of_each(alloc, linked, index, name, area)
}

/// The same, with a note of which fields stand alone.
fn refusal_of_each(
    alloc: Global,
    linked: &Linked,
    index: &IndexMap<&[u8], Defined>,
    name: AreaName,
    area: &Area,
) -> Result<Option<Refusal>, NoMemory>
    requires { IsIndexOf linked.now.definitions index.now }
    ensures { IfOk result (λ refusal. refusal ≡ first_given
        (refused_by (link_of linked.now) name area.now) area.now.relocs) }
{
    let marks = marks_of(alloc, area.relocs.as_slice())?;
    let refusal = refusal_with(alloc, linked, index, &marks, name, area);
    drop(marks);
    refusal
}

/// The same, by these notes.
fn refusal_with(
    alloc: Global,
    linked: &Linked,
    index: &IndexMap<&[u8], Defined>,
    marks: &IndexMap<u32, bool>,
    name: AreaName,
    area: &Area,
) -> Result<Option<Refusal>, NoMemory>
    requires index { IsIndexOf linked.now.definitions index.now }
    requires marks { AreMarks area.now.relocs marks.now }
    ensures { IfOk result (λ refusal. refusal ≡ first_given
        (refused_by (link_of linked.now) name area.now) area.now.relocs) }
{
    for reloc in area.relocs.as_slice() {
        if let Some(refusal) = refusal_of_branch(alloc, linked, index, marks, name, area, *reloc)? {
            return Ok(Some(refusal));
        }
    }
    Ok(None)
}

fn refusal_of_branch(
    alloc: Global,
    linked: &Linked,
    index: &IndexMap<&[u8], Defined>,
    marks: &IndexMap<u32, bool>,
    name: AreaName,
    area: &Area,
    reloc: Reloc,
) -> Result<Option<Refusal>, NoMemory>
    requires index { IsIndexOf linked.now.definitions index.now }
    requires marks { AreMarks area.now.relocs marks.now }
    requires there { IsIn area.now.relocs reloc }
    ensures { IfOk result (λ refusal. refusal ≡ refused_by
        (link_of linked.now) name area.now reloc) }
{
    let objects = linked.objects.as_slice();
    let need = needed(linked, index, marks, 0, name, area, reloc);
    let symbol = symbol_at(objects, name.object, reloc.number());
    refusal_of(alloc, objects, symbol, need)
}

/// The first refusal of an object's areas.
fn refusal_in_object(
    alloc: Global,
    linked: &Linked,
    index: &IndexMap<&[u8], Defined>,
    object: u32,
    areas: &[Area],
) -> Result<Option<Refusal>, NoMemory>
    requires { IsIndexOf linked.now.definitions index.now }
    ensures { IfOk result (λ refusal. refusal ≡ refused_in
        (link_of linked.now) object 0 areas.now) }
{
    for (k, area) in areas.iter().enumerate() {
        let name = AreaName {
            object,
            area: to_u32(k)?,
        };
        if let Some(refusal) = refusal_in_area(alloc, linked, index, name, area)? {
            return Ok(Some(refusal));
        }
    }
    Ok(None)
}

/// The first refusal in input order.
pub fn first_refusal(
    alloc: Global,
    linked: &Linked,
    index: &IndexMap<&[u8], Defined>,
) -> Result<Option<Refusal>, NoMemory>
    requires { IsIndexOf linked.now.definitions index.now }
    ensures { IfOk result (λ refusal. refusal ≡ not_interworking (link_of linked.now)) }
{
    for (i, object) in linked.objects.as_slice().iter().enumerate() {
        let areas = object.value.areas.as_slice();
        if let Some(refusal) = refusal_in_object(alloc, linked, index, to_u32(i)?, areas)? {
            return Ok(Some(refusal));
        }
    }
    Ok(None)
}
