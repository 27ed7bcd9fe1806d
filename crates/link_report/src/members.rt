//! The members that were chosen, each with the first reference that it answers.

ghost use Rattle.std.specs.Prelude.{◌≡◌, ℕ, ◌++◌, map, Some, OnOk, IfOk, if◌then◌else◌};
ghost use Rattle.std.specs.List.{flat_map};
ghost use Rattle.std.specs.Option.{option_map};
ghost use Rattle.link_model.specs.Chosen.{is_needed};
ghost use Rattle.link_report.specs.Members as members;
ghost use Rattle.link_report.specs.Shown.{AreFirsts, first_in, is_answered, shown_need};

use crate::lines::{object_name, push, push_field};
use aof_object::{Object, Symbol};
use indexmap::IndexMap;
use link_model::{Definition, Linked, Named, to_u32};
use link_values::{Defined, find, index_definitions};
use sdt_fault::NoMemory;
use sdt_word::field;
use std::alloc::Global;

/// A name that the object of a number refers to.
#[derive(Clone, Copy)]
pub struct Need<'a> {
    pub by: u32,
    pub name: &'a [u8],
}

/// Whether symbols of these attributes refer to another object's, and aren't weak.
fn is_needed(attributes: u32) -> bool
    ensures { result ≡ is_needed attributes }
{
    if attributes % 4 != 2 {
        return false;
    }
    field(attributes, 4, 1) == 0
}

fn push_need<'a>(needs: &mut Vec<Need<'a>>, by: u32, symbol: &'a Symbol) -> Result<(), NoMemory>
    ensures { OnOk result (map shown_need needs.new.items ≡ map shown_need needs.old.items ++ members.need_in by symbol.now) }
{
    if !is_needed(symbol.attributes) {
        return Ok(());
    }
    needs.push(Need {
        by,
        name: symbol.name.as_slice(),
    })?;
    Ok(())
}

fn push_needs<'a>(needs: &mut Vec<Need<'a>>, by: u32, symbols: &'a [Symbol]) -> Result<(), NoMemory>
    ensures { OnOk result (map shown_need needs.new.items
        ≡ map shown_need needs.old.items ++ flat_map (members.need_in by) symbols.now) }
{
    for symbol in symbols {
        push_need(needs, by, symbol)?;
    }
    Ok(())
}

fn needs_of<'a>(alloc: Global, objects: &'a [Named<Object>]) -> Result<Vec<Need<'a>>, NoMemory>
    ensures { IfOk result (λ needs. map shown_need needs.items ≡ members.needs_from 0 objects.now) }
{
    let mut needs = Vec::new(alloc);
    for (by, object) in objects.iter().enumerate() {
        push_needs(&mut needs, to_u32(by)?, object.value.symbols.as_slice())?;
    }
    Ok(needs)
}

/// Notes a reference at the object that answers it, in the place of a later one.
fn note<'a>(
    firsts: &mut IndexMap<u32, Need<'a>>,
    index: &IndexMap<&[u8], Defined>,
    need: Need<'a>,
) -> Result<(), NoMemory>
    ensures { OnOk result ((object : ℕ) → first_in firsts.new object
        ≡ (if is_answered index.now object (shown_need need.entry) then Some (shown_need need.entry) else first_in firsts.old object)) }
{
    let Some(defined) = find(index, need.name) else {
        return Ok(());
    };
    firsts.insert(defined.object, need)?;
    Ok(())
}

/// The first reference that each object answers. The last one is noted first, and gives way to earlier ones.
fn first_needs<'a>(
    alloc: Global,
    index: &IndexMap<&[u8], Defined>,
    needs: &[Need<'a>],
) -> Result<IndexMap<u32, Need<'a>>, NoMemory>
    ensures { IfOk result (λ firsts. AreFirsts index.now (map shown_need needs.now) firsts) }
{
    let mut firsts = IndexMap::new(alloc);
    for i in (0..needs.len()).rev() {
        note(&mut firsts, index, needs[i])?;
    }
    Ok(firsts)
}

fn first_at<'a>(firsts: &IndexMap<u32, Need<'a>>, object: u32) -> Option<Need<'a>>
    ensures { option_map shown_need result ≡ first_in firsts.now object }
{
    firsts.get(&object).copied()
}

fn push_member(
    out: &mut Vec<u8>,
    objects: &[Named<Object>],
    name: &[u8],
    need: Option<Need>,
) -> Result<(), NoMemory>
    ensures { OnOk result (out.new.items ≡ out.old.items ++ members.member_text objects.now name.now (option_map shown_need need.entry)) }
{
    let Some(need) = need else {
        return Ok(());
    };
    push(out, b"member")?;
    push_field(out, name)?;
    push_field(out, object_name(objects, need.by))?;
    push_field(out, need.name)?;
    push(out, b"\n")
}

/// Appends the line of the object of a number, if it isn't a given one.
fn push_member_at(
    out: &mut Vec<u8>,
    objects: &[Named<Object>],
    firsts: &IndexMap<u32, Need>,
    given: usize,
    number: usize,
    name: &[u8],
) -> Result<(), NoMemory>
    ensures { OnOk result (out.new.items ≡ out.old.items ++ members.member_at objects.now (first_in firsts.now) given number name.now) }
{
    if number < given {
        return Ok(());
    }
    push_member(out, objects, name, first_at(firsts, to_u32(number)?))
}

fn push_found(
    out: &mut Vec<u8>,
    objects: &[Named<Object>],
    firsts: &IndexMap<u32, Need>,
    given: usize,
) -> Result<(), NoMemory>
    ensures { OnOk result (out.new.items ≡ out.old.items ++ members.members_from objects.now (first_in firsts.now) given 0 objects.now) }
{
    for (k, object) in objects.iter().enumerate() {
        push_member_at(out, objects, firsts, given, k, object.name.as_slice())?;
    }
    Ok(())
}

fn push_chosen(
    alloc: Global,
    out: &mut Vec<u8>,
    objects: &[Named<Object>],
    definitions: &[Definition],
    given: usize,
) -> Result<(), NoMemory>
    ensures { OnOk result (out.new.items ≡ out.old.items
        ++ members.members_from objects.now (members.first_need definitions.now objects.now) given 0 objects.now) }
{
    let index = index_definitions(alloc, definitions)?;
    let needs = needs_of(alloc, objects)?;
    let firsts = first_needs(alloc, &index, needs.as_slice())?;
    push_found(out, objects, &firsts, given)?;
    Ok(())
}

/// Appends the lines of the chosen members, which stand behind so many given objects.
pub fn push_members(
    alloc: Global,
    out: &mut Vec<u8>,
    linked: &Linked,
    given: usize,
) -> Result<(), NoMemory>
    ensures { OnOk result (out.new.items ≡ out.old.items ++ members.members_text linked.now given) }
{
    let objects = linked.objects.as_slice();
    push_chosen(alloc, out, objects, linked.definitions.as_slice(), given)
}
