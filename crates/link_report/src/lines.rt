//! The fields of lines.

ghost use Rattle.std.specs.Prelude.{◌≡◌, ◌++◌, ◌∷◌, OnOk};
ghost use Rattle.std.specs.Option.{option_copied};
ghost use Rattle.link_report.specs.Lines as lines;
ghost use Rattle.link_values.specs.Bases.{AreBases};
ghost use Rattle.link_model.specs.declared.placing.Placement.{Placement};

use aof_object::{Area, Object};
use link_model::{AreaName, Named};
use link_values::{AreaBases, base_at};
use sdt_fault::NoMemory;
use sdt_fault::digits::push_hexadecimal_places;

/// Appends a piece.
pub fn push(out: &mut Vec<u8>, piece: &[u8]) -> Result<(), NoMemory>
    ensures { OnOk result (out.new.items ≡ out.old.items ++ piece.now) }
{
    out.extend_from_slice(piece)?;
    Ok(())
}

/// Appends a field behind a space.
pub fn push_field(out: &mut Vec<u8>, field: &[u8]) -> Result<(), NoMemory>
    ensures { OnOk result (out.new.items ≡ out.old.items ++ (32 ∷ field.now)) }
{
    push(out, b" ")?;
    push(out, field)
}

/// Appends the last eight digits of a number behind a space.
#[tactic(auto, unfolding(crate::specs::Lines::eight))]
pub fn push_eight(out: &mut Vec<u8>, number: u64) -> Result<(), NoMemory>
    ensures { OnOk result (out.new.items ≡ out.old.items ++ (32 ∷ lines.eight number)) }
{
    push(out, b" ")?;
    push_hexadecimal_places(out, number, 8)
}

pub fn state_word(thumb: bool) -> &'static [u8]
    ensures { result.now ≡ lines.state_word thumb }
{
    if thumb { b"THUMB" } else { b"ARM" }
}

pub fn object_name(objects: &[Named<Object>], object: u32) -> &[u8]
    ensures { result.now ≡ lines.object_name objects.now object }
{
    match objects.get(object as usize) {
        None => b"-",
        Some(found) => found.name.as_slice(),
    }
}

pub fn name_of_area(area: Option<&Area>) -> &[u8]
    ensures { result.now ≡ lines.name_of_area (option_copied area.entry) }
{
    match area {
        None => b"-",
        Some(area) => area.name.as_slice(),
    }
}

pub fn attributes_of(area: Option<&Area>) -> u32
    ensures { result ≡ lines.attributes_of (option_copied area.entry) }
{
    match area {
        None => 0,
        Some(area) => area.attributes,
    }
}

/// The address of an offset in an area.
pub fn place_of(bases: &AreaBases, name: AreaName, offset: u32) -> u64
    ensures { (p : Placement) → AreBases p bases.now → result ≡ lines.place_of p name offset }
{
    let base = base_at(bases, name.object, name.area);
    (base % (1 << 32) + u64::from(offset)) % (1 << 32)
}
