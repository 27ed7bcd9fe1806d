//! What is wrong with the relocations of an area.

ghost use Rattle.std.specs.Prelude.{◌≡◌, ◌*◌, ◌<◌, ◌^◌, List, nat_eq, false, true, Some};
ghost use Rattle.indexmap.specs.IndexMap.{get};
ghost use Rattle.link_apply.specs.Sums.{Tells};
ghost use Rattle.aof_object.specs.declared.records.Reloc.{Reloc as Relocation};
ghost use Rattle.link_model.specs.Veneers.{IsIn};
ghost use Rattle.patch_model.specs.Fields.{field_of, Field, Values};
ghost use Rattle.link_apply.specs.Flaws.{has_bad_field, is_based, is_of_itself, is_outside};
ghost use Rattle.link_apply.specs.Starts.{starts, AreEven, AreStarts};

use crate::overlaps::is_overlapping;
use crate::starts::FieldDirectives;
use aof_object::{Area, Reloc, RelocationTarget};
use indexmap::IndexMap;

/// Whether the field of a relocation goes beyond the bytes.
pub fn is_outside_of(bytes: &[u8], reloc: Reloc) -> bool
    ensures { result ≡ is_outside bytes.now (field_of reloc) }
{
    let field = reloc.field();
    let end = u64::from(field.place) + u64::from(field.kind.size());
    (bytes.len() as u64) < end
}

/// Whether a relocation is relative to the area that has it, by that area itself.
fn is_by_own_area(area: u32, reloc: Reloc) -> bool
    ensures { result ≡ is_of_itself area reloc }
{
    if !reloc.is_relative() {
        return false;
    }
    match reloc.target() {
        RelocationTarget::Symbol(_) => false,
        RelocationTarget::Area(number) => number == area,
    }
}

/// Whether bit 28 stands without bit 26.
fn is_based_alone(reloc: Reloc) -> bool
    ensures { result ≡ is_based reloc }
{
    reloc.is_based() && !reloc.is_relative()
}

/// Whether the field of a relocation of an area of a number is a bad one. `start` is what the area's relocations do
/// where it begins, and `even` says that all begin at whole words.
pub fn is_bad_field(
    starts: &IndexMap<u64, FieldDirectives>,
    start: FieldDirectives,
    even: bool,
    number: u32,
    area: &Area,
    reloc: Reloc,
) -> bool
    requires there { get nat_eq starts.now (field_of reloc).place ≡ Some start }
    requires even { even ≡ true → AreEven starts.now }
    requires own { IsIn area.now.relocs reloc }
    ensures { (values : Values) → AreStarts values area.now.relocs starts.now
        → result ≡ has_bad_field number area.now reloc }
{
    if is_outside_of(area.bytes.as_slice(), reloc) {
        return true;
    }
    if is_by_own_area(number, reloc) {
        return true;
    }
    if is_based_alone(reloc) {
        return true;
    }
    is_overlapping(starts, start, even, reloc)
}

/// What the relocations of a field add, and what they take away.
#[derive(Clone, Copy)]
pub struct Sums {
    pub added: u64,
    pub subtracted: u64,
}

fn taken_by(base: u64, relative: u64) -> u64
    requires base { base < 2 ^ 33 }
    requires relative { relative < 2 ^ 30 }
    ensures value { result ≡ base * relative }
    ensures bound { result < 2 ^ 63 }
{
    base * relative
}

/// Of a field in an area at a base, by what the area's relocations do where it begins.
pub fn sums_of(start: FieldDirectives, base: u64) -> Sums
    requires base { base < 2 ^ 33 }
    requires small { start.relative < 2 ^ 30 }
    ensures tells { (values : Values) (relocs : List Relocation) (f : Field)
        → starts values relocs f.place ≡ Some start → start.is_mixed ≡ false
        → f.kind ≡ start.kind → Tells values base relocs f start result }
    ensures added { result.added ≡ start.added }
    ensures subtracted { result.subtracted < 2 ^ 63 }
{
    Sums {
        added: start.added,
        subtracted: taken_by(base, start.relative),
    }
}
