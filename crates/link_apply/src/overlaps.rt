//! Whether a field overlaps another, by what begins around it.

ghost use Rattle.std.specs.Prelude.{◌≡◌, ◌%◌, List, nat_eq, ◌<◌, ◌^◌, true, Some};
ghost use Rattle.std.specs.List.{list_any};
ghost use Rattle.aof_object.specs.declared.records.Reloc.{Reloc as Relocation};
ghost use Rattle.indexmap.specs.IndexMap.{get};
ghost use Rattle.link_model.specs.Veneers.{IsIn};
ghost use Rattle.patch_model.specs.Fields.{field_of, Values};
ghost use Rattle.link_apply.specs.Flaws.{overlaps};
ghost use Rattle.link_apply.specs.Starts.{begins, is_crowded, reaches, AreEven, AreStarts};

use crate::starts::FieldDirectives;
use aof_object::Reloc;
use indexmap::IndexMap;

/// Whether a field that begins some bytes before a place has it.
fn reaches_place(starts: &IndexMap<u64, FieldDirectives>, place: u64, behind: u64) -> bool
    ensures { result ≡ reaches (λ p. get nat_eq starts.now p) place behind }
{
    if place < behind {
        return false;
    }
    match starts.get(&(place - behind)) {
        None => false,
        Some(start) => behind < start.widest as u64,
    }
}

/// Whether a field begins some bytes behind the start of one of a size.
fn begins_in(starts: &IndexMap<u64, FieldDirectives>, place: u64, size: u64, after: u64) -> bool
    requires place { place < 2 ^ 32 }
    requires after { after < 2 ^ 32 }
    ensures { result ≡ begins (λ p. get nat_eq starts.now p) place size after }
{
    if after >= size {
        return false;
    }
    starts.get(&(place + after)).is_some()
}

#[tactic(auto, using(crate::proofs::OverlapLemmas::even_is_apart))]
fn is_crowded_at(
    starts: &IndexMap<u64, FieldDirectives>,
    place: u64,
    size: u64,
    mixed: bool,
    even: bool,
) -> bool
    requires place { place < 2 ^ 32 }
    requires even { even ≡ true → AreEven starts.now }
    requires whole { even ≡ true → place % 4 ≡ 0 }
    ensures { result ≡ is_crowded (λ p. get nat_eq starts.now p) place size mixed }
{
    if mixed {
        return true;
    }
    if even {
        return false;
    }
    if reaches_place(starts, place, 1) {
        return true;
    }
    if reaches_place(starts, place, 2) {
        return true;
    }
    if reaches_place(starts, place, 3) {
        return true;
    }
    if begins_in(starts, place, size, 1) {
        return true;
    }
    if begins_in(starts, place, size, 2) {
        return true;
    }
    begins_in(starts, place, size, 3)
}

/// Whether the field of one of these relocations overlaps that of another. `start` is what they do where it begins, and
/// `even` says that all begin at whole words.
pub fn is_overlapping(
    starts: &IndexMap<u64, FieldDirectives>,
    start: FieldDirectives,
    even: bool,
    reloc: Reloc,
) -> bool
    requires there { get nat_eq starts.now (field_of reloc).place ≡ Some start }
    requires even { even ≡ true → AreEven starts.now }
    ensures { (values : Values) (relocs : List Relocation) → IsIn relocs reloc
        → AreStarts values relocs starts.now
        → result ≡ list_any (λ q. overlaps (field_of q) (field_of reloc)) relocs }
{
    let field = reloc.field();
    let size = u64::from(field.kind.size());
    is_crowded_at(starts, u64::from(field.place), size, start.is_mixed, even)
}
