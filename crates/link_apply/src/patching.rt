//! The numbers that fields are to hold, and their writing.

ghost use Rattle.std.specs.Prelude.{◌≡◌, ℕ, Bool, ◌<◌, ◌^◌, false, Some};
ghost use Rattle.link_model.specs.declared.placing.Placement.{Placement};
ghost use Rattle.link_model.specs.Veneers.{IsIn};
ghost use Rattle.patch_model.specs.Fields.{field_of, size_of as kind_size, kind_of as field_kind, Branch, Values};
ghost use Rattle.link_apply.specs.Flaws.{has_bad_field, is_outside, veneer_of};
ghost use Rattle.link_apply.specs.Judged.{number_with, IsWay};
ghost use Rattle.link_apply.specs.PatchedBytes.{patched_number, turned};
ghost use Rattle.link_apply.specs.Starts.{starts, AreBelow};
ghost use Rattle.link_apply.specs.Targets.{values_by, way_by, IsWayOf};

use crate::judging::{Sums, sums_of};
use crate::numbers::total;
use crate::relocations::{Detour, number_of};
use crate::starts::FieldDirectives;
use crate::ways::{target_by, turned_word};
use aof_object::{Area, FieldKind, Reloc};

/// The branch of a word at an address with the displacement that it is to have.
fn branch_with(thumb: bool, at: u64, word: u32, sums: Sums, detour: Detour) -> u32
    requires at { at < 2 ^ 34 }
    requires added { sums.added < 2 ^ 63 }
    ensures { (p : Placement) (region : ℕ) → IsWayOf p region detour.target detour.veneer detour.goal
        → result ≡ turned thumb at word sums.added sums.subtracted
        (veneer_of p region (way_by detour.target)) (way_by detour.target) }
{
    let Some(target) = detour.target else {
        return turned_word(thumb, at, word, sums, None, 0);
    };
    let Some(veneer) = detour.veneer else {
        return turned_word(thumb, at, word, sums, Some(target), 0);
    };
    turned_word(thumb, at, word, sums, Some(target), veneer)
}

/// What a field of a kind at an address is to hold.
fn number_by(kind: FieldKind, at: u64, word: u32, sums: Sums, detour: Detour) -> u32
    requires at { at < 2 ^ 34 }
    requires added { sums.added < 2 ^ 63 }
    ensures value { (p : Placement) (region : ℕ) → IsWayOf p region detour.target detour.veneer detour.goal
        → result ≡ number_with p region at word sums.added sums.subtracted (way_by detour.target) kind }
    ensures bound { result < 256 ^ kind_size kind }
{
    match kind {
        FieldKind::Byte => (total(word as u64, sums.added, sums.subtracted) % 0x100) as u32,
        FieldKind::Half => (total(word as u64, sums.added, sums.subtracted) % 0x1_0000) as u32,
        FieldKind::Word => total(word as u64, sums.added, sums.subtracted) as u32,
        FieldKind::Branch(false) => branch_with(false, at, word, sums, detour),
        FieldKind::Branch(true) => branch_with(true, at, word, sums, detour),
    }
}

/// What the field of a relocation of an area at a base is to hold. `start` is what the area's relocations do where it
/// begins.
pub fn new_number(
    start: FieldDirectives,
    base: u64,
    area: &Area,
    reloc: Reloc,
    detour: Detour,
) -> u32
    requires inside { is_outside area.now.bytes (field_of reloc) ≡ false }
    requires base { base < 2 ^ 33 }
    requires added { start.added < 2 ^ 63 }
    requires relative { start.relative < 2 ^ 30 }
    ensures value { (p : Placement) (region : ℕ) (values : Values) (number : ℕ)
        → IsIn area.now.relocs reloc → starts values area.now.relocs (field_of reloc).place ≡ Some start
        → has_bad_field number area.now reloc ≡ false
        → IsWayOf p region detour.target detour.veneer detour.goal
        → IsWay values base number area.now reloc (way_by detour.target)
        → result ≡ patched_number p values region base area.now (field_of reloc) }
    ensures bound { result < 256 ^ kind_size (field_kind reloc) }
{
    let word = number_of(area.bytes.as_slice(), reloc);
    let field = reloc.field();
    let at = base + u64::from(field.place);
    number_by(field.kind, at, word, sums_of(start, base), detour)
}

fn is_thumb(kind: FieldKind) -> bool
    ensures { (thumb : Bool) → kind ≡ Branch thumb → result ≡ thumb }
{
    match kind {
        FieldKind::Branch(thumb) => thumb,
        _ => false,
    }
}

/// The target of the branch of a relocation of an area at a base, where it goes by a veneer.
pub fn target_at(
    symbols: &[SymbolValue],
    start: FieldDirectives,
    base: u64,
    area: &Area,
    reloc: Reloc,
) -> Option<BranchTarget>
    requires symbols { AreBelow symbols.now }
    requires inside { is_outside area.now.bytes (field_of reloc) ≡ false }
    requires base { base < 2 ^ 33 }
    requires relative { start.relative < 2 ^ 30 }
    ensures { (bases : ℕ → ℕ) (number : ℕ) → IsIn area.now.relocs reloc
        → starts (values_by bases symbols.now) area.now.relocs (field_of reloc).place ≡ Some start
        → IsWay (values_by bases symbols.now) base number area.now reloc (way_by result) }
{
    let word = number_of(area.bytes.as_slice(), reloc);
    let field = reloc.field();
    let at = base + u64::from(field.place);
    let thumb = is_thumb(field.kind);
    target_by(symbols, thumb, at, word, sums_of(start, base), start.symbol)
}

use link_values::{BranchTarget, SymbolValue};
