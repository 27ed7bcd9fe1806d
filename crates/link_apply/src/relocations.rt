//! The flaw of one relocation.

ghost use Rattle.std.specs.Prelude.{◌≡◌, ℕ, Bool, ◌<◌, ◌^◌, ◌&&◌, nat_eq, false, true, Some};
ghost use Rattle.indexmap.specs.IndexMap.{get};
ghost use Rattle.link_model.specs.Veneers.{IsIn};
ghost use Rattle.link_model.specs.declared.placing.Placement.{Placement};
ghost use Rattle.patch_model.specs.Fields.{field_of, is_relative, number_in, Branch, Values};
ghost use Rattle.link_apply.specs.Flaws.{flaw_of, is_outside};
ghost use Rattle.link_apply.specs.Judged.{flaw_by, IsIndex, IsWay};
ghost use Rattle.link_apply.specs.Starts.{AreEven, AreStarts};
ghost use Rattle.link_apply.specs.Targets.{way_by, IsWayOf};

use crate::fields::number_at;
use crate::flaws::{Flaw, flaw_of_byte, flaw_of_half};
use crate::judging::{Sums, is_bad_field, sums_of};
use crate::numbers::{is_branch_word, total};
use crate::starts::FieldDirectives;
use crate::ways::flaw_of_way;
use aof_object::{Area, FieldKind, Reloc};
use indexmap::IndexMap;
use link_values::BranchTarget;

/// How a branch goes: to its target by a veneer, which is missing where it has no address.
#[derive(Clone, Copy)]
pub struct Detour {
    pub target: Option<BranchTarget>,
    pub veneer: Option<u32>,
    /// The target's address.
    pub goal: u64,
}

/// Of a branch at an address. `only` says that one relative relocation has it.
fn flaw_of_branch(
    thumb: bool,
    at: u64,
    word: u32,
    sums: Sums,
    only: bool,
    detour: Detour,
) -> Option<Flaw>
    requires at { at < 2 ^ 34 }
    requires added { sums.added < 2 ^ 63 }
    requires subtracted { sums.subtracted < 2 ^ 63 }
    requires goal { detour.goal < 2 ^ 33 }
    ensures { (p : Placement) (region : ℕ) → IsWayOf p region detour.target detour.veneer detour.goal
        → result ≡ flaw_by p region at word sums.added sums.subtracted only (way_by detour.target) (Branch thumb) }
{
    if !only {
        return Some(Flaw::Malformed);
    }
    if !is_branch_word(thumb, word) {
        return Some(Flaw::Malformed);
    }
    flaw_of_way(
        thumb,
        at,
        word,
        sums,
        detour.target,
        detour.veneer,
        detour.goal,
    )
}

/// Of a field at an address.
fn flaw_of_field(
    kind: FieldKind,
    at: u64,
    word: u32,
    sums: Sums,
    only: bool,
    detour: Detour,
) -> Option<Flaw>
    requires at { at < 2 ^ 34 }
    requires added { sums.added < 2 ^ 63 }
    requires subtracted { sums.subtracted < 2 ^ 63 }
    requires goal { detour.goal < 2 ^ 33 }
    ensures { (p : Placement) (region : ℕ) → IsWayOf p region detour.target detour.veneer detour.goal
        → result ≡ flaw_by p region at word sums.added sums.subtracted only (way_by detour.target) kind }
{
    match kind {
        FieldKind::Byte => flaw_of_byte(total(word as u64, sums.added, sums.subtracted)),
        FieldKind::Half => flaw_of_half(total(word as u64, sums.added, sums.subtracted)),
        FieldKind::Word => None,
        FieldKind::Branch(false) => flaw_of_branch(false, at, word, sums, only, detour),
        FieldKind::Branch(true) => flaw_of_branch(true, at, word, sums, only, detour),
    }
}

/// Whether a relocation, by what the relocations of its place do, is relative and alone.
fn is_only_at(start: FieldDirectives, reloc: Reloc) -> bool
    ensures { result ≡ (is_relative reloc && start.is_alone) }
{
    reloc.is_relative() && start.is_alone
}

/// What the field of a relocation holds.
pub fn number_of(bytes: &[u8], reloc: Reloc) -> u32
    requires { is_outside bytes.now (field_of reloc) ≡ false }
    ensures { result ≡ number_in bytes.now (field_of reloc) }
{
    let field = reloc.field();
    number_at(bytes, field.place as usize, field.kind)
}

/// Of a relocation of an area of a number at a base. `start` is what the area's relocations do where its field
/// begins, and `even` says that all begin at whole words.
pub fn flaw_of_relocation(
    starts: &IndexMap<u64, FieldDirectives>,
    start: FieldDirectives,
    even: bool,
    number: u32,
    base: u64,
    area: &Area,
    reloc: Reloc,
    detour: Detour,
) -> Option<Flaw>
    requires known { IsIndex area.now.relocs starts.now }
    requires there { get nat_eq starts.now (field_of reloc).place ≡ Some start }
    requires even { even ≡ true → AreEven starts.now }
    requires own { IsIn area.now.relocs reloc }
    requires base { base < 2 ^ 33 }
    requires added { start.added < 2 ^ 63 }
    requires relative { start.relative < 2 ^ 30 }
    requires goal { detour.goal < 2 ^ 33 }
    ensures { (p : Placement) (region : ℕ) (values : Values)
        → AreStarts values area.now.relocs starts.now
        → IsWayOf p region detour.target detour.veneer detour.goal
        → IsWay values base number area.now reloc (way_by detour.target)
        → result ≡ flaw_of p values region base number area.now reloc }
{
    if is_bad_field(starts, start, even, number, area, reloc) {
        return Some(Flaw::Malformed);
    }
    let word = number_of(area.bytes.as_slice(), reloc);
    let field = reloc.field();
    let at = base + u64::from(field.place);
    let sums = sums_of(start, base);
    let only = is_only_at(start, reloc);
    flaw_of_field(field.kind, at, word, sums, only, detour)
}
