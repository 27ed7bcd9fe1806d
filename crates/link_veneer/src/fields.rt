//! The fields of relocations, and whether a branch has its field alone.

ghost use Rattle.std.specs.Prelude.{◌≡◌, ℕ, Some, is_none, nat_eq, OnOk, IfOk, if◌then◌else◌};
ghost use Rattle.patch_model.specs.Fields.{kind_of};
ghost use Rattle.indexmap.specs.IndexMap.{get};
ghost use Rattle.link_veneer.specs.Fields.{fills, is_branch_kind, marked_by, AreMarks};

use aof_object::{FieldKind, Reloc};
use indexmap::IndexMap;
use sdt_fault::NoMemory;
use std::alloc::Global;

/// Whether the field is that of a branch.
pub fn is_branch(reloc: Reloc) -> bool
    ensures { result ≡ is_branch_kind (kind_of reloc) }
{
    match reloc.kind() {
        FieldKind::Branch(_) => true,
        _ => false,
    }
}

/// Notes a field of four bytes at its place: alone, or not.
fn mark(marks: &mut IndexMap<u32, bool>, reloc: &Reloc) -> Result<(), NoMemory>
    ensures { OnOk result ((p : ℕ) → get nat_eq marks.new p
        ≡ (if fills p reloc.now then Some (is_none (get nat_eq marks.old p))
        else get nat_eq marks.old p)) }
{
    let field = reloc.field();
    if field.kind.size() == 4 {
        let alone = marks.get(&field.place).is_none();
        marks.insert(field.place, alone)?;
    }
    Ok(())
}

/// For each place where fields of four bytes begin, whether it is one alone.
pub fn marks_of(alloc: Global, relocs: &[Reloc]) -> Result<IndexMap<u32, bool>, NoMemory>
    ensures { IfOk result (λ marks. AreMarks relocs.now marks) }
{
    let mut marks = IndexMap::new(alloc);
    for reloc in relocs {
        mark(&mut marks, reloc)?;
    }
    Ok(marks)
}

/// Whether a branch's relocation is relative, by a symbol, and alone at its field.
pub fn is_alone(marks: &IndexMap<u32, bool>, reloc: Reloc) -> bool
    ensures { result ≡ marked_by marks.now reloc }
{
    if !reloc.is_relative() {
        return false;
    }
    if !reloc.is_by_symbol() {
        return false;
    }
    match marks.get(&reloc.field().place) {
        None => false,
        Some(alone) => *alone,
    }
}
