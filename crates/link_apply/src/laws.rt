//! The laws of the definitions, as the contract of an empty function.

ghost use Rattle.link_apply.specs.Laws.{PatchedLaw, VeneerLaw};

/// Where no relocation of an area has a flaw, its patched bytes are those that its directives ask for, and
/// a veneer that branches can go by has its instructions.
pub fn patched_law()
    ensures patched { PatchedLaw }
    ensures veneer { VeneerLaw }
{}
