//! Laws of the definitions, each proved as the contract of an empty function.

ghost use Rattle.patch_model.specs.Laws.{OneObjectPatched, OnePatched, ReachLaw, TestLaw};

/// An area has at most one list of patched bytes.
pub fn one_patched()
    ensures area { OnePatched }
    ensures object { OneObjectPatched }
{}

/// A patched branch reaches what it names; which words are branches is what the test of them says.
pub fn reach_law()
    ensures reaches { ReachLaw }
    ensures test { TestLaw }
{}
