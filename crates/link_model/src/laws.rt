//! Laws of the definitions, each proved as the contract of an empty function.

ghost use Rattle.link_model.specs.Chosen.{LinkedLaw, NamelessLaw};
ghost use Rattle.link_model.specs.Veneers.{VeneersLaw, WaysLaw};

/// The command line and its libraries have at most one list of linked objects, and what reports call the
/// objects decides nothing: with the same objects in the same places, the same are linked.
pub fn linked_law()
    ensures one { LinkedLaw }
    ensures nameless { NamelessLaw }
{}

/// A link needs one veneer for each region, target and direction, and none that no branch needs, but that
/// of a header's call of a Thumb entry. A branch that has its field alone needs just the veneer that it
/// goes by where it is patched, wherever the areas stand.
pub fn veneers_law()
    ensures needed { VeneersLaw }
    ensures ways { WaysLaw }
{}
