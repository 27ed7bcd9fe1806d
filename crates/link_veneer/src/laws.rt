//! The law of the refusal, as the contract of an empty function.

ghost use Rattle.link_veneer.specs.Laws.{InterworkingLaw};

/// A branch is refused exactly where it needs a veneer to a place in an area without the interworking
/// bit, and of such branches the first in input order is told.
pub fn interworking_law()
    ensures { InterworkingLaw }
{}
