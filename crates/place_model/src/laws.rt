//! The law of the definitions, as the contract of an empty function.

ghost use Rattle.place_model.specs.Laws.{AssignmentLaw, GapLaw, MeetingLaw, OrderLaw, SharedLaw, TableLaw, ToldLaw, WholeLaw};

/// An area goes to its only best selection, and where there are two the first two are told; a region has its
/// areas in order. Things begin at the least address that their alignment allows, the startup code's table has
/// the least size that suffices, and from whole words come regions of whole words. Of ranges that meet the
/// first pair is told with its least address, and so are the first region that is Overfull, and the first that
/// has an address outside RAM, with the least one.
pub fn placing_law()
    ensures selections { AssignmentLaw }
    ensures order { OrderLaw }
    ensures gaps { GapLaw }
    ensures table { TableLaw }
    ensures whole { WholeLaw }
    ensures shared { SharedLaw }
    ensures meetings { MeetingLaw }
    ensures told { ToldLaw }
{}
