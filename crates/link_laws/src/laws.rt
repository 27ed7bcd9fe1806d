//! Laws of the definitions, each proved as the contract of an empty function.

ghost use Rattle.link_laws.specs.AifJoins.{BytesMove, MovedImageBoots, MovedImageShows, PlanMoves};
ghost use Rattle.link_laws.specs.AifStarts.{MadeFixedBoots, MadeHasParts, MadeIsAif, MadeIsSeen, MadeMovingBoots, MovedIsSeen};
ghost use Rattle.link_laws.specs.Joins.{MadeBoots, MadeFiles, MadeHasBytes, MadeHasPlaces, MadeIsApplied, MadeIsPlaced, MadeStarts};
ghost use Rattle.link_laws.specs.Laws.{AppliedAreSized, ObjectsAreShown, ObjectsArePlaced, RangesExist, StatementsStand};
ghost use Rattle.link_laws.specs.Plans.{ViewsAreSeen};

/// Where a plan of valid objects is accepted, each object is placed at the addresses of its areas, and its symbols have
/// the values that their fields and these addresses give. Each region has a range.
pub fn objects_are_placed()
    ensures placed { ObjectsArePlaced }
    ensures ranges { RangesExist }
{}

/// Where areas are patched and veneers lead to their targets, all bytes have their places, and a view of the plan shows
/// each object: statements stand there that stand wherever their object is placed. Names mean what the linked objects export,
/// and the header of an ARM image file names its address.
pub fn objects_are_shown()
    ensures sizes { AppliedAreSized }
    ensures objects { ObjectsAreShown }
    ensures statements { StatementsStand }
    ensures views { ViewsAreSeen }
{}

/// A relocatable ARM image file at another base has the plan that it has at its link base, moved there. Where nothing in it
/// is NotRelocatable, its areas and veneers there have the bytes that they have at the link base, each of whose words is
/// shifted as often as it has shifts. So its file becomes the view of the plan there, and it boots from every base that
/// leaves room for the file and the zero part, within the bound.
pub fn aif_moves()
    ensures plans { PlanMoves }
    ensures bytes { BytesMove }
    ensures shows { MovedImageShows }
    ensures boots { MovedImageBoots }
{}

/// A link that is made is placed as the laws on plans ask, at the plan's addresses. Its areas are patched, and its
/// veneers lead to their targets.
pub fn made_links()
    ensures placed { MadeIsPlaced }
    ensures places { MadeHasPlaces }
    ensures applied { MadeIsApplied }
{}

/// The regions of a link that is made, without a header, have the bytes of its plan's image, and so have its files. A
/// scatter image that is made starts: its files reach the entry within the bound, with the memory as the view of its plan
/// says.
pub fn made_images()
    ensures bytes { MadeHasBytes }
    ensures files { MadeFiles }
    ensures starts { MadeStarts }
    ensures boots { MadeBoots }
{}

/// A link that is made as an ARM image file has the image of its plan, with zeros in the place of the header, and its header
/// calls the entry in ARM state or by a veneer of its first region. A view of its plan shows the linked objects as they are
/// placed, at its base and, if it can be moved, at every base that leaves room. It starts there: its file reaches the entry
/// within the bound, with the memory as that view says.
pub fn made_aifs()
    ensures is_aif { MadeIsAif }
    ensures parts { MadeHasParts }
    ensures seen { MadeIsSeen }
    ensures moved { MovedIsSeen }
    ensures fixed { MadeFixedBoots }
    ensures moving { MadeMovingBoots }
{}
