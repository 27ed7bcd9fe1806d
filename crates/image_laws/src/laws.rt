//! Laws of the definitions, each proved as the contract of an empty function.

ghost use Rattle.image_laws.specs.AifLaws.{FixedImageBoots, FixedImageLoads, HeaderLaw, OwnBaseLaw, RelocatableLaw};
ghost use Rattle.image_laws.specs.Laws.{ImageBoots, ImagePlaces, PlainLaw, ViewLaw};

/// A plan without a refusal, each of whose things has its size, has files and one view: each thing stands in
/// the view at its address, and zeros stand in the gaps and zero parts. The files, moved and cleared, are the view; of an
/// image of bytes alone they need no moving.
pub fn view_law()
    ensures view { ViewLaw }
    ensures plain { PlainLaw }
{}

/// A scatter image that is placed without a refusal starts: its rows, files and view are as the startup code
/// needs them, so from every permitted state it reaches the entry within the bound, with the memory as the
/// view says.
pub fn image_boots()
    ensures places { ImagePlaces }
    ensures boots { ImageBoots }
{}

/// An ARM image file that is placed without a refusal has the header that its startup needs, and one that can be moved
/// its relocator and list. One that can't be moved starts at its base: from every permitted state it reaches the entry
/// within the bound, with the memory as the view says; what one that can be moved becomes at its own base is its view.
pub fn aif_boots()
    ensures header { HeaderLaw }
    ensures relocatable { RelocatableLaw }
    ensures own_base { OwnBaseLaw }
    ensures loads { FixedImageLoads }
    ensures boots { FixedImageBoots }
{}
