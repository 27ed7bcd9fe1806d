//! What the relocations of a placed link name.

ghost use Rattle.std.specs.Prelude.{◌≡◌};
ghost use Rattle.link_values.specs.Shifts.{names_moving};
ghost use Rattle.link_model.specs.Members.{link_of};
ghost use Rattle.link_shifts.specs.Tells.{Tells};

use aof_object::Reloc;
use link_model::{Linked, Placement};
use link_values::{SymbolContext, is_moving};

/// A link with its placement, and what these tell of names and addresses.
#[derive(Drop)]
pub struct Image<'a> {
    pub linked: &'a Linked,
    pub placement: &'a Placement,
    pub names: SymbolContext<'a>,
}

/// Whether what a relocation of an object names moves with the image.
pub fn names_moving(image: &Image<'_>, object: u32, reloc: Reloc) -> bool
    requires { Tells image.now }
    ensures { result ≡ names_moving (link_of image.now.linked.now) image.now.placement.now object reloc }
{
    if reloc.is_by_symbol() {
        return is_moving(&image.names, object, reloc.number());
    }
    true
}
