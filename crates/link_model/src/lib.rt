//! The types of the linker, and the definitions of what it links: which members of libraries are chosen,
//! what each name means, the region symbols and their values, and the veneers that a link needs.
#![tactic(auto)]

mod images;
mod laws;
mod placing;
mod selection;

pub use crate::images::{Aif, Image, ImageKind, LoadRegion};
pub use crate::laws::{linked_law, veneers_law};
pub use crate::placing::{
    AreaName, Assigned, PlacedArea, PlacedVeneer, Placement, Region, Veneer, to_u32,
};
pub use crate::selection::{Definition, Linked, LinkedEntry, Named};
