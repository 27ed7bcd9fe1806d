//! Where the statements of a source's areas stand: each area's running offset and its pools. Public source: the SDT
//! 2.50 Reference Guide, chapter on the assembler; that an area ends at 2^24 at the most is this project's.
//! `asm_laying` places statements by an `Ends`; `asm_checks`, `asm_layout` and emission read the pools of the areas as
//! `LaidPools`.
#![tactic(auto)]

mod area_end;
pub mod ends;
pub mod extents;
pub mod laws;
mod places;

pub use crate::ends::Ends;
pub use crate::extents::{Extent, LaidPools, PlacedExtent, TooLarge};
pub use crate::laws::{extents_are_placeable, literals_are_placed};
