//! Objects and libraries to an image: what is linked, where it stands, and its bytes.
#![tactic(auto)]

mod imaging;
pub mod laws;
mod linking;
mod loads;
mod making;
mod naming;
mod placing;
mod reporting;
mod starting;
mod symbols;

pub use crate::linking::{link, link_aif, link_named_scatter, link_plain, link_scatter};
pub use crate::making::PlacedImage;
pub use crate::naming::NamedImage;
pub use crate::placing::{PlacedLink, place_link, place_scatter};
pub use crate::reporting::report;
