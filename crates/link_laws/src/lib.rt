//! Laws of linked images: linked objects whose plan is accepted are placed, and a view of it shows them.
#![tactic(auto)]

mod laws;

pub use crate::laws::{
    aif_moves, made_aifs, made_images, made_links, objects_are_placed, objects_are_shown,
};
