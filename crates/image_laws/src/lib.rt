//! Laws of placed images: a plan without a refusal has files and one view; a scatter image that is placed starts, and
//! so does an ARM image file that can't be moved; and what is written of a plan's image as an ARM image file is the
//! file of its plan. This project's, over the definitions of `place_model` and `image_model`, with ARM image files as
//! the SDT 2.50 Reference Guide has them; there is no engine. `sdt_toolkit` calls `view_law` and `image_boots` for
//! `make-big`; the proofs of `link_laws` and `sdt_toolkit` cite the lemmas.
#![tactic(auto)]

mod aif_file;
mod laws;

pub use crate::aif_file::file_law;
pub use crate::laws::{aif_boots, image_boots, view_law};
