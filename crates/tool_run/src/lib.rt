//! The command `run`: an image from files, the machine's run of it over banks and devices, and the answer; and the
//! command `burn`, which writes as a text of records what `run` would load of a map. This project's, over the formats'
//! own crates. `sdt_toolkit` calls `run` and `burn`; its `debug` opens an image as `run` does (`open_image`), and its
//! proofs call the laws of what executables and texts of records load.
#![tactic(auto)]

mod aifs;
mod banks;
mod burned;
mod burning;
mod command;
mod elfs;
mod ends;
mod image;
mod maps;
mod opening;

pub use crate::banks::ranges;
pub use crate::burned::burn_load_law;
pub use crate::burning::burn;
pub use crate::command::run;
pub use crate::elfs::elf_load_law;
pub use crate::ends::{ImageEnd, image_answer};
pub use crate::image::read_image;
pub use crate::opening::{Board, open_image};
