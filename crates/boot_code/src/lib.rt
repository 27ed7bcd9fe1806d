//! The startup code of a scatter image, and the zero-init code and relocator of an AIF: their words,
//! the startup code's table, and the laws of their runs over the definition of the machine; and maps from
//! addresses to bytes, made of segments: what a loader puts into memory, and what a program sees there.
#![tactic(auto)]

mod laws;
mod rows;
mod words;

pub use laws::{
    aif_boots, aif_is_exact, fixed_aif_is_exact, map_law, startup_boots, startup_is_exact,
    words_read,
};
pub use rows::{CopyRow, ZeroRow, steps_bound, table};
pub use words::{boot_words, relocator_words, zero_words};
