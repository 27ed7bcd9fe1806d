//! Chunk files, the container of ARM object files and libraries: a table that says where each named
//! chunk stands, and the chunks.
#![tactic(auto)]

mod laws;
mod reading;
mod records;
mod writing;

pub use crate::laws::{chunks_law, one_record, size_law, spelling_law, table_law};
pub use crate::reading::{bytes_of_span, read_chunks, read_table};
pub use crate::records::{Chunk, Chunks, Span};
pub use crate::writing::{push_word, write_chunks};
