//! Images as texts of records, Intel HEX and Motorola S-records: written, and read with the first line at fault.
#![tactic(auto)]

mod bytes;
mod ihex;
mod laws;
mod pieces;
mod reading;
mod records;
mod srec;
mod writing;

pub use crate::laws::{first_fault_law, ihex_law, srec_law, worked_examples};
pub use crate::reading::{read_ihex, read_srec};
pub use crate::records::{Burn, Piece};
pub use crate::writing::{write_ihex, write_srec};
