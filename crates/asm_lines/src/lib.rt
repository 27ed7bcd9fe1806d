//! Lines of a source's text, and tokens of a line. Public source: the SDT 2.50 Reference Guide, chapter on the
//! assembler; the limits of lines and names are this project's. `asm_expand` splits files by `split_lines`,
//! `asm_expand` scans lines by `scan::scan`, `asm_reading` by that or by `scan::scan_into`, with one list for many lines, and
//! `asm_variables` reads names and label fields by the forms of bytes in `bytes`.
#![tactic(auto)]

pub mod bytes;
pub mod forms;
pub mod line_tokens;
pub mod scan;
pub mod split;

pub use crate::line_tokens::tokens;
pub use crate::split::split_lines;
