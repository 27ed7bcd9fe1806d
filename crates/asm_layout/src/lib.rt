//! The layout of a source: its statements where they stand, its areas and its names, or the refusal of its first faulty
//! line. Public source: the SDT 2.50 Reference Guide, chapter on the assembler; the order of faults is this project's.
//! `armasm_core` calls `front_fault` for lines that can't be read behind others, and else `lay_out`, whose `Layout`
//! pass 2 goes over.
#![tactic(auto)]

mod areas;
mod finishing;
pub mod front;
pub mod laid;
pub mod late;
pub mod layout;
mod outline;
mod placed_lines;
mod states;
pub mod telling;
mod walking;

pub use crate::front::front_fault;
pub use crate::laid::{LaidArea, Layout};
pub use crate::layout::lay_out;
pub use asm_laying::laying::LaidStatement;
