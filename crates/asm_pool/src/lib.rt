//! The literal pools of an area: which literals wait for a word, and where the words of each pool stand. Public source:
//! the SDT 2.50 Reference Guide, chapter on the assembler; that a pool has one word for each distinct literal, in order
//! of first use, is this project's. `asm_offsets` keeps a `Pools` for each area; `pool_law` says in plain words what
//! pools hold.
#![tactic(auto)]

mod index;
pub mod laws;
pub mod pools;

pub use crate::laws::pool_law;
pub use crate::pools::Pools;
