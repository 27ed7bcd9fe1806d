//! Loads and stores of the machine over a bus: one register, the swap, and blocks.
//!
//! Each call ends in an [`Outcome`] and is `IsDone part ..` of a part of the model. A part is a function from what a step
//! is under and the instruction under way to the end of the step. Calls compose by `done-as` of
//! `proofs/DoneLemmas`: what is done of a part is done of each part that is the same at these registers and this bus.
//! Code that touches registers alone is done by `makes-nothing`. The bus must be ready (`IsReady`), and no store may be
//! noted since its last tick.
//! What all steps of the machine share: an absent fetch, and how an instruction's outcome ends a step.
#![tactic(auto)]

mod access;
mod block;
mod ends;
mod outcome;
mod single;

pub use crate::access::{fetch, is_there, lacks_frame, may_store, read, store, write};
pub use crate::block::{Block, block_moved};
pub use crate::ends::{finish, prefetch_abort};
pub use crate::outcome::Outcome;
pub use crate::single::{Base, loaded, stored, swapped, transferred};
