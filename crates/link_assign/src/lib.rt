//! Which region of a description takes each area of the linked objects, and in which order areas stand there.
#![tactic(auto)]

mod assigning;
mod choices;
mod finding;
mod index;
mod items;
mod keeping;
mod listing;
mod offers;
mod ordering;

pub use crate::assigning::assign;
