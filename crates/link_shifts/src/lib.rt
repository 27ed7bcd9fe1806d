//! Where a relocatable ARM image file is moved: its words that are shifted then, and what of it can't be moved.
#![tactic(auto)]

mod balances;
mod changes;
mod judging;
mod listing;
mod moving;

pub use crate::judging::first_unmovable;
pub use crate::listing::movements;
