//! The values that symbols of linked objects have where their areas stand, by indexes of names and areas.
#![tactic(auto)]

mod bases;
mod definitions;
mod extents;
mod moving;
mod names;
mod objects;
mod regions;
mod values;

pub use crate::bases::{AreaBases, area_bases, base_at, reduced};
pub use crate::definitions::{Defined, index_definitions};
pub use crate::moving::is_moving;
pub use crate::names::find;
pub use crate::objects::{area_at, sum, symbol_at};
pub use crate::regions::region_numbers;
pub use crate::values::{
    AreaOffset, BranchTarget, SymbolContext, SymbolValue, gathered, symbol_values, value_at,
};
