//! Law: wherever the object of a source is placed, each of its statements stands. Over the definitions of `stand_model`
//! and `source_model`; this project's. `armasm_core` calls `laws::objects_stand` for the object that it makes, wherever
//! that is placed.
#![tactic(auto)]

pub mod laws;
