//! Laws: the object of statements without faults is a valid object, part by part: areas, relocations, symbols and the
//! entry. Over the definitions of `source_model` and `aof_object`; this project's. `armasm_core` calls them; the proofs
//! of `stand_laws` cite the lemmas.
#![tactic(auto)]

pub mod laws;
