//! Laws of what statements put into their areas: no more than they take up, statements and the words of pools stand
//! apart, each area keeps its state, and a source makes one object at most. Over the definitions of `source_model`;
//! this project's. `armasm_core` calls them; the proofs of `asm_reading`, `object_laws` and `stand_laws` cite the
//! lemmas.
#![tactic(auto)]

pub mod laws;
