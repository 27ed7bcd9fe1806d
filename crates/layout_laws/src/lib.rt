//! Laws of the final names of a source without faults: a round of evaluation leaves them alone and nothing else, so
//! that names for expressions can be evaluated in any order, and what is known at a line has its final value. Of
//! definitions of `asm_model`, which are this project's. `asm_layout` and `armasm_core` call the laws in `laws`; proofs
//! from `asm_names` up cite the lemmas.
#![tactic(auto)]

pub mod laws;
