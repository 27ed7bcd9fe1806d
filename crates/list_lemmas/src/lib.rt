//! Lemmas on lists that crates of different layers cite, in `proofs/`: stable sorts. No crate stands below this one.
#![tactic(auto)]
