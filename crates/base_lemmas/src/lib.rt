//! Lemmas on truths, lists and numbers that several crates cite, in `proofs/`.
#![tactic(auto)]
