//! The source that `make-big` makes, of any size: its text, the statements that it says, its words and the sum that its
//! program leaves. Definitions of this project's, with words as the ARM Architecture Reference Manual has them; there
//! is no engine. `big_input` makes the text, and `big_faults`, `big_lines`, `big_run` and `big_entry` are laws of it.
#![tactic(auto)]
