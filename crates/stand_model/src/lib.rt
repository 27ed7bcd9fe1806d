//! What it means that the statements of a source stand where its object is placed, as definitions: data are their
//! operands' values, words read as their instructions, branches reach their targets, loads load their literals. Public
//! sources: ARM Object Format, and the ARM Architecture Reference Manual. `stand_laws` proves it of the object of a
//! source, `link_laws` of linked objects, and the headline cites it.
#![tactic(auto)]
