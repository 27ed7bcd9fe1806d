//! Laws of statements that take up a word each, and of statements without a fault of values, over the definitions of
//! `source_model`. This project's; there is no engine. The proofs of `big_faults` cite both for the source that
//! `make-big` makes.
#![tactic(auto)]

ghost use Rattle.word_source.specs.Words.{CalmHaveNoFault, WordsHaveNoFault};

/// Statements that take up a word each have no fault of layout behind statements that have none.
pub fn words_have_no_fault()
    ensures { WordsHaveNoFault }
{}

/// Calm statements have no fault of values.
pub fn calm_have_no_fault()
    ensures { CalmHaveNoFault }
{}
