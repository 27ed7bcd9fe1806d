//! Law: a program of `examples` is accepted, from its text to the object of its statements. This project's, over the
//! definitions that `assemble` meets; there is no engine. No crate stands on it: the law is for the reader.
#![tactic(auto)]

ghost use Rattle.example_laws.specs.Words.{WordsAreAccepted, WordsAreRead, WordsExpand, WordsHaveNoFault};

use asm_reading::laws::one_reading;
use expand_model::expansion_law;
use plain_source::plain_sources_expand;
use word_source::{calm_have_no_fault, words_have_no_fault};

/// The text of `examples/words/words.s` expands to its lines, these say its statements, which have no fault of layout and none
/// of values, and nothing but an object of these statements is assembled from it.
pub fn words_are_accepted()
    ensures expand { WordsExpand }
    ensures read { WordsAreRead }
    ensures faultless { WordsHaveNoFault }
    ensures accepted { WordsAreAccepted }
{
    expansion_law();
    plain_sources_expand();
    one_reading();
    words_have_no_fault();
    calm_have_no_fault();
}
