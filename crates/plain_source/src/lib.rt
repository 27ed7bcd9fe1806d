//! Law: a source of plain lines, which have no dollar and no word of expansion, expands to its lines. Over the
//! definitions of `expand_model`; this project's, and there is no engine. The proofs of `big_lines` cite it for the
//! source that `make-big` makes.
#![tactic(auto)]

ghost use Rattle.plain_source.specs.Plain.{PlainSourcesExpand};

/// A source of plain lines expands to its lines.
pub fn plain_sources_expand()
    ensures { PlainSourcesExpand }
{}
