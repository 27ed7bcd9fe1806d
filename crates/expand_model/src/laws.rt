//! The laws of the definitions, as contracts of empty functions.

ghost use Rattle.expand_model.specs.Expands.{ExpansionLaw};
ghost use Rattle.expand_model.specs.Words.{WordsLaw};

use asm_expr::read::one_parse;
use asm_lines::scan::one_scan;

/// A source has at most one outcome.
pub fn expansion_law()
    ensures { ExpansionLaw }
{
    one_scan();
    one_parse();
}

/// The words of a line that has tokens are its first tokens.
pub fn words_law()
    ensures { WordsLaw }
{}
