//! The law of the words' rules, proved as the contract of an empty function.

ghost use Rattle.tool_words.specs.Laws.{FineLaw, PlaceLaw, WithinLaw};

/// The place that is told is the least at which a word breaks a rule (each rule stands in `BreaksRule` by its cause);
/// where no word does, something that the command needs is missing, and the place is the one behind the last word.
/// In words that ask for a command, no word breaks a rule and nothing is missing. What breaks a rule is always one of
/// the words.
pub fn words_law()
    ensures place { PlaceLaw }
    ensures fine { FineLaw }
    ensures within { WithinLaw }
{}
