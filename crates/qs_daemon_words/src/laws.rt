//! Laws of the definitions, each the contract of a function with nothing to do.

ghost use Rattle.qs_daemon_words.specs.Laws.{AllFit, NamesFirst};

/// The word that is named bad is the first one: what stands behind it has no part in it, and of the words before it
/// none is bad.
pub fn first_bad_word()
    ensures { NamesFirst }
{}

/// What is told fits the options that stand among the words, of which four stand at most once.
pub fn options_once()
    ensures { AllFit }
{}
