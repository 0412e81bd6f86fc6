//! Laws of the definitions, each the contract of a function with nothing to do.

ghost use Rattle.qs_nbd_wire.specs.Laws.{AnswersStandApart, RepliesStandApart, SpellsFlags, SpellsHeads, SpellsOptions};

/// A client's flags have one spelling.
pub fn one_flags()
    ensures { SpellsFlags }
{}

/// An option has one spelling, and these bytes spell no other option.
pub fn one_option()
    ensures { SpellsOptions }
{}

/// A reply to an option has one spelling, and none is the beginning of another.
pub fn replies_apart()
    ensures { RepliesStandApart }
{}

/// In one mode, no answer to EXPORT_NAME is the beginning of another.
pub fn answers_apart()
    ensures { AnswersStandApart }
{}

/// The head of a request has one spelling, of 28 bytes, and these spell no other head.
pub fn one_head()
    ensures { SpellsHeads }
{}
