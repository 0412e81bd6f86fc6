//! Laws of the definitions, each the contract of a function with nothing to do.

ghost use Rattle.qs_keyval.specs.Cutting.{SpellsTexts};
ghost use Rattle.qs_keyval.specs.Reading.{HasKeyParts};

/// A word is the texts of its items, each with its commas doubled, joined by commas; and such texts
/// are those of the word that they spell.
pub fn spellings()
    ensures { SpellsTexts }
{}

/// A text is a key exactly where each of its parts between dots is, none of them empty.
pub fn keys()
    ensures { HasKeyParts }
{}
