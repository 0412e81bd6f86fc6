//! What the grammar of lines says of every text: each law is the contract of a function that does nothing.
ghost use Rattle.std.specs.Prelude.{◌≡◌, All, List, ℕ};
ghost use Rattle.qs_script.specs.Finds.{HasNo};
ghost use Rattle.qs_script.specs.Lines.{ReadsLine, words_of};
ghost use Rattle.qs_script.specs.declared.line.Line.{Line as ALine};

/// One text spells one line.
pub fn one_line()
    ensures { (text : List ℕ) (a b : ALine) → ReadsLine text a → ReadsLine text b → a ≡ b }
{}

/// A byte that a text lacks, as LF, stands in none of its words.
pub fn words_lack()
    ensures { (byte : ℕ) (text : List ℕ) → HasNo byte text → All (HasNo byte) (words_of text) }
{}
