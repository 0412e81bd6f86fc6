//! What the definition of the command's words says: each law is the contract of a function that does nothing.
ghost use Rattle.std.specs.Prelude.{◌≡◌, List, String};
ghost use Rattle.std.specs.Global.{Global};
ghost use Rattle.qs_replay_words.specs.Words.{IsImageOf, TellsWords};
ghost use Rattle.qs_replay_words.specs.declared.words.ReplayWords.{ReplayWords as Told};

/// Words tell one thing at most.
pub fn tells_one()
    ensures { (words : List (String Global)) (one two : Told) → TellsWords words one → TellsWords words two →
        one ≡ two }
{}

/// The words tell from 1 to 65,536 blocks of 512 or 4096 bytes.
pub fn tells_an_image()
    ensures { (words : List (String Global)) (told : Told) → TellsWords words told → IsImageOf told }
{}
