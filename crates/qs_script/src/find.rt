ghost use Rattle.std.specs.Prelude.{◌≡◌, ◌∷◌, MatchOption};
ghost use Rattle.qs_script.specs.Finds.{HasNo, IsFirst};
ghost use Rattle.qs_script.specs.Lines.{words_left, words_of};

/// The place of the first byte that is this one.
pub fn first_of(bytes: &[u8], wanted: u8) -> Option<usize>
    ensures { MatchOption result (HasNo wanted bytes.now) (IsFirst wanted bytes.now) }
{
    for (i, byte) in bytes.iter().enumerate() {
        if *byte == wanted {
            return Some(i);
        }
    }
    None
}

/// The first word of a text, and what follows the space behind it, if there is one.
pub fn cut_word(text: &[u8]) -> (&[u8], Option<&[u8]>)
    ensures { words_of text.now ≡ result.0.now ∷ words_left result.1 }
{
    match first_of(text, b' ') {
        Some(at) => (&text[..at], Some(&text[at + 1..])),
        None => (text, None),
    }
}
