ghost use Rattle.std.specs.Prelude.{◌+◌, ◌<◌, IfSome, IfNone, length, take};
ghost use Rattle.qs_stdio_words.specs.Words.{IsFront};

use qs_stdio_words::Reading;

/// The first word that isn't understood: those before it may begin the command, and with it they may not.
/// `None` where all words may begin it, so that one is missing or none.
pub fn stray_word(words: &[String]) -> Option<usize>
    ensures some { IfSome result (λ i. (i < length words.now) × IsFront (take i words.now)
        × ¬ IsFront (take (i + 1) words.now)) }
    ensures none { IfNone result (IsFront words.now) }
{
    let mut reading = Reading::new();
    for i in 0..words.len() {
        match reading.and_then(&words[i]) {
            Some(next) => reading = next,
            None => return Some(i),
        }
    }
    None
}
