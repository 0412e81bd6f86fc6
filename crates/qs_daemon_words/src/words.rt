ghost use Rattle.std.specs.Prelude.{◌≡◌, ◌<◌, drop, length};
ghost use Rattle.qs_daemon_words.specs.Words.{Tells, about, about_word, daemon_by, one_option};

use crate::reading::ToldOptions;
use crate::told::{DaemonWords, WordFault};
use std::alloc::Global;

fn about_word(word: &str) -> Option<WordFault>
    ensures { result ≡ about_word word.now }
{
    match word {
        "--help" => Some(WordFault::Help),
        "--version" => Some(WordFault::Version),
        _ => None,
    }
}

/// What the words ask the program to tell of itself.
fn about(words: &[String]) -> Option<WordFault>
    ensures { result ≡ about words.now }
{
    match words {
        [word] => about_word(word.as_str()),
        _ => None,
    }
}

/// With the option at this word and its value behind it.
fn with_option(
    told: ToldOptions,
    alloc: Global,
    words: &[String],
    at: usize,
) -> Result<ToldOptions, WordFault>
    requires { at < length words.now }
    ensures { Tells result (one_option at told (drop at words.now)) }
{
    let option = told.option_at(at, words[at].as_str())?;
    match words.get(at + 1) {
        None => Err(WordFault::Bad(at + 1)),
        Some(value) => told.with_value_at(alloc, at + 1, option, value.as_str()),
    }
}

/// What the words behind the daemon's name tell.
///
/// The options are `--blockdev`, `--object`, `--export`, `--nbd-server`, `--chardev`, `--monitor` and `--workers`,
/// each with a value in the word behind it, `key=value` items or a JSON object, but for `--workers`, whose value is
/// a number from 1 to 8. The first `--blockdev` is the image file (`driver=file`). The last four stand at most
/// once, and `--monitor` names the `id` of a `--chardev` before it. The first word that may not stand there is
/// answered, where a word is missing at the end their number.
pub fn daemon_words(alloc: Global, words: &[String]) -> Result<DaemonWords, WordFault>
    ensures { Tells result (daemon_by words.now) }
{
    if let Some(fault) = about(words) {
        return Err(fault);
    }
    let mut told = ToldOptions::new(alloc);
    let mut at = 0;
    while at < words.len() {
        told = with_option(told, alloc, words, at)?;
        at += 2;
    }
    told.whole(words.len())
}
