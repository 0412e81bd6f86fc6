use crate::stray::stray_word;
use qs_host::Ended;
use qs_replay_words::replay_words;
use qs_status::Status;
use std::fmt;

/// The command's form.
const USAGE: &str = "usage: qsd_replay [--blocks N] [--align N] [--generate N]";

/// What `--help` prints.
pub const HELP: &str = "\
usage: qsd_replay [--blocks N] [--align N] [--generate N]
       qsd_replay --help | --version

Replays a script of events against the core, over an image in memory: the script is read from standard
input, a line for each event, and what comes of each is printed. The image is N blocks (1 to 65,536; 64)
of 512 or 4096 bytes (512).

With --generate a run of 10,000 requests is made up from the seed N (below 2^64) over 8 blocks or more. No
input is read, and one line is printed: how many answers weren't 0, how many steps were made, and a sum of
the image's bytes.

Exit statuses: 0 at the script's end; 2 for other words; 4, 5 where the input couldn't be read, the output
not be written; 6 at a line that isn't understood; 7 at one whose event can't come now; 8 after 2^32 lines;
9 where memory was refused.";

/// What `--version` prints.
pub const VERSION: &str = "qsd_replay 1.0.0";

/// How a replay ended, with the words that the program was called with.
#[derive(Clone, Copy)]
pub struct Replayed<'a> {
    pub ended: Ended,
    pub words: &'a [String],
}

impl fmt::Display for Replayed<'_> {
    fn fmt<W: fmt::Write>(&self, f: &mut fmt::Formatter<W>) -> fmt::Result {
        match self.ended.status {
            Status::Usage => write_usage(f, self.words),
            _ => {
                let ended = self.ended;
                write!(f, "{ended}")
            }
        }
    }
}

/// Which word isn't understood, and the command's form.
fn write_usage<W: fmt::Write>(f: &mut fmt::Formatter<W>, words: &[String]) -> fmt::Result {
    match stray_word(words) {
        Some(i) => {
            let word = words[i].as_str();
            write!(f, "the word {word:?} isn't understood\n{USAGE}")
        }
        None if replay_words(words).is_some() => {
            write!(f, "a made-up run takes 8 blocks or more\n{USAGE}")
        }
        None => write!(f, "a word is missing\n{USAGE}"),
    }
}
