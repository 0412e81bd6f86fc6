use crate::stray::stray_word;
use qs_host::{BrokenRule, Ended, StartFault};
use qs_status::Status;
use qs_stdio_words::stdio_words;
use std::fmt;

/// The command's form.
const USAGE: &str = "usage: qsd_stdio [--transmission] [--read-only] [--align N] IMAGE";

/// What `--help` prints.
pub const HELP: &str = "\
usage: qsd_stdio [--transmission] [--read-only] [--align N] IMAGE
       qsd_stdio --help | --version

Serves one NBD client on standard input and output over a raw image, under the export `disk`: greets,
answers the client's options, and then READ, WRITE, WRITE_ZEROES, TRIM and FLUSH at any offset and length.
IMAGE is a file or a block device, which is locked while it is served.

  --transmission  the client sends requests at once, without a handshake
  --read-only     refuse what would change the image, which need not be writable
  --align N       read and write the image in blocks of N bytes, 512 (the default) or 4096

Exit statuses: 0 after a DISC, an ABORT or the input's end between messages; 2 for other words; 3 where
the image's length isn't right; 4, 5 where the input couldn't be read, the output not be written; 8 after
2^32 options or requests; 9 where memory was refused; 10 at the input's end within a message; 11 at a
message without its magic number; 12 at flags of the client that aren't known; 13 at an option that they
don't allow; 14 at a WRITE or an option that is too long; 15 at EXPORT_NAME of no export; 18 where the
image can't be opened.";

/// What `--version` prints.
pub const VERSION: &str = "qsd_stdio 1.0.0";

/// The path of the image, where the words are the command's.
pub fn image_of(words: &[String]) -> &str {
    match stdio_words(words) {
        Some(told) => words[told.image].as_str(),
        None => "",
    }
}

/// The bytes of a block, where the words are the command's.
fn align_of(words: &[String]) -> u32 {
    match stdio_words(words) {
        Some(told) => told.align,
        None => 512,
    }
}

/// Why the program didn't begin to serve the image of this path.
#[derive(Clone, Copy)]
pub struct Unserved<'a> {
    pub fault: StartFault,
    pub image: &'a str,
}

impl fmt::Display for Unserved<'_> {
    fn fmt<W: fmt::Write>(&self, f: &mut fmt::Formatter<W>) -> fmt::Result {
        let fault = self.fault;
        match fault {
            StartFault::NotOpened(_) => {
                let image = self.image;
                write!(f, "{image:?}: {fault}")
            }
            StartFault::NotText => write!(f, "{fault}\n{USAGE}"),
            StartFault::Memory => write!(f, "{fault}"),
        }
    }
}

/// How the service ended, with the words that the program was called with.
#[derive(Clone, Copy)]
pub struct Served<'a> {
    pub ended: Ended,
    pub words: &'a [String],
}

impl fmt::Display for Served<'_> {
    fn fmt<W: fmt::Write>(&self, f: &mut fmt::Formatter<W>) -> fmt::Result {
        match self.ended.status {
            Status::Usage => write_usage(f, self.words),
            Status::OpenBad(bad) => {
                let image = image_of(self.words);
                let align = align_of(self.words);
                let rule = BrokenRule { bad, align };
                write!(f, "{image:?}: {rule}")
            }
            _ => {
                let ended = self.ended;
                write!(f, "{ended}")
            }
        }
    }
}

/// Which word isn't understood, and the command's form.
fn write_usage<W: fmt::Write>(f: &mut fmt::Formatter<W>, words: &[String]) -> fmt::Result {
    match stray_word(words) {
        Some(i) => {
            let word = words[i].as_str();
            write!(f, "the word {word:?} isn't understood\n{USAGE}")
        }
        None => write!(f, "a word is missing\n{USAGE}"),
    }
}
