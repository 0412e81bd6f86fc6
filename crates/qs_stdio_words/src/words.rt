ghost use Rattle.std.specs.Prelude.{◌≡◌, string_bytes};
ghost use Rattle.qs_stdio_words.specs.Words.{and_then, command, nothing_read, with_align, with_word, words_of_reading};

/// What may stand next among the words.
#[derive(Clone, Copy, Debug, PartialEq, Eq)]
pub enum Expected {
    /// An option, or the image.
    OptionOrImage,
    /// The number behind `--align`.
    BlockSize,
    /// Nothing more: the image is the last word.
    Nothing,
}

/// What the words that were read tell: the bytes of a block, where they were given, which of the options
/// without a value stood among them, and what may stand next.
#[derive(Clone, Copy, Debug, PartialEq, Eq)]
pub struct Reading {
    pub align: Option<u32>,
    pub read_only: bool,
    pub transmission: bool,
    pub next: Expected,
}

/// What the words of the command tell: the number of the image's word, the bytes of a block, whether
/// the export is read-only, and whether the input is a stream of requests alone.
#[derive(Clone, Copy, Debug, PartialEq, Eq)]
pub struct StdioWords {
    pub image: usize,
    pub align: u32,
    pub read_only: bool,
    pub transmission: bool,
}

impl Reading {
    /// No word was read.
    pub fn new() -> Self
        ensures { result ≡ nothing_read }
    {
        Reading {
            align: None,
            read_only: false,
            transmission: false,
            next: Expected::OptionOrImage,
        }
    }

    /// With one more option, or the image. An option stands at most once.
    fn with_word(self, word: &str) -> Option<Self>
        ensures { result ≡ with_word self word.now }
    {
        let Reading {
            align,
            read_only,
            transmission,
            next: _,
        } = self;
        match word {
            "--transmission" if !transmission => Some(Reading {
                transmission: true,
                ..self
            }),
            "--read-only" if !read_only => Some(Reading {
                read_only: true,
                ..self
            }),
            "--align" if align.is_none() => Some(Reading {
                next: Expected::BlockSize,
                ..self
            }),
            image if !image.starts_with("--") => Some(Reading {
                next: Expected::Nothing,
                ..self
            }),
            _ => None,
        }
    }

    /// With the number behind `--align`.
    fn with_align(self, word: &str) -> Option<Self>
        ensures { result ≡ with_align self word.now }
    {
        let align = match word {
            "512" => Some(512),
            "4096" => Some(4096),
            _ => return None,
        };
        Some(Reading {
            align,
            next: Expected::OptionOrImage,
            ..self
        })
    }

    /// With one more word; `None` where it may not stand there.
    pub fn and_then(self, word: &String) -> Option<Self>
        ensures { result ≡ and_then self word.now }
    {
        match self.next {
            Expected::OptionOrImage => self.with_word(word.as_str()),
            Expected::BlockSize => self.with_align(word.as_str()),
            Expected::Nothing => None,
        }
    }

    /// What so many words tell, where they are the whole command.
    fn whole(self, count: usize) -> Option<StdioWords>
        ensures { result ≡ words_of_reading count self }
    {
        match (self.next, count) {
            (Expected::Nothing, 1..) => Some(StdioWords {
                image: count - 1,
                align: self.align.unwrap_or(512),
                read_only: self.read_only,
                transmission: self.transmission,
            }),
            _ => None,
        }
    }
}

/// What the words behind the program's name tell; `None` exactly where they aren't
/// `[--transmission] [--read-only] [--align N] IMAGE`, with the options in any order, each at most once, and
/// an IMAGE that doesn't begin with `--`. N is 512 or 4096, and 512 without it: the bytes of a block.
pub fn stdio_words(words: &[String]) -> Option<StdioWords>
    ensures { result ≡ command words.now }
{
    let mut reading = Reading::new();
    for word in words {
        match reading.and_then(word) {
            Some(next) => reading = next,
            None => return None,
        }
    }
    reading.whole(words.len())
}
