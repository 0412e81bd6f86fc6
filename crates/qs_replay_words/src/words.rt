ghost use Rattle.std.specs.Prelude.{◌≡◌, IfSome, IsNone};
ghost use Rattle.qs_replay_words.specs.Words.{ReadsBlocks, ReadsSeed, ReadsWord, TellsWords, nothing_read, words_of_reading, with_align, with_option};
ghost use Rattle.qs_replay_words.specs.declared.words.Reading.{Reading as Read};
ghost use Rattle.qs_replay_words.specs.declared.words.ReplayWords.{ReplayWords as Told};

use qs_script::number::number;

/// What may stand next among the words.
#[derive(Clone, Copy, Debug, PartialEq, Eq)]
pub enum Expected {
    /// An option, or no word more.
    OptionWord,
    /// The number behind `--blocks`.
    Blocks,
    /// The number behind `--align`.
    BlockSize,
    /// The number behind `--generate`.
    Seed,
}

/// What the words that were read tell: the numbers of the options that stood among them, and what may
/// stand next.
#[derive(Clone, Copy, Debug, PartialEq, Eq)]
pub struct Reading {
    pub blocks: Option<u64>,
    pub align: Option<u32>,
    pub generate: Option<u64>,
    pub next: Expected,
}

/// What the words of the command tell: how many blocks the image has, how many bytes a block has, and
/// the seed of a run that is made up, where there is one.
#[derive(Clone, Copy, Debug, PartialEq, Eq)]
pub struct ReplayWords {
    pub blocks: u64,
    pub align: u32,
    pub generate: Option<u64>,
}

impl Reading {
    /// No word was read.
    pub fn new() -> Self
        ensures { result ≡ nothing_read }
    {
        Reading {
            blocks: None,
            align: None,
            generate: None,
            next: Expected::OptionWord,
        }
    }

    /// With one more option, which stands at most once.
    fn with_option(self, word: &str) -> Option<Self>
        ensures { result ≡ with_option self word.now }
    {
        let Reading {
            blocks,
            align,
            generate,
            next: _,
        } = self;
        match word {
            "--blocks" if blocks.is_none() => Some(Reading {
                next: Expected::Blocks,
                ..self
            }),
            "--align" if align.is_none() => Some(Reading {
                next: Expected::BlockSize,
                ..self
            }),
            "--generate" if generate.is_none() => Some(Reading {
                next: Expected::Seed,
                ..self
            }),
            _ => None,
        }
    }

    /// With the number behind `--blocks`.
    fn with_blocks(self, word: &str) -> Option<Self>
        ensures some { IfSome result (ReadsBlocks self word.now) }
        ensures none { IsNone result → (r : Read) → ¬ ReadsBlocks self word.now r }
    {
        let blocks = number(word.as_bytes(), 65_536)?;
        if blocks == 0 {
            return None;
        }
        Some(Reading {
            blocks: Some(blocks),
            next: Expected::OptionWord,
            ..self
        })
    }

    /// With the number behind `--align`.
    fn with_align(self, word: &str) -> Option<Self>
        ensures { result ≡ with_align self word.now }
    {
        let align = match word {
            "512" => Some(512),
            "4096" => Some(4096),
            _ => return None,
        };
        Some(Reading {
            align,
            next: Expected::OptionWord,
            ..self
        })
    }

    /// With the number behind `--generate`.
    fn with_seed(self, word: &str) -> Option<Self>
        ensures some { IfSome result (ReadsSeed self word.now) }
        ensures none { IsNone result → (r : Read) → ¬ ReadsSeed self word.now r }
    {
        let seed = number(word.as_bytes(), u64::MAX)?;
        Some(Reading {
            generate: Some(seed),
            next: Expected::OptionWord,
            ..self
        })
    }

    /// With one more word; `None` where it may not stand there.
    pub fn and_then(self, word: &String) -> Option<Self>
        ensures some { IfSome result (ReadsWord self word.now) }
        ensures none { IsNone result → (r : Read) → ¬ ReadsWord self word.now r }
    {
        match self.next {
            Expected::OptionWord => self.with_option(word.as_str()),
            Expected::Blocks => self.with_blocks(word.as_str()),
            Expected::BlockSize => self.with_align(word.as_str()),
            Expected::Seed => self.with_seed(word.as_str()),
        }
    }

    /// What the words tell, where they are the whole command.
    pub fn whole(self) -> Option<ReplayWords>
        ensures { result ≡ words_of_reading self }
    {
        match self.next {
            Expected::OptionWord => Some(ReplayWords {
                blocks: self.blocks.unwrap_or(64),
                align: self.align.unwrap_or(512),
                generate: self.generate,
            }),
            _ => None,
        }
    }
}

/// What the words behind the program's name tell; `None` exactly where they aren't
/// `[--blocks N] [--align N] [--generate N]`, each at most once and in any order. N of `--blocks` is from
/// 1 to 65,536 and 64 without it, that of `--align` is 512 or 4096 and 512 without it, that of
/// `--generate` is below 2^64. Numbers are decimal without leading zeros.
pub fn replay_words(words: &[String]) -> Option<ReplayWords>
    ensures some { IfSome result (λ told. TellsWords words.now told) }
    ensures none { IsNone result → (told : Told) → ¬ TellsWords words.now told }
{
    let mut reading = Reading::new();
    for word in words {
        match reading.and_then(word) {
            Some(next) => reading = next,
            None => return None,
        }
    }
    reading.whole()
}
