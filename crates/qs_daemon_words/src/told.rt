ghost use Rattle.std.specs.Prelude.{◌≡◌, ◌++◌, ◌∷◌, [], string_bytes, IfOk};

use qs_bytes::Name;
use qs_command::Command;
use std::alloc::{AllocError, Global};
use std::marker::Model;

/// A text, seen as its bytes.
#[derive(Debug, Drop)]
pub struct Text {
    text: String,
}

impl Model for Text {
    ghost use Rattle.std.specs.Prelude.{List, ℕ, string_bytes};

    ghost Value = { List ℕ };

    ghost view = { λ t. string_bytes t.text };
}

impl Text {
    /// The text of a string. It takes no memory.
    pub fn of(text: String) -> Self
        ensures { result ≡ string_bytes text }
    {
        Text { text }
    }

    /// The text itself.
    pub fn as_str(&self) -> &str
        ensures { result.now ≡ self.now }
    {
        self.text.as_str()
    }
}

/// The image file as the first `--blockdev` tells it.
#[derive(Debug, Drop)]
pub struct ImageFile {
    /// The name of the node that stands for it.
    pub node: Name,
    /// Its path.
    pub filename: Text,
    /// The bytes of a block: 512 or 4096.
    pub align: u32,
    pub read_only: bool,
}

/// Where the daemon listens for clients.
#[derive(Debug, Drop)]
pub enum Listen {
    /// A Unix socket at this path.
    Unix { path: Text },
    /// TCP. The host is a name or an address; port 0 stands for any that is free.
    Inet { host: Text, port: u16 },
}

/// A command, and the number of the word that says it.
#[derive(Clone, Copy, Debug, PartialEq, Eq)]
pub struct WordCommand {
    pub word: usize,
    pub command: Command,
}

/// The commands that option words say, in their order, seen as the list of them.
#[derive(Debug, Drop)]
pub struct WordCommands {
    commands: Vec<WordCommand>,
}

impl Model for WordCommands {
    ghost use Rattle.std.specs.Prelude.{List};
    ghost use Rattle.qs_daemon_words.specs.declared.told.WordCommand.{WordCommand};

    ghost Value = { List WordCommand };

    ghost view = { λ c. c.commands.items };
}

impl WordCommands {
    /// No command. It takes no memory.
    pub fn new(alloc: Global) -> Self
        ensures { result ≡ [] }
    {
        WordCommands {
            commands: Vec::new(alloc),
        }
    }

    /// The commands.
    pub fn as_slice(&self) -> &[WordCommand]
        ensures { result.now ≡ self.now }
    {
        self.commands.as_slice()
    }

    /// With one more command, that of the word of this number, behind the others.
    pub fn with(mut self, word: usize, command: Command) -> Result<Self, AllocError>
        ensures { IfOk result (λ longer. longer ≡ self ++ record { word = word; command = command } ∷ []) }
    {
        self.commands.push(WordCommand { word, command })?;
        Ok(self)
    }
}

/// What the words of the daemon tell.
#[derive(Debug, Drop)]
pub struct DaemonWords {
    /// The image file and its node.
    pub image: ImageFile,
    /// Where clients come from; nowhere without `--nbd-server`.
    pub listen: Option<Listen>,
    /// Whether standard input and output are a monitor.
    pub monitor: bool,
    /// How many threads serve clients: 1 to 8.
    pub workers: u8,
    /// What the other options ask for, to be done in this order.
    pub commands: WordCommands,
}

/// Why words tell nothing that the daemon could do.
#[derive(Debug, Drop)]
pub enum WordFault {
    /// The only word is `--help`.
    Help,
    /// The only word is `--version`.
    Version,
    /// The word of this number, from 0, is the first that may not stand there. Where a word is missing at the end,
    /// it is how many there are.
    Bad(usize),
    /// Memory was refused.
    Memory,
}
