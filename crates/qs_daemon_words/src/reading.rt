ghost use Rattle.std.specs.Prelude.{◌≡◌, option_map};
ghost use Rattle.qs_qmp_arguments.specs.Problems.{Gives};
ghost use Rattle.qs_daemon_words.specs.Words.{Tells, has_told, may_stand, nothing_told, option_named, or_bad, whole, with_blockdev, with_chardev, with_command, with_image, with_listen, with_monitor, with_value, with_workers};

use crate::told::{DaemonWords, ImageFile, Listen, WordCommands, WordFault};
use crate::values::{chardev_in, command_in, image_in, listen_in, monitor_in, workers_in};
use qs_bytes::Name;
use qs_qmp_arguments::{ArgumentFault, CommandName};
use std::alloc::Global;

/// The daemon's options. Each has a value, the word behind it.
#[derive(Clone, Copy, Debug, PartialEq, Eq)]
pub(crate) enum DaemonOption {
    Blockdev,
    Object,
    Export,
    NbdServer,
    Chardev,
    Monitor,
    Workers,
}

impl DaemonOption {
    /// The option of this name.
    pub(crate) fn named(word: &str) -> Option<DaemonOption>
        ensures { result ≡ option_named word.now }
    {
        match word {
            "--blockdev" => Some(DaemonOption::Blockdev),
            "--object" => Some(DaemonOption::Object),
            "--export" => Some(DaemonOption::Export),
            "--nbd-server" => Some(DaemonOption::NbdServer),
            "--chardev" => Some(DaemonOption::Chardev),
            "--monitor" => Some(DaemonOption::Monitor),
            "--workers" => Some(DaemonOption::Workers),
            _ => None,
        }
    }
}

/// What the options that were read tell.
#[derive(Debug, Drop)]
pub(crate) struct ToldOptions {
    image: Option<ImageFile>,
    listen: Option<Listen>,
    chardev: Option<Name>,
    monitor: bool,
    workers: Option<u8>,
    commands: WordCommands,
}

impl ToldOptions {
    /// No option was read.
    pub(crate) fn new(alloc: Global) -> Self
        ensures { result ≡ nothing_told }
    {
        ToldOptions {
            image: None,
            listen: None,
            chardev: None,
            monitor: false,
            workers: None,
            commands: WordCommands::new(alloc),
        }
    }

    /// Whether the option stood already, of those that stand at most once.
    fn has(&self, option: DaemonOption) -> bool
        ensures { result ≡ has_told self.now option }
    {
        match option {
            DaemonOption::NbdServer => self.listen.is_some(),
            DaemonOption::Chardev => self.chardev.is_some(),
            DaemonOption::Monitor => self.monitor,
            DaemonOption::Workers => self.workers.is_some(),
            DaemonOption::Blockdev | DaemonOption::Object | DaemonOption::Export => false,
        }
    }

    /// The option of the word of this number.
    pub(crate) fn option_at(&self, at: usize, word: &str) -> Result<DaemonOption, WordFault>
        ensures { Tells result (may_stand at self.now (option_named word.now)) }
    {
        match DaemonOption::named(word) {
            Some(option) if !self.has(option) => Ok(option),
            _ => Err(WordFault::Bad(at)),
        }
    }

    #[tactic(auto, unfolding(crate::specs::Words::with_image))]
    fn with_image(mut self, alloc: Global, word: &str) -> Result<Self, ArgumentFault>
        ensures { Gives (λ x. x) result (with_image self word.now) }
    {
        let image = image_in(alloc, word)?;
        self.image = Some(image);
        Ok(self)
    }

    /// With the command that the word of this number says.
    #[tactic(auto, unfolding(crate::specs::Words::with_command))]
    fn with_command(
        mut self,
        alloc: Global,
        at: usize,
        name: CommandName,
        implied: &str,
        word: &str,
    ) -> Result<Self, ArgumentFault>
        ensures { Gives (λ x. x) result (with_command at name implied.now self word.now) }
    {
        let command = command_in(alloc, name, implied, word)?;
        self.commands = self.commands.with(at, command)?;
        Ok(self)
    }

    /// With the image file, or with one more node where it was told.
    fn with_blockdev(self, alloc: Global, at: usize, word: &str) -> Result<Self, ArgumentFault>
        ensures { Gives (λ x. x) result (with_blockdev at self word.now) }
    {
        if self.image.is_some() {
            self.with_command(alloc, at, CommandName::BlockdevAdd, "driver", word)
        } else {
            self.with_image(alloc, word)
        }
    }

    #[tactic(auto, unfolding(crate::specs::Words::with_listen))]
    fn with_listen(mut self, alloc: Global, word: &str) -> Result<Self, ArgumentFault>
        ensures { Gives (λ x. x) result (with_listen self word.now) }
    {
        let listen = listen_in(alloc, word)?;
        self.listen = Some(listen);
        Ok(self)
    }

    #[tactic(auto, unfolding(crate::specs::Words::with_chardev))]
    fn with_chardev(mut self, alloc: Global, word: &str) -> Result<Self, ArgumentFault>
        ensures { Gives (λ x. x) result (with_chardev self word.now) }
    {
        let id = chardev_in(alloc, word)?;
        self.chardev = Some(id);
        Ok(self)
    }

    #[tactic(auto, unfolding(crate::specs::Words::with_monitor))]
    fn with_monitor(mut self, alloc: Global, word: &str) -> Result<Self, ArgumentFault>
        ensures { Gives (λ x. x) result (with_monitor self word.now) }
    {
        monitor_in(alloc, self.chardev.as_ref(), word)?;
        self.monitor = true;
        Ok(self)
    }

    #[tactic(auto, unfolding(crate::specs::Words::with_workers))]
    fn with_workers(mut self, alloc: Global, word: &str) -> Result<Self, ArgumentFault>
        ensures { Gives (λ x. x) result (with_workers self word.now) }
    {
        let workers = workers_in(alloc, word)?;
        self.workers = Some(workers);
        Ok(self)
    }

    /// With the option's value, which is the word of this number.
    fn with_value(
        self,
        alloc: Global,
        at: usize,
        option: DaemonOption,
        word: &str,
    ) -> Result<Self, ArgumentFault>
        ensures { Gives (λ x. x) result (with_value at option self word.now) }
    {
        match option {
            DaemonOption::Blockdev => self.with_blockdev(alloc, at, word),
            DaemonOption::Object => {
                self.with_command(alloc, at, CommandName::ObjectAdd, "qom-type", word)
            }
            DaemonOption::Export => {
                self.with_command(alloc, at, CommandName::BlockExportAdd, "type", word)
            }
            DaemonOption::NbdServer => self.with_listen(alloc, word),
            DaemonOption::Chardev => self.with_chardev(alloc, word),
            DaemonOption::Monitor => self.with_monitor(alloc, word),
            DaemonOption::Workers => self.with_workers(alloc, word),
        }
    }

    /// The same, where a value that is refused is a bad word.
    pub(crate) fn with_value_at(
        self,
        alloc: Global,
        at: usize,
        option: DaemonOption,
        word: &str,
    ) -> Result<Self, WordFault>
        ensures { Tells result (or_bad at (with_value at option self word.now)) }
    {
        match self.with_value(alloc, at, option, word) {
            Ok(told) => Ok(told),
            Err(ArgumentFault::Memory) => Err(WordFault::Memory),
            Err(ArgumentFault::Refused { .. }) => Err(WordFault::Bad(at)),
        }
    }

    /// What so many words tell, where they are all.
    pub(crate) fn whole(self, count: usize) -> Result<DaemonWords, WordFault>
        ensures { Tells result (whole count self) }
    {
        let ToldOptions {
            image,
            listen,
            chardev: _,
            monitor,
            workers,
            commands,
        } = self;
        match image {
            None => Err(WordFault::Bad(count)),
            Some(image) => Ok(DaemonWords {
                image,
                listen,
                monitor,
                workers: workers.unwrap_or(4),
                commands,
            }),
        }
    }
}
