ghost use Rattle.std.specs.Prelude.{◌≡◌};
ghost use Rattle.std.specs.IoError.{error_kind};
ghost use Rattle.qs_host.specs.Exits.{fault_exit, is_out_of_memory, word_fault};

use crate::image::FileKind;
use std::alloc::{AllocError, AllocFailed};
use std::{fmt, io};

/// Why a file can't be opened as an image.
#[derive(Clone, Copy, Debug)]
pub enum Unfit {
    /// The system refused it.
    System(io::Error),
    /// It is of this kind, and neither a file nor a block device.
    OfKind(FileKind),
    /// Another program has locked it.
    InUse,
    /// Its handle has the number of a standard stream.
    Standard,
}

/// Why no session began.
#[derive(Clone, Copy, Debug)]
pub enum StartFault {
    /// Memory was refused.
    Memory,
    /// A word isn't text in UTF-8.
    NotText,
    /// The image can't be opened.
    NotOpened(Unfit),
}

impl StartFault {
    /// The exit status that stands for it.
    pub fn exit(self) -> u8
        ensures { result ≡ fault_exit self }
    {
        match self {
            StartFault::Memory => 9,
            StartFault::NotText => 2,
            StartFault::NotOpened(_) => 18,
        }
    }
}

/// Whether the error is that memory was refused.
fn is_memory(error: &io::Error) -> bool
    ensures { result ≡ is_out_of_memory (error_kind error.now) }
{
    matches!(error.kind(), io::ErrorKind::OutOfMemory)
}

/// Why the words behind the program's name can't be had.
pub fn fault_of_words(error: io::Error) -> StartFault
    ensures { result ≡ word_fault (error_kind error) }
{
    if is_memory(&error) {
        StartFault::Memory
    } else {
        StartFault::NotText
    }
}

impl From<io::Error> for StartFault {
    ghost use Rattle.std.specs.Prelude.{◌≡◌};
    ghost use Rattle.qs_host.specs.Exits.{file_fault};

    ghost from_gives = { λ error fault. fault ≡ file_fault error };

    fn from(error: io::Error) -> StartFault {
        if is_memory(&error) {
            StartFault::Memory
        } else {
            StartFault::NotOpened(Unfit::System(error))
        }
    }
}

impl From<AllocError> for StartFault {
    ghost use Rattle.std.specs.Prelude.{◌≡◌};
    ghost use Rattle.qs_host.specs.declared.start_fault.StartFault.TheVariants.{Memory};

    ghost from_gives = { λ _ fault. fault ≡ Memory };

    fn from(_refused: AllocError) -> StartFault {
        StartFault::Memory
    }
}

impl<T: Drop> From<AllocFailed<T>> for StartFault {
    ghost use Rattle.std.specs.Prelude.{◌≡◌};
    ghost use Rattle.qs_host.specs.declared.start_fault.StartFault.TheVariants.{Memory};

    ghost from_gives = { λ _ fault. fault ≡ Memory };

    fn from(_refused: AllocFailed<T>) -> StartFault {
        StartFault::Memory
    }
}

impl fmt::Display for FileKind {
    fn fmt<W: fmt::Write>(&self, f: &mut fmt::Formatter<W>) -> fmt::Result {
        f.write_str(match self {
            FileKind::File => "a file",
            FileKind::BlockDevice => "a block device",
            FileKind::Directory => "a directory",
            FileKind::CharacterDevice => "a character device",
            FileKind::Pipe => "a pipe",
            FileKind::Socket => "a socket",
            FileKind::Unknown => "of an unknown kind",
        })
    }
}

impl fmt::Display for Unfit {
    fn fmt<W: fmt::Write>(&self, f: &mut fmt::Formatter<W>) -> fmt::Result {
        match self {
            Unfit::System(error) => write!(f, "{error}"),
            Unfit::OfKind(kind) => write!(f, "it is {kind}, and no file or block device"),
            Unfit::InUse => f.write_str("the image is in use: another program has locked it"),
            Unfit::Standard => f.write_str("its handle has the number of a standard stream"),
        }
    }
}

impl fmt::Display for StartFault {
    fn fmt<W: fmt::Write>(&self, f: &mut fmt::Formatter<W>) -> fmt::Result {
        match self {
            StartFault::Memory => f.write_str("memory was refused"),
            StartFault::NotText => f.write_str("a word isn't text in UTF-8"),
            StartFault::NotOpened(unfit) => write!(f, "{unfit}"),
        }
    }
}
