use qs_bytes::{Mode, Name, NameList};
use qs_nbd_wire::ExportInfo2;
use qs_status::SessionEnd;

/// What is wanted for the answer to an option. A name is `None` where its bytes are no name, and so
/// name no export.
#[derive(Clone, Copy, Debug, PartialEq, Eq)]
pub enum Want {
    /// Nothing.
    Nothing,
    /// The export of this name.
    Find(Option<Name>),
    /// The export of this name, with one more client.
    Attach(Option<Name>),
    /// The names of all exports.
    Names,
}

/// What stands at the end of the bytes that a handshake took.
#[derive(Clone, Copy, Debug, PartialEq, Eq)]
pub enum HandEvent {
    /// The client's flags.
    Flags(u32),
    /// An option came, and this is wanted for its answer.
    Wanted(Want),
    /// What came is refused. Nothing more is read.
    Bad(SessionEnd),
}

/// What is told for the answer to an option.
#[derive(Debug, Drop)]
pub enum Told {
    /// Nothing was wanted.
    Nothing,
    /// The export is there.
    Info(ExportInfo2),
    /// No export has the name.
    Missing,
    /// The export has too many clients.
    Crowded,
    /// The names of all exports, in order of making.
    Names(NameList),
}

/// How a session goes on behind an answer.
#[derive(Clone, Copy, Debug, PartialEq, Eq)]
pub enum HandStep {
    /// With the next option.
    Stay,
    /// With requests, in this mode.
    Transmit(Mode),
    /// Not at all.
    Close(SessionEnd),
}
