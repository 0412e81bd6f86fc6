ghost use Rattle.std.specs.Prelude.{◌≡◌};
ghost use Rattle.qs_nbd_transmission.specs.Heads.{has_data};

use qs_bytes::{Ask, Bytes, Kind};
use qs_status::SessionEnd;

/// Where the data of a WRITE go: into a buffer, or nowhere. Each has room for exactly the data.
#[derive(Debug, Drop)]
pub enum Room {
    /// The data are written over the bytes of this buffer.
    Keep(Bytes),
    /// So many bytes are passed over.
    Drop(u64),
}

/// What stands at the end of the bytes that a reader took.
#[derive(Debug, Drop)]
pub enum WireEvent {
    /// The head of a request. The data of a WRITE of some length follow it.
    Head(Ask),
    /// The data of a WRITE are whole, in the room that was given for them.
    Body(Room),
    /// The client leaves.
    Disc,
    /// What came is refused. Nothing more is read.
    Bad(SessionEnd),
}

/// Whether data follow the head of this request: room for `length` bytes is then to be given.
pub fn awaits_data(ask: &Ask) -> bool
    ensures { result ≡ has_data ask.now }
{
    matches!(ask.kind, Kind::Write) && ask.length > 0
}
