ghost use Rattle.std.specs.Prelude.{◌≡◌};
ghost use Rattle.qs_bytes.specs.Errnos.{errno_number};

use crate::buffer::Bytes;

/// The most bytes of a READ, and of the data that come with a WRITE (NBD proto.md, "Block size constraints").
pub const MAX_PAYLOAD: u64 = 33_554_432;

/// What a client asks for. A number that names no kind is kept (NBD proto.md, "Request types").
#[derive(Clone, Copy, Debug, PartialEq, Eq)]
pub enum Kind {
    Read,
    Write,
    Zero,
    Trim,
    Flush,
    Unknown(u16),
}

/// One request of a client, as its head tells it. `offset` and `length` are bytes.
#[derive(Clone, Copy, Debug, PartialEq, Eq)]
pub struct Ask {
    pub kind: Kind,
    /// The flag FUA is set.
    pub fua: bool,
    /// No flag is set that doesn't fit the kind in this session's mode.
    pub flags_fit: bool,
    pub cookie: u64,
    pub offset: u64,
    pub length: u64,
}

/// The errors of NBD that this server answers (proto.md, "Error values").
#[derive(Clone, Copy, Debug, PartialEq, Eq)]
pub enum Errno {
    Perm,
    Io,
    NoMem,
    Inval,
    NoSpace,
    Shutdown,
}

impl Errno {
    /// The error's number on the wire.
    pub fn number(self) -> u32
        ensures { result ≡ errno_number self }
    {
        match self {
            Errno::Perm => 1,
            Errno::Io => 5,
            Errno::NoMem => 12,
            Errno::Inval => 22,
            Errno::NoSpace => 28,
            Errno::Shutdown => 108,
        }
    }
}

/// How a request was answered: a READ's bytes, success without bytes, an error, or nothing at all,
/// since its session has left.
#[derive(Debug, Drop)]
pub enum Verdict {
    Got(Bytes),
    Fine,
    Refused(Errno),
    Dropped,
}

/// What a session agreed on in its handshake.
#[derive(Clone, Copy, Debug, PartialEq, Eq)]
pub struct Mode {
    /// The handshake's 124 zero bytes are left out.
    pub no_zeroes: bool,
    /// A READ is answered by structured chunks.
    pub structured: bool,
}
