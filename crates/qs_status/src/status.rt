/// How a session ended.
#[derive(Clone, Copy, Debug, PartialEq, Eq)]
pub enum SessionEnd {
    /// By a DISC, or by the input's end between messages.
    Done,
    /// By the input's end within a message.
    Truncated,
    /// A message began with this number in the place of its magic.
    BadMagic(u64),
    /// The client set these flags, one of which is unknown.
    BadFlags(u32),
    /// A message was longer than is allowed, by its field of length.
    TooLong(u64),
    /// This option came from a client that isn't of the fixed newstyle.
    NotFixed(u32),
    /// The client sent ABORT.
    Aborted,
    /// The export wasn't there.
    NoExport,
    /// The export had too many clients.
    Crowded,
    /// The export went away.
    Shutting,
    /// The link failed.
    LinkFault,
    /// Memory was refused.
    Memory,
}

/// Why a list of disks is no image: the first rule, in this order, that it breaks.
#[derive(Clone, Copy, Debug, PartialEq, Eq)]
pub enum OpenBad {
    /// There are so many disks, and not 8.
    Count(usize),
    /// This disk differs from the first in alignment or length, or isn't of its stripe.
    Different(usize),
    /// The alignment, in bytes, is neither 512 nor 4096.
    Align(u32),
    /// The length, in bytes, is no multiple of the alignment.
    Length(u64),
    /// The length, in bytes, is over 2^40.
    TooLarge(u64),
}

/// How a program's top call ended.
#[derive(Clone, Copy, Debug, PartialEq, Eq)]
pub enum Status {
    /// The input was read to its end, or to a DISC.
    Done,
    /// The words aren't of the command's form.
    Usage,
    /// The disks are no image.
    OpenBad(OpenBad),
    /// The input couldn't be read.
    ReadFault,
    /// The output couldn't be written.
    WriteFault,
    /// This line of a script, counted from 1, isn't of its grammar.
    BadLine(u64),
    /// The event of this line of a script isn't next.
    NotNext(u64),
    /// As many messages or lines were read as one call reads.
    Spent,
    /// Memory was refused.
    Memory,
    /// The session ended so.
    Ended(SessionEnd),
}
