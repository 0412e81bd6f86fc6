use qs_bytes::Span;

/// An operation of the tracker of requests.
#[derive(Clone, Copy, Debug, PartialEq, Eq)]
pub enum TrackerOp {
    /// A request takes a place.
    Enter,
    /// The request at place `k` lists its span, whole blocks in bytes; `serial` where it is
    /// serialising.
    List { k: u8, span: Span, serial: bool },
    /// The request at place `k` asks to start.
    Start { k: u8 },
    /// The request at place `k` gives its place and its span back.
    End { k: u8 },
    /// No request may enter from now on.
    Quiesce,
    /// Asks whether no request is in.
    Drained,
    /// Requests may enter again.
    Resume,
}

/// What the tracker answers.
#[derive(Clone, Copy, Debug, PartialEq, Eq)]
pub enum TrackerReply {
    /// Enter: the lowest free place.
    Entered(u8),
    /// Enter: a quiesce stands.
    Quiesced,
    /// Enter: all 256 places are taken.
    Full,
    /// List: the span's number in the order of listing.
    Listed(u64),
    /// The place isn't in the state that the operation wants.
    Strange,
    /// Start: the request goes.
    Started,
    /// Start: the lowest number of a listed span that the request has to wait for.
    NotYet(u64),
    /// End: the place is free.
    Ended,
    /// Quiesce: none stood.
    Stopped,
    /// Quiesce: one stands already.
    Already,
    /// Drained: no request is in.
    Empty,
    /// Drained: the lowest place that is in.
    InFlight(u8),
    /// Resume: the quiesce is gone.
    Resumed,
}
