use qs_bytes::Errno;
use qs_part::stripe::Side;

/// How a request ends. Success gives a READ its bytes.
#[derive(Clone, Copy, Debug, PartialEq, Eq)]
pub enum Ending {
    Success,
    Failed(Errno),
    Dropped,
}

/// The operation that a request in flight does next.
#[derive(Clone, Copy, Debug, PartialEq, Eq)]
pub enum Step {
    Route,
    List,
    Start,
    Load(u64),
    Hold(Side),
    Store(u64),
    Sync(u8),
    Free(Side),
    End(Ending),
}

/// How far a request is: it answers next, or wants to enter, or has a place of the tracker.
#[derive(Clone, Copy, Debug, PartialEq, Eq)]
pub enum Stage {
    Ready(Ending),
    Entering,
    In(u8, Step),
}
