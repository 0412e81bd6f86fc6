use std::error::Error;
use std::fmt;

/// A call on a run of blocks failed at one of them. The disk's count of faults rose in that call.
#[derive(Clone, Copy, Debug, PartialEq, Eq)]
pub struct FailedAt {
    /// How many blocks were done before it.
    pub done: u8,
}

impl fmt::Display for FailedAt {
    fn fmt<W: fmt::Write>(&self, f: &mut fmt::Formatter<W>) -> fmt::Result {
        f.write_str("the outside failed within a run")
    }
}

impl Error for FailedAt {}
