use crate::stripe::{StripeOp, StripeReply};
use qs_bytes::Bytes;

/// A run of single operations of a stripe: on `n` whole blocks from `b` on, one after the other, for the
/// request at place `k`. The blocks' bytes stand in the buffer from place `at` on; it comes back with the
/// answer.
#[derive(Debug, Drop)]
pub enum RunOp {
    /// Loads the blocks into the buffer.
    Load {
        b: u64,
        k: u8,
        n: u8,
        at: u64,
        buf: Bytes,
    },
    /// Stores the blocks from the buffer.
    Store {
        b: u64,
        k: u8,
        n: u8,
        at: u64,
        buf: Bytes,
    },
}

/// What a stripe answers to a run. Where it says how many blocks were done, nothing was done of those
/// behind the next.
#[derive(Debug, Drop)]
pub enum RunReply {
    /// Load: the buffer with the blocks' bytes.
    Filled(Bytes),
    /// Store: each block has its bytes.
    Done(Bytes),
    /// So many blocks were done, and the disk refused the next.
    Fault(u8, Bytes),
    /// Store: so many blocks were done, and this place holds the next.
    HeldBy(u8, u8, Bytes),
}

/// What a stripe is called with.
#[derive(Debug, Drop)]
pub enum StripeCall {
    One(StripeOp),
    Run(RunOp),
}

/// What a stripe answers to a call.
#[derive(Debug, Drop)]
pub enum StripeAnswer {
    One(StripeReply),
    Run(RunReply),
}
