use qs_bytes::Bytes;

/// An end of a request's span, whose block the span doesn't cover wholly.
#[derive(Clone, Copy, Debug, PartialEq, Eq)]
pub enum Side {
    Head,
    Tail,
}

/// An operation of a stripe: on block `b`, for the request at place `k`, or on the whole stripe. The
/// buffer is one block, and comes back with the answer.
#[derive(Debug, Drop)]
pub enum StripeOp {
    /// Reads the block.
    Load {
        b: u64,
        k: u8,
        buf: Bytes,
    },
    /// Reads the block and holds it for `k`.
    Hold {
        b: u64,
        k: u8,
        end: Side,
        buf: Bytes,
    },
    /// Writes the block, and gives up the hold of `k` on it.
    Store {
        b: u64,
        k: u8,
        buf: Bytes,
    },
    /// Gives up the hold of `k` on the block.
    Free {
        b: u64,
        k: u8,
    },
    /// Syncs the stripe's disk, where a store reached it since the last sync.
    Sync,
}

/// What a stripe answers.
#[derive(Debug, Drop)]
pub enum StripeReply {
    /// Load and Hold: the block's bytes.
    Filled(Bytes),
    /// The disk refused. A Sync has no buffer to give back.
    Fault(Option<Bytes>),
    /// Hold and Store: this place holds the block.
    HeldBy(u8, Bytes),
    /// Hold: the place holds this block at the same end already.
    Taken(u64, Bytes),
    /// Store: the block has the bytes.
    Done(Bytes),
    /// Free: the block is free.
    Freed,
    /// Free: the place doesn't hold the block.
    NotHeld,
    /// Sync: no store reached the disk since the last sync; the disk wasn't called.
    Clean,
    /// Sync: the disk is synced.
    Synced,
}
