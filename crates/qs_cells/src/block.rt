use qs_bytes::Bytes;

/// What happened to block `b` of a stripe by the request that has place `k` of the tracker. A sync
/// is an entry of a stripe and of no block. `done` is false where the disk refused.
#[derive(Debug, Drop)]
pub enum BlockEntry {
    /// The block was read.
    Load {
        k: u8,
        b: u64,
        bytes: Bytes,
    },
    /// The block was read, and is held for `k` from now on.
    Hold {
        k: u8,
        b: u64,
        bytes: Bytes,
    },
    /// The block was written, and `k` doesn't hold it any more.
    Store {
        k: u8,
        b: u64,
        bytes: Bytes,
        done: bool,
    },
    /// `k` gave the block up without a write.
    Free {
        k: u8,
        b: u64,
    },
    /// The stripe was synced.
    Sync {
        done: bool,
    },
}
