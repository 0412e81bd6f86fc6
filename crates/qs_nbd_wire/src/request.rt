ghost use Rattle.std.specs.Prelude.{◌≡◌, length};
ghost use Rattle.qs_nbd_wire.specs.Requests.{FitsHead, head_of};

use qs_bytes::{u16_at, u32_at, u64_at};

/// The bytes of a request before the data of a WRITE.
pub const REQUEST_HEAD_BYTES: usize = 28;

/// The number that every request begins with (NBD proto.md, "Request message").
pub const REQUEST_MAGIC: u32 = 0x25609513;

// Types of requests (NBD proto.md, "Request types").
pub const READ: u16 = 0;

pub const WRITE: u16 = 1;

/// The type of the request by which a client leaves.
pub const DISC: u16 = 2;

pub const FLUSH: u16 = 3;

pub const TRIM: u16 = 4;

pub const WRITE_ZEROES: u16 = 6;

// Flags of a request (NBD proto.md, "Command flags").
pub const FUA: u16 = 1;

pub const NO_HOLE: u16 = 2;

pub const DF: u16 = 4;

/// The head of a request, number for number. `offset` and `size` are bytes.
#[derive(Clone, Copy, Debug, PartialEq, Eq)]
pub struct RequestHead {
    pub flags: u16,
    /// The type of the request.
    pub kind: u16,
    pub cookie: u64,
    pub offset: u64,
    pub size: u32,
}

/// The head that 28 bytes spell, whatever number they begin with.
#[tactic(auto, unfolding(crate::specs::Requests::head_of))]
pub fn request_head(bytes: &[u8]) -> RequestHead
    requires { length bytes.now ≡ 28 }
    ensures reads { result ≡ head_of bytes.now }
    ensures fits { FitsHead result }
{
    RequestHead {
        flags: u16_at(bytes, 4),
        kind: u16_at(bytes, 6),
        cookie: u64_at(bytes, 8),
        offset: u64_at(bytes, 16),
        size: u32_at(bytes, 24),
    }
}
