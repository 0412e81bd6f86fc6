ghost use Rattle.std.specs.Prelude.{◌≡◌, ◌≤◌, length};
ghost use Rattle.std.specs.Option.{SomeIff};
ghost use Rattle.qs_nbd_wire.specs.Options.{option_head_of};

use qs_bytes::{u32_at, u64_at};

/// The bytes of an option before its data.
pub const OPTION_HEAD_BYTES: usize = 16;

/// The number that every option begins with, `IHAVEOPT`.
pub const OPTION_MAGIC: u64 = 0x49484156454f5054;

/// The head of an option, number for number. `length` is that of its data, in bytes.
#[derive(Clone, Copy, Debug, PartialEq, Eq)]
pub struct OptionHead {
    pub magic: u64,
    pub number: u32,
    pub length: u32,
}

/// The head that the first 16 bytes spell; `None` exactly where fewer are given.
#[tactic(auto, unfolding(crate::specs::Options::option_head_of))]
pub fn option_head(bytes: &[u8]) -> Option<OptionHead>
    ensures { SomeIff result (16 ≤ length bytes.now) (option_head_of bytes.now) }
{
    if bytes.len() < OPTION_HEAD_BYTES {
        return None;
    }
    Some(OptionHead {
        magic: u64_at(bytes, 0),
        number: u32_at(bytes, 8),
        length: u32_at(bytes, 12),
    })
}
