ghost use Rattle.std.specs.Prelude.{◌≡◌, ◌+◌, ◌≤◌, ◌++◌, ◌↔◌, length, IsTrue, OnOk, OnErr};
ghost use Rattle.std.specs.Option.{SomeIff};
ghost use Rattle.qs_bytes.specs.Numbers.{bytes16, bytes32, bytes64, number16, number32, number64};

use crate::buffer::Bytes;
use crate::memory::Memory;

/// Whether `count` bytes stand at `at`.
fn has_room(bytes: &[u8], at: usize, count: usize) -> bool
    ensures { IsTrue result ↔ (at + count ≤ length bytes.now) }
{
    at <= bytes.len() && bytes.len() - at >= count
}

/// The 16-bit number whose big-endian bytes stand at `at`.
#[tactic(auto, unfolding(crate::specs::Numbers::number16))]
pub fn u16_at(bytes: &[u8], at: usize) -> u16
    requires { at + 2 ≤ length bytes.now }
    ensures { result ≡ number16 bytes.now at }
{
    u16::from_be_bytes([bytes[at], bytes[at + 1]])
}

/// The 16-bit number whose big-endian bytes stand at `at`; `None` exactly where fewer than two
/// bytes stand there.
pub fn be16(bytes: &[u8], at: usize) -> Option<u16>
    ensures { SomeIff result (at + 2 ≤ length bytes.now) (number16 bytes.now at) }
{
    if has_room(bytes, at, 2) {
        Some(u16_at(bytes, at))
    } else {
        None
    }
}

/// Writes a 16-bit number at the end, big-endian. Refused memory leaves the buffer as it was.
#[tactic(auto, unfolding(crate::specs::Numbers::bytes16))]
pub fn put16(out: &mut Bytes, v: u16) -> Result<(), Memory>
    ensures ok { OnOk result (out.new ≡ out.old ++ bytes16 v) }
    ensures err { OnErr result (out.new ≡ out.old) }
{
    out.append(&v.to_be_bytes())
}

/// The 32-bit number whose big-endian bytes stand at `at`.
#[tactic(auto, unfolding(crate::specs::Numbers::number32))]
pub fn u32_at(bytes: &[u8], at: usize) -> u32
    requires { at + 4 ≤ length bytes.now }
    ensures { result ≡ number32 bytes.now at }
{
    u32::from_be_bytes([bytes[at], bytes[at + 1], bytes[at + 2], bytes[at + 3]])
}

/// The 32-bit number whose big-endian bytes stand at `at`; `None` exactly where fewer than four
/// bytes stand there.
pub fn be32(bytes: &[u8], at: usize) -> Option<u32>
    ensures { SomeIff result (at + 4 ≤ length bytes.now) (number32 bytes.now at) }
{
    if has_room(bytes, at, 4) {
        Some(u32_at(bytes, at))
    } else {
        None
    }
}

/// Writes a 32-bit number at the end, big-endian. Refused memory leaves the buffer as it was.
#[tactic(auto, unfolding(crate::specs::Numbers::bytes32))]
pub fn put32(out: &mut Bytes, v: u32) -> Result<(), Memory>
    ensures ok { OnOk result (out.new ≡ out.old ++ bytes32 v) }
    ensures err { OnErr result (out.new ≡ out.old) }
{
    out.append(&v.to_be_bytes())
}

/// The 64-bit number whose big-endian bytes stand at `at`.
#[tactic(auto, unfolding(crate::specs::Numbers::number64))]
pub fn u64_at(bytes: &[u8], at: usize) -> u64
    requires { at + 8 ≤ length bytes.now }
    ensures { result ≡ number64 bytes.now at }
{
    u64::from_be_bytes([
        bytes[at],
        bytes[at + 1],
        bytes[at + 2],
        bytes[at + 3],
        bytes[at + 4],
        bytes[at + 5],
        bytes[at + 6],
        bytes[at + 7],
    ])
}

/// The 64-bit number whose big-endian bytes stand at `at`; `None` exactly where fewer than eight
/// bytes stand there.
pub fn be64(bytes: &[u8], at: usize) -> Option<u64>
    ensures { SomeIff result (at + 8 ≤ length bytes.now) (number64 bytes.now at) }
{
    if has_room(bytes, at, 8) {
        Some(u64_at(bytes, at))
    } else {
        None
    }
}

/// Writes a 64-bit number at the end, big-endian. Refused memory leaves the buffer as it was.
#[tactic(auto, unfolding(crate::specs::Numbers::bytes64))]
pub fn put64(out: &mut Bytes, v: u64) -> Result<(), Memory>
    ensures ok { OnOk result (out.new ≡ out.old ++ bytes64 v) }
    ensures err { OnErr result (out.new ≡ out.old) }
{
    out.append(&v.to_be_bytes())
}
