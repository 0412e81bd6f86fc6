ghost use Rattle.std.specs.Prelude.{◌≡◌, ℕ, ◌+◌, ◌≤◌, true, List, [], ◌++◌, length};
ghost use Rattle.qs_bytes.specs.Numbers.{bytes16, bytes32, bytes64};
ghost use Rattle.qs_bytes.specs.declared.ask.Verdict.TheVariants.{Got};
ghost use Rattle.qs_bytes.specs.Payloads.{max_payload};
ghost use Rattle.qs_nbd_transmission.specs.Replies.{CanReply, bytes_front, chunk_front, chunk_head, error_front, error_of, is_read, reply_front, simple_front};

use qs_bytes::{Ask, Errno, Kind, Mode, Verdict, write_over};
use std::marker::Model;

const SIMPLE_MAGIC: u32 = 0x67446698;

const CHUNK_MAGIC: u32 = 0x668e33ef;

// Types of chunks (NBD proto.md, "Structured reply types").
const NONE: u16 = 0;

const OFFSET_DATA: u16 = 1;

const ERROR: u16 = 0x8001;

/// The flag of a reply's last chunk.
const DONE: u16 = 1;

/// The bytes of a reply before its data, seen as the list of them.
#[derive(Debug, Drop)]
pub struct ReplyHead {
    bytes: [u8; 64],
    len: u8,
}

impl Model for ReplyHead {
    ghost use Rattle.std.specs.Prelude.{◌≡◌, ◌≤◌, List, ℕ, length, take};

    ghost Value = { List ℕ };

    ghost view = { λ h. take h.len h.bytes };

    ghost invariant = { λ h. (h.len ≤ 64) × (length h.bytes ≡ 64) };
}

impl ReplyHead {
    fn new() -> Self
        ensures { result ≡ [] }
    {
        ReplyHead {
            bytes: [0; 64],
            len: 0,
        }
    }

    /// The bytes, at most 64.
    pub fn as_slice(&self) -> &[u8]
        ensures bytes { result.now ≡ self.now }
        ensures short { length self.now ≤ 64 }
    {
        &self.bytes[..usize::from(self.len)]
    }

    /// Writes bytes at the end.
    fn push(&mut self, bytes: &[u8])
        requires { length self.old + length bytes.now ≤ 64 }
        ensures { self.new ≡ self.old ++ bytes.now }
    {
        write_over(&mut self.bytes, usize::from(self.len), bytes);
        self.len += bytes.len() as u8;
    }

    #[tactic(auto, unfolding(qs_bytes::specs::Numbers::bytes16))]
    fn push16(&mut self, number: u16)
        requires { length self.old + 2 ≤ 64 }
        ensures bytes { self.new ≡ self.old ++ bytes16 number }
        ensures len { length self.new ≡ length self.old + 2 }
    {
        self.push(&number.to_be_bytes());
    }

    #[tactic(auto, unfolding(qs_bytes::specs::Numbers::bytes32))]
    fn push32(&mut self, number: u32)
        requires { length self.old + 4 ≤ 64 }
        ensures bytes { self.new ≡ self.old ++ bytes32 number }
        ensures len { length self.new ≡ length self.old + 4 }
    {
        self.push(&number.to_be_bytes());
    }

    #[tactic(auto, unfolding(qs_bytes::specs::Numbers::bytes64))]
    fn push64(&mut self, number: u64)
        requires { length self.old + 8 ≤ 64 }
        ensures bytes { self.new ≡ self.old ++ bytes64 number }
        ensures len { length self.new ≡ length self.old + 8 }
    {
        self.push(&number.to_be_bytes());
    }
}

/// The number in the place of a reply's error.
fn error(verdict: &Verdict) -> u32
    ensures { result ≡ error_of verdict.now }
{
    match verdict {
        Verdict::Refused(errno) => errno.number(),
        _ => 0,
    }
}

fn asks_bytes(kind: Kind) -> bool
    ensures { result ≡ is_read kind }
{
    matches!(kind, Kind::Read)
}

#[tactic(auto, unfolding(crate::specs::Replies::simple_front))]
fn simple(error: u32, cookie: u64) -> ReplyHead
    ensures { result ≡ simple_front error cookie }
{
    let mut head = ReplyHead::new();
    head.push32(SIMPLE_MAGIC);
    head.push32(error);
    head.push64(cookie);
    head
}

/// The head of a chunk that is its reply's last, with a payload of `size` bytes.
#[tactic(auto, unfolding(crate::specs::Replies::chunk_head))]
fn chunk(kind: u16, cookie: u64, size: u32) -> ReplyHead
    ensures bytes { result ≡ chunk_head kind cookie size }
    ensures len { length result ≡ 20 }
{
    let mut head = ReplyHead::new();
    head.push32(CHUNK_MAGIC);
    head.push16(DONE);
    head.push16(kind);
    head.push64(cookie);
    head.push32(size);
    head
}

/// The chunk that answers a READ with its bytes, before them.
fn bytes_chunk(ask: &Ask) -> ReplyHead
    requires { ask.now.length ≤ max_payload }
    ensures { result ≡ bytes_front ask.now }
{
    if ask.length == 0 {
        return chunk(NONE, ask.cookie, 0);
    }
    let mut head = chunk(OFFSET_DATA, ask.cookie, 8 + ask.length as u32);
    head.push64(ask.offset);
    head
}

/// The chunk that answers a READ with an error.
fn error_chunk(cookie: u64, errno: Errno) -> ReplyHead
    ensures { result ≡ error_front cookie errno }
{
    let mut head = chunk(ERROR, cookie, 6);
    head.push32(errno.number());
    head.push16(0);
    head
}

/// The one chunk that answers a READ, before its data.
fn read_chunk(ask: &Ask, verdict: &Verdict) -> ReplyHead
    requires can { CanReply ask.now verdict.now }
    requires read { is_read ask.now.kind ≡ true }
    ensures { result ≡ chunk_front ask.now verdict.now }
{
    match verdict {
        Verdict::Refused(errno) => error_chunk(ask.cookie, *errno),
        Verdict::Got(_) => bytes_chunk(ask),
        Verdict::Fine => bytes_chunk(ask),
        Verdict::Dropped => unreachable!(),
    }
}

/// The bytes of a reply before its data (NBD proto.md, "Simple reply message" and "Structured reply
/// chunk message"): a READ's bytes follow them where there is no error. Among structured replies a
/// READ is answered by one chunk, and everything else by a simple reply.
pub fn reply_head(mode: &Mode, ask: &Ask, verdict: &Verdict) -> ReplyHead
    requires { CanReply ask.now verdict.now }
    ensures { result ≡ reply_front mode.now.structured ask.now verdict.now }
{
    if mode.structured && asks_bytes(ask.kind) {
        read_chunk(ask, verdict)
    } else {
        simple(error(verdict), ask.cookie)
    }
}

/// The bytes of a READ's reply before its data, for a caller that reads the data straight into place
/// behind them. Whatever these are, it is what `reply_head` gives.
pub fn data_head(mode: &Mode, ask: &Ask) -> ReplyHead
    requires read { is_read ask.now.kind ≡ true }
    requires short { ask.now.length ≤ max_payload }
    ensures { (bytes : List ℕ) → result ≡ reply_front mode.now.structured ask.now (Got bytes) }
{
    if mode.structured {
        bytes_chunk(ask)
    } else {
        simple(0, ask.cookie)
    }
}
