ghost use Rattle.std.specs.Prelude.{◌≡◌, ◌++◌, ◌<◌, ◌^◌, length, OnOk, OnErr, IfOk};
ghost use Rattle.qs_nbd_wire.specs.Replies.{error_number, option_reply, reply_bytes, reply_kind, reply_payload};
ghost use Rattle.qs_nbd_wire.specs.Replies.{export_payload, server_payload, sizes_payload};

use qs_bytes::{Bytes, Memory, Name, put16, put32, put64};
use std::alloc::Global;

/// The number that every reply to an option begins with.
const REPLY_MAGIC: u64 = 0x0003e889045565a9;

// Types of replies (NBD proto.md, "Option reply types").
const ACK: u32 = 1;

const SERVER: u32 = 2;

const INFO: u32 = 3;

// Types of information (NBD proto.md, "NBD_REP_INFO").
const EXPORT: u16 = 0;

const BLOCK_SIZE: u16 = 3;

// Lengths of a request in bytes: the least, the best and the greatest.
const LEAST: u32 = 1;

const BEST: u32 = 4096;

const GREATEST: u32 = 33_554_432;

/// Why an option is refused (NBD proto.md, "Option reply types").
#[derive(Clone, Copy, Debug, PartialEq, Eq)]
pub enum OptionError {
    /// The server doesn't know the option.
    Unsupported,
    /// The server won't do it now.
    Policy,
    /// The option's data haven't its form.
    Invalid,
    /// The export isn't there.
    Unknown,
}

impl OptionError {
    /// The type of the reply that says so.
    pub fn number(self) -> u32
        ensures { result ≡ error_number self }
    {
        match self {
            OptionError::Unsupported => 0x80000001,
            OptionError::Policy => 0x80000002,
            OptionError::Invalid => 0x80000003,
            OptionError::Unknown => 0x80000006,
        }
    }
}

/// One reply to an option.
#[derive(Clone, Copy, Debug, PartialEq, Eq)]
pub enum OptionReply {
    /// The option is done.
    Ack,
    /// There is an export of this name.
    Server(Name),
    /// The export's size in bytes, and the flags of the transmission.
    Export { size: u64, flags: u16 },
    /// How long requests may be.
    BlockSize,
    /// The option is refused.
    Refused(OptionError),
}

/// Writes a reply to the option of this number at the end: its type and payload. Refused memory
/// leaves the buffer as it was.
#[tactic(auto, unfolding(crate::specs::Replies::reply_front))]
pub fn put_option_reply(
    alloc: Global,
    out: &mut Bytes,
    number: u32,
    kind: u32,
    payload: &[u8],
) -> Result<(), Memory>
    requires { length payload.now < 2 ^ 32 }
    ensures ok { OnOk result (out.new ≡ out.old ++ option_reply number kind payload.now) }
    ensures err { OnErr result (out.new ≡ out.old) }
{
    let mut reply = Bytes::of(Vec::new(alloc));
    put64(&mut reply, REPLY_MAGIC)?;
    put32(&mut reply, number)?;
    put32(&mut reply, kind)?;
    put32(&mut reply, payload.len() as u32)?;
    reply.append(payload)?;
    out.append(reply.as_slice())
}

/// Writes a reply to the option of this number at the end. Refused memory leaves the buffer as it
/// was.
pub fn put_reply(
    alloc: Global,
    out: &mut Bytes,
    number: u32,
    reply: &OptionReply,
) -> Result<(), Memory>
    ensures ok { OnOk result (out.new ≡ out.old ++ reply_bytes number reply.now) }
    ensures err { OnErr result (out.new ≡ out.old) }
{
    let payload = payload(alloc, reply)?;
    put_option_reply(alloc, out, number, kind(reply), payload.as_slice())
}

/// The type of a reply.
fn kind(reply: &OptionReply) -> u32
    ensures { result ≡ reply_kind reply.now }
{
    match reply {
        OptionReply::Ack => ACK,
        OptionReply::Server(_) => SERVER,
        OptionReply::Export { .. } => INFO,
        OptionReply::BlockSize => INFO,
        OptionReply::Refused(error) => error.number(),
    }
}

/// The payload of a reply.
fn payload(alloc: Global, reply: &OptionReply) -> Result<Bytes, Memory>
    ensures bytes { IfOk result (λ bytes. bytes ≡ reply_payload reply.now) }
    ensures short { IfOk result (λ bytes. length bytes < 2 ^ 32) }
{
    match reply {
        OptionReply::Ack => Ok(Bytes::of(Vec::new(alloc))),
        OptionReply::Server(name) => server(alloc, name),
        OptionReply::Export { size, flags } => export(alloc, *size, *flags),
        OptionReply::BlockSize => block_size(alloc),
        OptionReply::Refused(_) => Ok(Bytes::of(Vec::new(alloc))),
    }
}

fn server(alloc: Global, name: &Name) -> Result<Bytes, Memory>
    ensures bytes { IfOk result (λ bytes. bytes ≡ server_payload name.now) }
    ensures short { IfOk result (λ bytes. length bytes < 2 ^ 32) }
{
    let text = name.as_slice();
    let mut payload = Bytes::of(Vec::new(alloc));
    put32(&mut payload, text.len() as u32)?;
    payload.append(text)?;
    Ok(payload)
}

fn export(alloc: Global, size: u64, flags: u16) -> Result<Bytes, Memory>
    ensures bytes { IfOk result (λ bytes. bytes ≡ export_payload size flags) }
    ensures short { IfOk result (λ bytes. length bytes < 2 ^ 32) }
{
    let mut payload = Bytes::of(Vec::new(alloc));
    put16(&mut payload, EXPORT)?;
    put64(&mut payload, size)?;
    put16(&mut payload, flags)?;
    Ok(payload)
}

fn block_size(alloc: Global) -> Result<Bytes, Memory>
    ensures bytes { IfOk result (λ bytes. bytes ≡ sizes_payload) }
    ensures short { IfOk result (λ bytes. length bytes < 2 ^ 32) }
{
    let mut payload = Bytes::of(Vec::new(alloc));
    put16(&mut payload, BLOCK_SIZE)?;
    put32(&mut payload, LEAST)?;
    put32(&mut payload, BEST)?;
    put32(&mut payload, GREATEST)?;
    Ok(payload)
}
