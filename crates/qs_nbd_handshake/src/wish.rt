ghost use Rattle.std.specs.Prelude.{◌≡◌};
ghost use Rattle.qs_nbd_handshake.specs.Wishes.{bare_wish, option_fault, want_of, wish_of};

use crate::event::Want;
use crate::inquiry::{Inquiry, name, read_inquiry};
use qs_bytes::Name;
use qs_nbd_wire::{OPTION_MAGIC, OptionHead};
use qs_status::SessionEnd;

/// The most data of an option, in bytes.
pub const LONGEST: u32 = 65_536;

// Options (NBD proto.md, "Option types").
pub const EXPORT_NAME: u32 = 1;

pub const ABORT: u32 = 2;

pub const LIST: u32 = 3;

pub const INFO: u32 = 6;

pub const GO: u32 = 7;

pub const STRUCTURED_REPLY: u32 = 8;

/// What a client asks by an option.
#[derive(Clone, Copy, Debug, PartialEq, Eq)]
pub enum Wish {
    /// EXPORT_NAME: requests on the export of this name, without a reply to the option.
    Export(Option<Name>),
    /// ABORT: to leave.
    Abort,
    /// LIST: the names of all exports.
    List,
    /// INFO: what the export is.
    Info(Inquiry),
    /// GO: what the export is, and requests on it.
    Go(Inquiry),
    /// STRUCTURED_REPLY: structured replies to READs.
    Structured,
    /// The option of this number came with data that it doesn't take.
    Malformed(u32),
    /// The server doesn't know the option of this number.
    Unknown(u32),
}

/// The first rule, in this order, that the head of an option breaks: it begins with the magic, its
/// data aren't too long, and a client that isn't of the fixed newstyle sends EXPORT_NAME alone.
pub fn head_fault(fixed: bool, head: &OptionHead) -> Option<SessionEnd>
    ensures { result ≡ option_fault fixed head.now }
{
    if head.magic != OPTION_MAGIC {
        return Some(SessionEnd::BadMagic(head.magic));
    }
    if head.length > LONGEST {
        return Some(SessionEnd::TooLong(u64::from(head.length)));
    }
    if !fixed && head.number != EXPORT_NAME {
        return Some(SessionEnd::NotFixed(head.number));
    }
    None
}

/// What an option of this number with these data asks.
pub fn read_wish(number: u32, bytes: &[u8]) -> Wish
    ensures { result ≡ wish_of number bytes.now }
{
    match number {
        EXPORT_NAME => Wish::Export(name(bytes)),
        ABORT => Wish::Abort,
        LIST => bare(number, bytes, Wish::List),
        INFO => match read_inquiry(bytes) {
            Some(inquiry) => Wish::Info(inquiry),
            None => Wish::Malformed(number),
        },
        GO => match read_inquiry(bytes) {
            Some(inquiry) => Wish::Go(inquiry),
            None => Wish::Malformed(number),
        },
        STRUCTURED_REPLY => bare(number, bytes, Wish::Structured),
        _ => Wish::Unknown(number),
    }
}

/// The wish, where there are no data.
fn bare(number: u32, bytes: &[u8], wish: Wish) -> Wish
    ensures { result ≡ bare_wish number bytes.now wish }
{
    if bytes.is_empty() {
        wish
    } else {
        Wish::Malformed(number)
    }
}

/// What is wanted for the answer.
pub fn wanted(wish: &Wish) -> Want
    ensures { result ≡ want_of wish.now }
{
    match wish {
        Wish::Export(name) => Want::Attach(*name),
        Wish::List => Want::Names,
        Wish::Info(inquiry) => Want::Find(inquiry.name),
        Wish::Go(inquiry) => Want::Attach(inquiry.name),
        _ => Want::Nothing,
    }
}
