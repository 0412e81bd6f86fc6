ghost use Rattle.std.specs.Prelude.{◌≡◌, ◌*◌, length};
ghost use Rattle.qs_nbd_handshake.specs.Inquiries.{inquiry_of, is_among, name_in, numbers_in};

use qs_bytes::{Name, u16_at, u32_at};

/// The number of the information on the lengths of requests.
const BLOCK_SIZE: u16 = 3;

/// What a client asks of an export.
#[derive(Clone, Copy, Debug, PartialEq, Eq)]
pub struct Inquiry {
    /// The export's name; `None` where its bytes are no name.
    pub name: Option<Name>,
    /// How long requests may be is to be told too.
    pub sizes: bool,
}

/// The name that these bytes are.
pub fn name(bytes: &[u8]) -> Option<Name>
    ensures { result ≡ name_in bytes.now }
{
    Name::of(bytes)
}

/// What the data of INFO and GO ask (NBD proto.md, "NBD_OPT_INFO"): name length, name, count, and
/// that many numbers of informations; `None` exactly where they haven't this form.
pub fn read_inquiry(bytes: &[u8]) -> Option<Inquiry>
    ensures { result ≡ inquiry_of bytes.now }
{
    if bytes.len() < 6 {
        return None;
    }
    let name_end = 4 + u32_at(bytes, 0) as usize;
    if bytes.len() < name_end + 2 {
        return None;
    }
    let count = usize::from(u16_at(bytes, name_end));
    let requests = &bytes[name_end + 2..];
    if requests.len() != 2 * count {
        return None;
    }
    Some(Inquiry {
        name: name(&bytes[4..name_end]),
        sizes: is_asked(requests, count, BLOCK_SIZE),
    })
}

/// Whether the number is among so many of 16 bits.
fn is_asked(requests: &[u8], count: usize, wanted: u16) -> bool
    requires { length requests.now ≡ 2 * count }
    ensures { result ≡ is_among wanted (numbers_in requests.now) }
{
    for at in 0..count {
        if u16_at(requests, 2 * at) == wanted {
            return true;
        }
    }
    false
}
