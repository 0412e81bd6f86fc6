ghost use Rattle.std.specs.Prelude.{◌≡◌, ◌↔◌, ◌++◌, ◌-◌, ◌≤◌, length, replicate, IsTrue};
ghost use Rattle.std.specs.Option.{SomeIff};
ghost use Rattle.qs_bytes.specs.Names.{IsName, IsId, IsIdByte};

use std::marker::Model;
use std::str;

/// The longest name, in bytes.
const LONGEST: usize = 63;

/// A name of an export, a node or a group: up to 63 bytes of UTF-8, seen as the list of them.
#[derive(Clone, Copy, Debug, PartialEq, Eq)]
pub struct Name {
    bytes: [u8; LONGEST],
    len: usize,
}

impl Model for Name {
    ghost use Rattle.std.specs.Prelude.{List, ℕ};

    ghost Value = { List ℕ };

    ghost use Rattle.qs_bytes.specs.Stored.{name_of, IsStored, stored, stored_name};

    ghost view = { name_of };

    ghost invariant = { IsStored };

    ghost inverse = { stored };

    ghost inverse_ok = { stored_name };
}

impl Name {
    /// The name of these bytes; `None` exactly where there are more than 63 or they aren't UTF-8.
    pub fn of(bytes: &[u8]) -> Option<Self>
        ensures { SomeIff result (IsName bytes.now) bytes.now }
    {
        if bytes.len() > LONGEST {
            return None;
        }
        match str::from_utf8(bytes) {
            Ok(_) => Some(Name {
                bytes: padded(bytes),
                len: bytes.len(),
            }),
            Err(_) => None,
        }
    }

    /// The name's bytes.
    pub fn as_slice(&self) -> &[u8]
        ensures bytes { result.now ≡ self.now }
        ensures name { IsName self.now }
    {
        &self.bytes[..self.len]
    }

    /// Whether it may name a node, a group or an export by id: 1 to 31 bytes, the first an ASCII
    /// letter, the others letters, digits, `-`, `_` or `.` (QEMU's rule for ids).
    pub fn is_id(&self) -> bool
        ensures { IsTrue result ↔ IsId self.now }
    {
        match self.as_slice() {
            [] => false,
            [first, others @ ..] => {
                others.len() < 31
                    && first.is_ascii_alphabetic()
                    && others.iter().all(|&byte| is_id_byte(byte))
            }
        }
    }
}

/// The bytes, with zeros behind them.
fn padded(bytes: &[u8]) -> [u8; LONGEST]
    requires { length bytes.now ≤ 63 }
    ensures { result ≡ bytes.now ++ replicate (63 - length bytes.now) 0 }
{
    let mut room = [0; LONGEST];
    room[..bytes.len()].copy_from_slice(bytes);
    room
}

/// Whether a byte may stand behind the first of an id.
fn is_id_byte(byte: u8) -> bool
    ensures { IsTrue result ↔ IsIdByte byte }
{
    byte.is_ascii_alphanumeric() || byte == b'-' || byte == b'_' || byte == b'.'
}

/// A list of names.
#[derive(Debug, Drop)]
pub struct NameList(pub Vec<Name>);

impl Model for NameList {
    ghost use Rattle.std.specs.Prelude.{List, ℕ};

    ghost Value = { List (List ℕ) };

    ghost view = { λ names. names.0.items };
}
