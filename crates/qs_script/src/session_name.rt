ghost use Rattle.std.specs.Prelude.{◌≡◌, ◌↔◌, ◌++◌, ◌-◌, ◌≤◌, length, replicate, IsTrue};
ghost use Rattle.std.specs.Option.{SomeIff};
ghost use Rattle.qs_script.specs.SessionNames.{IsSessionName, IsSmallOrDigit};

use std::marker::Model;

/// The longest name of a session, in bytes.
const LONGEST: usize = 8;

/// The name of a session in a script: one capital letter and up to 7 small letters or digits, seen as
/// the list of its bytes.
#[derive(Clone, Copy, Debug, PartialEq, Eq, Hash)]
pub struct SessionName {
    bytes: [u8; LONGEST],
    len: usize,
}

impl Model for SessionName {
    ghost use Rattle.std.specs.Prelude.{List, ℕ};

    ghost Value = { List ℕ };

    ghost use Rattle.qs_script.specs.StoredNames.{name_of, IsStored, stored, stored_name};

    ghost view = { name_of };

    ghost invariant = { IsStored };

    ghost inverse = { stored };

    ghost inverse_ok = { stored_name };
}

impl SessionName {
    /// The name of these bytes; `None` exactly where they aren't a session's name.
    pub fn of(bytes: &[u8]) -> Option<Self>
        ensures { SomeIff result (IsSessionName bytes.now) bytes.now }
    {
        if is_session_name(bytes) {
            Some(SessionName {
                bytes: padded(bytes),
                len: bytes.len(),
            })
        } else {
            None
        }
    }

    /// The name's bytes.
    pub fn as_slice(&self) -> &[u8]
        ensures bytes { result.now ≡ self.now }
        ensures name { IsSessionName self.now }
    {
        &self.bytes[..self.len]
    }
}

/// Whether the bytes are a session's name.
fn is_session_name(bytes: &[u8]) -> bool
    ensures { IsTrue result ↔ IsSessionName bytes.now }
{
    match bytes {
        [] => false,
        [first, others @ ..] => {
            others.len() < LONGEST
                && first.is_ascii_uppercase()
                && others.iter().all(|&byte| is_small_or_digit(byte))
        }
    }
}

/// Whether a byte may stand behind the first of a session's name.
fn is_small_or_digit(byte: u8) -> bool
    ensures { IsTrue result ↔ IsSmallOrDigit byte }
{
    byte.is_ascii_lowercase() || byte.is_ascii_digit()
}

/// The bytes, with zeros behind them.
fn padded(bytes: &[u8]) -> [u8; LONGEST]
    requires { length bytes.now ≤ 8 }
    ensures { result ≡ bytes.now ++ replicate (8 - length bytes.now) 0 }
{
    let mut room = [0; LONGEST];
    room[..bytes.len()].copy_from_slice(bytes);
    room
}
