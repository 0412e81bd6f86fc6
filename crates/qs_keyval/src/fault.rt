use qs_bytes::{Bytes, Memory};
use std::alloc::{AllocError, AllocFailed};

/// Why a word is none of the option's. Places are bytes of the word.
#[derive(Debug, Drop)]
pub enum KeyvalFault {
    /// The item that begins here is empty, or has no well-formed key before its `=`.
    BadKey(usize),
    /// The item that begins here has no `=`, and there is no implied key for it.
    NoValue(usize),
    /// This key is a value by one item and an object by another.
    Clash(Bytes),
    /// The word begins with `{` and isn't one JSON object.
    BadJson,
    /// Memory was refused.
    Memory,
}

impl From<AllocError> for KeyvalFault {
    ghost use Rattle.std.specs.Prelude.{◌≡◌};
    ghost use Rattle.qs_keyval.specs.declared.fault.KeyvalFault.TheVariants.{Memory};

    ghost from_gives = { λ refused fault. fault ≡ Memory };

    fn from(_refused: AllocError) -> KeyvalFault {
        KeyvalFault::Memory
    }
}
