ghost use Rattle.std.specs.Prelude.{◌≡◌, ◌↔◌, ◌++◌, [], length, IsTrue, OnOk, OnErr};
ghost use Rattle.std.specs.Borrow.{Lends, sem, Array, u8 as byte};
ghost use Rattle.qs_bytes.specs.contracts.buffer.Bytes.{the_row};
ghost use Rattle.qs_bytes.specs.Pieces.{written};

use crate::memory::Memory;
use std::marker::Model;

/// A buffer of bytes, seen as the list of them.
#[derive(Debug, Drop)]
pub struct Bytes(Vec<u8>);

impl Model for Bytes {
    ghost use Rattle.std.specs.Prelude.{List, ℕ};

    ghost Value = { List ℕ };

    ghost view = { λ b. b.0.items };
}

impl Bytes {
    /// The same bytes in a buffer. It takes no memory.
    pub fn of(v: Vec<u8>) -> Self
        ensures { result ≡ v.items }
    {
        Bytes(v)
    }

    /// The bytes.
    pub fn as_slice(&self) -> &[u8]
        ensures { result.now ≡ self.now }
    {
        self.0.as_slice()
    }

    /// The bytes, to be written in place. What is last written there is what the buffer has.
    pub fn as_mut_slice(&mut self) -> &mut [u8]
        ensures* writes_back { sem 𝓛 (Lends the_row (Array byte 0) self.entry result (λ ws. written self.old ws)) }
        ensures value { result.now ≡ self.old }
    {
        self.0.as_mut_slice()
    }

    /// How many bytes there are.
    pub fn len(&self) -> usize
        ensures { result ≡ length self.now }
    {
        self.0.len()
    }

    /// Whether there is no byte.
    pub fn is_empty(&self) -> bool
        ensures { IsTrue result ↔ (self.now ≡ []) }
    {
        self.0.is_empty()
    }

    /// Writes bytes at the end. Refused memory leaves the buffer as it was.
    pub fn append(&mut self, bytes: &[u8]) -> Result<(), Memory>
        ensures ok { OnOk result (self.new ≡ self.old ++ bytes.now) }
        ensures err { OnErr result (self.new ≡ self.old) }
    {
        match self.0.extend_from_slice(bytes) {
            Ok(()) => Ok(()),
            Err(_) => Err(Memory),
        }
    }

    /// Lets the bytes go, and keeps their room.
    pub fn clear(&mut self)
        ensures { self.new ≡ [] }
    {
        self.0.clear();
    }

    /// The same bytes as a vector. It takes no memory.
    pub fn into_vec(self) -> Vec<u8>
        ensures { result.items ≡ self }
    {
        let Bytes(v) = self;
        v
    }
}
