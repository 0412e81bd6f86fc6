ghost use Rattle.std.specs.Prelude.{◌≡◌, ◌≤◌, ◌+◌, ◌==◌, [], ◌++◌, length, drop, IfOk, MatchResult};
ghost use Rattle.qs_links.specs.Tries.{CountsIf};
ghost use Rattle.qs_stream.specs.Bytes.{Gives};
ghost use Rattle.qs_wire_stream.specs.Currents.{WritesAll, is_broken, is_stopped};
ghost use Rattle.qs_wire_stream.specs.Pending.{GatheredBytes};

use qs_bytes::Memory;
use qs_links::{Tried, Wire};
use std::alloc::Global;
use std::marker::Model;

/// How many bytes there is room for at first.
const FIRST_ROOM: usize = 65_536;

/// How writing all that waits went.
#[derive(Clone, Copy, Debug, PartialEq, Eq)]
pub enum Sending {
    /// Nothing waits any more.
    Written,
    /// The wire takes no more now. What it didn't take waits.
    NotReady,
    /// A write failed. What wasn't written waits.
    Failed,
}

/// Bytes that wait to be written, and how many more there is room for.
#[derive(Debug, Drop)]
pub struct Gathered {
    bytes: Vec<u8>,
    start: usize,
}

impl Model for Gathered {
    ghost use Rattle.std.specs.Prelude.{◌≤◌, ◌-◌, drop, vec_len, vec_capacity};
    ghost use Rattle.qs_wire_stream.specs.Pending.{GatheredBytes};

    ghost Value = { GatheredBytes };

    ghost view = { λ g. record {
      held = drop g.start g.bytes.items;
      room = vec_capacity g.bytes - vec_len g.bytes;
    } };

    ghost invariant = { λ g. g.start ≤ vec_len g.bytes };
}

/// A front of some bytes was written.
#[derive(Drop)]
struct Front {
    count: usize,
    how: Sending,
}

/// Writes of the piece what the wire takes without waiting.
fn send_front<W: Wire>(wire: &mut W, piece: &[u8]) -> Front
    ensures within { result.count ≤ length piece.now }
    ensures gives { Gives (W.sent wire.old) [] piece.now (W.sent wire.new) (drop result.count piece.now) }
    ensures all { WritesAll result.how (result.count ≡ length piece.now) }
    ensures cause { CountsIf (is_broken result.how) (W.write_faults wire.old) (W.write_faults wire.new) }
    ensures wait { CountsIf (is_stopped result.how) (W.waits wire.old) (W.waits wire.new) }
    ensures beside { W.left wire.new ≡ W.left wire.old }
    ensures beside_count { W.read_faults wire.new ≡ W.read_faults wire.old }
{
    let mut count = 0;
    while count < piece.len() {
        match wire.try_write(&piece[count..]) {
            Tried::Did(more) => count += more,
            Tried::NotReady => {
                return Front {
                    count,
                    how: Sending::NotReady,
                };
            }
            Tried::Failed => {
                return Front {
                    count,
                    how: Sending::Failed,
                };
            }
            Tried::Ended => unreachable!(),
        }
    }
    Front {
        count,
        how: Sending::Written,
    }
}

impl Gathered {
    /// Nothing waits, and there is room for 65,536 bytes.
    pub fn new(alloc: Global) -> Result<Self, Memory>
        ensures { IfOk result (λ g. g ≡ record { held = []; room = 65536 }) }
    {
        match Vec::with_capacity(alloc, FIRST_ROOM) {
            Ok(bytes) => Ok(Gathered { bytes, start: 0 }),
            Err(_) => Err(Memory),
        }
    }

    /// Whether nothing waits.
    pub fn is_empty(&self) -> bool
        ensures { result ≡ (length self.now.held == 0) }
    {
        self.bytes.len() == self.start
    }

    /// Makes room for so many more bytes.
    pub fn reserve(&mut self, count: usize) -> Result<(), Memory>
        ensures held { self.new.held ≡ self.old.held }
        ensures room { MatchResult result (λ _. count ≤ self.new.room) (λ _. self.new.room ≡ self.old.room) }
        ensures later { self.old.room ≤ self.new.room }
    {
        match self.bytes.reserve(count) {
            Ok(()) => Ok(()),
            Err(_) => Err(Memory),
        }
    }

    /// Puts bytes behind those that wait. It takes no memory.
    pub fn push(&mut self, bytes: &[u8])
        requires { length bytes.now ≤ self.old.room }
        ensures held { self.new.held ≡ self.old.held ++ bytes.now }
        ensures room { self.old.room ≤ self.new.room + length bytes.now }
    {
        match self.bytes.extend_from_slice(bytes) {
            Ok(()) => {}
            Err(_) => unreachable!(),
        }
    }

    /// Writes what waits, as far as the wire takes it.
    pub fn try_send<W: Wire>(&mut self, wire: &mut W) -> Sending
        ensures gives { Gives (W.sent wire.old) self.old.held [] (W.sent wire.new) self.new.held }
        ensures all { WritesAll result (self.new.held ≡ []) }
        ensures room { self.old.room ≤ self.new.room }
        ensures cause { CountsIf (is_broken result) (W.write_faults wire.old) (W.write_faults wire.new) }
        ensures wait { CountsIf (is_stopped result) (W.waits wire.old) (W.waits wire.new) }
        ensures beside { W.left wire.new ≡ W.left wire.old }
        ensures beside_count { W.read_faults wire.new ≡ W.read_faults wire.old }
    {
        let front = send_front(wire, &self.bytes[self.start..]);
        self.start += front.count;
        if self.start == self.bytes.len() {
            self.bytes.clear();
            self.start = 0;
        }
        front.how
    }
}
