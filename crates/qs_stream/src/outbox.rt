ghost use Rattle.std.specs.Prelude.{◌≡◌, ◌↔◌, ◌+◌, ◌≤◌, [], ◌++◌, length, IsTrue, IfOk};
ghost use Rattle.qs_stream.specs.Bytes.{Sends};
ghost use Rattle.qs_stream.specs.Faults.{Counts};

use qs_bytes::Memory;
use qs_outside::{Failed, Sink};
use std::alloc::Global;
use std::marker::Model;

/// The most bytes that wait to be written.
const ROOM: usize = 65_536;

/// Bytes that wait to be written.
#[derive(Debug, Drop)]
pub struct Outbox {
    bytes: Vec<u8>,
}

impl Model for Outbox {
    ghost use Rattle.std.specs.Prelude.{◌≤◌, ℕ, List, vec_len, vec_capacity};

    ghost Value = { List ℕ };

    ghost view = { λ o. o.bytes.items };

    ghost invariant = { λ o. (vec_len o.bytes ≤ 65536) × (65536 ≤ vec_capacity o.bytes) };
}

impl Outbox {
    /// Nothing waits. No call takes more memory.
    pub fn new(alloc: Global) -> Result<Self, Memory>
        ensures { IfOk result (λ o. o ≡ []) }
    {
        match Vec::with_capacity(alloc, ROOM) {
            Ok(bytes) => Ok(Outbox { bytes }),
            Err(_) => Err(Memory),
        }
    }

    /// The bytes that wait.
    pub fn held(&self) -> &[u8]
        ensures { result.now ≡ self.now }
    {
        self.bytes.as_slice()
    }

    /// Whether there is room for so many more.
    pub fn has_room(&self, count: usize) -> bool
        ensures { IsTrue result ↔ (length self.now + count ≤ 65536) }
    {
        count <= ROOM - self.bytes.len()
    }

    /// Puts bytes behind those that wait.
    pub fn push(&mut self, bytes: &[u8])
        requires { length self.old + length bytes.now ≤ 65536 }
        ensures { self.new ≡ self.old ++ bytes.now }
    {
        match self.bytes.extend_from_slice(bytes) {
            Ok(()) => {}
            Err(_) => unreachable!(),
        }
    }

    /// Drops what waits.
    pub fn clear(&mut self)
        ensures { self.new ≡ [] }
    {
        self.bytes.clear();
    }
}

/// Writes bytes, a front of them where that fails.
fn write_all<O: Sink>(output: &mut O, bytes: &[u8]) -> Result<(), Failed>
    ensures sends { Sends (O.sent output.old) [] bytes.now result (O.sent output.new) [] }
    ensures counts { Counts (O.write_faults output.old) (O.write_faults output.new) result }
{
    let mut done = 0;
    while done < bytes.len() {
        done += output.write(&bytes[done..])?;
    }
    Ok(())
}

/// Writes all that waits. Where that fails, the rest is lost.
pub fn flush<O: Sink>(outbox: &mut Outbox, output: &mut O) -> Result<(), Failed>
    ensures sends { Sends (O.sent output.old) outbox.old [] result (O.sent output.new) outbox.new }
    ensures empty { outbox.new ≡ [] }
    ensures counts { Counts (O.write_faults output.old) (O.write_faults output.new) result }
{
    let result = write_all(output, outbox.held());
    outbox.clear();
    result
}

/// Puts bytes behind those that wait. Where there is no room, what waits is written before. As many as there is ever
/// room for are written themselves, without being copied.
pub fn send<O: Sink>(outbox: &mut Outbox, output: &mut O, bytes: &[u8]) -> Result<(), Failed>
    requires { length outbox.old ≤ 65536 }
    ensures few { length outbox.new ≤ 65536 }
    ensures sends { Sends (O.sent output.old) outbox.old bytes.now result (O.sent output.new) outbox.new }
    ensures counts { Counts (O.write_faults output.old) (O.write_faults output.new) result }
{
    if bytes.len() < ROOM && outbox.has_room(bytes.len()) {
        outbox.push(bytes);
        return Ok(());
    }
    flush(outbox, output)?;
    if bytes.len() < ROOM {
        outbox.push(bytes);
        return Ok(());
    }
    write_all(output, bytes)
}
