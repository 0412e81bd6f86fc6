ghost use Rattle.std.specs.Prelude.{◌≡◌, ◌≤◌, [], length, drop, IfOk};
ghost use Rattle.std.specs.Io.KnownBytes.{Consumes};
ghost use Rattle.qs_links.specs.Tries.{CountsIf, is_failed, is_not_ready};
ghost use Rattle.qs_wire_stream.specs.Currents.{CameBy, EndsAfter};

use qs_bytes::Memory;
use qs_links::{Tried, Wire};
use std::alloc::Global;
use std::marker::Model;

/// The most bytes that one read takes.
const WINDOW_BYTES: usize = 65_536;

/// Bytes that were read and wait.
#[derive(Debug, Drop)]
pub struct Window {
    bytes: Vec<u8>,
    start: usize,
    end: usize,
}

impl Model for Window {
    ghost use Rattle.std.specs.Prelude.{◌≤◌, ◌-◌, ℕ, List, vec_len};
    ghost use Rattle.qs_bytes.specs.Pieces.{part};

    ghost Value = { List ℕ };

    ghost view = { λ w. part w.bytes.items w.start (w.end - w.start) };

    ghost invariant = { λ w. (w.start ≤ w.end) × (w.end ≤ vec_len w.bytes) × (65536 ≤ vec_len w.bytes) };
}

impl Window {
    /// Nothing was read.
    pub fn new(alloc: Global) -> Result<Self, Memory>
        ensures { IfOk result (λ w. w ≡ []) }
    {
        match vec![in alloc; 0; WINDOW_BYTES] {
            Ok(bytes) => Ok(Window {
                bytes,
                start: 0,
                end: 0,
            }),
            Err(_) => Err(Memory),
        }
    }

    /// The bytes that wait.
    pub fn waiting(&self) -> &[u8]
        ensures { result.now ≡ self.now }
    {
        &self.bytes[self.start..self.end]
    }

    /// Takes bytes away from the front.
    pub fn take(&mut self, count: usize)
        requires { count ≤ length self.old }
        ensures { self.new ≡ drop count self.old }
    {
        self.start += count;
    }

    /// Tries to read, once, where nothing waits.
    pub fn try_fill<W: Wire>(&mut self, wire: &mut W) -> Tried
        requires { self.old ≡ [] }
        ensures bytes { Consumes (W.left wire.old) (W.left wire.new) self.new }
        ensures came { CameBy result self.new }
        ensures end { EndsAfter result (W.left wire.new) }
        ensures cause { CountsIf (is_failed result) (W.read_faults wire.old) (W.read_faults wire.new) }
        ensures wait { CountsIf (is_not_ready result) (W.waits wire.old) (W.waits wire.new) }
        ensures beside { W.sent wire.new ≡ W.sent wire.old }
        ensures beside_count { W.write_faults wire.new ≡ W.write_faults wire.old }
    {
        self.start = 0;
        self.end = 0;
        let tried = wire.try_read(self.bytes.as_mut_slice());
        match tried {
            Tried::Did(count) => self.end = count,
            _ => {}
        }
        tried
    }
}
