ghost use Rattle.std.specs.Prelude.{◌≡◌, ◌≤◌, ◌+◌, ◌++◌, ◌==◌, [], length, drop, MatchResult};
ghost use Rattle.qs_wire_stream.specs.Patience.{with_leave};
ghost use Rattle.qs_wire_stream.specs.Currents.{TriesRead, TriesWrite, current, fresh_stream};

use crate::gathered::{Gathered, Sending};
use crate::patient::PatientLink;
use crate::window::Window;
use qs_bytes::Memory;
use qs_links::{Tried, Wire};
use std::alloc::Global;
use std::marker::Model;

/// A wire, the bytes that were read of it and wait, and those that wait to be written.
#[derive(Debug, Drop)]
pub struct WireStream<W> {
    wire: W,
    window: Window,
    gathered: Gathered,
}

impl<W> Model for WireStream<W> {
    ghost use Rattle.qs_wire_stream.specs.Pending.{WireBuffers};

    ghost Value = { WireBuffers W };

    ghost view = { λ s. record { wire = s.wire; waiting = s.window; held = s.gathered.held; room = s.gathered.room } };
}

impl<W> WireStream<W> {
    /// A stream over the wire, of which nothing was read. It takes a window of 65,536 bytes and room for as many that
    /// wait to be written. Where memory is refused the wire comes back.
    pub fn new(alloc: Global, wire: W) -> Result<Self, W>
        ensures { MatchResult result (λ s. s ≡ fresh_stream wire) (λ back. back ≡ wire) }
    {
        match (Window::new(alloc), Gathered::new(alloc)) {
            (Ok(window), Ok(gathered)) => Ok(WireStream {
                wire,
                window,
                gathered,
            }),
            _ => Err(wire),
        }
    }

    /// The wire, in whatever state it is.
    pub fn wire(&self) -> &W
        ensures { result.now ≡ self.now.wire }
    {
        &self.wire
    }

    /// Gives the wire back, and drops what waits.
    pub fn into_wire(self) -> W
        ensures { result ≡ self.wire }
    {
        self.wire
    }

    /// The bytes that were read and wait.
    pub fn waiting(&self) -> &[u8]
        ensures { result.now ≡ self.now.waiting }
    {
        self.window.waiting()
    }

    /// Takes bytes away from the front of those that wait.
    pub fn take(&mut self, count: usize)
        requires { count ≤ length self.old.waiting }
        ensures { self.new ≡ record self.old { waiting = drop count self.old.waiting } }
    {
        self.window.take(count);
    }

    /// Whether nothing waits to be written.
    pub fn is_written(&self) -> bool
        ensures { result ≡ (length self.now.held == 0) }
    {
        self.gathered.is_empty()
    }

    /// Makes room for so many more bytes to be put. Refused memory leaves all as it was.
    pub fn reserve(&mut self, count: usize) -> Result<(), Memory>
        ensures rest { self.new ≡ record self.old { room = self.new.room } }
        ensures room { MatchResult result (λ _. count ≤ self.new.room) (λ _. self.new.room ≡ self.old.room) }
        ensures later { self.old.room ≤ self.new.room }
    {
        self.gathered.reserve(count)
    }

    /// Puts bytes behind those that wait to be written. It takes no memory, and doesn't write.
    pub fn put(&mut self, bytes: &[u8])
        requires { length bytes.now ≤ self.old.room }
        ensures held { self.new ≡ record self.old { held = self.old.held ++ bytes.now; room = self.new.room } }
        ensures room { self.old.room ≤ self.new.room + length bytes.now }
    {
        self.gathered.push(bytes);
    }
}

impl<L> WireStream<PatientLink<L>> {
    /// Gives the wire leave for one read.
    pub fn allow_read(&mut self)
        ensures { self.new ≡ record self.old { wire = with_leave self.old.wire } }
    {
        self.wire.give_leave();
    }
}

impl<W: Wire> WireStream<W> {
    /// Tries to read, once, where nothing waits. What came waits then.
    pub fn read(&mut self) -> Tried
        requires { self.old.waiting ≡ [] }
        ensures reads { TriesRead result
            (current W.left W.sent W.read_faults W.write_faults W.waits self.old)
            (current W.left W.sent W.read_faults W.write_faults W.waits self.new) }
        ensures room { self.new.room ≡ self.old.room }
    {
        self.window.try_fill(&mut self.wire)
    }

    /// Writes what waits to be written, as far as the wire takes it. There is no less room after it.
    pub fn write(&mut self) -> Sending
        ensures writes { TriesWrite result
            (current W.left W.sent W.read_faults W.write_faults W.waits self.old)
            (current W.left W.sent W.read_faults W.write_faults W.waits self.new) }
        ensures room { self.old.room ≤ self.new.room }
    {
        self.gathered.try_send(&mut self.wire)
    }
}
