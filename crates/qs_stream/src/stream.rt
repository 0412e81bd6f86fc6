ghost use Rattle.std.specs.Prelude.{◌≡◌, ◌≤◌, [], length, drop, IfOk, OnOk};
ghost use Rattle.qs_stream.specs.Buffers.{new_buffers};
ghost use Rattle.qs_stream.specs.Flows.{Fills, Puts, Tells, flow, side};

use crate::inbox::Inbox;
use crate::outbox::{Outbox, flush, send};
use crate::state::State;
use qs_bytes::Memory;
use qs_outside::{Failed, Sink, Source};
use std::alloc::Global;
use std::marker::Model;

/// The bytes of a stream that were read and wait, those that wait to be written, and whether a side
/// failed. The sides themselves are passed to each call.
///
/// After a fault no side is called again, and every call answers `Failed`.
#[derive(Debug, Drop)]
pub struct Stream {
    inbox: Inbox,
    outbox: Outbox,
    state: State,
}

impl Model for Stream {
    ghost use Rattle.std.specs.Prelude.{◌≤◌, length};
    ghost use Rattle.qs_stream.specs.Buffers.{Buffers};

    ghost Value = { Buffers };

    ghost view = { λ s. record { waiting = s.inbox; held = s.outbox; state = s.state } };

    ghost invariant = { λ s. length s.outbox ≤ 65536 };
}

impl Stream {
    /// Nothing waits. It takes two buffers of 65,536 bytes, and no more memory later.
    pub fn new(alloc: Global) -> Result<Self, Memory>
        ensures { IfOk result (λ s. s ≡ new_buffers) }
    {
        Ok(Stream {
            inbox: Inbox::new(alloc)?,
            outbox: Outbox::new(alloc)?,
            state: State::Open,
        })
    }

    /// Whether the stream goes on, or which side failed.
    pub fn state(&self) -> State
        ensures { result ≡ self.now.state }
    {
        self.state
    }

    /// `Failed` exactly where a side failed before.
    pub fn check(&self) -> Result<(), Failed>
        ensures { Tells result self.now.state }
    {
        match self.state {
            State::Open => Ok(()),
            State::ReadFault | State::WriteFault => Err(Failed),
        }
    }

    /// The bytes that were read and wait.
    pub fn waiting(&self) -> &[u8]
        ensures { result.now ≡ self.now.waiting }
    {
        self.inbox.waiting()
    }

    /// Takes bytes away from the front of those that wait.
    pub fn take(&mut self, count: usize)
        requires { count ≤ length self.old.waiting }
        ensures { self.new ≡ record self.old { waiting = drop count self.old.waiting } }
    {
        self.inbox.take(count);
    }

    /// Puts bytes behind those that wait to be written. Where there would be more than 65,536, those
    /// before are written first. A fault is kept, and told by the calls that follow: what was put and
    /// not written is then lost.
    pub fn put<O: Sink>(&mut self, output: &mut O, bytes: &[u8])
        ensures few { length self.new.held ≤ 65536 }
        ensures puts { Puts bytes.now (side O.sent O.write_faults output.old) self.old
            (side O.sent O.write_faults output.new) self.new }
    {
        match self.check() {
            Ok(()) => {}
            Err(_) => return,
        }
        if bytes.is_empty() {
            return;
        }
        match send(&mut self.outbox, output, bytes) {
            Ok(()) => {}
            Err(_) => self.state = State::WriteFault,
        }
    }

    /// Writes all that waits.
    pub fn flush<O: Sink>(&mut self, output: &mut O) -> Result<(), Failed>
        ensures puts { Puts [] (side O.sent O.write_faults output.old) self.old
            (side O.sent O.write_faults output.new) self.new }
        ensures tells { Tells result self.new.state }
        ensures written { OnOk result (self.new.held ≡ []) }
    {
        self.check()?;
        match flush(&mut self.outbox, output) {
            Ok(()) => Ok(()),
            Err(failed) => {
                self.state = State::WriteFault;
                Err(failed)
            }
        }
    }

    /// Reads more, once, where nothing waits, and answers how many bytes came; none are the input's
    /// end. All that waits to be written is written before, since reading may wait.
    pub fn fill<I: Source, O: Sink>(
        &mut self,
        input: &mut I,
        output: &mut O,
    ) -> Result<usize, Failed>
        requires { self.old.waiting ≡ [] }
        ensures { Fills (flow I.left I.read_faults O.sent O.write_faults input.old output.old self.old) result
            (flow I.left I.read_faults O.sent O.write_faults input.new output.new self.new) }
    {
        self.flush(output)?;
        match self.inbox.fill(input) {
            Ok(count) => Ok(count),
            Err(failed) => {
                self.state = State::ReadFault;
                Err(failed)
            }
        }
    }
}
