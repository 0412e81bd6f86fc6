ghost use Rattle.std.specs.Prelude.{◌≡◌, ◌≤◌, ◌<◌, [], IfOk};
ghost use Rattle.qs_bytes.specs.Payloads.{max_payload};
ghost use Rattle.qs_stream.specs.Buffers.{new_buffers};
ghost use Rattle.qs_stream.specs.declared.state.State.TheVariants.{Open};
ghost use Rattle.qs_stream.specs.Flows.{flow};
ghost use Rattle.qs_stdio.specs.Turns.{Asking, Bringing, HasRoom, IsFilling, between, status_at};

use crate::event::next_event;
use qs_bytes::{Ask, Bytes, Memory, Mode};
use qs_nbd_transmission::{Room, Transmission, WireEvent};
use qs_outside::{Failed, Sink, Source};
use qs_status::{SessionEnd, Status};
use qs_stream::Stream;
use std::alloc::Global;
use std::mem;

/// One client's session: the reader of its requests, the bytes that wait to be taken and to be
/// written, and a buffer for the bytes of a READ or the data of a WRITE.
#[derive(Debug, Drop)]
pub struct Session {
    pub reader: Transmission,
    pub stream: Stream,
    pub spare: Vec<u8>,
}

/// The next request, or how the session ended.
#[derive(Debug, Drop)]
pub enum Came {
    Asked(Ask),
    Ends(Status),
}

/// The status of a session that ended so.
fn status_of(end: SessionEnd) -> Status
    ensures { result ≡ status_at end }
{
    match end {
        SessionEnd::Done => Status::Done,
        _ => Status::Ended(end),
    }
}

/// Room for the data of a WRITE: the buffer, or none where memory is refused.
pub fn room_for(alloc: Global, spare: &mut Vec<u8>, size: u64) -> Room
    requires { size ≤ max_payload }
    ensures { HasRoom size result }
{
    let count = size as usize;
    let mut buffer = mem::replace(spare, Vec::new(alloc));
    match buffer.resize(count, 0) {
        Ok(()) => Room::Keep(Bytes::of(buffer)),
        Err(_) => Room::Drop(size),
    }
}

impl Session {
    /// A session whose first request is awaited.
    pub fn new(alloc: Global, mode: Mode) -> Result<Self, Memory>
        ensures { IfOk result (λ s. (s.reader ≡ between mode.structured) × (s.stream ≡ new_buffers)) }
    {
        Ok(Session::over(alloc, mode, Stream::new(alloc)?))
    }

    /// A session over a stream, whose first request is awaited. It takes no memory.
    pub fn over(alloc: Global, mode: Mode, stream: Stream) -> Self
        ensures reader { result.reader ≡ between mode.structured }
        ensures stream { result.stream ≡ stream }
    {
        Session {
            reader: Transmission::new(mode),
            stream,
            spare: Vec::new(alloc),
        }
    }

    /// The next request, between requests.
    pub fn next_ask<I: Source, O: Sink>(
        &mut self,
        mode: &Mode,
        input: &mut I,
        output: &mut O,
    ) -> Result<Came, Failed>
        requires between { self.old.reader ≡ between mode.now.structured }
        ensures { Asking mode.now.structured (flow I.left I.read_faults O.sent O.write_faults input.old output.old
            self.old.stream) result
            self.new.reader (flow I.left I.read_faults O.sent O.write_faults input.new output.new self.new.stream) }
    {
        self.stream.check()?;
        match next_event(&mut self.reader, &mut self.stream, input, output)? {
            Some(WireEvent::Head(ask)) => Ok(Came::Asked(ask)),
            Some(WireEvent::Disc) => Ok(Came::Ends(Status::Done)),
            Some(WireEvent::Bad(end)) => Ok(Came::Ends(Status::Ended(end))),
            Some(WireEvent::Body(_)) => unreachable!(),
            None => Ok(Came::Ends(status_of(self.reader.at_end()))),
        }
    }

    /// The data of a WRITE, once room was given for them, in that room; `None` where the input ends
    /// before their end.
    pub fn next_data<I: Source, O: Sink>(
        &mut self,
        input: &mut I,
        output: &mut O,
    ) -> Result<Option<Room>, Failed>
        requires filling { IsFilling self.old.reader.phase }
        requires ongoing { self.old.stream.state ≡ Open }
        ensures { Bringing self.old.reader (flow I.left I.read_faults O.sent O.write_faults input.old output.old
            self.old.stream) result
            self.new.reader (flow I.left I.read_faults O.sent O.write_faults input.new output.new self.new.stream) }
    {
        match next_event(&mut self.reader, &mut self.stream, input, output)? {
            Some(WireEvent::Body(room)) => Ok(Some(room)),
            Some(_) => unreachable!(),
            None => Ok(None),
        }
    }
}
