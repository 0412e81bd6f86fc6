ghost use Rattle.std.specs.Prelude.{◌≡◌, ◌-◌, ◌^◌, ◌<◌, ◌⊎◌, false, length, IfOk};
ghost use Rattle.std.specs.Option.{ForSome};
ghost use Rattle.qs_model.specs.Requests.{is_read};
ghost use Rattle.qs_nbd_transmission.specs.Phases.{room_size};
ghost use Rattle.qs_request_state.specs.Shapes.{IsRoom, IsShape};
ghost use Rattle.qs_task.specs.Crews.{CrewPolls, CrewStep, Left, NextAbove, no_crew};
ghost use Rattle.qs_serving.specs.Crewed.{HasReply};
ghost use Rattle.qs_serving.specs.Steps.{IsAsRead};
ghost use Rattle.qs_transmission_phase.specs.Beginnings.{BeginsAsRead};

use crate::spare::SpareMemory;
use qs_bytes::{Ask, Bytes, Kind, MAX_PAYLOAD, Memory, Verdict};
use qs_nbd_transmission::Room;
use qs_request::Req;
use qs_request_state::{Blocks, Shape};
use qs_task::{Crew, CrewPoll, Station};
use std::alloc::Global;
use std::marker::Model;
use std::sync::Wait;

/// The number of a session among those of its station: it is alone there.
const SESSION: u32 = 0;

/// The live requests of a session, and the memory of those that were answered. Each answer has a reply, or was dropped.
#[derive(Debug, Drop)]
pub struct LiveRequests {
    crew: Crew,
    spare: SpareMemory,
}

impl Model for LiveRequests {
    ghost use Rattle.qs_task.specs.Crews.{CrewValue};
    ghost use Rattle.qs_request_state.specs.Shapes.{IsShape};
    ghost use Rattle.qs_serving.specs.Fitting.{AllFit};

    ghost Value = { CrewValue };

    ghost view = { λ r. r.crew };

    ghost invariant = { λ r. AllFit r.crew.shape.align r.crew.live × IsShape r.crew.shape };
}

/// Whether a request works in blocks of memory.
fn wants_blocks(ask: &Ask) -> bool {
    ask.length != 0 && matches!(ask.kind, Kind::Read | Kind::Write | Kind::Zero)
}

/// A READ's buffer, where it wants one and there is memory; the data of another request.
fn body_for(spare: &mut SpareMemory, ask: &Ask, body: Option<Bytes>) -> Option<Bytes>
    requires { ForSome body (λ bytes. length bytes ≡ ask.now.length) }
    ensures fits { ForSome result (λ bytes. length bytes ≡ ask.now.length) }
    ensures data_are { is_read ask.now.kind ≡ false → result ≡ body }
{
    if !matches!(ask.kind, Kind::Read) {
        return body;
    }
    if ask.length == 0 || ask.length > MAX_PAYLOAD {
        return None;
    }
    spare.take_buffer(ask.length as usize)
}

/// The blocks of a request, where it wants some and there is memory.
fn blocks_for(spare: &mut SpareMemory, ask: &Ask, align: u32) -> Option<Blocks>
    requires { (align ≡ 512) ⊎ (align ≡ 4096) }
    ensures { ForSome result (IsRoom align) }
{
    if wants_blocks(ask) {
        spare.take_blocks(align)
    } else {
        None
    }
}

/// A request as it was read, with what memory there is for it.
fn request_for(
    spare: &mut SpareMemory,
    shape: Shape,
    export: u8,
    ask: Ask,
    body: Option<Bytes>,
) -> Req
    requires shape { IsShape shape }
    requires body { ForSome body (λ bytes. length bytes ≡ ask.length) }
    ensures read { IsAsRead export ask body result.request }
    ensures shape { result.shape ≡ shape }
    ensures free { result.waits ≡ false }
    ensures unanswered { result.answered ≡ false }
{
    let given = body_for(spare, &ask, body);
    let blocks = blocks_for(spare, &ask, shape.align);
    Req::new(spare.alloc(), SESSION, ask, export, given, blocks, shape)
}

/// Keeps the memory of the request that was answered last.
fn keep_answered(crew: &mut Crew, spare: &mut SpareMemory)
    ensures { crew.new ≡ crew.old }
{
    match crew.take_answered() {
        Some(request) => spare.keep_request(request),
        None => {}
    }
}

impl LiveRequests {
    /// None is live. It takes all the memory that it needs beside buffers.
    pub fn new(alloc: Global, shape: Shape) -> Result<Self, Memory>
        requires { IsShape shape }
        ensures { IfOk result (λ r. r ≡ no_crew shape) }
    {
        Ok(LiveRequests {
            crew: Crew::new(alloc, shape)?,
            spare: SpareMemory::new(alloc)?,
        })
    }

    /// How many requests are live.
    pub fn live(&self) -> usize
        ensures { result ≡ length self.now.live }
    {
        self.crew.live()
    }

    /// The number of the request that began last, and 0 where none did.
    pub fn newest(&self) -> u64
        ensures { result ≡ self.now.newest }
    {
        self.crew.newest()
    }

    /// The least number above this one that a live request has.
    pub fn next_above(&self, number: u64) -> Option<u64>
        ensures { NextAbove number self.now.live result }
    {
        self.crew.next_above(number)
    }

    /// Room for the data of a WRITE: a buffer, or none where memory is refused.
    pub fn room_for(&mut self, size: u64) -> Room
        ensures size { room_size result ≡ size }
        ensures same { self.new ≡ self.old }
    {
        match self.spare.take_buffer(size as usize) {
            Some(buffer) => Room::Keep(buffer),
            None => Room::Drop(size),
        }
    }

    /// Begins the request that was read, with the next number. A WRITE has its data in `body`, where they were kept.
    pub fn begin(&mut self, export: u8, ask: Ask, body: Option<Bytes>)
        requires few { length self.old.live < 16 }
        requires number { self.old.newest < 2 ^ 64 - 1 }
        requires body { ForSome body (λ bytes. length bytes ≡ ask.length) }
        ensures { BeginsAsRead export ask body self.old self.new }
    {
        let number = self.crew.newest() + 1;
        let request = request_for(&mut self.spare, self.crew.shape(), export, ask, body);
        match self.crew.add(request, number) {
            Ok(()) => {}
            Err(_) => unreachable!(),
        }
    }

    /// Polls the live request with this number, as a crew does. What it is answered with has a reply, or was dropped.
    pub fn poll<S: Station, R: Wait>(
        &mut self,
        rt: &R,
        hall: &S::Hall,
        station: &mut S,
        number: u64,
        now: u64,
    ) -> CrewPoll
        requires of { S.is_of hall.now station.old }
        requires shape { self.old.shape ≡ S.shape hall.now }
        ensures of { S.is_of hall.now station.new }
        ensures polls { CrewPolls result number self.old self.new (S.book station.old) (S.book station.new) }
        ensures reply { HasReply result }
        ensures shape { self.new.shape ≡ self.old.shape }
        ensures later { S.follows station.old station.new }
    {
        let polled = self.crew.poll(rt, hall, station, number, now);
        keep_answered(&mut self.crew, &mut self.spare);
        polled
    }

    /// Keeps the buffer of a READ's bytes for the requests that come.
    pub fn keep(&mut self, verdict: Verdict)
        ensures { self.new ≡ self.old }
    {
        self.spare.keep_verdict(verdict);
    }

    /// The session leaves them: each is abandoned, and runs on to its end where it has to.
    pub fn abandon(&mut self)
        ensures { CrewStep self.old Left self.new }
    {
        self.crew.abandon();
    }
}
