ghost use Rattle.std.specs.Prelude.{◌≡◌, ℕ, ◌-◌, ◌^◌, ◌<◌, ◌≤◌, Bool, true, false};
ghost use Rattle.qs_bytes.specs.Payloads.{max_payload};
ghost use Rattle.qs_nbd_transmission.specs.Heads.{has_data};
ghost use Rattle.qs_single.specs.Resting.{IsResting};
ghost use Rattle.qs_stream.specs.declared.state.State.TheVariants.{Open};
ghost use Rattle.qs_stdio.specs.Scenes.{scene};
ghost use Rattle.qs_stream.specs.Flows.{side};
ghost use Rattle.qs_stdio.specs.Turns.{AnswersBare, AwaitsRoom, Finishes, ServesMessage, between, body_in};

use crate::answer::{keep_body, keep_buffer, read_buffer, respond};
use crate::session::{Came, Session, room_for};
use qs_bytes::{Ask, Bytes, Mode};
use qs_nbd_transmission::{Room, awaits_data};
use qs_outside::{Disk, Failed, Sink, Source};
use qs_status::{SessionEnd, Status};
use qs_world::world::World;
use std::alloc::Global;

/// Whether a session goes on after a request.
#[derive(Debug, Drop)]
pub enum Progress {
    Goes,
    Ends(Status),
}

/// The data of a WRITE, where memory was given for them.
fn body_of(room: Room) -> Option<Bytes>
    ensures { result ≡ body_in room }
{
    match room {
        Room::Keep(body) => Some(body),
        Room::Drop(_) => None,
    }
}

impl Session {
    /// Reads the data of a WRITE whose head came, and answers it.
    fn serve_data<I: Source, O: Sink, D: Disk + Drop>(
        &mut self,
        alloc: Global,
        input: &mut I,
        output: &mut O,
        world: &mut World<D>,
        mode: &Mode,
        ask: &Ask,
        now: u64,
    ) -> Result<Progress, Failed>
        requires resting { (writable : Bool) × IsResting D.seen 0 writable world.old }
        requires room { world.old.next < 2 ^ 64 - 1 }
        requires data { has_data ask.now ≡ true }
        requires short { ask.now.length ≤ max_payload }
        requires awaits { AwaitsRoom mode.now.structured self.old.reader ask.now }
        requires ongoing { self.old.stream.state ≡ Open }
        ensures { (writable : Bool) → IsResting D.seen 0 writable world.old →
            Finishes D.seen 0 writable mode.now.structured ask.now
            (scene I.left I.read_faults O.sent O.write_faults input.old output.old self.old.stream world.old)
            result self.new.reader
            (scene I.left I.read_faults O.sent O.write_faults input.new output.new self.new.stream world.new) }
    {
        let room = room_for(alloc, &mut self.spare, ask.length);
        self.reader.give(room);
        let room = match self.next_data(input, output)? {
            Some(room) => room,
            None => return Ok(Progress::Ends(Status::Ended(SessionEnd::Truncated))),
        };
        let body = body_of(room);
        let Some(verdict) = respond(&mut self.stream, output, world, mode, ask, body, now) else {
            return Ok(Progress::Ends(Status::Memory));
        };
        keep_buffer(&mut self.spare, verdict);
        keep_body(&mut self.spare, world);
        Ok(Progress::Goes)
    }

    /// Answers a request that no data follow.
    fn serve_bare<O: Sink, D: Disk + Drop>(
        &mut self,
        alloc: Global,
        output: &mut O,
        world: &mut World<D>,
        mode: &Mode,
        ask: &Ask,
        now: u64,
    ) -> Progress
        requires resting { (writable : Bool) × IsResting D.seen 0 writable world.old }
        requires room { world.old.next < 2 ^ 64 - 1 }
        requires bare { has_data ask.now ≡ false }
        ensures reader { self.new.reader ≡ self.old.reader }
        ensures bare { (writable : Bool) → IsResting D.seen 0 writable world.old →
            AnswersBare D.seen 0 writable mode.now.structured ask.now world.old result world.new
            (side O.sent O.write_faults output.old) self.old.stream (side O.sent O.write_faults output.new) self.new.stream }
    {
        let body = read_buffer(alloc, &mut self.spare, ask);
        match respond(&mut self.stream, output, world, mode, ask, body, now) {
            Some(verdict) => {
                keep_buffer(&mut self.spare, verdict);
                Progress::Goes
            }
            None => Progress::Ends(Status::Memory),
        }
    }

    /// Reads the next request and answers it, by this reading of the clock. Where its reply can't be
    /// written, the next turn fails.
    pub fn serve_one<I: Source, O: Sink, D: Disk + Drop>(
        &mut self,
        alloc: Global,
        input: &mut I,
        output: &mut O,
        world: &mut World<D>,
        mode: &Mode,
        now: u64,
    ) -> Result<Progress, Failed>
        requires resting { (writable : Bool) × IsResting D.seen 0 writable world.old }
        requires room { world.old.next < 2 ^ 64 - 1 }
        requires between { self.old.reader ≡ between mode.now.structured }
        ensures { (writable : Bool) → IsResting D.seen 0 writable world.old →
            ServesMessage D.seen 0 writable mode.now.structured
            (scene I.left I.read_faults O.sent O.write_faults input.old output.old self.old.stream world.old)
            result self.new.reader
            (scene I.left I.read_faults O.sent O.write_faults input.new output.new self.new.stream world.new) }
    {
        let ask = match self.next_ask(mode, input, output)? {
            Came::Asked(ask) => ask,
            Came::Ends(status) => return Ok(Progress::Ends(status)),
        };
        if awaits_data(&ask) {
            return self.serve_data(alloc, input, output, world, mode, &ask, now);
        }
        Ok(self.serve_bare(alloc, output, world, mode, &ask, now))
    }
}
