ghost use Rattle.std.specs.Prelude.{◌≡◌, ◌↔◌, ◌⊎◌, [], IfSome, IsSome, IsTrue, MatchOption, None, Some, false, true};
ghost use Rattle.qs_serving.specs.Turns.{IsUndue, SeatTurn};
ghost use Rattle.qs_status.specs.declared.status.SessionEnd.TheVariants.{LinkFault};
ghost use Rattle.qs_task.specs.Books.{Book};
ghost use Rattle.qs_transmission_phase.specs.Serves.{AwaitsAs, DetachesOnce, IsInPlace, Rounds, Settles, WritesAs, phase_scene};

use crate::phase::{TransmissionPhase, close};
use qs_links::Wire;
use qs_outside::Clock;
use qs_part::graph::GraphOp;
use qs_serving::{Awaited, SessionStation, SessionTurn};
use qs_status::SessionEnd;
use qs_task::Need;
use qs_wire_stream::Sending;
use std::sync::Wait;

/// A turn that ends since the session waits.
fn pending(awaited: Option<Awaited>) -> Option<SessionTurn>
    ensures { MatchOption awaited (result ≡ None) (λ a. result ≡ Some (SessionTurn.Pending a)) }
{
    match awaited {
        Some(awaited) => Some(SessionTurn::Pending(awaited)),
        None => None,
    }
}

impl<W: Wire> TransmissionPhase<W> {
    /// Whether the wire has failed.
    fn is_broken(&self) -> bool
        ensures { IsTrue result ↔ (self.now.value.ended ≡ Some LinkFault) }
    {
        matches!(self.ended, Some(SessionEnd::LinkFault))
    }

    /// Writes what waits to be written, as far as the wire takes it. After a fault of the wire nothing is written.
    fn write_out(&mut self) -> Sending
        requires there { self.old.value.detached ≡ false }
        ensures writes { (book : Book) → WritesAs result
            (phase_scene W.left W.sent W.read_faults W.write_faults W.waits book self.old)
            (phase_scene W.left W.sent W.read_faults W.write_faults W.waits book self.new) }
        ensures place { IsInPlace self.old.value self.new.value }
    {
        if self.is_broken() {
            return Sending::Written;
        }
        let sending = self.stream.write();
        match sending {
            Sending::Failed => {
                close(&mut self.requests, &mut self.ended, SessionEnd::LinkFault);
            }
            Sending::Written | Sending::NotReady => {}
        }
        sending
    }

    /// How the session has ended, where none of its requests is live any more.
    fn end(&self) -> Option<SessionEnd>
        ensures { IfSome result (λ end. (self.now.value.ended ≡ Some end) × (self.now.value.crew.live ≡ [])) }
    {
        if self.requests.live() == 0 {
            self.ended
        } else {
            None
        }
    }

    /// Stops being a client of the export.
    fn detach<S: SessionStation, R: Wait>(&mut self, rt: &R, hall: &S::Hall, station: &mut S)
        requires of { S.is_of hall.now station.old }
        requires there { self.old.value.detached ≡ false }
        requires ended { IsSome self.old.value.ended }
        requires none { self.old.value.crew.live ≡ [] }
        ensures of { S.is_of hall.now station.new }
        ensures detaches { DetachesOnce
            (phase_scene W.left W.sent W.read_faults W.write_faults W.waits (S.book station.old) self.old)
            (phase_scene W.left W.sent W.read_faults W.write_faults W.waits (S.book station.new) self.new) }
        ensures later { S.follows station.old station.new }
    {
        station.session_call(rt, hall, GraphOp::Detach { e: self.export });
        self.detached = true;
    }

    /// What the session waits for, where it can't go on: the part that one of its requests waits for, or its wire.
    fn awaited(&self, wait: Option<Need>) -> Option<Awaited>
        ensures { AwaitsAs wait self.now.value result }
    {
        match wait {
            Some(need) => Some(Awaited::Part(need)),
            None if self.requests.live() == 0 => Some(Awaited::Wire),
            None => None,
        }
    }

    /// Whether no read may bring more: one found the wire not ready, or none is due.
    fn is_dry(&self, starved: bool) -> bool
        ensures { result ≡ true → (starved ≡ true) ⊎ IsUndue self.now.value }
    {
        starved || !self.is_due()
    }

    /// Ends the session, where it has ended; else ends the turn, where no read may bring more.
    fn finish<S: SessionStation, R: Wait>(
        &mut self,
        rt: &R,
        hall: &S::Hall,
        station: &mut S,
        starved: bool,
        wait: Option<Need>,
    ) -> Option<SessionTurn>
        requires of { S.is_of hall.now station.old }
        requires there { self.old.value.detached ≡ false }
        requires settled { (self.old.stream.held ≡ []) ⊎ (self.old.value.ended ≡ Some LinkFault) }
        ensures of { S.is_of hall.now station.new }
        ensures settles { Settles starved wait result
            (phase_scene W.left W.sent W.read_faults W.write_faults W.waits (S.book station.old) self.old)
            (phase_scene W.left W.sent W.read_faults W.write_faults W.waits (S.book station.new) self.new) }
        ensures shape { self.new.value.crew.shape ≡ self.old.value.crew.shape }
        ensures there { result ≡ None → self.new.value.detached ≡ false }
        ensures later { S.follows station.old station.new }
    {
        match self.end() {
            Some(end) => {
                self.detach(rt, hall, station);
                return Some(SessionTurn::Ended(end));
            }
            None => {}
        }
        if self.is_dry(starved) {
            return pending(self.awaited(wait));
        }
        None
    }

    /// Writes, and ends the turn where it can't go on.
    fn settle<S: SessionStation, R: Wait>(
        &mut self,
        rt: &R,
        hall: &S::Hall,
        station: &mut S,
        starved: bool,
        wait: Option<Need>,
    ) -> Option<SessionTurn>
        requires of { S.is_of hall.now station.old }
        requires there { self.old.value.detached ≡ false }
        ensures of { S.is_of hall.now station.new }
        ensures settles { Settles starved wait result
            (phase_scene W.left W.sent W.read_faults W.write_faults W.waits (S.book station.old) self.old)
            (phase_scene W.left W.sent W.read_faults W.write_faults W.waits (S.book station.new) self.new) }
        ensures shape { self.new.value.crew.shape ≡ self.old.value.crew.shape }
        ensures there { result ≡ None → self.new.value.detached ≡ false }
        ensures later { S.follows station.old station.new }
    {
        match self.write_out() {
            Sending::Failed => None,
            Sending::NotReady => pending(self.awaited(wait)),
            Sending::Written => self.finish(rt, hall, station, starved, wait),
        }
    }

    /// One round: reads and begins requests where all is written, polls each live one, and writes. How the turn ends, if
    /// it ends with this round.
    fn round<S: SessionStation, C: Clock, R: Wait>(
        &mut self,
        rt: &R,
        hall: &S::Hall,
        station: &mut S,
        clock: &C,
    ) -> Option<SessionTurn>
        requires of { S.is_of hall.now station.old }
        requires shape { self.old.value.crew.shape ≡ S.shape hall.now }
        requires there { self.old.value.detached ≡ false }
        ensures of { S.is_of hall.now station.new }
        ensures rounds { Rounds result
            (phase_scene W.left W.sent W.read_faults W.write_faults W.waits (S.book station.old) self.old)
            (phase_scene W.left W.sent W.read_faults W.write_faults W.waits (S.book station.new) self.new) }
        ensures shape { self.new.value.crew.shape ≡ self.old.value.crew.shape }
        ensures there { result ≡ None → self.new.value.detached ≡ false }
        ensures later { S.follows station.old station.new }
    {
        let starved = self.listen(rt);
        let wait = self.poll_each(rt, hall, station, clock);
        self.settle(rt, hall, station, starved, wait)
    }

    /// Reads, polls each live request and writes, round after round, until the session has ended or can't go on.
    ///
    /// It is pending only where the last call of each live request was made in this turn and was answered by a wait, and
    /// where the wire was found not ready in this turn, or nothing is left to be written and no read is due: the session
    /// has ended, or 16 requests are live. It then tells the part that a live request waits for, else the wire. It has
    /// ended once no request is live, all is written unless the wire failed, and it is no client of its export any more.
    /// Readings are taken from the clock. Once the buffers have grown it takes no memory.
    pub fn turn<S: SessionStation, C: Clock, R: Wait>(
        &mut self,
        rt: &R,
        hall: &S::Hall,
        station: &mut S,
        clock: &C,
    ) -> SessionTurn
        requires of { S.is_of hall.now station.old }
        requires shape { self.old.value.crew.shape ≡ S.shape hall.now }
        requires there { self.old.value.detached ≡ false }
        ensures of { S.is_of hall.now station.new }
        ensures turns { SeatTurn result
            (phase_scene W.left W.sent W.read_faults W.write_faults W.waits (S.book station.old) self.old)
            (phase_scene W.left W.sent W.read_faults W.write_faults W.waits (S.book station.new) self.new) }
        ensures shape { self.new.value.crew.shape ≡ self.old.value.crew.shape }
        ensures later { S.follows station.old station.new }
    {
        for _ in rt.forever() {
            match self.round(rt, hall, station, clock) {
                Some(turned) => return turned,
                None => {}
            }
        }
        unreachable!()
    }
}
