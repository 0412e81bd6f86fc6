ghost use Rattle.std.specs.Prelude.{◌≡◌, ◌↔◌, ◌⊎◌, [], IfSome, IsTrue, true, None, Some};
ghost use Rattle.qs_links.specs.Tries.{is_not_ready};
ghost use Rattle.qs_outside.specs.Faults.{Rose};
ghost use Rattle.qs_status.specs.declared.status.SessionEnd.TheVariants.{LinkFault};
ghost use Rattle.qs_task.specs.Books.{Book};
ghost use Rattle.qs_handshake_phase.specs.Asks.{IsServing, MayWrite, Rounds, WritesAs};
ghost use Rattle.qs_handshake_phase.specs.Scenes.{GreetsSome, greeting_scene};
ghost use Rattle.qs_handshake_phase.specs.Turns.{GreetingTurn};

use crate::answering::{answer_option, feed_reader};
use crate::end::HandshakeEnd;
use crate::phase::HandshakePhase;
use qs_links::{Tried, Wire};
use qs_nbd_handshake::HandEvent;
use qs_serving::SessionStation;
use qs_status::SessionEnd;
use qs_wire_stream::Sending;
use std::sync::Wait;

/// How a round of a turn ends.
#[derive(Clone, Copy, Debug, PartialEq, Eq)]
pub enum Round {
    /// Another follows.
    Goes,
    /// The wire isn't ready.
    Waits,
    /// The handshake has ended.
    Over(HandshakeEnd),
}

impl<W: Wire> HandshakePhase<W> {
    /// Tries to read, where nothing waits.
    fn fetch(&mut self) -> Tried
        requires going { self.old.over ≡ None }
        requires empty { self.old.stream.waiting ≡ [] }
        ensures greets { (book : Book) → GreetsSome
            (greeting_scene W.left W.sent W.read_faults W.write_faults W.waits book self.old)
            (greeting_scene W.left W.sent W.read_faults W.write_faults W.waits book self.new) }
        ensures wait { is_not_ready result ≡ true → Rose (W.waits self.old.stream.wire) (W.waits self.new.stream.wire) }
    {
        let tried = self.stream.read();
        match tried {
            Tried::Ended => self.over = Some(HandshakeEnd::Closed(self.reader.at_end())),
            Tried::Failed => self.over = Some(HandshakeEnd::Closed(SessionEnd::LinkFault)),
            Tried::Did(_) | Tried::NotReady => {}
        }
        tried
    }

    /// Feeds the reader what waits, up to what it tells. An option that came is answered.
    fn hear<S: SessionStation, R: Wait>(&mut self, rt: &R, hall: &S::Hall, station: &mut S)
        requires of { S.is_of hall.now station.old }
        requires going { self.old.over ≡ None }
        ensures of { S.is_of hall.now station.new }
        ensures greets { GreetsSome
            (greeting_scene W.left W.sent W.read_faults W.write_faults W.waits (S.book station.old) self.old)
            (greeting_scene W.left W.sent W.read_faults W.write_faults W.waits (S.book station.new) self.new) }
        ensures later { S.follows station.old station.new }
    {
        match feed_reader(&mut self.reader, &mut self.stream) {
            None => {}
            Some(HandEvent::Flags(_)) => {}
            Some(HandEvent::Bad(end)) => self.over = Some(HandshakeEnd::Closed(end)),
            Some(HandEvent::Wanted(want)) => {
                self.over = answer_option(
                    self.alloc,
                    &mut self.reader,
                    &mut self.stream,
                    rt,
                    hall,
                    station,
                    &want,
                );
            }
        }
    }

    /// Whether the wire has failed.
    fn is_broken(&self) -> bool
        ensures { IsTrue result ↔ (self.now.over ≡ Some (HandshakeEnd.Closed LinkFault)) }
    {
        matches!(self.over, Some(HandshakeEnd::Closed(SessionEnd::LinkFault)))
    }

    /// Writes what waits to be written, as far as the wire takes it. After a fault of the wire nothing is written.
    fn write_out(&mut self) -> Sending
        requires here { MayWrite self.old.over }
        ensures writes { (book : Book) → WritesAs result
            (greeting_scene W.left W.sent W.read_faults W.write_faults W.waits book self.old)
            (greeting_scene W.left W.sent W.read_faults W.write_faults W.waits book self.new) }
    {
        if self.is_broken() {
            return Sending::Written;
        }
        let sending = self.stream.write();
        match sending {
            Sending::Failed => self.over = Some(HandshakeEnd::Closed(SessionEnd::LinkFault)),
            Sending::Written | Sending::NotReady => {}
        }
        sending
    }

    /// Reads on, where all is written, and answers an option that came.
    fn advance<S: SessionStation, R: Wait>(
        &mut self,
        rt: &R,
        hall: &S::Hall,
        station: &mut S,
    ) -> Round
        requires of { S.is_of hall.now station.old }
        requires settled { (self.old.stream.held ≡ []) ⊎ (self.old.over ≡ Some (HandshakeEnd.Closed LinkFault)) }
        ensures of { S.is_of hall.now station.new }
        ensures rounds { Rounds result
            (greeting_scene W.left W.sent W.read_faults W.write_faults W.waits (S.book station.old) self.old)
            (greeting_scene W.left W.sent W.read_faults W.write_faults W.waits (S.book station.new) self.new) }
        ensures later { S.follows station.old station.new }
    {
        match self.over {
            Some(end) => return Round::Over(end),
            None => {}
        }
        if !self.stream.waiting().is_empty() {
            self.hear(rt, hall, station);
            return Round::Goes;
        }
        match self.fetch() {
            Tried::NotReady => Round::Waits,
            Tried::Did(_) | Tried::Ended | Tried::Failed => Round::Goes,
        }
    }

    /// How the handshake ended, where requests follow.
    fn served(&self) -> Option<HandshakeEnd>
        ensures served { IfSome result (λ end. (self.now.over ≡ Some end) × IsServing end) }
        ensures none { result ≡ None → MayWrite self.now.over }
    {
        match self.over {
            Some(HandshakeEnd::Serves { mode, export }) => {
                Some(HandshakeEnd::Serves { mode, export })
            }
            _ => None,
        }
    }

    /// One round: writes, and where all is written reads on.
    fn round<S: SessionStation, R: Wait>(
        &mut self,
        rt: &R,
        hall: &S::Hall,
        station: &mut S,
    ) -> Round
        requires of { S.is_of hall.now station.old }
        ensures of { S.is_of hall.now station.new }
        ensures rounds { Rounds result
            (greeting_scene W.left W.sent W.read_faults W.write_faults W.waits (S.book station.old) self.old)
            (greeting_scene W.left W.sent W.read_faults W.write_faults W.waits (S.book station.new) self.new) }
        ensures later { S.follows station.old station.new }
    {
        match self.served() {
            Some(end) => return Round::Over(end),
            None => {}
        }
        match self.write_out() {
            Sending::Written => self.advance(rt, hall, station),
            Sending::NotReady => Round::Waits,
            Sending::Failed => Round::Goes,
        }
    }

    /// Reads options and answers them, round after round, until the handshake has ended or the wire isn't ready: then it
    /// answers `None`. A session that ended has written all its answers, unless the wire failed; one that goes on with
    /// requests may still have its last answer to write.
    pub fn turn<S: SessionStation, R: Wait>(
        &mut self,
        rt: &R,
        hall: &S::Hall,
        station: &mut S,
    ) -> Option<HandshakeEnd>
        requires of { S.is_of hall.now station.old }
        ensures of { S.is_of hall.now station.new }
        ensures turns { GreetingTurn result
            (greeting_scene W.left W.sent W.read_faults W.write_faults W.waits (S.book station.old) self.old)
            (greeting_scene W.left W.sent W.read_faults W.write_faults W.waits (S.book station.new) self.new) }
        ensures later { S.follows station.old station.new }
    {
        for _ in rt.forever() {
            match self.round(rt, hall, station) {
                Round::Goes => {}
                Round::Waits => return None,
                Round::Over(end) => return Some(end),
            }
        }
        unreachable!()
    }
}
