ghost use Rattle.std.specs.Prelude.{◌≡◌, ◌-◌, ◌^◌, ◌<◌, ◌≤◌, [], None, false, true, length};
ghost use Rattle.qs_links.specs.Tries.{is_not_ready};
ghost use Rattle.qs_nbd_transmission.specs.Phases.{CanFeed};
ghost use Rattle.qs_outside.specs.Faults.{Rose};
ghost use Rattle.qs_serving.specs.Steps.{kept_in};
ghost use Rattle.qs_task.specs.Books.{Book};
ghost use Rattle.qs_transmission_phase.specs.Serves.{FeedsReader, IsInPlace, ServesSome, phase_scene};

use crate::phase::{TransmissionPhase, close};
use qs_bytes::Bytes;
use qs_links::{Tried, Wire};
use qs_nbd_transmission::{Room, Transmission, WireEvent, awaits_data};
use qs_status::SessionEnd;
use qs_wire_stream::WireStream;
use std::sync::Wait;

/// Feeds the reader what waits, up to what it tells.
fn feed_reader<W>(reader: &mut Transmission, stream: &mut WireStream<W>) -> Option<WireEvent>
    requires { CanFeed reader.old.phase }
    ensures { FeedsReader reader.old stream.old result reader.new stream.new }
{
    let fed = reader.feed(stream.waiting());
    stream.take(fed.taken);
    fed.event
}

/// The data that were kept.
fn kept_data(room: Room) -> Option<Bytes>
    ensures { result ≡ kept_in room }
{
    match room {
        Room::Keep(buffer) => Some(buffer),
        Room::Drop(_) => None,
    }
}

impl<W: Wire> TransmissionPhase<W> {
    /// Tries to read, where nothing waits.
    fn fetch(&mut self) -> Tried
        requires going { self.old.value.ended ≡ None }
        requires there { self.old.value.detached ≡ false }
        requires empty { self.old.stream.waiting ≡ [] }
        ensures serves { (book : Book) → ServesSome
            (phase_scene W.left W.sent W.read_faults W.write_faults W.waits book self.old)
            (phase_scene W.left W.sent W.read_faults W.write_faults W.waits book self.new) }
        ensures place { IsInPlace self.old.value self.new.value }
        ensures wait { is_not_ready result ≡ true → Rose (W.waits self.old.stream.wire) (W.waits self.new.stream.wire) }
        ensures later { W.waits self.old.stream.wire ≤ W.waits self.new.stream.wire }
    {
        let tried = self.stream.read();
        match tried {
            Tried::Ended => {
                let end = self.reader.at_end();
                close(&mut self.requests, &mut self.ended, end);
            }
            Tried::Failed => {
                close(&mut self.requests, &mut self.ended, SessionEnd::LinkFault);
            }
            Tried::Did(_) | Tried::NotReady => {}
        }
        tried
    }

    /// Feeds the reader what waits, up to what it tells. A request that came whole begins, and room is given for data.
    fn hear(&mut self)
        requires going { self.old.value.ended ≡ None }
        requires few { length self.old.value.crew.live < 16 }
        requires number { self.old.value.crew.newest < 2 ^ 64 - 1 }
        ensures serves { (book : Book) → ServesSome
            (phase_scene W.left W.sent W.read_faults W.write_faults W.waits book self.old)
            (phase_scene W.left W.sent W.read_faults W.write_faults W.waits book self.new) }
        ensures place { IsInPlace self.old.value self.new.value }
        ensures waits { W.waits self.new.stream.wire ≡ W.waits self.old.stream.wire }
    {
        match feed_reader(&mut self.reader, &mut self.stream) {
            None => {}
            Some(WireEvent::Head(ask)) if awaits_data(&ask) => {
                let room = self.requests.room_for(ask.length);
                self.reader.give(room);
                self.next = Some(ask);
            }
            Some(WireEvent::Head(ask)) => self.requests.begin(self.export, ask, None),
            Some(WireEvent::Body(room)) => match self.next.take() {
                Some(ask) => self.requests.begin(self.export, ask, kept_data(room)),
                None => unreachable!(),
            },
            Some(WireEvent::Disc) => {
                close(&mut self.requests, &mut self.ended, SessionEnd::Done);
            }
            Some(WireEvent::Bad(end)) => close(&mut self.requests, &mut self.ended, end),
        }
    }

    /// Whether some of what was read waits.
    fn has_input(&self) -> bool
        ensures { result ≡ false → self.now.stream.waiting ≡ [] }
    {
        !self.stream.waiting().is_empty()
    }

    /// Reads, and begins the requests that come, until none may begin any more or the wire isn't ready. Nothing is read
    /// before all that waits is written. It answers whether the wire wasn't ready.
    pub(crate) fn listen<R: Wait>(&mut self, rt: &R) -> bool
        requires there { self.old.value.detached ≡ false }
        ensures serves { (book : Book) → ServesSome
            (phase_scene W.left W.sent W.read_faults W.write_faults W.waits book self.old)
            (phase_scene W.left W.sent W.read_faults W.write_faults W.waits book self.new) }
        ensures place { IsInPlace self.old.value self.new.value }
        ensures wait { result ≡ true → Rose (W.waits self.old.stream.wire) (W.waits self.new.stream.wire) }
    {
        if !self.stream.is_written() {
            return false;
        }
        for _ in rt.forever() {
            if !self.is_due() {
                return false;
            }
            if self.has_input() {
                self.hear();
            } else {
                match self.fetch() {
                    Tried::NotReady => return true,
                    _ => {}
                }
            }
        }
        unreachable!()
    }
}
