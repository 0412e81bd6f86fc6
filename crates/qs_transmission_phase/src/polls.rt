ghost use Rattle.std.specs.Prelude.{◌≡◌, false, IsSome};
ghost use Rattle.qs_serving.specs.Fitting.{IsAnswerTo};
ghost use Rattle.qs_task.specs.Crews.{live_by_number};
ghost use Rattle.qs_transmission_phase.specs.Serves.{IsInPlace, PollsEach, PollsNumber, RepliesOr, phase_scene};

use crate::phase::{TransmissionPhase, close};
use crate::replies::{end_after, end_for_memory, put_reply};
use crate::requests::LiveRequests;
use qs_bytes::{Ask, Mode, Verdict};
use qs_links::Wire;
use qs_outside::Clock;
use qs_status::SessionEnd;
use qs_task::{CrewPoll, Need, Station};
use qs_wire_stream::WireStream;
use std::sync::Wait;

/// Replies to a request. Where memory is refused the session ends.
fn answer<W>(
    stream: &mut WireStream<W>,
    requests: &mut LiveRequests,
    ended: &mut Option<SessionEnd>,
    mode: &Mode,
    ask: &Ask,
    verdict: &Verdict,
)
    requires { IsAnswerTo ask.now verdict.now }
    ensures { RepliesOr mode.now.structured ask.now verdict.now stream.old requests.old ended.old
        stream.new requests.new ended.new }
{
    match put_reply(stream, mode, ask, verdict) {
        Ok(()) => *ended = end_after(verdict, *ended),
        Err(_) => close(requests, ended, end_for_memory(*ended)),
    }
}

impl<W: Wire> TransmissionPhase<W> {
    /// Polls the live request with this number, until it is answered or has to wait: for what, where it has.
    fn poll_one<S: Station, R: Wait>(
        &mut self,
        rt: &R,
        hall: &S::Hall,
        station: &mut S,
        number: u64,
        now: u64,
    ) -> Option<Need>
        requires of { S.is_of hall.now station.old }
        requires shape { self.old.value.crew.shape ≡ S.shape hall.now }
        requires live { IsSome (live_by_number number self.old.value.crew.live) }
        ensures of { S.is_of hall.now station.new }
        ensures polls { PollsNumber number result
            (phase_scene W.left W.sent W.read_faults W.write_faults W.waits (S.book station.old) self.old)
            (phase_scene W.left W.sent W.read_faults W.write_faults W.waits (S.book station.new) self.new) }
        ensures place { IsInPlace self.old.value self.new.value }
        ensures later { S.follows station.old station.new }
    {
        match self.requests.poll(rt, hall, station, number, now) {
            CrewPoll::Pending(need) => Some(need),
            CrewPoll::Answered(ask, verdict) => {
                answer(
                    &mut self.stream,
                    &mut self.requests,
                    &mut self.ended,
                    &self.mode,
                    &ask,
                    &verdict,
                );
                self.requests.keep(verdict);
                None
            }
            CrewPoll::NoSuch => unreachable!(),
        }
    }

    /// Polls each live request, by rising number. What one of them waits for, where one does.
    pub(crate) fn poll_each<S: Station, C: Clock, R: Wait>(
        &mut self,
        rt: &R,
        hall: &S::Hall,
        station: &mut S,
        clock: &C,
    ) -> Option<Need>
        requires of { S.is_of hall.now station.old }
        requires shape { self.old.value.crew.shape ≡ S.shape hall.now }
        ensures of { S.is_of hall.now station.new }
        ensures polls { PollsEach result
            (phase_scene W.left W.sent W.read_faults W.write_faults W.waits (S.book station.old) self.old)
            (phase_scene W.left W.sent W.read_faults W.write_faults W.waits (S.book station.new) self.new) }
        ensures place { IsInPlace self.old.value self.new.value }
        ensures later { S.follows station.old station.new }
    {
        let mut polled = 0;
        let mut wait = None;
        for _ in rt.forever() {
            match self.requests.next_above(polled) {
                None => return wait,
                Some(number) => match self.poll_one(rt, hall, station, number, clock.now()) {
                    Some(need) => {
                        polled = number;
                        wait = Some(need);
                    }
                    None => {}
                },
            }
        }
        unreachable!()
    }
}
