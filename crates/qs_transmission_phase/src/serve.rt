ghost use Rattle.std.specs.Prelude.{◌≡◌, false};
ghost use Rattle.qs_task.specs.Books.{Book};
ghost use Rattle.qs_transmission_phase.specs.Serves.{ServesToEnd, link_scene};

use crate::phase::TransmissionPhase;
use qs_links::Link;
use qs_outside::Clock;
use qs_serving::{SessionStation, SessionTurn};
use qs_status::SessionEnd;
use qs_wire_stream::PatientLink;
use std::sync::Wait;

impl<L: Link> TransmissionPhase<PatientLink<L>> {
    /// Gives leave for a read, where no request is live.
    fn prepare(&mut self)
        ensures { (book : Book) → link_scene L.left L.sent L.read_faults L.write_faults book self.new
            ≡ link_scene L.left L.sent L.read_faults L.write_faults book self.old }
    {
        if self.requests.live() == 0 {
            self.stream.allow_read();
        }
    }

    /// Runs turns over a link that waits, until the session has ended. The link is read only where no request is live.
    pub fn serve<S: SessionStation, C: Clock, R: Wait>(
        &mut self,
        rt: &R,
        hall: &S::Hall,
        station: &mut S,
        clock: &C,
    ) -> SessionEnd
        requires of { S.is_of hall.now station.old }
        requires shape { self.old.value.crew.shape ≡ S.shape hall.now }
        requires there { self.old.value.detached ≡ false }
        ensures of { S.is_of hall.now station.new }
        ensures serves { ServesToEnd result
            (link_scene L.left L.sent L.read_faults L.write_faults (S.book station.old) self.old)
            (link_scene L.left L.sent L.read_faults L.write_faults (S.book station.new) self.new) }
        ensures later { S.follows station.old station.new }
    {
        for _ in rt.forever() {
            self.prepare();
            match self.turn(rt, hall, station, clock) {
                SessionTurn::Ended(end) => return end,
                SessionTurn::Pending(_) => {}
            }
        }
        unreachable!()
    }
}
