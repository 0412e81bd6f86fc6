ghost use Rattle.std.specs.Prelude.{◌≡◌, false, true};

use qs_handshake_phase::{HandshakeEnd, HandshakePhase};
use qs_links::Wire;
use qs_outside::Clock;
use qs_serving::{SessionStation, SessionTurn};
use qs_status::SessionEnd;
use qs_transmission_phase::TransmissionPhase;
use std::sync::Wait;

/// Turns until the session has ended.
pub fn drive<W: Wire, S: SessionStation, C: Clock, R: Wait>(
    rt: &R,
    hall: &S::Hall,
    station: &mut S,
    clock: &C,
    phase: &mut TransmissionPhase<W>,
) -> SessionEnd
    requires of { S.is_of hall.now station.old }
    requires shape { phase.old.value.crew.shape ≡ S.shape hall.now }
    requires there { phase.old.value.detached ≡ false }
    ensures of { S.is_of hall.now station.new }
    ensures gone { phase.new.value.detached ≡ true }
{
    for _ in rt.forever() {
        match phase.turn(rt, hall, station, clock) {
            SessionTurn::Ended(end) => return end,
            SessionTurn::Pending(_) => {}
        }
    }
    unreachable!()
}

/// Turns until the handshake has ended.
pub fn greet<W: Wire, S: SessionStation, R: Wait>(
    rt: &R,
    hall: &S::Hall,
    station: &mut S,
    phase: &mut HandshakePhase<W>,
) -> HandshakeEnd
    requires of { S.is_of hall.now station.old }
    ensures of { S.is_of hall.now station.new }
{
    for _ in rt.forever() {
        match phase.turn(rt, hall, station) {
            Some(end) => return end,
            None => {}
        }
    }
    unreachable!()
}
