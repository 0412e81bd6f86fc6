ghost use Rattle.std.specs.Prelude.{◌≡◌, ◌<◌, ◌≤◌, [], false, length, take, IfNone};
ghost use Rattle.qs_nbd_transmission.specs.Phases.{CanFeed, CanGive, Reaches, InHead, end_at, is_stuck, phase_with_room};

use crate::event::{Room, WireEvent};
use crate::stage::{Advance, Stage, take_piece};
use qs_bytes::{Fed, Mode};
use qs_nbd_wire::REQUEST_HEAD_BYTES;
use qs_status::SessionEnd;
use std::marker::Model;
use std::mem;

/// A reader of the requests of a session (NBD proto.md, "Request message"). It is fed the client's
/// bytes in pieces of any size, and takes no memory.
#[derive(Debug, Drop)]
pub struct Transmission {
    structured: bool,
    head: [u8; REQUEST_HEAD_BYTES],
    stage: Stage,
}

impl Model for Transmission {
    ghost use Rattle.std.specs.Prelude.{◌≡◌, length};
    ghost use Rattle.qs_nbd_transmission.specs.Phases.{Reader};
    ghost use Rattle.qs_nbd_transmission.specs.Stages.{IsSound, phase_of};

    ghost Value = { Reader };

    ghost view = { λ t. record { structured = t.structured; phase = phase_of t.head t.stage } };

    ghost invariant = { λ t. IsSound t.head t.stage × (length t.head ≡ 28) };
}

impl Transmission {
    /// A reader that awaits the first request.
    pub fn new(mode: Mode) -> Self
        ensures { result ≡ record { structured = mode.structured; phase = InHead [] } }
    {
        Transmission {
            structured: mode.structured,
            head: [0; REQUEST_HEAD_BYTES],
            stage: Stage::Head(0),
        }
    }

    /// Takes bytes from the front of the piece, up to the end of a head or of a WRITE's data, and
    /// says what stands there. Without an event the whole piece was taken.
    ///
    /// A request that doesn't begin with the magic is refused at its fourth byte, a WRITE of more
    /// than 33,554,432 bytes at the end of its head. After a refusal nothing is taken, and the
    /// refusal is told again. Behind the head of a WRITE of some length, `give` comes before the
    /// next feed; after a DISC the reader is fed no more.
    pub fn feed(&mut self, piece: &[u8]) -> Fed<WireEvent>
        requires { CanFeed self.old.phase }
        ensures within { result.taken ≤ length piece.now }
        ensures whole { IfNone result.event (result.taken ≡ length piece.now) }
        ensures step { Reaches self.old.structured self.old.phase (take result.taken piece.now)
            result.event self.new.phase }
        ensures mode { self.new.structured ≡ self.old.structured }
        ensures progress { is_stuck self.old.phase ≡ false → 0 < length piece.now → 0 < result.taken }
    {
        let stage = mem::replace(&mut self.stage, Stage::Over);
        let Advance {
            taken,
            event,
            stage,
        } = take_piece(self.structured, &mut self.head, stage, piece);
        self.stage = stage;
        Fed { taken, event }
    }

    /// Gives room for the data of the WRITE whose head came last: exactly as many bytes as it
    /// announced. A buffer's bytes are overwritten by the data.
    pub fn give(&mut self, room: Room)
        requires { CanGive self.old.phase room }
        ensures { self.new ≡ record self.old { phase = phase_with_room self.old.phase room } }
    {
        self.stage = match room {
            Room::Keep(buffer) => Stage::Fills {
                buffer: buffer.into_vec(),
                got: 0,
            },
            Room::Drop(size) => Stage::Skips { size, left: size },
        };
    }

    /// How the session ended, where the input ends here: Done between requests and after a DISC,
    /// the refusal after one, and else Truncated.
    pub fn at_end(&self) -> SessionEnd
        ensures { result ≡ end_at self.now.phase }
    {
        match &self.stage {
            Stage::Head(0) | Stage::Over => SessionEnd::Done,
            Stage::Stuck(bad) => *bad,
            _ => SessionEnd::Truncated,
        }
    }
}
