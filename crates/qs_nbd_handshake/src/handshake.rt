ghost use Rattle.std.specs.Prelude.{◌≡◌, ◌<◌, ◌≤◌, ◌++◌, List, ℕ, false, length, take, IfNone, IfOk, OnOk, OnErr};
ghost use Rattle.qs_nbd_wire.specs.Greetings.{greeting_bytes};
ghost use Rattle.qs_nbd_handshake.specs.Answers.{CanAnswer, IsBehind, IsStep, IsText};
ghost use Rattle.qs_nbd_handshake.specs.Phases.{CanFeed, Reaches, end_at, is_stuck, opening_reader};

use crate::answer::{answer_to, mode_behind, stage_behind, step};
use crate::event::{HandEvent, HandStep, Told};
use crate::stage::{Advance, ROOM, Stage, Terms, take_piece};
use qs_bytes::{Bytes, Fed, Memory, Mode};
use qs_nbd_wire::greeting;
use qs_status::SessionEnd;
use std::alloc::Global;
use std::marker::Model;

/// The server's side of a handshake. It is fed the client's bytes in pieces of any size, and
/// answers its options.
#[derive(Debug, Drop)]
pub struct Handshake {
    terms: Terms,
    buffer: Vec<u8>,
    stage: Stage,
}

impl Model for Handshake {
    ghost use Rattle.std.specs.Prelude.{◌≡◌, length};
    ghost use Rattle.qs_nbd_handshake.specs.Phases.{Reader};
    ghost use Rattle.qs_nbd_handshake.specs.Stages.{IsSound, reader_of};

    ghost Value = { Reader };

    ghost view = { λ h. reader_of h.terms h.buffer.items h.stage };

    ghost invariant = { λ h. IsSound h.terms.fixed h.buffer.items h.stage × (length h.buffer.items ≡ 65552) };
}

impl Handshake {
    /// A handshake that awaits the client's flags. It takes memory for one option of the greatest
    /// length, and no more later.
    pub fn new(alloc: Global) -> Result<Self, Memory>
        ensures { IfOk result (λ h. h ≡ opening_reader) }
    {
        let buffer = vec![in alloc; 0; ROOM]?;
        let mode = Mode {
            no_zeroes: false,
            structured: false,
        };
        Ok(Handshake {
            terms: Terms { fixed: false, mode },
            buffer,
            stage: Stage::Flags(0),
        })
    }

    /// What the server sends before anything comes.
    pub fn greeting() -> [u8; 18]
        ensures { result ≡ greeting_bytes }
    {
        greeting()
    }

    /// Takes bytes from the front of the piece, up to the end of the client's flags or of an option,
    /// and says what stands there. Without an event the whole piece was taken.
    ///
    /// Flags with an unknown bit are refused, and an option's head is judged when its 16 bytes are
    /// there: by its magic, its length, and whether the client may send it. After a refusal nothing
    /// is taken, and the refusal is told again. Each Wanted is answered before the next feed; behind
    /// an answer that doesn't stay the handshake is fed no more.
    pub fn feed(&mut self, piece: &[u8]) -> Fed<HandEvent>
        requires { CanFeed self.old.phase }
        ensures within { result.taken ≤ length piece.now }
        ensures whole { IfNone result.event (result.taken ≡ length piece.now) }
        ensures step { Reaches self.old (take result.taken piece.now) result.event self.new }
        ensures progress { is_stuck self.old.phase ≡ false → 0 < length piece.now → 0 < result.taken }
    {
        let Advance {
            taken,
            event,
            terms,
            stage,
        } = take_piece(self.terms, self.buffer.as_mut_slice(), &self.stage, piece);
        self.terms = terms;
        self.stage = stage;
        Fed { taken, event }
    }

    /// Answers the option that came last: writes its replies at the end of `out`, and says how the
    /// session goes on. Refused memory leaves both as they were.
    pub fn answer(
        &mut self,
        alloc: Global,
        told: &Told,
        out: &mut Bytes,
    ) -> Result<HandStep, Memory>
        requires { CanAnswer self.old.phase told.now }
        ensures step { IfOk result (IsStep self.old.terms.mode self.old.phase told.now) }
        ensures text { OnOk result ((text : List ℕ)
            × (IsText self.old.terms.mode self.old.phase told.now text × (out.new ≡ out.old ++ text))) }
        ensures behind { OnOk result (IsBehind self.old.terms self.old.phase told.now self.new) }
        ensures err { OnErr result (self.new ≡ self.old) }
        ensures unwritten { OnErr result (out.new ≡ out.old) }
    {
        match &self.stage {
            Stage::Asked(wish) => {
                let mode = self.terms.mode;
                let text = answer_to(alloc, &mode, wish, told)?;
                out.append(text.as_slice())?;
                let step = step(&mode, wish, told);
                self.terms.mode = mode_behind(&mode, wish);
                self.stage = stage_behind(&step);
                Ok(step)
            }
            _ => unreachable!(),
        }
    }

    /// How the session ended, where the input ends here: Done between messages, Truncated within
    /// one, and the refusal after one; else as the last answer closed it.
    pub fn at_end(&self) -> SessionEnd
        ensures { result ≡ end_at self.now.phase }
    {
        match &self.stage {
            Stage::Flags(0) | Stage::Option(0) | Stage::Asked(_) => SessionEnd::Done,
            Stage::Flags(_) | Stage::Option(_) => SessionEnd::Truncated,
            Stage::Over(end) => *end,
            Stage::Stuck(bad) => *bad,
        }
    }
}
