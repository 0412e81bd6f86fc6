ghost use Rattle.std.specs.Prelude.{◌≡◌, ◌-◌, ◌^◌, ◌<◌, IsTrue, [], None, Some, false, length, MatchResult};
ghost use Rattle.qs_nbd_transmission.specs.Phases.{InHead};
ghost use Rattle.qs_request_state.specs.Shapes.{IsShape};
ghost use Rattle.qs_serving.specs.Answers.{is_fault};
ghost use Rattle.qs_serving.specs.Steps.{first_value, left_if};
ghost use Rattle.qs_serving.specs.Turns.{IsUndue};
ghost use Rattle.qs_task.specs.Crews.{no_crew};

use crate::replies::is_fault;
use crate::requests::LiveRequests;
use qs_bytes::{Ask, Mode};
use qs_nbd_transmission::Transmission;
use qs_request_state::Shape;
use qs_status::SessionEnd;
use qs_task::MOST;
use qs_wire_stream::WireStream;
use std::alloc::Global;
use std::marker::Model;

/// The transmission phase of a session: its wire, the reader of its requests, and those that are live.
#[derive(Debug, Drop)]
pub struct TransmissionPhase<W> {
    pub(crate) stream: WireStream<W>,
    pub(crate) reader: Transmission,
    pub(crate) mode: Mode,
    pub(crate) export: u8,
    /// The WRITE whose data are awaited.
    pub(crate) next: Option<Ask>,
    pub(crate) requests: LiveRequests,
    pub(crate) ended: Option<SessionEnd>,
    pub(crate) detached: bool,
}

impl<W> Model for TransmissionPhase<W> {
    ghost use Rattle.std.specs.Prelude.{◌≡◌};
    ghost use Rattle.qs_transmission_phase.specs.Inside.{PhaseValue, ReadsOn, upcoming};

    ghost Value = { PhaseValue W };

    ghost view = { λ p. record {
      value = record {
        export = p.export;
        reader = p.reader;
        next = upcoming p.next;
        crew = p.requests;
        ended = p.ended;
        detached = p.detached;
      };
      stream = p.stream;
    } };

    ghost invariant = { λ p. ReadsOn p.ended p.reader.phase p.next × (p.mode.structured ≡ p.reader.structured) };
}

/// Ends a session so: nothing more begins. After a fault its live requests are abandoned.
pub(crate) fn close(requests: &mut LiveRequests, ended: &mut Option<SessionEnd>, end: SessionEnd)
    ensures ended { ended.new ≡ Some end }
    ensures left { requests.new ≡ left_if (is_fault end) requests.old }
{
    *ended = Some(end);
    if is_fault(end) {
        requests.abandon();
    }
}

impl<W> TransmissionPhase<W> {
    /// The phase of a session in this mode, which is a client of the export at place `export`, behind its handshake:
    /// what its stream holds is read and written on. Its requests go to an image of this shape. Where memory is
    /// refused the stream comes back.
    pub fn new(
        alloc: Global,
        mode: Mode,
        stream: WireStream<W>,
        export: u8,
        shape: Shape,
    ) -> Result<Self, WireStream<W>>
        requires { IsShape shape }
        ensures { MatchResult result
            (λ p. p ≡ record {
              value = first_value export (record { structured = mode.structured; phase = InHead [] }) (no_crew shape);
              stream = stream;
            })
            (λ back. back ≡ stream) }
    {
        match LiveRequests::new(alloc, shape) {
            Ok(requests) => Ok(TransmissionPhase {
                stream,
                reader: Transmission::new(mode),
                mode,
                export,
                next: None,
                requests,
                ended: None,
                detached: false,
            }),
            Err(_) => Err(stream),
        }
    }

    /// How many requests are live.
    pub fn live(&self) -> usize
        ensures { result ≡ length self.now.value.crew.live }
    {
        self.requests.live()
    }

    /// Gives the stream back, in whatever state it is.
    pub fn into_stream(self) -> WireStream<W>
        ensures { result ≡ self.stream }
    {
        self.stream
    }

    /// Whether a request may begin, and so a read is due.
    pub(crate) fn is_due(&self) -> bool
        ensures due { IsTrue result → (self.now.value.ended ≡ None) × (length self.now.value.crew.live < 16)
            × (self.now.value.crew.newest < 2 ^ 64 - 1) }
        ensures undue { result ≡ false → IsUndue self.now.value }
    {
        self.ended.is_none() && self.requests.live() < MOST && self.requests.newest() < u64::MAX
    }
}
