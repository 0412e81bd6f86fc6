ghost use Rattle.std.specs.Prelude.{◌≡◌, None, MatchResult};
ghost use Rattle.qs_nbd_handshake.specs.Phases.{opening_reader};
ghost use Rattle.qs_nbd_wire.specs.Greetings.{greeting_bytes};
ghost use Rattle.qs_wire_stream.specs.Currents.{fresh_stream};
ghost use Rattle.qs_handshake_phase.specs.Scenes.{greeting_value};

use crate::end::HandshakeEnd;
use qs_nbd_handshake::Handshake;
use qs_wire_stream::WireStream;
use std::alloc::Global;
use std::marker::Model;

/// The handshake phase of a session: its wire, and the reader of its options.
#[derive(Debug, Drop)]
pub struct HandshakePhase<W> {
    pub(crate) alloc: Global,
    pub(crate) stream: WireStream<W>,
    pub(crate) reader: Handshake,
    pub(crate) over: Option<HandshakeEnd>,
}

impl<W> Model for HandshakePhase<W> {
    ghost use Rattle.qs_handshake_phase.specs.Scenes.{FeedsOn, PhaseValue};

    ghost Value = { PhaseValue W };

    ghost view = { λ p. record { reader = p.reader; over = p.over; stream = p.stream } };

    ghost invariant = { λ p. FeedsOn p.over p.reader.phase };
}

impl<W> HandshakePhase<W> {
    /// The phase of a session that begins on this wire. The greeting waits to be written. It takes memory for the stream
    /// and for one option; where it is refused the wire comes back.
    pub fn new(alloc: Global, wire: W) -> Result<Self, W>
        ensures { MatchResult result (λ p. p ≡ greeting_value wire p.stream.room) (λ back. back ≡ wire) }
    {
        let reader = match Handshake::new(alloc) {
            Ok(reader) => reader,
            Err(_) => return Err(wire),
        };
        let mut stream = WireStream::new(alloc, wire)?;
        stream.put(Handshake::greeting().as_slice());
        Ok(HandshakePhase {
            alloc,
            stream,
            reader,
            over: None,
        })
    }

    /// Gives the stream back, in whatever state it is.
    pub fn into_stream(self) -> WireStream<W>
        ensures { result ≡ self.stream }
    {
        self.stream
    }
}
