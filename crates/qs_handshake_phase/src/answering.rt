//! Options are answered.
ghost use Rattle.std.specs.Prelude.{◌≡◌, IsSome, None};
ghost use Rattle.qs_handshake_phase.specs.Asks.{AnswersOption, FeedsReader, PutsAnswer};
ghost use Rattle.qs_handshake_phase.specs.Greetings.{StandsAfter};
ghost use Rattle.qs_handshake_phase.specs.Scenes.{stand_of};
ghost use Rattle.qs_nbd_handshake.specs.Answers.{CanAnswer};
ghost use Rattle.qs_nbd_handshake.specs.Phases.{Asked, CanFeed, Reader};
ghost use Rattle.qs_nbd_handshake.specs.Wishes.{want_of};
ghost use Rattle.qs_nbd_handshake.specs.declared.event.HandStep.TheVariants.{Stay, Transmit};
ghost use Rattle.qs_nbd_handshake.specs.declared.wish.Wish.{Wish};
ghost use Rattle.qs_bytes.specs.declared.ask.Mode.{Mode};

use crate::asking::{ask, leave};
use crate::end::HandshakeEnd;
use qs_bytes::{Bytes, Memory};
use qs_nbd_handshake::{HandEvent, HandStep, Handshake, Told, Want};
use qs_serving::SessionStation;
use qs_status::SessionEnd;
use qs_wire_stream::WireStream;
use std::alloc::Global;
use std::sync::Wait;

/// Feeds the reader what waits, up to what it tells.
pub fn feed_reader<W>(reader: &mut Handshake, stream: &mut WireStream<W>) -> Option<HandEvent>
    requires { CanFeed reader.old.phase }
    ensures { FeedsReader reader.old stream.old result reader.new stream.new }
{
    let fed = reader.feed(stream.waiting());
    stream.take(fed.taken);
    fed.event
}

/// Puts the answer to the option that came. Refused memory puts nothing.
fn put_answer<W>(
    alloc: Global,
    reader: &mut Handshake,
    stream: &mut WireStream<W>,
    told: &Told,
) -> Result<HandStep, Memory>
    requires { CanAnswer reader.old.phase told.now }
    ensures { (wish : Wish) → reader.old.phase ≡ Asked wish →
        PutsAnswer wish told.now result reader.old stream.old reader.new stream.new }
{
    let mut text = Bytes::of(Vec::new(alloc));
    let step = reader.answer(alloc, told, &mut text)?;
    stream.reserve(text.as_slice().len())?;
    stream.put(text.as_slice());
    Ok(step)
}

/// How the handshake ends behind an answer, if it does.
fn end_behind(step: HandStep, client: Option<u8>) -> Option<HandshakeEnd>
    requires { (mode : Mode) → step ≡ Transmit mode → IsSome client }
    ensures stands { (reader : Reader) → StandsAfter step reader client (stand_of reader result) }
    ensures stays { result ≡ None → step ≡ Stay }
{
    match step {
        HandStep::Stay => None,
        HandStep::Close(end) => Some(HandshakeEnd::Closed(end)),
        HandStep::Transmit(mode) => match client {
            Some(export) => Some(HandshakeEnd::Serves { mode, export }),
            None => unreachable!(),
        },
    }
}

/// Answers the option that came, by what the graph tells, and says how the handshake ended, if it did. Where memory is
/// refused for the answer the session ends, and leaves again an export that it became a client of.
pub fn answer_option<W, S: SessionStation, R: Wait>(
    alloc: Global,
    reader: &mut Handshake,
    stream: &mut WireStream<W>,
    rt: &R,
    hall: &S::Hall,
    station: &mut S,
    want: &Want,
) -> Option<HandshakeEnd>
    requires of { S.is_of hall.now station.old }
    requires asked { (wish : Wish) × ((reader.old.phase ≡ Asked wish) × (want.now ≡ want_of wish)) }
    ensures of { S.is_of hall.now station.new }
    ensures answers { AnswersOption reader.old stream.old (S.book station.old) result
        reader.new stream.new (S.book station.new) }
    ensures later { S.follows station.old station.new }
{
    let telling = match ask(alloc, rt, hall, station, want) {
        Ok(telling) => telling,
        Err(_) => return Some(HandshakeEnd::Closed(SessionEnd::Memory)),
    };
    match put_answer(alloc, reader, stream, &telling.told) {
        Ok(step) => end_behind(step, telling.client),
        Err(_) => {
            leave(rt, hall, station, telling.client);
            Some(HandshakeEnd::Closed(SessionEnd::Memory))
        }
    }
}
