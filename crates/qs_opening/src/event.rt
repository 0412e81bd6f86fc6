ghost use Rattle.std.specs.Prelude.{◌≡◌, false};
ghost use Rattle.qs_nbd_handshake.specs.Phases.{CanFeed, is_stuck};
ghost use Rattle.qs_stream.specs.declared.state.State.TheVariants.{Open};
ghost use Rattle.qs_stream.specs.Flows.{flow};
ghost use Rattle.qs_opening.specs.Events.{Feeds, Seeks};

use qs_nbd_handshake::{HandEvent, Handshake};
use qs_outside::{Failed, Sink, Source};
use qs_stream::Stream;

/// Feeds the handshake what waits.
fn feed(reader: &mut Handshake, stream: &mut Stream) -> Option<HandEvent>
    requires can { CanFeed reader.old.phase }
    ensures feeds { Feeds reader.old stream.old.waiting result reader.new stream.new.waiting }
    ensures others { stream.new ≡ record stream.old { waiting = stream.new.waiting } }
{
    let fed = reader.feed(stream.waiting());
    stream.take(fed.taken);
    fed.event
}

/// The next event in the input, `None` at its end: what waits is fed first, and then what is read. It
/// ends, since each read brings a byte that is wanted, or the input's end.
pub fn next_event<I: Source, O: Sink>(
    reader: &mut Handshake,
    stream: &mut Stream,
    input: &mut I,
    output: &mut O,
) -> Result<Option<HandEvent>, Failed>
    requires can { CanFeed reader.old.phase }
    requires going { is_stuck reader.old.phase ≡ false }
    requires ongoing { stream.old.state ≡ Open }
    ensures { Seeks reader.old (flow I.left I.read_faults O.sent O.write_faults input.old output.old stream.old) result
        reader.new (flow I.left I.read_faults O.sent O.write_faults input.new output.new stream.new) }
{
    match feed(reader, stream) {
        Some(event) => return Ok(Some(event)),
        None => {}
    }
    'pieces: loop {
        if stream.fill(input, output)? == 0 {
            return Ok(None);
        }
        match feed(reader, stream) {
            Some(event) => return Ok(Some(event)),
            None => {}
        }
    }
}
