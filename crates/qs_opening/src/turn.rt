ghost use Rattle.std.specs.Prelude.{◌≡◌, [], Bool, List, not};
ghost use Rattle.qs_calls.specs.Runs.{Begins};
ghost use Rattle.qs_nbd_handshake.specs.Phases.{InOption};
ghost use Rattle.qs_stream.specs.Flows.{flow};
ghost use Rattle.qs_opening.specs.Turns.{Asking, TakesTurn, status_at, turn_at};

use crate::answer::answer_option;
use crate::event::next_event;
use qs_bytes::Mode;
use qs_nbd_handshake::{HandEvent, HandStep, Handshake, Want};
use qs_outside::{Disk, Failed, Sink, Source};
use qs_status::{SessionEnd, Status};
use qs_stream::Stream;
use qs_world::world::World;
use std::alloc::Global;

/// How a handshake ended: requests follow in this mode, or the session is over.
#[derive(Clone, Copy, Debug, PartialEq, Eq)]
pub enum Opened {
    Transmit(Mode),
    Ends(Status),
}

/// The next option's want, or how the session ended.
#[derive(Clone, Copy, Debug, PartialEq, Eq)]
pub enum Came {
    Asked(Want),
    Ended(Status),
}

/// Whether options go on.
#[derive(Clone, Copy, Debug, PartialEq, Eq)]
pub enum Negotiation {
    Stays,
    Over(Opened),
}

/// The status of a session that ended so.
pub fn status_of(end: SessionEnd) -> Status
    ensures { result ≡ status_at end }
{
    match end {
        SessionEnd::Done => Status::Done,
        _ => Status::Ended(end),
    }
}

/// The next option.
fn next_option<I: Source, O: Sink>(
    reader: &mut Handshake,
    stream: &mut Stream,
    input: &mut I,
    output: &mut O,
) -> Result<Came, Failed>
    requires awaits { reader.old.phase ≡ InOption [] }
    ensures { Asking reader.old.terms (flow I.left I.read_faults O.sent O.write_faults input.old output.old
        stream.old) result
        reader.new (flow I.left I.read_faults O.sent O.write_faults input.new output.new stream.new) }
{
    stream.check()?;
    match next_event(reader, stream, input, output)? {
        Some(HandEvent::Wanted(want)) => Ok(Came::Asked(want)),
        Some(HandEvent::Bad(bad)) => Ok(Came::Ended(Status::Ended(bad))),
        Some(HandEvent::Flags(_)) => unreachable!(),
        None => Ok(Came::Ended(status_of(reader.at_end()))),
    }
}

/// Whether options go on behind an answer.
fn turn_of(step: &HandStep) -> Negotiation
    ensures { result ≡ turn_at step.now }
{
    match step {
        HandStep::Stay => Negotiation::Stays,
        HandStep::Transmit(mode) => Negotiation::Over(Opened::Transmit(*mode)),
        HandStep::Close(how) => Negotiation::Over(Opened::Ends(status_of(*how))),
    }
}

/// Reads the next option and answers it.
pub fn take_turn<I: Source, O: Sink, D: Disk + Drop>(
    alloc: Global,
    reader: &mut Handshake,
    stream: &mut Stream,
    input: &mut I,
    output: &mut O,
    world: &mut World<D>,
    session: u32,
) -> Result<Negotiation, Failed>
    requires begins { (disks : List D) × (read_only : Bool) × Begins D.seen disks read_only world.old }
    requires awaits { reader.old.phase ≡ InOption [] }
    ensures { (disks : List D) (read_only : Bool) → Begins D.seen disks read_only world.old →
        TakesTurn D.seen session (not read_only) reader.old.terms
        (flow I.left I.read_faults O.sent O.write_faults input.old output.old stream.old) world.old result reader.new
        (flow I.left I.read_faults O.sent O.write_faults input.new output.new stream.new) world.new }
{
    let want = match next_option(reader, stream, input, output)? {
        Came::Asked(want) => want,
        Came::Ended(status) => return Ok(Negotiation::Over(Opened::Ends(status))),
    };
    match answer_option(alloc, reader, stream, output, world, session, &want) {
        Some(step) => Ok(turn_of(&step)),
        None => Ok(Negotiation::Over(Opened::Ends(Status::Memory))),
    }
}
