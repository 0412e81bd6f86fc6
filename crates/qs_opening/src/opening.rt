ghost use Rattle.std.specs.Prelude.{◌≡◌, [], Bool, List, not};
ghost use Rattle.qs_calls.specs.Runs.{Begins};
ghost use Rattle.qs_nbd_handshake.specs.Phases.{InOption, opening_reader};
ghost use Rattle.qs_stream.specs.Flows.{flow};
ghost use Rattle.qs_opening.specs.Openings.{Converses, OpensSession, ReadsFlags};

use crate::event::next_event;
use crate::turn::{Negotiation, Opened, status_of, take_turn};
use qs_nbd_handshake::{HandEvent, Handshake};
use qs_outside::{Disk, Failed, Sink, Source};
use qs_status::Status;
use qs_stream::Stream;
use qs_world::world::World;
use std::alloc::Global;

/// Reads the client's flags. `None` where they came, and else how the session ended.
fn read_flags<I: Source, O: Sink>(
    reader: &mut Handshake,
    stream: &mut Stream,
    input: &mut I,
    output: &mut O,
) -> Result<Option<Status>, Failed>
    requires opens { reader.old ≡ opening_reader }
    ensures { ReadsFlags (flow I.left I.read_faults O.sent O.write_faults input.old output.old stream.old) result
        reader.new (flow I.left I.read_faults O.sent O.write_faults input.new output.new stream.new) }
{
    stream.check()?;
    match next_event(reader, stream, input, output)? {
        Some(HandEvent::Flags(_)) => Ok(None),
        Some(HandEvent::Bad(bad)) => Ok(Some(Status::Ended(bad))),
        Some(HandEvent::Wanted(_)) => unreachable!(),
        None => Ok(Some(status_of(reader.at_end()))),
    }
}

/// Reads options, at most so many, and answers them, up to the end of the handshake.
fn take_turns<I: Source, O: Sink, D: Disk + Drop>(
    alloc: Global,
    reader: &mut Handshake,
    stream: &mut Stream,
    input: &mut I,
    output: &mut O,
    world: &mut World<D>,
    session: u32,
    budget: u64,
) -> Result<Opened, Failed>
    requires begins { (disks : List D) × (read_only : Bool) × Begins D.seen disks read_only world.old }
    requires awaits { reader.old.phase ≡ InOption [] }
    ensures { (disks : List D) (read_only : Bool) → Begins D.seen disks read_only world.old →
        Converses D.seen session (not read_only) budget reader.old.terms
        (flow I.left I.read_faults O.sent O.write_faults input.old output.old stream.old) world.old result
        (flow I.left I.read_faults O.sent O.write_faults input.new output.new stream.new) world.new }
{
    for _ in 0..budget {
        match take_turn(alloc, reader, stream, input, output, world, session)? {
            Negotiation::Stays => {}
            Negotiation::Over(opened) => return Ok(opened),
        }
    }
    Ok(Opened::Ends(Status::Spent))
}

/// Opens the session of this number over a stream, at a core that was just opened: greets, reads the
/// client's flags and at most `budget` options, and answers each in order. The handshake is over where an
/// answer says so: requests follow, and the session is attached; or the session ends. It ends too at what
/// is refused, and at the input's end: Done between messages, else Truncated.
///
/// The bytes behind the last option wait in the stream. Answers that aren't written yet wait there too,
/// whatever the end, and where an answer couldn't be written, the stream's next call fails. An unknown
/// export ends the session in EXPORT_NAME alone. For want of memory the session may have been attached.
pub fn open_session<I: Source, O: Sink, D: Disk + Drop>(
    alloc: Global,
    world: &mut World<D>,
    session: u32,
    budget: u64,
    stream: &mut Stream,
    input: &mut I,
    output: &mut O,
) -> Result<Opened, Failed>
    requires begins { (disks : List D) × (read_only : Bool) × Begins D.seen disks read_only world.old }
    ensures { (disks : List D) (read_only : Bool) → Begins D.seen disks read_only world.old →
        OpensSession D.seen session (not read_only) budget
        (flow I.left I.read_faults O.sent O.write_faults input.old output.old stream.old) world.old result
        (flow I.left I.read_faults O.sent O.write_faults input.new output.new stream.new) world.new }
{
    let mut reader = match Handshake::new(alloc) {
        Ok(reader) => reader,
        Err(_) => return Ok(Opened::Ends(Status::Memory)),
    };
    stream.put(output, Handshake::greeting().as_slice());
    match read_flags(&mut reader, stream, input, output)? {
        Some(status) => return Ok(Opened::Ends(status)),
        None => {}
    }
    take_turns(
        alloc,
        &mut reader,
        stream,
        input,
        output,
        world,
        session,
        budget,
    )
}
