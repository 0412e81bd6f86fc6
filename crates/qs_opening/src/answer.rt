ghost use Rattle.std.specs.Prelude.{◌≡◌, Bool, List, not};
ghost use Rattle.qs_calls.specs.Runs.{Begins};
ghost use Rattle.qs_nbd_handshake.specs.declared.wish.Wish.{Wish};
ghost use Rattle.qs_nbd_handshake.specs.Phases.{Asked};
ghost use Rattle.qs_nbd_handshake.specs.Wishes.{want_of};
ghost use Rattle.qs_stream.specs.Flows.{side};
ghost use Rattle.qs_opening.specs.Turns.{AnswersOption};

use crate::telling::tell;
use qs_bytes::Bytes;
use qs_nbd_handshake::{HandStep, Handshake, Want};
use qs_outside::{Disk, Sink};
use qs_stream::Stream;
use qs_world::world::World;
use std::alloc::Global;

/// Answers the option that came, by what the core tells, and says how the session goes on. `None` for want
/// of memory, and then no answer is put.
pub fn answer_option<O: Sink, D: Disk + Drop>(
    alloc: Global,
    reader: &mut Handshake,
    stream: &mut Stream,
    output: &mut O,
    world: &mut World<D>,
    session: u32,
    want: &Want,
) -> Option<HandStep>
    requires begins { (disks : List D) × (read_only : Bool) × Begins D.seen disks read_only world.old }
    requires asked { (w : Wish) × ((reader.old.phase ≡ Asked w) × (want.now ≡ want_of w)) }
    ensures { (w : Wish) (disks : List D) (read_only : Bool) → reader.old.phase ≡ Asked w → want.now ≡ want_of w →
        Begins D.seen disks read_only world.old →
        AnswersOption D.seen session (not read_only) reader.old.terms w world.old result reader.new world.new
        (side O.sent O.write_faults output.old) stream.old (side O.sent O.write_faults output.new) stream.new }
{
    let told = match tell(alloc, world, session, want) {
        Some(told) => told,
        None => return None,
    };
    let mut text = Bytes::of(Vec::new(alloc));
    match reader.answer(alloc, &told, &mut text) {
        Ok(step) => {
            stream.put(output, text.as_slice());
            Some(step)
        }
        Err(_) => None,
    }
}
