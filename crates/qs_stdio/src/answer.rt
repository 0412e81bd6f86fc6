ghost use Rattle.std.specs.Prelude.{◌≡◌, ◌-◌, ◌^◌, ◌<◌, Bool, List, ℕ, IfNone, IfSome, None, false};
ghost use Rattle.qs_nbd_transmission.specs.Replies.{CanReply, data_of, is_read, reply_of};
ghost use Rattle.qs_single.specs.Resting.{IsBody, IsResting};
ghost use Rattle.qs_stream.specs.Flows.{Puts, side};
ghost use Rattle.qs_stdio.specs.Calls.{Does};

use qs_bytes::{Ask, Bytes, Kind, MAX_PAYLOAD, Mode, Verdict};
use qs_nbd_transmission::reply_head;
use qs_outside::{Disk, Sink};
use qs_single::answer;
use qs_stream::Stream;
use qs_world::world::World;
use std::alloc::Global;
use std::mem;

/// The number of the one session.
pub const SESSION: u32 = 0;

/// Puts the data of a reply.
fn put_data<O: Sink>(stream: &mut Stream, output: &mut O, verdict: &Verdict)
    ensures { Puts (data_of verdict.now) (side O.sent O.write_faults output.old) stream.old
        (side O.sent O.write_faults output.new) stream.new }
{
    match verdict {
        Verdict::Got(bytes) => stream.put(output, bytes.as_slice()),
        _ => {}
    }
}

/// Puts the reply to a request: its head, and behind that of a READ its data.
fn put_reply<O: Sink>(
    stream: &mut Stream,
    output: &mut O,
    mode: &Mode,
    ask: &Ask,
    verdict: &Verdict,
)
    requires { CanReply ask.now verdict.now }
    ensures { Puts (reply_of mode.now.structured ask.now verdict.now) (side O.sent O.write_faults output.old) stream.old
        (side O.sent O.write_faults output.new) stream.new }
{
    let head = reply_head(mode, ask, verdict);
    stream.put(output, head.as_slice());
    put_data(stream, output, verdict);
}

/// Answers a request by the core, and puts its reply. `None` for want of memory, and then nothing changes.
pub fn respond<O: Sink, D: Disk + Drop>(
    stream: &mut Stream,
    output: &mut O,
    world: &mut World<D>,
    mode: &Mode,
    ask: &Ask,
    body: Option<Bytes>,
    now: u64,
) -> Option<Verdict>
    requires resting { (writable : Bool) × IsResting D.seen 0 writable world.old }
    requires room { world.old.next < 2 ^ 64 - 1 }
    requires body { (given : List ℕ) × IsBody ask.now given body }
    ensures does { IfSome result (λ v. (writable : Bool) (given : List ℕ) → IsResting D.seen 0 writable world.old →
        IsBody ask.now given body →
        Does D.seen 0 writable ask.now given world.old v world.new) }
    ensures puts { IfSome result (λ v. Puts (reply_of mode.now.structured ask.now v)
        (side O.sent O.write_faults output.old) stream.old
        (side O.sent O.write_faults output.new) stream.new) }
    ensures none { IfNone result ((world.new ≡ world.old) × (stream.new ≡ stream.old)
        × (side O.sent O.write_faults output.new ≡ side O.sent O.write_faults output.old)) }
{
    let verdict = answer(world, SESSION, *ask, body, now)?;
    put_reply(stream, output, mode, ask, &verdict);
    Some(verdict)
}

/// A READ's buffer, made of the spare one; none where it is too long to be served, or memory is refused,
/// and none for another request.
pub fn read_buffer(alloc: Global, spare: &mut Vec<u8>, ask: &Ask) -> Option<Bytes>
    ensures { is_read ask.now.kind ≡ false → result ≡ None }
{
    if !matches!(ask.kind, Kind::Read) || ask.length > MAX_PAYLOAD {
        return None;
    }
    let mut buffer = mem::replace(spare, Vec::new(alloc));
    match buffer.resize(ask.length as usize, 0) {
        Ok(()) => Some(Bytes::of(buffer)),
        Err(_) => None,
    }
}

/// Keeps the buffer of a READ's bytes for the next request.
pub fn keep_buffer(spare: &mut Vec<u8>, verdict: Verdict) {
    match verdict {
        Verdict::Got(bytes) => *spare = bytes.into_vec(),
        _ => {}
    }
}

/// Keeps the memory of a WRITE's data that was answered, where it is longer than what is kept.
pub fn keep_body<D: Disk + Drop>(spare: &mut Vec<u8>, world: &mut World<D>)
    ensures { world.new ≡ world.old }
{
    match world.spare_body() {
        Some(body) if body.len() > spare.len() => *spare = body.into_vec(),
        _ => {}
    }
}
