ghost use Rattle.std.specs.Prelude.{◌≡◌, ◌-◌, ◌^◌, ◌<◌, Bool, List, ℕ, IfNone, IfSome};
ghost use Rattle.qs_single.specs.Resting.{Exchanged, IsBody, IsResting};

use qs_bytes::{Ask, Bytes, Verdict};
use qs_calls::run_blocks;
use qs_outside::Disk;
use qs_part::event::{Event, Outcome};
use qs_world::world::World;

/// Answers one request of the session: it is asked, with its body, and does its steps one behind the other,
/// by this reading of the clock in nanoseconds.
///
/// The body is a READ's buffer, of the length that is asked for, or a WRITE's data; none where memory was
/// refused for it, and then the answer is ENOMEM. The answer is the first line of the table of replies
/// that applies. `None` only for want of memory for the request, and then nothing changes.
pub fn answer<D: Disk + Drop>(
    world: &mut World<D>,
    session: u32,
    ask: Ask,
    body: Option<Bytes>,
    now: u64,
) -> Option<Verdict>
    requires resting { (writable : Bool) × IsResting D.seen session writable world.old }
    requires room { world.old.next < 2 ^ 64 - 1 }
    ensures some { IfSome result (λ v. (writable : Bool) (given : List ℕ) →
        IsResting D.seen session writable world.old → IsBody ask given body →
        Exchanged D.seen session writable ask given body now world.old v world.new
        × IsResting D.seen session writable world.new) }
    ensures none { IfNone result (world.new ≡ world.old) }
{
    let event = Event::Ask { session, ask, body };
    let number = match world.step(event) {
        Outcome::Made(number) => number,
        Outcome::Memory => return None,
        _ => unreachable!(),
    };
    let Some(last) = run_blocks(world, number, now) else {
        unreachable!();
    };
    match last {
        Outcome::Answered(verdict, _) => Some(verdict),
        _ => unreachable!(),
    }
}
