ghost use Rattle.std.specs.Prelude.{◌≡◌, ◌<◌, ◌%◌, ◌^◌, ◌∷◌, [], List, length, true, IfNone, IfSome};
ghost use Rattle.qs_part.specs.declared.event.Event.TheVariants.{Step as AStep};
ghost use Rattle.qs_world.specs.Events.{IsNotNext};
ghost use Rattle.qs_calls.specs.Calls.{Call, Happened, Plays};
ghost use Rattle.qs_calls.specs.Goings.{RunsOut, goes_on, moves_on};
ghost use Rattle.qs_calls.specs.Ranks.{rank_at};

use qs_outside::Disk;
use qs_part::event::{Actor, Event, GraphNote, NoteReply, Outcome, StripeNote};
use qs_part::tracker::TrackerReply;
use qs_world::world::World;

/// Whether an answer of a part lets its actor go on.
fn reply_moves_on(reply: &NoteReply) -> bool
    ensures { result ≡ moves_on reply.now }
{
    match reply {
        NoteReply::Tracker(answer) => !matches!(
            answer,
            TrackerReply::Quiesced
                | TrackerReply::Full
                | TrackerReply::NotYet(_)
                | TrackerReply::Strange
        ),
        NoteReply::Graph(answer) => { matches!(answer, GraphNote::Routed(_) | GraphNote::Shutting) }
        NoteReply::Stripe(answer) => !matches!(
            answer,
            StripeNote::HeldBy(_) | StripeNote::Taken(_) | StripeNote::NotHeld
        ),
    }
}

/// Whether the outcome isn't the last of a run.
pub fn outcome_goes_on(outcome: &Outcome) -> bool
    ensures { result ≡ goes_on outcome.now }
{
    match outcome {
        Outcome::Moved(note) => reply_moves_on(&note.reply),
        _ => false,
    }
}

/// An actor's next step; `None` where it can't come now. Where it lets the actor go on, the next one can
/// come, and fewer are left.
fn step_on<D: Disk + Drop>(world: &mut World<D>, actor: Actor, now: u64) -> Option<Outcome>
    ensures some { IfSome result (λ outcome. Plays D.seen world.old (Happened (AStep actor now) outcome ∷ [])
        world.new) }
    ensures on { IfSome result (λ outcome. goes_on outcome ≡ true →
        (rank_at world.new (AStep actor now) < rank_at world.old (AStep actor now))
        × (IsNotNext world.new (AStep actor now) → ⊥)) }
    ensures none { IfNone result (IsNotNext world.old (AStep actor now) × (world.new ≡ world.old)) }
{
    match world.step(Event::Step { actor, now }) {
        Outcome::NotNext => None,
        Outcome::Memory => unreachable!(),
        outcome => Some(outcome),
    }
}

/// The steps of an actor, up to its last one.
#[derive(Debug, Drop)]
pub struct StepsMade {
    /// The outcome of the last one.
    pub last: Outcome,
    /// How many they are, modulo 2^64.
    pub count: u64,
}

/// The steps of an actor, up to an answer, a Detach, or a step that leaves it as it was (that one done
/// too), with the outcome of the last one and their number: calls of the core, one behind the other.
/// `None` exactly where its next step can't come, and then nothing happens. It takes no memory.
pub fn run_counted<D: Disk + Drop>(
    world: &mut World<D>,
    actor: Actor,
    now: u64,
) -> Option<StepsMade>
    ensures some { IfSome result (λ made. (calls : List Call)
        × (Plays D.seen world.old calls world.new × RunsOut (AStep actor now) calls made.last ×
        (made.count ≡ length calls % 2 ^ 64))) }
    ensures none { IfNone result (IsNotNext world.old (AStep actor now) × (world.new ≡ world.old)) }
{
    let mut last = step_on(world, actor, now)?;
    let mut count = 1u64;
    'steps: while outcome_goes_on(&last) {
        last = match step_on(world, actor, now) {
            Some(next) => next,
            None => unreachable!(),
        };
        count = count.wrapping_add(1);
    }
    Some(StepsMade { last, count })
}

/// The steps of an actor as `run_counted` makes them, and the outcome of the last one.
pub fn run_out<D: Disk + Drop>(world: &mut World<D>, actor: Actor, now: u64) -> Option<Outcome>
    ensures some { IfSome result (λ last. (calls : List Call)
        × (Plays D.seen world.old calls world.new × RunsOut (AStep actor now) calls last)) }
    ensures none { IfNone result (IsNotNext world.old (AStep actor now) × (world.new ≡ world.old)) }
{
    match run_counted(world, actor, now) {
        Some(made) => Some(made.last),
        None => None,
    }
}
