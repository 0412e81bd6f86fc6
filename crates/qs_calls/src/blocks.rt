//! A request's steps up to its last one, its runs of whole blocks as one call each.
ghost use Rattle.std.specs.Prelude.{◌≡◌, ◌<◌, ◌∷◌, ◌++◌, [], All, List, true, IfNone, IfSome};
ghost use Rattle.qs_part.specs.declared.event.Actor.TheVariants.{Request as ARequest};
ghost use Rattle.qs_part.specs.declared.event.Event.TheVariants.{Step as AStep};
ghost use Rattle.qs_world.specs.Events.{IsNotNext};
ghost use Rattle.qs_world.specs.Running.{meant};
ghost use Rattle.qs_calls.specs.Calls.{Call, Happened, Plays};
ghost use Rattle.qs_calls.specs.Goings.{GoesOn, RanOut, goes_on};
ghost use Rattle.qs_calls.specs.Ranks.{rank_at};

use crate::run::outcome_goes_on;
use qs_outside::Disk;
use qs_part::event::Outcome;
use qs_world::world::World;

/// A request's next run of whole blocks, or its next step; `None` where there is no such request. Where the
/// last step lets the request go on, the next one can come, and fewer are left.
fn blocks_on<D: Disk + Drop>(world: &mut World<D>, number: u64, now: u64) -> Option<Outcome>
    ensures some { IfSome result (λ outcome. (front : List Call) × (All (GoesOn (AStep (ARequest number) now)) front
        × Plays (λ d. d) (meant D.seen world.old) (front ++ Happened (AStep (ARequest number) now) outcome ∷ [])
        (meant D.seen world.new))) }
    ensures on { IfSome result (λ outcome. goes_on outcome ≡ true →
        (rank_at world.new (AStep (ARequest number) now) < rank_at world.old (AStep (ARequest number) now))
        × (IsNotNext world.new (AStep (ARequest number) now) → ⊥)) }
    ensures none { IfNone result (IsNotNext world.old (AStep (ARequest number) now) × (world.new ≡ world.old)) }
{
    match world.run_request(number, now) {
        Outcome::NotNext => None,
        Outcome::Memory => unreachable!(),
        outcome => Some(outcome),
    }
}

/// The steps of a request as [`run_out`] does them, each run of whole blocks by one call of its stripe.
pub fn run_blocks<D: Disk + Drop>(world: &mut World<D>, number: u64, now: u64) -> Option<Outcome>
    ensures some { IfSome result (λ last. RanOut D.seen world.old (AStep (ARequest number) now) last world.new) }
    ensures none { IfNone result (IsNotNext world.old (AStep (ARequest number) now) × (world.new ≡ world.old)) }
{
    let mut outcome = blocks_on(world, number, now)?;
    'steps: while outcome_goes_on(&outcome) {
        outcome = match blocks_on(world, number, now) {
            Some(next) => next,
            None => unreachable!(),
        };
    }
    Some(outcome)
}
