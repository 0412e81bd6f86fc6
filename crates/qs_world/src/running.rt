//! Runs of a request's steps, each one call of a stripe.
ghost use Rattle.std.specs.Prelude.{◌≡◌, ◌<◌, length};
ghost use Rattle.qs_part.specs.declared.event.Actor.TheVariants.{Request as ARequest};
ghost use Rattle.qs_part.specs.declared.event.Event.TheVariants.{Step as AStep};
ghost use Rattle.qs_request.specs.RunSteps.{AreZeros, IsNextRun};
ghost use Rattle.qs_world.specs.declared.live.Live.{Live as ALive};
ghost use Rattle.qs_world.specs.Cores.{value_of};
ghost use Rattle.qs_world.specs.Follows.{IsElement};
ghost use Rattle.qs_world.specs.Running.{RepeatsRequest, RunsRequest};
ghost use Rattle.qs_world.specs.Sound.{IsSound};

use crate::inner::Core;
use crate::live::find_request;
use qs_bytes::{Bytes, stripe_of};
use qs_outside::Disk;
use qs_part::event::Outcome;
use qs_request::WholeRun;

impl<D: Disk + Drop> Core<D> {
    /// The request at an index does the run of whole blocks that is next.
    fn run_blocks(&mut self, at: usize, run: WholeRun, zeros: &mut Bytes) -> Outcome
        requires sound { IsSound D.seen (value_of self.old) }
        requires inside { at < length self.old.requests.items }
        requires zeros { AreZeros 65536 zeros.old }
        requires next { (l : ALive) → IsElement self.old.requests.items at l →
            IsNextRun self.old.shape.align l.request.value.request run }
        ensures runs { (l : ALive) → IsElement self.old.requests.items at l →
            RepeatsRequest D.seen (value_of self.old) l.number result (value_of self.new) }
        ensures zeros { zeros.new ≡ zeros.old }
    {
        let stripe = &mut self.stripes[usize::from(stripe_of(run.b))];
        let note = self.requests[at].request.run(run, zeros, stripe);
        Outcome::Moved(note)
    }

    /// The request at an index does the run of whole blocks that is next, or one operation.
    fn run_at(&mut self, at: usize, now: u64, zeros: &mut Bytes) -> Outcome
        requires sound { IsSound D.seen (value_of self.old) }
        requires inside { at < length self.old.requests.items }
        requires zeros { AreZeros 65536 zeros.old }
        ensures runs { (l : ALive) → IsElement self.old.requests.items at l →
            RepeatsRequest D.seen (value_of self.old) l.number result (value_of self.new) }
        ensures zeros { zeros.new ≡ zeros.old }
    {
        match self.requests[at].request.whole_run() {
            Some(run) => self.run_blocks(at, run, zeros),
            None => return self.step_at(at, now),
        }
    }

    /// A request does the run of whole blocks that is next, or its next step.
    pub fn run_request(&mut self, number: u64, now: u64, zeros: &mut Bytes) -> Outcome
        requires sound { IsSound D.seen (value_of self.old) }
        requires zeros { AreZeros 65536 zeros.old }
        ensures runs { RunsRequest D.seen (value_of self.old) number now result (value_of self.new) }
        ensures zeros { zeros.new ≡ zeros.old }
    {
        match find_request(&self.requests, number) {
            Some(at) => self.run_at(at, now, zeros),
            None => return Outcome::NotNext,
        }
    }
}
