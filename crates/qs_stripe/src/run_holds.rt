//! Holds on the blocks of a run.
ghost use Rattle.std.specs.Prelude.{ℕ, ◌+◌, ◌%◌, ◌≤◌, ◌<◌, MatchOption};
ghost use Rattle.qs_outside.specs.Runs.{InOrder};
ghost use Rattle.qs_stripe.specs.Holds.{IsFreeFor, IsFirstHeld, LetsGo, holds_of};

use crate::holds::Holds;

impl Holds {
    /// The first of `n` blocks from `b` on that another place than `k` holds: how many blocks stand before
    /// it, and the place.
    pub fn first_held(&self, b: u64, k: u8, n: u8) -> Option<(u8, u8)>
        requires { b % 16 + n ≤ 16 }
        ensures { MatchOption result
            ((i : ℕ) → i < n → IsFreeFor (holds_of self.now) k (b + i))
            (λ found. IsFirstHeld (holds_of self.now) k b n found.0 found.1) }
    {
        for i in 0..n {
            match self.other_holder(b + u64::from(i), k) {
                Some(j) => return Some((i, j)),
                None => {}
            }
        }
        None
    }

    /// Place `k` doesn't hold the `n` blocks from `b` on any more.
    pub fn let_go_run(&mut self, k: u8, b: u64, n: u8)
        requires { b % 16 + n ≤ 16 }
        ensures { InOrder (λ i. LetsGo k (b + i)) n (holds_of self.old) (holds_of self.new) }
    {
        for i in 0..n {
            self.let_go(k, b + u64::from(i));
        }
    }
}
