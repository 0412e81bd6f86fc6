ghost use Rattle.std.specs.Prelude.{◌≡◌, ◌≤◌, ◌^◌};
ghost use Rattle.qs_bucket.specs.Level.{empty, level_at, wait_at, level_added};

use std::marker::Model;

/// What was admitted and hasn't leaked yet, in nano-units.
///
/// It leaks `rate` nano-units a nanosecond and holds back whatever comes while it is above
/// `bucket`.
#[derive(Debug, Drop)]
pub struct Level {
    rate: u64,
    bucket: u128,
    /// The nano-units at the reading `last`.
    level: u128,
    /// The reading of the last admission, in nanoseconds.
    last: u64,
}

impl Model for Level {
    ghost use Rattle.std.specs.Prelude.{◌≤◌, ◌<◌, ◌+◌, ◌^◌};
    ghost use Rattle.qs_bucket.specs.Level.{LevelValue};

    ghost Value = { LevelValue };

    ghost view = { λ l. record { rate = l.rate; bucket = l.bucket; level = l.level; last = l.last } };

    ghost invariant = { λ l. (l.rate ≤ 10 ^ 15) × (l.bucket ≤ 10 ^ 27) × (l.level ≤ 10 ^ 27 + 2 ^ 94)
        × (l.last < 2 ^ 64) };
}

impl Level {
    /// A level of nothing.
    pub fn new(rate: u64, bucket: u128) -> Self
        requires rate { rate ≤ 10 ^ 15 }
        requires bucket { bucket ≤ 10 ^ 27 }
        ensures { result ≡ empty rate bucket }
    {
        Level {
            rate,
            bucket,
            level: 0,
            last: 0,
        }
    }

    /// How many nanoseconds a request has to wait; 0 lets it go.
    #[tactic(auto, using(crate::proofs::Ceil::ceil_of_none))]
    pub fn wait(&self, now: u64) -> u128
        ensures { result ≡ wait_at self.now now }
    {
        if self.rate == 0 {
            return 0;
        }
        let excess = self.held_at(now.max(self.last)).saturating_sub(self.bucket);
        if excess == 0 {
            return 0;
        }
        excess.div_ceil(u128::from(self.rate))
    }

    /// Counts an admission.
    #[tactic(auto, using(crate::proofs::Ceil::none_of_ceil))]
    pub fn add(&mut self, now: u64, units: u128)
        requires go { wait_at self.old now ≡ 0 }
        requires units { units ≤ 2 ^ 94 }
        ensures { self.new ≡ level_added self.old now units }
    {
        if self.rate == 0 {
            return;
        }
        let reading = now.max(self.last);
        self.level = self.held_at(reading) + units;
        self.last = reading;
    }

    fn held_at(&self, reading: u64) -> u128
        requires { self.now.last ≤ reading }
        ensures { result ≡ level_at self.now reading }
    {
        let leaked = u128::from(self.rate) * u128::from(reading - self.last);
        self.level.saturating_sub(leaked)
    }
}
