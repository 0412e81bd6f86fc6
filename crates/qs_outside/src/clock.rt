ghost use Rattle.std.specs.Prelude.{ℕ};
ghost use Rattle.std.specs.Arc.{arc_value};

use std::sync::Arc;

/// What tells the time, in nanoseconds. `gives` holds of each reading that it may answer.
pub trait Clock {
    ghost gives: { Self → ℕ → Type 0 };

    /// The time now. It never fails.
    fn now(&self) -> u64
        ensures { gives self.now result };
}

impl<C: Clock> Clock for &C {
    ghost gives = { λ clock. C.gives clock.now };

    fn now(&self) -> u64 {
        (**self).now()
    }
}

impl<C: Clock> Clock for Arc<C> {
    ghost gives = { λ clock. C.gives (arc_value clock) };

    fn now(&self) -> u64 {
        (**self).now()
    }
}
