ghost use Rattle.std.specs.Prelude.{◌≡◌};

use crate::clock::Clock;
use std::marker::Model;

/// A clock that stands still.
#[derive(Clone, Copy, Debug, PartialEq, Eq)]
pub struct MemClock {
    reading: u64,
}

impl Model for MemClock {
    ghost use Rattle.std.specs.Prelude.{ℕ};

    ghost Value = { ℕ };

    ghost view = { λ c. c.reading };

    ghost inverse = { λ n. record { reading = n } };
}

impl MemClock {
    /// A clock that always tells this reading, in nanoseconds.
    pub fn new(reading: u64) -> Self
        ensures { result ≡ reading }
    {
        MemClock { reading }
    }
}

impl Clock for MemClock {
    ghost gives = { λ clock reading. reading ≡ clock };

    fn now(&self) -> u64 {
        self.reading
    }
}
