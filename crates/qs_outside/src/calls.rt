ghost use Rattle.std.specs.Prelude.{◌≡◌, ◌≤◌, ◌↔◌, IsTrue, Contains};
ghost use Rattle.qs_outside.specs.Streams.{next_count};

use std::marker::Model;

/// Which calls of a stream in memory fail, by their numbers from 0, and how many have failed. Both
/// counts stand still at 2^64 - 1.
#[derive(Debug, Drop)]
pub struct CallPlan {
    failing: Vec<u64>,
    made: u64,
    faults: u64,
}

impl Model for CallPlan {
    ghost use Rattle.qs_outside.specs.Streams.{Calls};

    ghost Value = { Calls };

    ghost view = { λ p. record { failing = p.failing.items; made = p.made; faults = p.faults } };
}

impl CallPlan {
    /// No call was made yet.
    pub fn new(failing: Vec<u64>) -> Self
        ensures { result ≡ record { failing = failing.items; made = 0; faults = 0 } }
    {
        CallPlan {
            failing,
            made: 0,
            faults: 0,
        }
    }

    /// The number of the next call.
    pub fn number(&self) -> u64
        ensures { result ≡ self.now.made }
    {
        self.made
    }

    /// Counts a call, and tells whether it is one of those that fail.
    pub fn begin(&mut self) -> bool
        ensures planned { IsTrue result ↔ Contains self.old.failing self.old.made }
        ensures counted { self.new ≡ record self.old { made = next_count self.old.made } }
        ensures faults { self.new.faults ≡ self.old.faults }
    {
        let planned = self.failing.contains(&self.made);
        self.made = self.made.saturating_add(1);
        planned
    }

    /// Counts a failure.
    pub fn fail(&mut self)
        ensures counted { self.new ≡ record self.old { faults = next_count self.old.faults } }
        ensures faults { self.new.faults ≡ next_count self.old.faults }
        ensures later { self.old.faults ≤ self.new.faults }
    {
        self.faults = self.faults.saturating_add(1);
    }
}
