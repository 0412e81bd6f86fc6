ghost use Rattle.std.specs.Prelude.{◌≡◌, ◌≤◌, ◌↔◌, IsTrue, Contains};
ghost use Rattle.qs_links.specs.Ends.{after_try};

use std::marker::Model;

/// Which calls go otherwise, by their numbers from 0, and how many did. Both counts stand still at
/// 2^64 - 1.
#[derive(Debug, Drop)]
pub(crate) struct Plan {
    chosen: Vec<u64>,
    made: u64,
    met: u64,
}

impl Model for Plan {
    ghost use Rattle.qs_outside.specs.Streams.{Calls};

    ghost Value = { Calls };

    ghost view = { λ p. record { failing = p.chosen.items; made = p.made; faults = p.met } };
}

impl Plan {
    /// No call was made yet.
    pub(crate) fn new(chosen: Vec<u64>) -> Self
        ensures { result ≡ record { failing = chosen.items; made = 0; faults = 0 } }
    {
        Plan {
            chosen,
            made: 0,
            met: 0,
        }
    }

    /// Counts a call, and tells whether it is one of those that were chosen, which counts too.
    pub(crate) fn meets(&mut self) -> bool
        ensures chosen { IsTrue result ↔ Contains self.old.failing self.old.made }
        ensures counted { self.new ≡ after_try result self.old }
        ensures later { self.old.faults ≤ self.new.faults }
    {
        let chosen = self.chosen.contains(&self.made);
        self.made = self.made.saturating_add(1);
        if chosen {
            self.met = self.met.saturating_add(1);
        }
        chosen
    }
}
