ghost use Rattle.std.specs.Prelude.{◌≡◌, ◌↔◌, ◌<◌, ◌^◌, ⊤, IsErr, Contains};
ghost use Rattle.qs_outside.specs.Faults.{HasCause};
ghost use Rattle.qs_links.specs.Starts.{after_start, started_after};

use crate::plan::Plan;
use crate::spawner::Spawner;
use qs_outside::Failed;
use std::marker::Model;

/// A spawner that only counts: it drops each job.
#[derive(Debug, Drop)]
pub struct CountSpawner {
    started: u64,
    failing: Plan,
}

impl Model for CountSpawner {
    ghost use Rattle.qs_links.specs.Starts.{Starting};

    ghost Value = { Starting };

    ghost view = { λ s. record { started = s.started; calls = s.failing } };
}

impl CountSpawner {
    /// No job was started yet. The calls whose numbers, from 0, are in `fails` fail.
    pub fn new(fails: Vec<u64>) -> Self
        ensures { result ≡ record { started = 0; calls = record { failing = fails.items; made = 0; faults = 0 } } }
    {
        CountSpawner {
            started: 0,
            failing: Plan::new(fails),
        }
    }

    /// How many jobs were started.
    pub fn started(&self) -> u64
        ensures { result ≡ self.now.started }
    {
        self.started
    }
}

impl<J: Drop> Spawner<J> for CountSpawner {
    ghost ready = { λ _. ⊤ };

    ghost started = { λ s. s.started };

    ghost faults = { λ s. s.calls.faults };

    fn start(&mut self, _job: J) -> Result<(), Failed>
        requires room { self.old.started < 2 ^ 63 }
        ensures started { self.new.started ≡ started_after self.old.started result }
        ensures cause { HasCause self.old.calls.faults self.new.calls.faults result }

        // It fails exactly where it was told to.
        ensures fails { IsErr result ↔ Contains self.old.calls.failing self.old.calls.made }
        ensures after { self.new ≡ after_start self.old result }
    {
        if self.failing.meets() {
            return Err(Failed);
        }
        self.started += 1;
        Ok(())
    }
}
