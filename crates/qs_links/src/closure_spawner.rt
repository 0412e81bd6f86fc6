ghost use Rattle.std.specs.Prelude.{◌≡◌, ◌<◌, ◌^◌};
ghost use Rattle.qs_outside.specs.Faults.{HasCause};
ghost use Rattle.qs_links.specs.Starts.{is_started, started_after};

use crate::spawner::Spawner;
use qs_outside::Failed;

/// A spawner that hands each job to a closure, which answers whether it could start it.
///
/// What may start threads is known in a program's `main` alone, which makes the closure.
#[derive(Drop)]
pub struct ClosureSpawner<F: Drop> {
    by: F,
    started: u64,
    faults: u64,
}

impl<F: Drop> ClosureSpawner<F> {
    /// No job was started yet.
    pub fn new(by: F) -> Self
        ensures by { result.by ≡ by }
        ensures started { result.started ≡ 0 }
        ensures faults { result.faults ≡ 0 }
    {
        ClosureSpawner {
            by,
            started: 0,
            faults: 0,
        }
    }

    /// How many jobs were started.
    pub fn started(&self) -> u64
        ensures { result ≡ self.now.started }
    {
        self.started
    }
}

impl<J, F: FnMut(J) -> bool + Drop> Spawner<J> for ClosureSpawner<F> {
    ghost ready = { λ s. F.IsAlwaysCallable s.by };

    ghost started = { λ s. s.started };

    ghost faults = { λ s. s.faults };

    fn start(&mut self, job: J) -> Result<(), Failed>
        requires ready { F.IsAlwaysCallable self.old.by }
        requires room { self.old.started < 2 ^ 63 }
        ensures ready { F.IsAlwaysCallable self.new.by }
        ensures started { self.new.started ≡ started_after self.old.started result }
        ensures cause { HasCause self.old.faults self.new.faults result }

        // The closure was called with the job once, and decided.
        ensures called { F.step self.old.by job (is_started result) self.new.by }
    {
        if (self.by)(job) {
            self.started += 1;
            Ok(())
        } else {
            self.faults = self.faults.saturating_add(1);
            Err(Failed)
        }
    }
}
