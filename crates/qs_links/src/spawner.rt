ghost use Rattle.std.specs.Prelude.{◌≡◌, ℕ, ◌<◌, ◌^◌};
ghost use Rattle.qs_outside.specs.Faults.{HasCause};
ghost use Rattle.qs_links.specs.Starts.{started_after};

use qs_outside::Failed;

/// What starts jobs, each of which then runs beside all others.
///
/// `ready` holds of a spawner whose calls may be made, `started` is how many jobs it started, and `faults`
/// counts the calls that failed.
pub trait Spawner<J> {
    ghost ready: { Self → Type 0 };

    ghost started: { Self → ℕ };

    ghost faults: { Self → ℕ };

    /// Starts a job. A job that can't be started is dropped.
    fn start(&mut self, job: J) -> Result<(), Failed>
        requires ready { ready self.old }
        requires room { started self.old < 2 ^ 63 }
        ensures ready { ready self.new }
        ensures started { started self.new ≡ started_after (started self.old) result }
        ensures cause { HasCause (faults self.old) (faults self.new) result };
}
