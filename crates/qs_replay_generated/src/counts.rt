ghost use Rattle.std.specs.Prelude.{◌≡◌, List};
ghost use Rattle.qs_calls.specs.Calls.{Call};
ghost use Rattle.qs_replay_lines.specs.Numbers.{Tells};
ghost use Rattle.qs_replay_generated.specs.Making.{Counted};

use qs_replay_lines::LineTold;

/// What the lines of a made-up run came to so far, modulo 2^64.
#[derive(Clone, Copy, Debug, PartialEq, Eq)]
pub struct Counts {
    /// The answers that weren't 0.
    pub errors: u64,
    /// The steps, also those that left their request as it was.
    pub steps: u64,
    /// The lines.
    pub lines: u64,
}

/// The counts with those of one line more.
pub fn counted(old: Counts, told: LineTold) -> Counts
    ensures { (calls : List Call) → Tells calls told → Counted old calls result }
{
    let errors = match told.ended {
        Some(true) => 1,
        _ => 0,
    };
    Counts {
        errors: old.errors.wrapping_add(errors),
        steps: old.steps.wrapping_add(told.steps),
        lines: old.lines.wrapping_add(1),
    }
}
