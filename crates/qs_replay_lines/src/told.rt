ghost use Rattle.std.specs.Prelude.{◌≡◌};
ghost use Rattle.qs_replay_lines.specs.Numbers.{ended_by, is_error as the_error, quiet as the_quiet};

use qs_bytes::Verdict;
use qs_part::event::Outcome;

/// What a line that was done came to, in numbers.
#[derive(Clone, Copy, Debug, PartialEq, Eq)]
pub struct LineTold {
    /// The steps of actors that it made, modulo 2^64, also one that left its actor as it was.
    pub steps: u64,
    /// Whether the answer that it brought is an error; `None` where it answered no request.
    pub ended: Option<bool>,
}

/// No step was made and nothing was answered.
pub fn quiet() -> LineTold
    ensures { result ≡ the_quiet }
{
    LineTold {
        steps: 0,
        ended: None,
    }
}

/// Whether a verdict is no answer 0.
fn is_error(verdict: &Verdict) -> bool
    ensures { result ≡ the_error verdict.now }
{
    match verdict {
        Verdict::Got(_) | Verdict::Fine => false,
        Verdict::Refused(_) | Verdict::Dropped => true,
    }
}

/// Whether the answer that a step brought is an error; `None` where it brought none.
pub fn ending_of(outcome: &Outcome) -> Option<bool>
    ensures { result ≡ ended_by outcome.now }
{
    match outcome {
        Outcome::Answered(verdict, _) => Some(is_error(verdict)),
        _ => None,
    }
}
