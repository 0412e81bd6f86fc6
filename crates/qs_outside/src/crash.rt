ghost use Rattle.std.specs.Prelude.{◌≡◌};
ghost use Rattle.qs_outside.specs.Crashes.{chosen, number_of};

use std::marker::Model;

/// Blocks, each with the number of a content that a crash leaves of it.
#[derive(Debug, Drop)]
pub struct Picks(pub Vec<(u64, u64)>);

impl Model for Picks {
    ghost use Rattle.std.specs.Prelude.{List, ℕ};

    ghost Value = { List (ℕ × ℕ) };

    ghost view = { λ picks. picks.0.items };
}

/// What a crash leaves: of each block the content of this number among those that it may leave,
/// counted from 0, or the last one where there are fewer.
#[derive(Debug, Drop)]
pub struct CrashChoice {
    /// The number for each block that isn't picked.
    pub rest: u64,
    /// The numbers for single blocks. Of a block that stands twice the last one counts, and blocks of
    /// other disks change nothing.
    pub picks: Picks,
}

/// The number that the last pair of a block gives, else `rest`.
fn last_number(rest: u64, picks: &[(u64, u64)], b: u64) -> u64
    ensures { result ≡ number_of rest picks.now b }
{
    let mut number = rest;
    for pair in picks.iter() {
        if pair.0 == b {
            number = pair.1;
        }
    }
    number
}

impl CrashChoice {
    /// The number for a block.
    pub fn number(&self, b: u64) -> u64
        ensures { result ≡ chosen self.now b }
    {
        last_number(self.rest, self.picks.0.as_slice(), b)
    }
}
