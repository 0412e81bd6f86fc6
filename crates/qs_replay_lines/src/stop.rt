use qs_bytes::Memory;

/// Why a line of a script isn't done to its end.
#[derive(Clone, Copy, Debug, PartialEq, Eq)]
pub enum Stop {
    /// It isn't of the grammar, or uses a cookie again.
    BadLine,
    /// Its event can't come now.
    NotNext,
    /// Memory was refused.
    Memory,
}

impl From<Memory> for Stop {
    ghost use Rattle.std.specs.Prelude.{◌≡◌};
    ghost use Rattle.qs_replay_lines.specs.declared.stop.Stop.TheVariants.{Memory as NoMemory};

    ghost from_gives = { λ _ stop. stop ≡ NoMemory };

    fn from(_refused: Memory) -> Stop {
        Stop::Memory
    }
}
