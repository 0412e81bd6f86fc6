ghost use Rattle.std.specs.Prelude.{ℕ, List, Option};
ghost use Rattle.qs_outside.specs.Faults.{HasCause};
ghost use Rattle.qs_links.specs.Starts.{Accepts};

use crate::wire::Wire;
use qs_outside::Failed;
use std::sync::Wait;

/// What clients connect to.
///
/// `arriving` is the wires that are still to come, where that is told; `faults` counts the calls that failed.
pub trait Acceptor {
    type L: Wire + Drop;

    ghost arriving: { Self → Option (List Self.L) };

    ghost faults: { Self → ℕ };

    /// Waits for a client, and answers its wire. `Failed` takes none.
    fn accept<R: Wait>(&mut self, rt: &R) -> Result<Self::L, Failed>
        ensures came { Accepts (arriving self.old) (arriving self.new) result }
        ensures cause { HasCause (faults self.old) (faults self.new) result };
}
