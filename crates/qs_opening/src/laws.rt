//! A law of the definitions: the contract of a function with nothing to do.

ghost use Rattle.qs_opening.specs.Reading.{ReadsHandshakes};

use qs_outside::Disk;

/// What was read in a handshake is what the handshake's calls took: the client's flags, the options one by
/// one, each answered by what the exports tell, and what came last.
pub fn whole_handshakes<D: Disk + Drop>()
    ensures { ReadsHandshakes D.seen }
{}
