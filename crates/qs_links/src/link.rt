ghost use Rattle.std.specs.Prelude.{◌≡◌};

use qs_outside::{Sink, Source};

/// Both directions of a connection. A call waits until it is done.
///
/// What the members `beside` of each side tell is the other side. So a read keeps what was sent and the
/// count of failed writes, and a write what is left and the count of failed reads.
pub trait Link: Source + Sink {
    ghost sent_told: { (link : Self) → Self.sent_beside link ≡ Self.sent link };

    ghost write_told: { (link : Self) → Self.write_beside link ≡ Self.write_faults link };

    ghost left_told: { (link : Self) → Self.left_beside link ≡ Self.left link };

    ghost read_told: { (link : Self) → Self.read_beside link ≡ Self.read_faults link };
}
