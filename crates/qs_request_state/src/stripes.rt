ghost use Rattle.std.specs.Prelude.{◌≡◌, ◌<◌, ◌≤◌};
ghost use Rattle.qs_model.specs.Requests.{touches};

use qs_bytes::{STRIPES, stripe_of};

/// How many blocks in a row lie in one stripe.
const RUN: u64 = 16;

/// Whether stripe `s` has one of the blocks from `first` to `last`.
pub fn touches(first: u64, last: u64, s: u8) -> bool
    requires order { first ≤ last }
    requires stripe { s < 8 }
    ensures { result ≡ touches first last s }
{
    let ahead = (s + STRIPES - stripe_of(first)) % STRIPES;
    u64::from(ahead) <= last / RUN - first / RUN
}
