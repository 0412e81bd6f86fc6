ghost use Rattle.std.specs.Prelude.{IfSome};
ghost use Rattle.qs_request.specs.RunSteps.{AreZeros};

use qs_bytes::Bytes;
use std::alloc::Global;

/// The bytes of the longest run: sixteen blocks of 4096.
pub const MOST_ZEROS: usize = 65_536;

/// So many zeros. `None` for want of memory.
#[tactic(auto, using(crate::proofs::ZeroBytes::replicated))]
pub fn zeros_of(alloc: Global, count: usize) -> Option<Bytes>
    ensures { IfSome result (AreZeros count) }
{
    match vec![in alloc; 0; count] {
        Ok(bytes) => Some(Bytes::of(bytes)),
        Err(_) => None,
    }
}
