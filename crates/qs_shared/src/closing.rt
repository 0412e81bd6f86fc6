//! The disks of stripes, taken out.
ghost use Rattle.std.specs.Prelude.{◌≡◌, ◌≤◌, [], length, map};
ghost use Rattle.std.specs.Vec.{vec_capacity};

use qs_outside::Disk;
use qs_stripe::stripe::Stripe;

/// Takes the disks out of the stripes, in their order, into an empty vector that has room for them.
pub(crate) fn take_disks<D: Disk + Drop>(mut stripes: Vec<Stripe<D>>, mut disks: Vec<D>) -> Vec<D>
    requires { (disks.items ≡ []) × (length stripes.items ≤ vec_capacity disks) }
    ensures { result.items ≡ map (λ s. s.disk) stripes.items }
{
    while let Some(stripe) = stripes.pop() {
        disks.push_reserved(stripe.into_disk());
    }
    disks.reverse();
    disks
}
