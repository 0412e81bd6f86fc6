ghost use Rattle.qs_world.specs.Crashing.{StripesCrash};

use qs_outside::{CrashChoice, RiggedDisk};
use qs_stripe::stripe::Stripe;

/// Every stripe's disk crashes.
pub fn crash_all<D: RiggedDisk + Drop>(stripes: &mut [Stripe<D>], choice: &CrashChoice)
    ensures { StripesCrash D.Disk.seen choice.now stripes.old stripes.new }
{
    for j in 0..stripes.len() {
        stripes[j].crash(choice);
    }
}
