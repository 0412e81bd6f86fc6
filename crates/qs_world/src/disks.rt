ghost use Rattle.std.specs.Prelude.{◌≡◌, ◌+◌, ◌≤◌, ◌<◌, ◌++◌, ◌∷◌, [], length, map, MatchOption};
ghost use Rattle.std.specs.List.{AllByRecursion};
ghost use Rattle.std.specs.Vec.{vec_len, vec_capacity};
ghost use Rattle.qs_stripe.specs.Table.{Opened, value_of as stripe_value};

use qs_outside::Disk;
use qs_stripe::stripe::Stripe;
use std::alloc::Global;

/// Takes the disks out of stripes and puts them back before others. There is room for them.
pub fn put_back<D: Disk + Drop>(stripes: &mut Vec<Stripe<D>>, disks: &mut Vec<D>)
    requires { vec_len stripes.old + vec_len disks.old ≤ vec_capacity disks.old }
    ensures disks { disks.new.items ≡ map (λ s. s.disk) stripes.old.items ++ disks.old.items }
    ensures stripes { stripes.new.items ≡ [] }
    ensures room { vec_capacity disks.new ≡ vec_capacity disks.old }
{
    while let Some(stripe) = stripes.pop() {
        match disks.insert(0, stripe.into_disk()) {
            Ok(()) => {}
            Err(_) => unreachable!(),
        }
    }
}

/// Puts each disk behind a stripe, in their order. For want of memory all disks are as before.
pub fn put_away<D: Disk + Drop>(alloc: Global, disks: &mut Vec<D>) -> Option<Vec<Stripe<D>>>
    ensures gone { MatchOption result
        (disks.new.items ≡ disks.old.items)
        (λ stripes. (disks.new.items ≡ []) × (map (λ s. s.disk) stripes.items ≡ disks.old.items)
        × AllByRecursion (λ s. Opened (stripe_value D.seen s)) stripes.items) }
    ensures room { length disks.old.items ≤ vec_capacity disks.new }
{
    let mut stripes = match Vec::with_capacity(alloc, disks.len()) {
        Ok(stripes) => stripes,
        Err(_) => return None,
    };
    while !disks.is_empty() {
        match Stripe::new(alloc, disks.remove(0)) {
            Ok(stripe) => match stripes.push(stripe) {
                Ok(()) => {}
                Err(_) => unreachable!(),
            },
            Err(disk) => {
                match disks.insert(0, disk) {
                    Ok(()) => {}
                    Err(_) => unreachable!(),
                }
                put_back(&mut stripes, disks);
                return None;
            }
        }
    }
    Some(stripes)
}
