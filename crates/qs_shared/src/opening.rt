//! Rows of turns as they are opened.
ghost use Rattle.std.specs.Prelude.{◌≡◌, ◌≤◌, [], length, IfOk};
ghost use Rattle.std.specs.Vec.{vec_capacity};
ghost use Rattle.qs_group.specs.Table.{fresh as fresh_group};
ghost use Rattle.qs_shared.specs.Rows.{OpensGroups, OpensStripes};

use crate::parts::GROUPS;
use qs_bytes::Memory;
use qs_group::group::Group;
use qs_outside::Disk;
use qs_stripe::stripe::Stripe;
use qs_turn::turn::{Pass, Turn};
use qs_turn_rows::rows::open_next;
use std::alloc::Global;

/// The turns of the groups, which have no limits and no requests, and the first pass of each.
pub(crate) fn open_groups(alloc: Global) -> Result<(Vec<Turn<Group>>, Vec<Pass<Group>>), Memory>
    ensures { IfOk result (λ r. OpensGroups 16 r.0.items r.1.items) }
{
    let mut turns = Vec::new(alloc);
    let mut passes = Vec::new(alloc);
    for _ in 0..GROUPS {
        let group = Group::new(alloc)?;
        open_next(alloc, &mut turns, &mut passes, group)?;
    }
    Ok((turns, passes))
}

/// The turns of the stripes of these disks, in their order, and the first pass of each. The emptied vector of the
/// disks stays.
pub(crate) fn open_stripes<D: Disk + Drop>(
    alloc: Global,
    disks: &mut Vec<D>,
) -> Result<(Vec<Turn<Stripe<D>>>, Vec<Pass<Stripe<D>>>), Memory>
    ensures opened { IfOk result (λ r. OpensStripes D.seen disks.old.items r.0.items r.1.items) }
    ensures emptied { IfOk result (λ _. (disks.new.items ≡ [])) }
    ensures room { length disks.old.items ≤ vec_capacity disks.new }
{
    let mut turns = Vec::new(alloc);
    let mut passes = Vec::new(alloc);
    while !disks.is_empty() {
        let Ok(stripe) = Stripe::new(alloc, disks.remove(0)) else {
            return Err(Memory);
        };
        open_next(alloc, &mut turns, &mut passes, stripe)?;
    }
    Ok((turns, passes))
}
