//! A stripe behind a turn, called by two threads.
ghost use Rattle.std.specs.Prelude.{◌≡◌, ◌↔◌, ◌+◌, ◌++◌, true, false, [], ◌∷◌, IfOk, IsTrue, List};
ghost use Rattle.qs_part.specs.Histories.{call, lawful, StandsFor};
ghost use Rattle.qs_stripe.specs.History.{HeldIn};
ghost use Rattle.qs_stripe.specs.Runs.{FitsCall, all_singles};
ghost use Rattle.qs_turn.specs.Orders.{Merges};
ghost use Rattle.qs_turn.specs.Words.{opening, seen, own, out, is_first, IsPassOf};
ghost use Rattle.qs_turn_uses.specs.Stripes.{stripe_answers, stripe_fixed, MadeTwo};

use qs_bytes::Memory;
use qs_outside::MemDisk;
use qs_part::part::Part;
use qs_part::runs::{StripeAnswer, StripeCall};
use qs_stripe::geometry::Geometry;
use qs_stripe::run_laws::held_in_runs;
use qs_stripe::stripe::Stripe;
use qs_turn::turn::{Pass, Turn};
use std::alloc::Global;
use std::sync::Wait;
use std::thread::{Threads, join};

/// Two calls of a stripe, such as a Hold and a run of stores.
pub type TwoOps = (StripeCall, StripeCall);

/// The answers to two calls.
pub type TwoReplies = (StripeAnswer, StripeAnswer);

/// Whether the stripe takes both calls.
pub fn both_fit(stripe: &Stripe<MemDisk>, ops: &TwoOps) -> bool
    ensures { IsTrue result ↔ (FitsCall (stripe_fixed stripe.now) ops.now.0
        × FitsCall (stripe_fixed stripe.now) ops.now.1) }
{
    let fixed = stripe.fixed();
    let (first, second) = ops;
    fixed.fits_call(first) && fixed.fits_call(second)
}

/// Makes two calls in a row for one request, and gives the pass back. Calls of other threads may
/// come between them.
pub fn call_twice<R: Wait>(
    rt: &R,
    turn: &Turn<Stripe<MemDisk>>,
    mut pass: Pass<Stripe<MemDisk>>,
    request: u64,
    ops: TwoOps,
) -> (TwoReplies, Pass<Stripe<MemDisk>>)
    requires turn { IsPassOf turn.now pass }
    requires first { FitsCall (stripe_fixed (opening turn.now)) ops.0 }
    requires second { FitsCall (stripe_fixed (opening turn.now)) ops.1 }
    ensures { MadeTwo turn.now pass request ops.0 ops.1 result.0.0 result.0.1 result.1 }
{
    let (first, second) = ops;
    let one = turn.call(rt, &mut pass, request, first);
    let two = turn.call(rt, &mut pass, request, second);
    ((one, two), pass)
}

/// Two threads make two calls each, for the requests 1 and 2, and the stripe comes back.
///
/// It stands for a history of exactly these four calls, in which the calls of each thread stand in
/// their order. In it, between a hold and the store or free that ends it, no store of the block by
/// another place is done or reaches the disk.
pub fn two_by_two<R: Threads + Wait + Sync>(
    rt: &R,
    alloc: Global,
    stripe: Stripe<MemDisk>,
    ours: TwoOps,
    theirs: TwoOps,
) -> Result<(Stripe<MemDisk>, TwoReplies, TwoReplies), Memory>
    requires ours { FitsCall (stripe_fixed stripe) ours.0 × FitsCall (stripe_fixed stripe) ours.1 }
    requires theirs { FitsCall (stripe_fixed stripe) theirs.0 × FitsCall (stripe_fixed stripe) theirs.1 }
    ensures { IfOk result (λ r. (cs : List _)
        × StandsFor (lawful stripe_fixed FitsCall stripe_answers) stripe cs r.0
        × Merges (call 1 ours.0 r.1.0 ∷ call 1 ours.1 r.1.1 ∷ []) (call 2 theirs.0 r.2.0 ∷ call 2 theirs.1 r.2.1 ∷ [])
        cs
        × HeldIn (all_singles (stripe_fixed stripe).align cs)) }
{
    let geometry: Geometry = stripe.fixed();
    let (turn, mut pass) = Turn::new(alloc, stripe)?;
    let other = turn.split(&mut pass);
    let shared = &turn;
    let ((one, mut pass), (two, other)) = join(
        rt,
        move || -> (TwoReplies, Pass<Stripe<MemDisk>>)
            requires { IsPassOf shared.now pass × FitsCall (stripe_fixed (opening shared.now)) ours.0
                × FitsCall (stripe_fixed (opening shared.now)) ours.1 }
            ensures { MadeTwo shared.entry.now pass 1 ours.0 ours.1 result.0.0 result.0.1 result.1 }
        {
            let _geometry = geometry;
            call_twice(rt, shared, pass, 1, ours)
        },
        move || -> (TwoReplies, Pass<Stripe<MemDisk>>)
            requires { IsPassOf shared.now other × FitsCall (stripe_fixed (opening shared.now)) theirs.0
                × FitsCall (stripe_fixed (opening shared.now)) theirs.1 }
            ensures { MadeTwo shared.entry.now other 2 theirs.0 theirs.1 result.0.0 result.0.1 result.1 }
        {
            let _geometry = geometry;
            call_twice(rt, shared, other, 2, theirs)
        },
    );
    turn.join(&mut pass, other);
    held_in_runs();
    Ok((turn.close(pass), one, two))
}
