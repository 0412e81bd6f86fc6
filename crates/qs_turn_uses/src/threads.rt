//! Calls of several threads.
ghost use Rattle.std.specs.Prelude.{◌≡◌, ◌+◌, ◌*◌, ◌^◌, ◌<◌, true, false, [], ◌∷◌, length, IfOk, List};
ghost use Rattle.qs_tracker.specs.Table.{answers, Fits as FitsTracker};
ghost use Rattle.qs_turn_uses.specs.Trackers.{tracker_fits, tracker_fixed};
ghost use Rattle.qs_part.specs.Histories.{call, lawful, StandsFor};
ghost use Rattle.qs_turn.specs.Orders.{Merges};
ghost use Rattle.qs_turn.specs.Words.{opening, seen, own, out, is_first, IsPassOf, Calls};

use qs_bytes::Memory;
use qs_part::tracker::{TrackerOp, TrackerReply};
use qs_tracker::tracker::Tracker;
use qs_turn::turn::{Pass, Turn};
use std::alloc::Global;
use std::sync::Wait;
use std::thread::{Threads, join};

/// Makes one call, and gives the pass back.
pub fn once<R: Wait>(
    rt: &R,
    turn: &Turn<Tracker>,
    mut pass: Pass<Tracker>,
    request: u64,
    op: TrackerOp,
) -> (TrackerReply, Pass<Tracker>)
    requires turn { IsPassOf turn.now pass }
    requires fits { FitsTracker op }
    ensures turn { IsPassOf turn.now result.1 }
    ensures call { Calls (lawful tracker_fixed tracker_fits answers) (opening turn.now) pass request op result.0
        result.1 }
{
    let reply = turn.call(rt, &mut pass, request, op);
    (reply, pass)
}

/// Two threads make one call each, and the tracker comes back.
///
/// It stands for a history of exactly these two calls.
pub fn both<R: Threads + Wait + Sync>(
    rt: &R,
    alloc: Global,
    tracker: Tracker,
    first: TrackerOp,
    second: TrackerOp,
) -> Result<(Tracker, TrackerReply, TrackerReply), Memory>
    requires { FitsTracker first × FitsTracker second }
    ensures { IfOk result (λ r. (cs : List _) × StandsFor (lawful tracker_fixed tracker_fits answers) tracker cs r.0
        × Merges (call 1 first r.1 ∷ []) (call 2 second r.2 ∷ []) cs) }
{
    let (turn, mut pass) = Turn::new(alloc, tracker)?;
    let other = turn.split(&mut pass);
    let shared = &turn;
    let ((one, mut pass), (two, other)) = join(
        rt,
        move || -> (TrackerReply, Pass<Tracker>)
            requires { IsPassOf shared.now pass × FitsTracker first }
            ensures { IsPassOf shared.entry.now result.1
                × Calls (lawful tracker_fixed tracker_fits answers) (opening shared.entry.now) pass 1 first result.0
                result.1 }
        { once(rt, shared, pass, 1, first) },
        move || -> (TrackerReply, Pass<Tracker>)
            requires { IsPassOf shared.now other × FitsTracker second }
            ensures { IsPassOf shared.entry.now result.1
                × Calls (lawful tracker_fixed tracker_fits answers) (opening shared.entry.now) other 2 second result.0
                result.1 }
        { once(rt, shared, other, 2, second) },
    );
    turn.join(&mut pass, other);
    Ok((turn.close(pass), one, two))
}
