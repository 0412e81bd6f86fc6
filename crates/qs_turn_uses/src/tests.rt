use crate::calls::{on_stripe, twice};
use crate::stripes::{TwoOps, TwoReplies, both_fit, two_by_two};
use crate::tally::{Tally, count_by_four};
use crate::threads::both;
use qs_bytes::Bytes;
use qs_outside::MemDisk;
use qs_part::part::Part;
use qs_part::runs::{RunOp, RunReply, StripeAnswer, StripeCall};
use qs_part::stripe::{Side, StripeOp, StripeReply};
use qs_part::tracker::{TrackerOp, TrackerReply};
use qs_stripe::stripe::Stripe;
use qs_tracker::tracker::Tracker;
use qs_turn::turn::Turn;
use qs_turn_rows::rows::{call_at, open_next, split_and_close};
use std::alloc::{AllocError, Global};
use std::test::Fail;

fn tally(count: u64) -> Tally {
    Tally { count, spins: 0 }
}

fn block(alloc: Global, byte: u8) -> Result<Bytes, AllocError> {
    Ok(Bytes::of(vec![in alloc; byte; 2]?))
}

fn stripe_in_memory(alloc: Global) -> Result<Stripe<MemDisk>, Fail> {
    let disk = MemDisk::new(alloc, 0, 2, 8, 4)?;
    match Stripe::new(alloc, disk) {
        Ok(stripe) => Ok(stripe),
        Err(_disk) => Err(Fail::from("no memory")),
    }
}

/// Threads that wait for one another run to their end: a step takes longer than a thread looks
/// before it sleeps.
#[test]
fn threads_that_sleep_are_woken(rt: HostRuntime) -> Result<(), Fail> {
    assert_eq!(rt; count_by_four(&rt, rt.alloc(), 400, 5_000)?, 20_000);
    Ok(())
}

/// Runs to its end: four threads make 100,000 calls each, and wait for one another.
#[test]
fn each_call_of_four_threads_is_made_once(rt: HostRuntime) -> Result<(), Fail> {
    assert_eq!(rt; count_by_four(&rt, rt.alloc(), 0, 100_000)?, 400_000);
    Ok(())
}

#[test]
fn two_places_are_in_after_two_threads_entered(rt: HostRuntime) -> Result<(), Fail> {
    let tracker = Tracker::new(rt.alloc(), 0)?;
    let (mut tracker, one, two) = both(
        &rt,
        rt.alloc(),
        tracker,
        TrackerOp::Enter,
        TrackerOp::Enter,
    )?;
    let places = (TrackerReply::Entered(0), TrackerReply::Entered(1));
    assert!(rt;
        (one, two) == places || (two, one) == places,
        "{one:?} {two:?}"
    );
    assert_eq!(rt; tracker.step(TrackerOp::End { k: 0 }), TrackerReply::Ended);
    assert_eq!(rt; tracker.step(TrackerOp::Drained), TrackerReply::InFlight(1));
    assert_eq!(rt; tracker.step(TrackerOp::End { k: 1 }), TrackerReply::Ended);
    assert_eq!(rt; tracker.step(TrackerOp::Drained), TrackerReply::Empty);
    Ok(())
}

#[test]
fn calls_in_a_row_are_answered_in_order(rt: HostRuntime) -> Result<(), Fail> {
    let (turn, mut pass) = Turn::new(rt.alloc(), tally(5))?;
    assert_eq!(rt; twice(&rt, &turn, &mut pass, (), ()), (6, 7));
    assert_eq!(rt; turn.close(pass).count, 7);
    Ok(())
}

#[test]
fn stripe_on_a_disk_in_memory_is_called(rt: HostRuntime) -> Result<(), Fail> {
    let stripe = stripe_in_memory(rt.alloc())?;
    let op = StripeCall::One(StripeOp::Free { b: 0, k: 3 });
    let fixed = stripe.fixed();
    assert!(rt; <Stripe<MemDisk> as Part>::fits(&fixed, &op));
    let (turn, mut pass) = Turn::new(rt.alloc(), stripe)?;
    let reply = on_stripe(&rt, &turn, &mut pass, 1, op);
    assert!(rt;
        matches!(reply, StripeAnswer::One(StripeReply::NotHeld)),
        "{reply:?}"
    );
    Ok(())
}

/// A Hold of a block of 2 bytes by the place `k`, at the head, and a run that stores it.
fn hold_and_store(alloc: Global, b: u64, k: u8, byte: u8) -> Result<TwoOps, AllocError> {
    let hold = StripeOp::Hold {
        b,
        k,
        end: Side::Head,
        buf: block(alloc, 9)?,
    };
    let buf = block(alloc, byte)?;
    let store = RunOp::Store {
        b,
        k,
        n: 1,
        at: 0,
        buf,
    };
    Ok((StripeCall::One(hold), StripeCall::Run(store)))
}

fn is_held_and_stored(answers: &TwoReplies) -> bool {
    let (held, stored) = answers;
    let held = matches!(held, StripeAnswer::One(StripeReply::Filled(_)));
    held && matches!(stored, StripeAnswer::Run(RunReply::Done(_)))
}

/// Two threads hold and store blocks of their own.
#[test]
fn two_blocks_are_stored_by_two_threads(rt: HostRuntime) -> Result<(), Fail> {
    let stripe = stripe_in_memory(rt.alloc())?;
    let ours = hold_and_store(rt.alloc(), 0, 0, 1)?;
    let theirs = hold_and_store(rt.alloc(), 1, 1, 2)?;
    assert!(rt; both_fit(&stripe, &ours));
    assert!(rt; both_fit(&stripe, &theirs));
    let (mut stripe, one, two) = two_by_two(&rt, rt.alloc(), stripe, ours, theirs)?;
    assert!(rt; is_held_and_stored(&one), "{one:?}");
    assert!(rt; is_held_and_stored(&two), "{two:?}");
    let buf = block(rt.alloc(), 9)?;
    let load = StripeOp::Load { b: 1, k: 0, buf };
    assert!(rt; stripe.fixed().fits(&load));
    let reply = stripe.one(load);
    assert!(rt;
        matches!(&reply, StripeReply::Filled(got) if got.as_slice() == [2, 2].as_slice()),
        "{reply:?}"
    );
    Ok(())
}

#[test]
fn row_of_turns_is_split_joined_and_closed(rt: HostRuntime) -> Result<(), Fail> {
    let mut turns = Vec::new(rt.alloc());
    let mut passes = Vec::new(rt.alloc());
    open_next(rt.alloc(), &mut turns, &mut passes, tally(5))?;
    open_next(rt.alloc(), &mut turns, &mut passes, tally(7))?;
    assert_eq!(rt; call_at(&rt, turns.as_slice(), &mut passes, 1, 1, ()), 8);
    let parts = split_and_close(rt.alloc(), turns, passes)?;
    assert!(rt;
        parts
            .iter()
            .map(|tally| tally.count)
            .eq([5, 8].iter().copied())
    );
    Ok(())
}
