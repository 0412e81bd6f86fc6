use super::*;
use qs_outside::{CrashChoice, MemDisk, Picks};
use qs_part::runs::{RunOp, RunReply};
use std::alloc::AllocError;
use std::process::Abort;
use std::test::Fail as Failure;

/// An operation whose buffer is filled with one byte, or a failure to plan.
#[derive(Clone, Copy, Debug)]
enum Ask {
    Load(u64, u8),
    Hold(u64, u8, Side),
    Store(u64, u8, u8),
    Free(u64, u8),
    Sync,
    /// A run of so many blocks behind a byte of the buffer.
    LoadRun(u64, u8, u8),
    StoreRun(u64, u8, u8, u8),
    Plan(Fail),
    Crash(u64),
}

/// An answer, with the first byte of a block that was read.
#[derive(Clone, Copy, Debug, PartialEq, Eq)]
enum Told {
    Filled(u8),
    Fault,
    HeldBy(u8),
    Taken(u64),
    Done,
    Freed,
    NotHeld,
    Clean,
    Synced,
    /// So many blocks were done before the fault, or before one that this place holds.
    FaultAt(u8),
    HeldAt(u8, u8),
    Planned,
    Crashed,
}

fn block(alloc: Global, byte: u8) -> Result<Bytes, AllocError> {
    Ok(Bytes::of([byte, byte].to_vec(alloc)?))
}

fn told_of(reply: StripeReply) -> Told {
    match reply {
        StripeReply::Filled(got) => match got.as_slice().first() {
            Some(byte) => Told::Filled(*byte),
            None => Told::Fault,
        },
        StripeReply::Fault(_) => Told::Fault,
        StripeReply::HeldBy(j, _) => Told::HeldBy(j),
        StripeReply::Taken(b, _) => Told::Taken(b),
        StripeReply::Done(_) => Told::Done,
        StripeReply::Freed => Told::Freed,
        StripeReply::NotHeld => Told::NotHeld,
        StripeReply::Clean => Told::Clean,
        StripeReply::Synced => Told::Synced,
    }
}

/// A buffer of one byte and a run of `n` blocks.
fn run_buffer(alloc: Global, n: u8, byte: u8) -> Result<Bytes, AllocError> {
    Ok(Bytes::of(vec![in alloc; byte; 1 + 2 * usize::from(n)]?))
}

fn told_of_run(reply: RunReply) -> Told {
    match reply {
        RunReply::Filled(got) => match got.as_slice().last() {
            Some(byte) => Told::Filled(*byte),
            None => Told::Fault,
        },
        RunReply::Done(_) => Told::Done,
        RunReply::Fault(done, _) => Told::FaultAt(done),
        RunReply::HeldBy(done, j, _) => Told::HeldAt(done, j),
    }
}

fn told_of_call(answer: StripeAnswer) -> Told {
    match answer {
        StripeAnswer::One(reply) => told_of(reply),
        StripeAnswer::Run(reply) => told_of_run(reply),
    }
}

fn step_of<P: Part>(rt: &impl Abort, part: &mut P, op: P::Op) -> P::Reply {
    let fixed = part.fixed();
    assert!(rt; P::fits(&fixed, &op));
    part.step(op)
}

fn answer(
    rt: &impl Abort,
    alloc: Global,
    stripe: &mut Stripe<MemDisk>,
    ask: Ask,
) -> Result<Told, AllocError> {
    let op = match ask {
        Ask::Load(b, k) => StripeOp::Load {
            b,
            k,
            buf: block(alloc, 0)?,
        },
        Ask::Hold(b, k, end) => StripeOp::Hold {
            b,
            k,
            end,
            buf: block(alloc, 0)?,
        },
        Ask::Store(b, k, byte) => StripeOp::Store {
            b,
            k,
            buf: block(alloc, byte)?,
        },
        Ask::Free(b, k) => StripeOp::Free { b, k },
        Ask::Sync => StripeOp::Sync,
        Ask::LoadRun(b, k, n) => {
            let buf = run_buffer(alloc, n, 0)?;
            let run = RunOp::Load {
                b,
                k,
                n,
                at: 1,
                buf,
            };
            return Ok(told_of_call(step_of(rt, stripe, StripeCall::Run(run))));
        }
        Ask::StoreRun(b, k, n, byte) => {
            let buf = run_buffer(alloc, n, byte)?;
            let run = RunOp::Store {
                b,
                k,
                n,
                at: 1,
                buf,
            };
            return Ok(told_of_call(step_of(rt, stripe, StripeCall::Run(run))));
        }
        Ask::Plan(fail) => {
            stripe.plan(fail);
            return Ok(Told::Planned);
        }
        Ask::Crash(rest) => {
            let picks = Picks([(4, 1)].to_vec(alloc)?);
            stripe.crash(&CrashChoice { rest, picks });
            return Ok(Told::Crashed);
        }
    };
    Ok(told_of_call(step_of(rt, stripe, StripeCall::One(op))))
}

fn run(
    rt: &impl Abort,
    alloc: Global,
    stripe: &mut Stripe<MemDisk>,
    script: &[(Ask, Told)],
) -> Result<(), AllocError> {
    for (ask, want) in script.iter() {
        assert_eq!(rt; answer(rt, alloc, stripe, *ask)?, *want);
    }
    Ok(())
}

#[test]
fn a_held_block_is_written_by_its_holder(rt: HostRuntime) -> Result<(), Failure> {
    let disk = MemDisk::new(rt.alloc(), 0, 2, 256, 8)?;
    let Ok(mut stripe) = Stripe::new(rt.alloc(), disk) else {
        return Err(Failure::new("no memory"));
    };
    let script = [
        (Ask::Load(3, 0), Told::Filled(0)),
        (Ask::Hold(3, 1, Side::Head), Told::Filled(0)),
        (Ask::Hold(3, 1, Side::Tail), Told::HeldBy(1)),
        (Ask::Hold(3, 2, Side::Head), Told::HeldBy(1)),
        (Ask::Hold(4, 1, Side::Head), Told::Taken(3)),
        (Ask::Hold(4, 1, Side::Tail), Told::Filled(0)),
        (Ask::Store(3, 2, 9), Told::HeldBy(1)),
        (Ask::Store(3, 1, 7), Told::Done),
        (Ask::Load(3, 2), Told::Filled(7)),
        (Ask::Free(3, 1), Told::NotHeld),
        (Ask::Free(4, 1), Told::Freed),
        (Ask::Free(4, 1), Told::NotHeld),
        (Ask::Hold(4, 255, Side::Tail), Told::Filled(0)),
        (Ask::Store(4, 0, 9), Told::HeldBy(255)),
        (Ask::Store(4, 255, 9), Told::Done),
        (Ask::Store(4, 0, 8), Told::Done),
    ];
    run(&rt, rt.alloc(), &mut stripe, &script)?;
    Ok(())
}

#[test]
fn each_planned_failure_is_a_fault_once(rt: HostRuntime) -> Result<(), Failure> {
    let disk = MemDisk::new(rt.alloc(), 0, 2, 256, 8)?;
    let Ok(mut stripe) = Stripe::new(rt.alloc(), disk) else {
        return Err(Failure::new("no memory"));
    };
    let script = [
        (Ask::Plan(Fail::Load), Told::Planned),
        (Ask::Load(3, 0), Told::Fault),
        (Ask::Load(3, 0), Told::Filled(0)),
        (Ask::Plan(Fail::Load), Told::Planned),
        (Ask::Hold(3, 1, Side::Head), Told::Fault),
        (Ask::Free(3, 1), Told::NotHeld),
        (Ask::Hold(3, 1, Side::Head), Told::Filled(0)),
        (Ask::Plan(Fail::StoreOld), Told::Planned),
        (Ask::Store(3, 1, 7), Told::Fault),
        (Ask::Load(3, 0), Told::Filled(0)),
        (Ask::Free(3, 1), Told::NotHeld),
        (Ask::Plan(Fail::StoreNew), Told::Planned),
        (Ask::Store(3, 1, 8), Told::Fault),
        (Ask::Load(3, 0), Told::Filled(8)),
    ];
    run(&rt, rt.alloc(), &mut stripe, &script)?;
    Ok(())
}

#[test]
fn a_sync_calls_the_disk_where_a_store_reached_it(rt: HostRuntime) -> Result<(), Failure> {
    let disk = MemDisk::new(rt.alloc(), 0, 2, 256, 8)?;
    let Ok(mut stripe) = Stripe::new(rt.alloc(), disk) else {
        return Err(Failure::new("no memory"));
    };
    let script = [
        (Ask::Plan(Fail::Sync), Told::Planned),
        (Ask::Sync, Told::Clean),
        (Ask::Load(3, 0), Told::Filled(0)),
        (Ask::Hold(3, 1, Side::Head), Told::Filled(0)),
        (Ask::Store(3, 2, 9), Told::HeldBy(1)),
        (Ask::Free(3, 1), Told::Freed),
        (Ask::Sync, Told::Clean),
        (Ask::Store(3, 1, 7), Told::Done),
        (Ask::Sync, Told::Fault),
        (Ask::Sync, Told::Synced),
        (Ask::Sync, Told::Clean),
        (Ask::Plan(Fail::StoreOld), Told::Planned),
        (Ask::Store(3, 1, 8), Told::Fault),
        (Ask::Sync, Told::Synced),
        (Ask::Sync, Told::Clean),
    ];
    run(&rt, rt.alloc(), &mut stripe, &script)?;
    Ok(())
}

#[test]
fn a_crash_frees_what_is_held_and_leaves_what_is_chosen(rt: HostRuntime) -> Result<(), Failure> {
    let disk = MemDisk::new(rt.alloc(), 0, 2, 256, 8)?;
    let Ok(mut stripe) = Stripe::new(rt.alloc(), disk) else {
        return Err(Failure::new("no memory"));
    };
    let script = [
        (Ask::Hold(3, 1, Side::Head), Told::Filled(0)),
        (Ask::Store(4, 2, 7), Told::Done),
        (Ask::Store(4, 2, 8), Told::Done),
        (Ask::Store(5, 2, 9), Told::Done),
        (Ask::Plan(Fail::Load), Told::Planned),
        (Ask::Crash(0), Told::Crashed),
        (Ask::Load(4, 0), Told::Filled(7)),
        (Ask::Load(5, 0), Told::Filled(0)),
        (Ask::Free(3, 1), Told::NotHeld),
        (Ask::Hold(3, 2, Side::Head), Told::Filled(0)),
        (Ask::Sync, Told::Clean),
        (Ask::Store(4, 2, 8), Told::Done),
        (Ask::Sync, Told::Synced),
        (Ask::Crash(0), Told::Crashed),
        (Ask::Load(4, 0), Told::Filled(8)),
    ];
    run(&rt, rt.alloc(), &mut stripe, &script)?;
    Ok(())
}

#[test]
fn a_run_stops_at_a_foreign_hold_and_at_a_fault(rt: HostRuntime) -> Result<(), Failure> {
    let disk = MemDisk::new(rt.alloc(), 0, 2, 256, 8)?;
    let Ok(mut stripe) = Stripe::new(rt.alloc(), disk) else {
        return Err(Failure::new("no memory"));
    };
    let script = [
        (Ask::Hold(3, 1, Side::Head), Told::Filled(0)),
        (Ask::StoreRun(3, 2, 2, 9), Told::HeldAt(0, 1)),
        (Ask::Sync, Told::Clean),
        (Ask::StoreRun(1, 2, 3, 9), Told::HeldAt(2, 1)),
        (Ask::LoadRun(1, 2, 2), Told::Filled(9)),
        (Ask::LoadRun(1, 2, 3), Told::Filled(0)),
        (Ask::StoreRun(2, 1, 2, 7), Told::Done),
        (Ask::Free(3, 1), Told::NotHeld),
        (Ask::LoadRun(0, 2, 4), Told::Filled(7)),
        (Ask::Plan(Fail::Load), Told::Planned),
        (Ask::LoadRun(0, 2, 4), Told::FaultAt(0)),
        (Ask::Hold(5, 1, Side::Tail), Told::Filled(0)),
        (Ask::StoreRun(4, 1, 6, 8), Told::FaultAt(4)),
        (Ask::Free(5, 1), Told::NotHeld),
        (Ask::LoadRun(4, 2, 4), Told::Filled(8)),
        (Ask::LoadRun(4, 2, 5), Told::Filled(0)),
        (Ask::Sync, Told::Synced),
    ];
    run(&rt, rt.alloc(), &mut stripe, &script)?;
    Ok(())
}

#[test]
fn runs_fit_by_group_and_buffer(rt: HostRuntime) -> Result<(), Failure> {
    let fixed = Geometry {
        stripe: 1,
        align: 2,
        size: 300,
    };
    for (b, n, at, want) in [
        (16, 16, 1, true),
        (16, 16, 2, false),
        (16, 17, 0, false),
        (31, 1, 0, true),
        (31, 2, 0, false),
        (16, 0, 0, false),
        (15, 1, 0, false),
        (144, 6, 0, true),
        (144, 7, 0, false),
        (u64::MAX, 1, 0, false),
        (16, 1, u64::MAX, false),
    ] {
        let buf = run_buffer(rt.alloc(), 16, 0)?;
        assert_eq!(rt;
            fixed.fits_run(&RunOp::Load {
                b,
                k: 0,
                n,
                at,
                buf
            }),
            want
        );
    }
    Ok(())
}

#[test]
fn operations_fit_by_block_and_buffer(rt: HostRuntime) -> Result<(), Failure> {
    let fixed = Geometry {
        stripe: 1,
        align: 2,
        size: 300,
    };
    for (b, want) in [
        (15, false),
        (16, true),
        (31, true),
        (32, false),
        (144, true),
        (149, true),
        (150, false),
        (u64::MAX, false),
    ] {
        assert_eq!(rt; fixed.fits(&StripeOp::Free { b, k: 0 }), want);
        let buf = block(rt.alloc(), 0)?;
        assert_eq!(rt; fixed.fits(&StripeOp::Load { b, k: 0, buf }), want);
    }
    let buf = Bytes::of([0].to_vec(rt.alloc())?);
    assert!(rt; !fixed.fits(&StripeOp::Load { b: 16, k: 0, buf }));
    Ok(())
}
