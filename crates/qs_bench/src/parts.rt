//! Kinds of work, and single operations of the core's parts, many times, to be timed from outside.

use crate::requests::{flushes, reads};
use qs_bytes::{Bytes, Memory, Span};
use qs_group::group::Group;
use qs_outside::QuietDisk;
use qs_part::group::{Dir, GroupOp, GroupReply};
use qs_part::limits::{GREATEST, Limit, Limits};
use qs_part::part::Part;
use qs_part::runs::{StripeAnswer, StripeCall};
use qs_part::stripe::{StripeOp, StripeReply};
use qs_part::tracker::{TrackerOp, TrackerReply};
use qs_stripe::stripe::Stripe;
use qs_tracker::tracker::Tracker;
use std::alloc::Global;

/// How many requests are in beside the one that is timed.
const OTHERS: u8 = 255;

/// The bytes of a block.
const ALIGN: u32 = 4096;

/// The bytes of the image.
const SIZE: u64 = 1 << 20;

/// A kind of work.
#[derive(Clone, Copy, Debug, PartialEq, Eq)]
pub enum Work {
    /// Enter and End of a tracker in which 255 other requests have listed spans.
    Seat,
    /// The same with a List between.
    List,
    /// The same with a List and a Start between.
    Start,
    /// Load of a block of 4096 bytes of a stripe in memory.
    Load,
    /// Store of such a block.
    Store,
    /// Admit of a throttle group that is answered by Wait, of this ticket, which is the last that is out.
    Admit(u8),
    /// The same of the only ticket, where limits with bursts hold it back by what bursts admit.
    Burst,
    /// Queue of a throttle group, and Admit of that request, which goes and is counted.
    Go,
    /// A READ of so many bytes by the core, from its Ask to its answer.
    Read(u64),
    /// A FLUSH by the core where nothing was stored.
    Flush,
}

/// Each kind of work with its word.
pub const WORKS: [(&str, Work); 13] = [
    ("seat", Work::Seat),
    ("list", Work::List),
    ("start", Work::Start),
    ("load", Work::Load),
    ("store", Work::Store),
    ("admit", Work::Admit(0)),
    ("admit16", Work::Admit(15)),
    ("admit256", Work::Admit(255)),
    ("burst", Work::Burst),
    ("go", Work::Go),
    ("read", Work::Read(4)),
    ("read64k", Work::Read(65_536)),
    ("flush", Work::Flush),
];

/// Does the operation where it fits the part.
fn step<P: Part>(part: &mut P, op: P::Op) -> Option<P::Reply> {
    let fixed = part.fixed();
    if P::fits(&fixed, &op) {
        Some(part.step(op))
    } else {
        None
    }
}

/// A tracker in which 255 requests have listed spans, each of a block of its own.
fn busy_tracker(alloc: Global) -> Result<Tracker, Memory> {
    let mut tracker = Tracker::new(alloc, 0)?;
    for k in 0..OTHERS {
        let _ = step(&mut tracker, TrackerOp::Enter);
        if let Some(span) = Span::of(u64::from(k) * 4096, 4096) {
            let serial = k % 2 == 0;
            let _ = step(&mut tracker, TrackerOp::List { k, span, serial });
        }
    }
    Ok(tracker)
}

fn lists(tracker: &mut Tracker, k: u8) -> bool {
    let Some(span) = Span::of(SIZE, 4096) else {
        return false;
    };
    let op = TrackerOp::List {
        k,
        span,
        serial: true,
    };
    matches!(step(tracker, op), Some(TrackerReply::Listed(_)))
}

fn starts(tracker: &mut Tracker, k: u8) -> bool {
    matches!(
        step(tracker, TrackerOp::Start { k }),
        Some(TrackerReply::Started)
    )
}

/// One request comes and goes.
fn tracker_round(tracker: &mut Tracker, work: Work) -> bool {
    let Some(TrackerReply::Entered(k)) = step(tracker, TrackerOp::Enter) else {
        return false;
    };
    let fine = match work {
        Work::Seat => true,
        Work::List => lists(tracker, k),
        _ => lists(tracker, k) && starts(tracker, k),
    };
    let ended = step(tracker, TrackerOp::End { k });
    fine && ended == Some(TrackerReply::Ended)
}

fn tracker_rounds(alloc: Global, work: Work, rounds: u64) -> Result<u64, Memory> {
    let mut tracker = busy_tracker(alloc)?;
    let mut fine: u64 = 0;
    for _ in 0..rounds {
        if tracker_round(&mut tracker, work) {
            fine = fine.wrapping_add(1);
        }
    }
    Ok(fine)
}

/// One block is loaded or stored; the buffer comes back.
fn stripe_round(stripe: &mut Stripe<QuietDisk>, work: Work, b: u64, buf: Bytes) -> Option<Bytes> {
    let op = match work {
        Work::Store => StripeOp::Store { b, k: 0, buf },
        _ => StripeOp::Load { b, k: 0, buf },
    };
    match step(stripe, StripeCall::One(op)) {
        Some(StripeAnswer::One(StripeReply::Filled(back))) => Some(back),
        Some(StripeAnswer::One(StripeReply::Done(back))) => Some(back),
        _ => None,
    }
}

fn stripe_rounds(alloc: Global, work: Work, rounds: u64) -> Result<u64, Memory> {
    let disk = QuietDisk::new(alloc, 0, ALIGN, SIZE)?;
    let Ok(mut stripe) = Stripe::new(alloc, disk) else {
        return Err(Memory);
    };
    let mut buf = Bytes::of(vec![in alloc; 7; ALIGN as usize]?);
    let mut fine: u64 = 0;
    for round in 0..rounds {
        match stripe_round(&mut stripe, work, round % 16, buf) {
            Some(back) => buf = back,
            None => return Ok(fine),
        }
        fine = fine.wrapping_add(1);
    }
    Ok(fine)
}

/// A group with this limit of all bytes and of all operations.
fn limited_group(alloc: Global, limit: Limit) -> Result<Group, Memory> {
    let Ok(mut group) = Group::new(alloc) else {
        return Err(Memory);
    };
    let limits = Limits {
        bps_total: limit,
        iops_total: limit,
        ..Limits::NONE
    };
    let _ = step(&mut group, GroupOp::Set { limits });
    Ok(group)
}

fn queue(group: &mut Group, member: u8, bytes: u64) {
    let op = GroupOp::Queue {
        member,
        dir: Dir::Write,
        bytes,
    };
    let _ = step(group, op);
}

/// A group in which a request of so many bytes went, and others wait, the last of which is next.
fn busy_group(alloc: Global, limit: Limit, bytes: u64, last: u8) -> Result<Group, Memory> {
    let mut group = limited_group(alloc, limit)?;
    queue(&mut group, 63, bytes);
    let _ = step(&mut group, GroupOp::Admit { t: 0, now: 0 });
    for _ in 0..last {
        queue(&mut group, 5, 1);
    }
    queue(&mut group, 0, 1);
    Ok(group)
}

fn group_rounds(mut group: Group, t: u8, rounds: u64) -> u64 {
    let mut fine: u64 = 0;
    for now in 0..rounds {
        let reply = step(&mut group, GroupOp::Admit { t, now });
        if matches!(reply, Some(GroupReply::Wait(_))) {
            fine = fine.wrapping_add(1);
        }
    }
    fine
}

/// What was admitted is far above what a second admits.
fn admit_rounds(alloc: Global, t: u8, rounds: u64) -> Result<u64, Memory> {
    let slow = Limit {
        avg: 1,
        ..Limit::NONE
    };
    let group = busy_group(alloc, slow, 1 << 40, t)?;
    Ok(group_rounds(group, t, rounds))
}

/// What was admitted is within a whole burst, and above a tenth of a second of it.
fn burst_rounds(alloc: Global, rounds: u64) -> Result<u64, Memory> {
    let bursts = Limit {
        avg: 1_000_000,
        max: 2_000_000,
        burst_length: 3,
    };
    let group = busy_group(alloc, bursts, 1_000_000, 0)?;
    Ok(group_rounds(group, 0, rounds))
}

/// The limits are so high that nothing has to wait.
fn go_rounds(alloc: Global, rounds: u64) -> Result<u64, Memory> {
    let high = Limit {
        avg: GREATEST,
        ..Limit::NONE
    };
    let mut group = limited_group(alloc, high)?;
    let mut fine: u64 = 0;
    for now in 0..rounds {
        queue(&mut group, 0, 1);
        let reply = step(&mut group, GroupOp::Admit { t: 0, now });
        if reply == Some(GroupReply::Go) {
            fine = fine.wrapping_add(1);
        }
    }
    Ok(fine)
}

/// How many of the rounds were answered as they should be.
pub fn rounds_of(alloc: Global, work: Work, rounds: u64) -> Result<u64, Memory> {
    match work {
        Work::Load | Work::Store => stripe_rounds(alloc, work, rounds),
        Work::Admit(t) => admit_rounds(alloc, t, rounds),
        Work::Burst => burst_rounds(alloc, rounds),
        Work::Go => go_rounds(alloc, rounds),
        Work::Read(length) => reads(alloc, length, rounds),
        Work::Flush => flushes(alloc, rounds),
        _ => tracker_rounds(alloc, work, rounds),
    }
}
