ghost use Rattle.std.specs.Prelude.{◌≡◌, length, IfSome};
ghost use Rattle.qs_request.specs.Operations.{RouteMay, StripeMay, TrackerMay};
ghost use Rattle.qs_request.specs.Table.{FitsStripe};

use qs_bytes::{Ask, Bytes, Errno, Kind, Verdict};
use qs_part::graph::{GraphReply, Route};
use qs_part::stripe::{Side, StripeOp, StripeReply};
use qs_part::tracker::{TrackerOp, TrackerReply};
use qs_request::{PartReply, Req, Todo};
use qs_request_state::{Blocks, Shape};
use std::alloc::Global;
use std::process::Abort;
use std::test::Fail;

const IMAGE: Shape = Shape {
    align: 512,
    size: 4096,
};

const WAY: Route = Route {
    offset: 0,
    size: 4096,
    writable: true,
    groups: [(0, 0); 8],
    count: 0,
};

/// What a request did, or what it answered. Of a block and of a READ's bytes the first two and the
/// last two are told.
#[derive(Clone, Copy, Debug, PartialEq, Eq)]
enum Said {
    Enter,
    Route(u8),
    List(u8, u64, u64, bool),
    Start(u8),
    Load(u8, u64),
    Hold(u8, u64, Side),
    Store(u8, u64, u32),
    Free(u8, u64),
    Sync(u8),
    End(u8),
    Got(usize, u32),
    Fine,
    Refused(Errno),
    Dropped,
    Other,
}

fn ends(bytes: &[u8]) -> u32 {
    match bytes {
        [a, b, .., c, d] => u32::from_be_bytes([*a, *b, *c, *d]),
        _ => 0,
    }
}

fn answered(verdict: &Verdict) -> Said {
    match verdict {
        Verdict::Got(bytes) => Said::Got(bytes.len(), ends(bytes.as_slice())),
        Verdict::Fine => Said::Fine,
        Verdict::Refused(errno) => Said::Refused(*errno),
        Verdict::Dropped => Said::Dropped,
    }
}

/// A block that was read: all its bytes are this one.
fn filled(buf: Bytes, byte: u8) -> Bytes
    ensures { length result ≡ length buf }
{
    let mut bytes = buf.into_vec();
    bytes.fill(byte);
    Bytes::of(bytes)
}

/// How the parts answer a step: the way of the export, if it stands; whether the disk refuses; and
/// the byte that a block is full of.
#[derive(Clone, Copy, Debug)]
struct Parts {
    way: Option<Route>,
    refuses: bool,
    byte: u8,
}

fn tracker_said(op: TrackerOp) -> Said {
    match op {
        TrackerOp::Enter => Said::Enter,
        TrackerOp::List { k, span, serial } => Said::List(k, span.lo(), span.hi(), serial),
        TrackerOp::Start { k } => Said::Start(k),
        TrackerOp::End { k } => Said::End(k),
        _ => Said::Other,
    }
}

fn stripe_said(s: u8, op: &StripeOp) -> Said {
    match op {
        StripeOp::Load { b, .. } => Said::Load(s, *b),
        StripeOp::Hold { b, end, .. } => Said::Hold(s, *b, *end),
        StripeOp::Store { b, buf, .. } => Said::Store(s, *b, ends(buf.as_slice())),
        StripeOp::Free { b, .. } => Said::Free(s, *b),
        StripeOp::Sync => Said::Sync(s),
    }
}

fn tracker_reply(op: TrackerOp) -> Option<TrackerReply>
    ensures { IfSome result (TrackerMay op) }
{
    match op {
        TrackerOp::Enter => Some(TrackerReply::Entered(0)),
        TrackerOp::List { .. } => Some(TrackerReply::Listed(0)),
        TrackerOp::Start { .. } => Some(TrackerReply::Started),
        TrackerOp::End { .. } => Some(TrackerReply::Ended),
        _ => None,
    }
}

fn route_reply(rt: &impl Abort, way: Option<Route>, shape: Shape) -> GraphReply
    ensures { RouteMay shape result }
{
    match way {
        Some(way) => {
            assert!(rt; way.size <= shape.size && way.offset <= shape.size - way.size);
            GraphReply::Routed(way)
        }
        None => GraphReply::Shutting,
    }
}

fn stripe_reply(op: StripeOp, parts: Parts, s: u8, shape: Shape) -> StripeReply
    requires { FitsStripe shape s op }
    ensures { StripeMay shape op result }
{
    match op {
        StripeOp::Load { buf, .. } if parts.refuses => StripeReply::Fault(Some(buf)),
        StripeOp::Load { buf, .. } => StripeReply::Filled(filled(buf, parts.byte)),
        StripeOp::Hold { buf, .. } if parts.refuses => StripeReply::Fault(Some(buf)),
        StripeOp::Hold { buf, .. } => StripeReply::Filled(filled(buf, parts.byte)),
        StripeOp::Store { buf, .. } if parts.refuses => StripeReply::Fault(Some(buf)),
        StripeOp::Store { buf, .. } => StripeReply::Done(buf),
        StripeOp::Free { .. } => StripeReply::Freed,
        StripeOp::Sync if parts.refuses => StripeReply::Fault(None),
        StripeOp::Sync if s == 3 => StripeReply::Clean,
        StripeOp::Sync => StripeReply::Synced,
    }
}

/// One step of the request, answered as parts without another request do.
#[tactic(auto, using(qs_request::proofs::Wanted::may_reply))]
fn step(rt: &impl Abort, req: &mut Req, parts: Parts) -> Said {
    let shape = req.shape();
    assert!(rt; !req.is_waiting() && !req.is_answered());
    match req.next(0) {
        Todo::Tracker(op) => {
            if let Some(reply) = tracker_reply(op) {
                req.after(PartReply::Tracker(reply));
            }
            tracker_said(op)
        }
        Todo::Route { e } => {
            let reply = route_reply(rt, parts.way, shape);
            req.after(PartReply::Graph(reply));
            Said::Route(e)
        }
        Todo::Stripe(s, op) => {
            let said = stripe_said(s, &op);
            let reply = stripe_reply(op, parts, s, shape);
            req.after(PartReply::Stripe(reply));
            said
        }
        Todo::Answer(verdict) => answered(&verdict),
    }
}

/// Steps the request to its answer. At step `refused` the disk refuses; before step `left` the
/// session leaves. The block that is read at step n is full of n.
fn run(
    rt: &impl Abort,
    req: &mut Req,
    way: Option<Route>,
    refused: usize,
    left: usize,
    want: &[Said],
) {
    for (i, said) in want.iter().enumerate() {
        if i == left {
            assert!(rt; !req.is_waiting() && !req.is_answered());
            req.abandon();
        }
        let parts = Parts {
            way,
            refuses: i == refused,
            byte: (i % 256) as u8,
        };
        assert_eq!(rt; step(rt, req, parts), *said);
    }
    assert!(rt; req.is_answered());
}

fn made(rt: &impl Abort, alloc: Global, ask: Ask, bytes: Option<&[u8]>) -> Result<Req, Fail> {
    let body = match bytes {
        Some(bytes) => {
            let body = Bytes::of(bytes.to_vec(alloc)?);
            assert!(rt; body.len() as u64 == ask.length);
            Some(body)
        }
        None => None,
    };
    let blocks = Blocks::new(alloc, 512)?;
    Ok(Req::new(alloc, 7, ask, 3, body, Some(blocks), IMAGE))
}

fn ask(kind: Kind, offset: u64, length: u64) -> Ask {
    Ask {
        kind,
        fua: false,
        flags_fit: true,
        cookie: 0,
        offset,
        length,
    }
}

/// No step.
const NEVER: usize = 100;

/// How every request that gets past its form begins, and how one whose span is listed goes on.
fn padded(
    rt: &impl Abort,
    alloc: Global,
    refused: usize,
    left: usize,
    tail: &[Said],
) -> Result<(), Fail> {
    let mut req = made(rt, alloc, ask(Kind::Write, 510, 4), Some(&[1, 2, 3, 4]))?;
    assert_eq!(rt; req.session(), 7);
    let mut want = [
        Said::Enter,
        Said::Route(3),
        Said::List(0, 0, 1024, true),
        Said::Start(0),
        Said::Hold(0, 0, Side::Head),
        Said::Hold(0, 1, Side::Tail),
    ]
    .to_vec(alloc)?;
    want.extend_from_slice(tail)?;
    run(rt, &mut req, Some(WAY), refused, left, want.as_slice());
    Ok(())
}

/// The two stores of that write.
const FIRST: Said = Said::Store(0, 0, 0x0404_0102);

const SECOND: Said = Said::Store(0, 1, 0x0304_0505);

const BROKEN: Said = Said::Refused(Errno::Io);

/// The step at which the disk refuses, the step before which the session leaves, and how the write
/// goes on from its seventh step.
const PADDED: [(usize, usize, &[Said]); 6] = [
    (NEVER, NEVER, &[FIRST, SECOND, Said::End(0), Said::Fine]),
    (5, NEVER, &[Said::Free(0, 0), Said::End(0), BROKEN]),
    (6, NEVER, &[FIRST, Said::Free(0, 1), Said::End(0), BROKEN]),
    (7, NEVER, &[FIRST, SECOND, Said::End(0), BROKEN]),
    (NEVER, 3, &[FIRST, SECOND, Said::End(0), Said::Dropped]),
    (NEVER, 7, &[FIRST, SECOND, Said::End(0), Said::Dropped]),
];

#[test]
fn a_padded_write_goes_through_its_stages(rt: HostRuntime) -> Result<(), Fail> {
    for (refused, left, tail) in PADDED {
        padded(&rt, rt.alloc(), refused, left, tail)?;
    }
    Ok(())
}

#[test]
fn a_read_gets_the_covered_bytes_of_its_blocks(rt: HostRuntime) -> Result<(), Fail> {
    let body = vec![in rt.alloc(); 0; 600]?;
    let mut req = made(
        &rt,
        rt.alloc(),
        ask(Kind::Read, 500, 600),
        Some(body.as_slice()),
    )?;
    let want = [
        Said::Enter,
        Said::Route(3),
        Said::List(0, 0, 1536, false),
        Said::Start(0),
        Said::Load(0, 0),
        Said::Load(0, 1),
        Said::Load(0, 2),
        Said::End(0),
        Said::Got(600, 0x0404_0606),
    ];
    run(&rt, &mut req, Some(WAY), NEVER, NEVER, &want);
    Ok(())
}

/// A FLUSH of nothing, whatever places it names, over a way that isn't writable.
fn flush(
    rt: &impl Abort,
    alloc: Global,
    refused: usize,
    left: usize,
    tail: &[Said],
) -> Result<(), Fail> {
    let mut req = made(rt, alloc, ask(Kind::Flush, u64::MAX, 9), None)?;
    let way = Route {
        writable: false,
        ..WAY
    };
    let mut want = [Said::Enter, Said::Route(3)].to_vec(alloc)?;
    want.extend_from_slice(tail)?;
    run(rt, &mut req, Some(way), refused, left, want.as_slice());
    Ok(())
}

#[test]
fn a_flush_syncs_every_stripe(rt: HostRuntime) -> Result<(), Fail> {
    let all = [0, 1, 2, 3, 4, 5, 6, 7].map(Said::Sync);
    let mut fine = all.to_vec(rt.alloc())?;
    fine.extend_from_slice(&[Said::End(0), Said::Fine])?;
    flush(&rt, rt.alloc(), NEVER, NEVER, fine.as_slice())?;
    let refused = Said::Refused(Errno::Io);
    let cut = [Said::Sync(0), Said::Sync(1), Said::End(0), refused];
    flush(&rt, rt.alloc(), 3, NEVER, &cut)?;
    let left = [Said::Sync(0), Said::Sync(1), Said::End(0), Said::Dropped];
    flush(&rt, rt.alloc(), NEVER, 4, &left)
}

#[test]
fn zeros_are_stored_and_synced(rt: HostRuntime) -> Result<(), Fail> {
    let zero = Ask {
        fua: true,
        ..ask(Kind::Zero, 510, 514)
    };
    let stages = [
        Said::Enter,
        Said::Route(3),
        Said::List(0, 0, 1024, true),
        Said::Start(0),
        Said::Hold(0, 0, Side::Head),
        Said::Store(0, 0, 0x0404_0000),
        Said::Store(0, 1, 0),
        Said::Sync(0),
        Said::End(0),
    ];
    for (refused, left, answer) in [
        (NEVER, NEVER, Said::Fine),
        (7, NEVER, Said::Refused(Errno::Io)),
        (NEVER, 7, Said::Dropped),
    ] {
        let mut req = made(&rt, rt.alloc(), zero, None)?;
        let mut want = stages.to_vec(rt.alloc())?;
        want.push(answer)?;
        run(&rt, &mut req, Some(WAY), refused, left, want.as_slice());
    }
    Ok(())
}

const READ_ONLY: Route = Route {
    offset: 0,
    size: 4096,
    writable: false,
    groups: [(0, 0); 8],
    count: 0,
};

/// A kind of request with its offset and length, whether it has a byte of data, its way and its answer,
/// where its way or its range decides it.
const ROUTED: [(Kind, u64, u64, bool, Route, Said); 12] = [
    (
        Kind::Read,
        u64::MAX,
        1,
        true,
        WAY,
        Said::Refused(Errno::Inval),
    ),
    (
        Kind::Write,
        4096,
        1,
        true,
        WAY,
        Said::Refused(Errno::NoSpace),
    ),
    (
        Kind::Write,
        0,
        1,
        true,
        READ_ONLY,
        Said::Refused(Errno::Perm),
    ),
    (Kind::Read, 4096, 0, false, WAY, Said::Got(0, 0)),
    (Kind::Write, 0, 0, false, WAY, Said::Fine),
    (
        Kind::Write,
        4097,
        0,
        false,
        WAY,
        Said::Refused(Errno::NoSpace),
    ),
    (
        Kind::Zero,
        4095,
        2,
        false,
        WAY,
        Said::Refused(Errno::NoSpace),
    ),
    (
        Kind::Zero,
        0,
        0,
        false,
        READ_ONLY,
        Said::Refused(Errno::Perm),
    ),
    (Kind::Trim, 4095, 2, false, WAY, Said::Refused(Errno::Inval)),
    (
        Kind::Trim,
        0,
        1,
        false,
        READ_ONLY,
        Said::Refused(Errno::Perm),
    ),
    (Kind::Trim, 0, 4096, false, WAY, Said::Fine),
    (Kind::Zero, 4096, 0, false, WAY, Said::Fine),
];

#[test]
fn requests_are_refused(rt: HostRuntime) -> Result<(), Fail> {
    let one: &[u8] = &[9];
    for (kind, offset, length, has_data, way, answer) in ROUTED {
        let body = if has_data { Some(one) } else { None };
        let mut req = made(&rt, rt.alloc(), ask(kind, offset, length), body)?;
        let want = [Said::Enter, Said::Route(3), Said::End(0), answer];
        run(&rt, &mut req, Some(way), NEVER, NEVER, &want);
    }
    let mut shut = made(&rt, rt.alloc(), ask(Kind::Read, 0, 1), Some(one))?;
    let want = [
        Said::Enter,
        Said::Route(3),
        Said::End(0),
        Said::Refused(Errno::Shutdown),
    ];
    run(&rt, &mut shut, None, NEVER, NEVER, &want);
    Ok(())
}

#[test]
fn requests_are_answered_at_once(rt: HostRuntime) -> Result<(), Fail> {
    let flagged = Ask {
        flags_fit: false,
        ..ask(Kind::Flush, 0, 0)
    };
    let rows = [
        (
            ask(Kind::Read, 0, 33_554_433),
            NEVER,
            Said::Refused(Errno::Inval),
        ),
        (
            ask(Kind::Unknown(7), 0, 0),
            NEVER,
            Said::Refused(Errno::Inval),
        ),
        (flagged, NEVER, Said::Refused(Errno::Inval)),
        (ask(Kind::Write, 0, 1), NEVER, Said::Refused(Errno::NoMem)),
        (ask(Kind::Write, 0, 0), 0, Said::Dropped),
    ];
    for (ask, left, answer) in rows {
        let mut req = made(&rt, rt.alloc(), ask, None)?;
        run(&rt, &mut req, None, NEVER, left, &[answer]);
    }
    Ok(())
}
