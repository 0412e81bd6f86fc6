ghost use Rattle.std.specs.Prelude.{◌+◌, ◌≤◌};

use crate::station::{KeepingStation, KeptCall};
use qs_bytes::{Ask, Bytes, Errno, Kind, Verdict};
use qs_outside::MemClock;
use qs_part::graph::Route;
use qs_part::tracker::TrackerOp;
use qs_request::{Req, Todo};
use qs_request_state::{Blocks, Shape};
use qs_task::{Crew, CrewPoll, MOST, Need, RequestTask, poll_alone};
use std::alloc::Global;
use std::process::Abort;
use std::sync::Wait;
use std::test::Fail;

const IMAGE: Shape = Shape {
    align: 512,
    size: 4096,
};

const WAY: Route = Route {
    offset: 0,
    size: 4096,
    writable: true,
    groups: [(0, 0); 8],
    count: 0,
};

/// How a poll of a crew ended, without what was read.
#[derive(Clone, Copy, Debug, PartialEq, Eq)]
enum Said {
    NoSuch,
    Waits(Need),
    Got(usize),
    Fine,
    Refused(Errno),
    Dropped,
}

fn verdict_said(verdict: &Verdict) -> Said {
    match verdict {
        Verdict::Got(bytes) => Said::Got(bytes.len()),
        Verdict::Fine => Said::Fine,
        Verdict::Refused(errno) => Said::Refused(*errno),
        Verdict::Dropped => Said::Dropped,
    }
}

fn poll_said(polled: &CrewPoll) -> Said {
    match polled {
        CrewPoll::NoSuch => Said::NoSuch,
        CrewPoll::Pending(need) => Said::Waits(*need),
        CrewPoll::Answered(_, verdict) => verdict_said(verdict),
    }
}

fn asked(
    rt: &impl Abort,
    alloc: Global,
    kind: Kind,
    offset: u64,
    length: u64,
) -> Result<Req, Fail> {
    let ask = Ask {
        kind,
        fua: false,
        flags_fit: true,
        cookie: 0,
        offset,
        length,
    };
    let body = Bytes::of(vec![in alloc; 7; length as usize]?);
    assert!(rt; body.len() as u64 == ask.length);
    let blocks = Blocks::new(alloc, 512)?;
    Ok(Req::new(alloc, 1, ask, 0, Some(body), Some(blocks), IMAGE))
}

fn station(alloc: Global, busy: u64) -> KeepingStation
    ensures { result.way.offset + result.way.size ≤ 4096 }
{
    KeepingStation {
        alloc,
        way: WAY,
        busy,
        kept: Vec::new(alloc),
    }
}

/// Whether the last call that was kept is an End.
fn ends(kept: &[KeptCall]) -> bool {
    match kept.last() {
        Some(call) => matches!(call.todo, Todo::Tracker(TrackerOp::End { .. })),
        None => false,
    }
}

fn add(rt: &impl Abort, crew: &mut Crew, request: Req, number: u64) -> bool {
    assert!(rt; !request.is_waiting() && !request.is_answered());
    assert!(rt; request.shape() == crew.shape());
    assert!(rt; crew.newest() < number);
    crew.add(request, number).is_ok()
}

fn poll<R: Abort + Wait>(
    rt: &R,
    crew: &mut Crew,
    station: &mut KeepingStation,
    number: u64,
) -> Said {
    assert!(rt; crew.shape() == IMAGE);
    assert!(rt; station.way.offset == 0 && station.way.size == IMAGE.size);
    poll_said(&crew.poll(rt, &IMAGE, station, number, 0))
}

#[test]
fn padded_write_alone_makes_its_calls(rt: HostRuntime) -> Result<(), Fail> {
    let request = asked(&rt, rt.alloc(), Kind::Write, 510, 4)?;
    assert!(rt; !request.is_waiting() && !request.is_answered());
    let task = RequestTask::new(request, 5);
    assert!(rt; task.shape() == IMAGE);
    let clock = MemClock::new(0);
    let (verdict, at) = poll_alone(&rt, &IMAGE, station(rt.alloc(), 2), task, &clock);
    assert_eq!(rt; verdict_said(&verdict), Said::Fine);
    assert_eq!(rt; at.kept.len(), 11);
    for call in at.kept.iter() {
        assert_eq!(rt; call.request, 5);
    }
    Ok(())
}

#[test]
fn two_requests_go_at_once(rt: HostRuntime) -> Result<(), Fail> {
    let mut at = station(rt.alloc(), 1);
    let mut crew = Crew::new(rt.alloc(), IMAGE)?;
    let write = asked(&rt, rt.alloc(), Kind::Write, 0, 512)?;
    let read = asked(&rt, rt.alloc(), Kind::Read, 500, 600)?;
    assert!(rt; add(&rt, &mut crew, write, 1));
    assert!(rt; add(&rt, &mut crew, read, 2));
    assert_eq!(rt;
        poll(&rt, &mut crew, &mut at, 1),
        Said::Waits(Need::Tracker)
    );
    assert_eq!(rt; poll(&rt, &mut crew, &mut at, 2), Said::Got(600));
    assert_eq!(rt; poll(&rt, &mut crew, &mut at, 2), Said::NoSuch);
    assert_eq!(rt; poll(&rt, &mut crew, &mut at, 1), Said::Fine);
    assert_eq!(rt; crew.live(), 0);
    Ok(())
}

#[test]
fn seventeenth_request_comes_back(rt: HostRuntime) -> Result<(), Fail> {
    let mut crew = Crew::new(rt.alloc(), IMAGE)?;
    for number in 1..17 {
        let flush = asked(&rt, rt.alloc(), Kind::Flush, 0, 0)?;
        assert!(rt; add(&rt, &mut crew, flush, number));
    }
    assert_eq!(rt; crew.live(), MOST);
    let flush = asked(&rt, rt.alloc(), Kind::Flush, 0, 0)?;
    assert!(rt; !add(&rt, &mut crew, flush, 17));
    assert_eq!(rt; crew.newest(), 16);
    Ok(())
}

#[test]
fn left_requests_run_to_their_end(rt: HostRuntime) -> Result<(), Fail> {
    let mut at = station(rt.alloc(), 1);
    let mut crew = Crew::new(rt.alloc(), IMAGE)?;
    let started = asked(&rt, rt.alloc(), Kind::Write, 0, 512)?;
    let waiting = asked(&rt, rt.alloc(), Kind::Write, 512, 512)?;
    assert!(rt; add(&rt, &mut crew, started, 1));
    assert!(rt; add(&rt, &mut crew, waiting, 2));
    assert_eq!(rt;
        poll(&rt, &mut crew, &mut at, 1),
        Said::Waits(Need::Tracker)
    );
    crew.abandon();
    let before = at.kept.len();
    assert_eq!(rt; poll(&rt, &mut crew, &mut at, 2), Said::Dropped);
    assert_eq!(rt; at.kept.len(), before);
    assert_eq!(rt; poll(&rt, &mut crew, &mut at, 1), Said::Dropped);
    assert!(rt; ends(at.kept.as_slice()));
    Ok(())
}
