use super::*;
use std::process::Abort;
use std::test::Fail;

fn list(k: u8, span: Span, serial: bool) -> TrackerOp {
    TrackerOp::List { k, span, serial }
}

fn start(k: u8) -> TrackerOp {
    TrackerOp::Start { k }
}

fn end(k: u8) -> TrackerOp {
    TrackerOp::End { k }
}

fn run(rt: &impl Abort, tracker: &mut Tracker, script: &[(TrackerOp, TrackerReply)]) {
    for (op, reply) in script.iter() {
        assert!(rt; Tracker::fits(&tracker.fixed(), op));
        assert_eq!(rt; tracker.step(*op), *reply);
    }
}

#[test]
fn spans_are_numbered_anew_before_numbers_run_out(rt: HostRuntime) -> Result<(), Fail> {
    let span = Span::of(0, 512).ok_or("no span")?;
    let mut tracker = Tracker::new(rt.alloc(), u64::MAX - 1)?;
    let script = [
        (TrackerOp::Enter, TrackerReply::Entered(0)),
        (TrackerOp::Enter, TrackerReply::Entered(1)),
        (list(0, span, true), TrackerReply::Listed(u64::MAX - 1)),
        (list(1, span, true), TrackerReply::Listed(1)),
        (start(1), TrackerReply::NotYet(0)),
        (start(0), TrackerReply::Started),
        (end(0), TrackerReply::Ended),
        (start(1), TrackerReply::Started),
    ];
    run(&rt, &mut tracker, &script);
    Ok(())
}

#[test]
fn last_of_257_requests_finds_no_place(rt: HostRuntime) -> Result<(), Fail> {
    let mut tracker = Tracker::new(rt.alloc(), 0)?;
    for k in 0..=255 {
        assert_eq!(rt; tracker.step(TrackerOp::Enter), TrackerReply::Entered(k));
    }
    let script = [
        (TrackerOp::Enter, TrackerReply::Full),
        (end(255), TrackerReply::Ended),
        (end(7), TrackerReply::Ended),
        (TrackerOp::Enter, TrackerReply::Entered(7)),
    ];
    run(&rt, &mut tracker, &script);
    Ok(())
}

#[test]
fn conflicting_spans_go_in_their_order(rt: HostRuntime) -> Result<(), Fail> {
    let wide = Span::of(0, 1536).ok_or("no span")?;
    let first = Span::of(0, 512).ok_or("no span")?;
    let last = Span::of(1024, 512).ok_or("no span")?;
    let mut tracker = Tracker::new(rt.alloc(), 0)?;
    let script = [
        (TrackerOp::Enter, TrackerReply::Entered(0)),
        (TrackerOp::Enter, TrackerReply::Entered(1)),
        (TrackerOp::Enter, TrackerReply::Entered(2)),
        (TrackerOp::Enter, TrackerReply::Entered(3)),
        (list(3, wide, false), TrackerReply::Listed(0)),
        (list(2, first, true), TrackerReply::Listed(1)),
        (list(1, last, false), TrackerReply::Listed(2)),
        (list(0, wide, false), TrackerReply::Listed(3)),
        (start(0), TrackerReply::NotYet(1)),
        (start(1), TrackerReply::Started),
        (start(2), TrackerReply::NotYet(0)),
        (start(3), TrackerReply::Started),
        (end(3), TrackerReply::Ended),
        (start(2), TrackerReply::Started),
        (end(2), TrackerReply::Ended),
        (start(0), TrackerReply::Started),
    ];
    run(&rt, &mut tracker, &script);
    Ok(())
}

#[test]
fn each_refusal_is_told(rt: HostRuntime) -> Result<(), Fail> {
    let span = Span::of(512, 512).ok_or("no span")?;
    let mut tracker = Tracker::new(rt.alloc(), 9)?;
    let script = [
        (TrackerOp::Drained, TrackerReply::Empty),
        (TrackerOp::Resume, TrackerReply::Strange),
        (end(0), TrackerReply::Strange),
        (list(0, span, false), TrackerReply::Strange),
        (TrackerOp::Enter, TrackerReply::Entered(0)),
        (start(0), TrackerReply::Strange),
        (TrackerOp::Quiesce, TrackerReply::Stopped),
        (TrackerOp::Quiesce, TrackerReply::Already),
        (TrackerOp::Enter, TrackerReply::Quiesced),
        (TrackerOp::Drained, TrackerReply::InFlight(0)),
        (list(0, span, false), TrackerReply::Listed(9)),
        (list(0, span, false), TrackerReply::Strange),
        (TrackerOp::Resume, TrackerReply::Resumed),
        (TrackerOp::Enter, TrackerReply::Entered(1)),
    ];
    run(&rt, &mut tracker, &script);
    tracker.reset();
    assert_eq!(rt; tracker.step(TrackerOp::Drained), TrackerReply::Empty);
    Ok(())
}

#[test]
fn spans_are_whole_blocks(rt: HostRuntime) -> Result<(), Fail> {
    let rows = [
        (0, 512, true),
        (512, 4096, true),
        (512, 0, false),
        (1, 512, false),
        (0, 511, false),
    ];
    for (offset, length, fits) in rows {
        let span = Span::of(offset, length).ok_or("no span")?;
        assert_eq!(rt; Tracker::fits(&(), &list(0, span, false)), fits);
    }
    Ok(())
}
