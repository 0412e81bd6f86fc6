use super::*;
use qs_bytes::{Bytes, Errno, Verdict};
use qs_part::event::{GraphNote, Note, NoteReply, OpKind, StripeNote};
use qs_part::graph::Route;
use qs_part::tracker::TrackerReply;
use std::test::Fail;

#[test]
fn what_is_out_of_form_is_refused(rt: HostRuntime) {
    for text in [
        b"jump".as_slice(),
        b" ",
        b"end",
        b"end A ",
        b"end  A",
        b"end a",
        b"end Abcdefghi",
        b"end A B",
        b"session A ",
        b"step A.01",
        b"step A.",
        b"step A.+1",
        b"step A.1 18446744073709551616",
        b"step cmd",
        b"read A 1 0 4294967296",
        b"read A 1 00 512",
        b"write A 1 0 ",
        b"write A 1 0 abc",
        b"write A 1 0 6d6g",
        b"write A 1 0 2*2",
        b"write A 1 0 22*33554433",
        b"write A 1 0 22 fua ",
        b"write A 1 0 22  fua",
        b"write A 1 0 22 fua fua",
        b"write A 1 0 22 FUA",
        b"write A 1 0 fua",
        b"fail 8 load",
        b"fail 0 store",
    ] {
        assert!(rt; matches!(read_line(rt.alloc(), text), Err(LineFault::OutOfForm)));
    }
}

#[test]
fn requests_without_bytes_keep_their_form(rt: HostRuntime) {
    for text in [
        b"read A 1 0 512 fua".as_slice(),
        b"zero A 1 0 4294967296",
        b"zero A 1 0 512 0",
        b"zero A 1 512",
        b"trim A 1 0 512 fua",
        b"trim A 1 18446744073709551616 512",
        b"flush A",
        b"flush A 01",
        b"flush A 1 fua",
        b"flush A 1 0 0",
    ] {
        assert!(rt; matches!(read_line(rt.alloc(), text), Err(LineFault::OutOfForm)));
    }
}

#[test]
fn crashes_keep_their_form(rt: HostRuntime) {
    for text in [
        b"crash".as_slice(),
        b"crash ",
        b"crash 01",
        b"crash 18446744073709551616",
        b"crash 1 ",
        b"crash 1 2",
        b"crash 1 2=",
        b"crash 1 =2",
        b"crash 1 02=3",
        b"crash 1 2=03",
        b"crash 1 2==3",
        b"crash 1 2=3=4",
        b"crash 1 2=18446744073709551616",
        b"crash 1  2=3",
        b"crash 1 2=3 ",
        b"crash 1 2=3 4",
        b"crash 2=3 1",
        b"crashes 1",
    ] {
        assert!(rt; matches!(read_line(rt.alloc(), text), Err(LineFault::OutOfForm)));
    }
}

/// With `--fail-alloc` the pairs of a crash find no memory, which is told.
#[test]
fn crashes_without_memory_are_told(rt: HostRuntime) {
    match read_line(rt.alloc(), b"crash 1 2=3 4=5") {
        Ok(line) => assert!(rt; matches!(&line, Line::Crash(_))),
        Err(fault) => assert_eq!(rt; fault, LineFault::NoPicks),
    }
}

/// With `--fail-alloc` a WRITE's bytes find no memory, which is told with the request.
#[test]
fn requests_without_memory_are_told(rt: HostRuntime) -> Result<(), Fail> {
    let session = SessionName::of(b"A").ok_or("no name")?;
    for (text, length, fua) in [
        (b"write A 1 510 6d6D4a".as_slice(), 3, false),
        (b"write A 1 510 61*9 fua", 9, true),
    ] {
        let lacking = LineFault::NoBody {
            session,
            cookie: 1,
            offset: 510,
            length,
            fua,
        };
        match read_line(rt.alloc(), text) {
            Ok(line) => assert!(rt; matches!(&line, Line::Write { .. })),
            Err(fault) => assert_eq!(rt; fault, lacking),
        }
    }
    Ok(())
}

#[test]
fn lines_are_cut_from_pieces(rt: HostRuntime) -> Result<(), Fail> {
    let mut cutter = LineCutter::new(rt.alloc())?;
    for (piece, taken, event, line) in [
        (b"ab".as_slice(), 2, None, b"ab".as_slice()),
        (b"c\nd", 2, Some(Cut::Line), b"abc"),
        (b"\n", 1, Some(Cut::Line), b""),
        (b"d", 1, None, b"d"),
    ] {
        assert!(rt; cutter.line().len() < 65_536);
        let fed = cutter.feed(piece);
        assert_eq!(rt; (fed.taken, fed.event), (taken, event));
        assert_eq!(rt; cutter.line(), line);
        if event.is_some() {
            cutter.clear();
        }
    }
    cutter.clear();
    let long = vec![in rt.alloc(); b'x'; 70_000]?;
    assert!(rt; cutter.line().is_empty());
    let fed = cutter.feed(long.as_slice());
    assert_eq!(rt; (fed.taken, fed.event), (65_536, Some(Cut::TooLong)));
    Ok(())
}

const ROUTE: Route = Route {
    offset: 512,
    size: 1024,
    writable: true,
    groups: [(0, 0); 8],
    count: 0,
};

fn stripe(kind: OpKind, at: u64, reply: StripeNote) -> Note {
    Note {
        kind,
        at: Some(at),
        reply: NoteReply::Stripe(reply),
    }
}

fn other(kind: OpKind, reply: NoteReply) -> Note {
    Note {
        kind,
        at: None,
        reply,
    }
}

#[test]
fn steps_are_printed(rt: HostRuntime) -> Result<(), Fail> {
    let alloc = rt.alloc();
    let a = SessionName::of(b"A").ok_or("no name")?;
    let request = ScriptActor::Request(a, 1);
    let mut out = Bytes::of(Vec::new(alloc));
    let entered = NoteReply::Tracker(TrackerReply::Entered(0));
    let not_yet = NoteReply::Tracker(TrackerReply::NotYet(3));
    for note in [
        other(OpKind::Enter, entered),
        other(OpKind::Route, NoteReply::Graph(GraphNote::Routed(ROUTE))),
        other(OpKind::Start, not_yet),
        stripe(OpKind::Hold, 1, StripeNote::Filled),
        stripe(OpKind::Load, 2, StripeNote::Filled),
        stripe(OpKind::Store, 1, StripeNote::Done),
        stripe(OpKind::Store, 1, StripeNote::HeldBy(9)),
        stripe(OpKind::Sync, 7, StripeNote::Clean),
        stripe(OpKind::Sync, 0, StripeNote::Synced),
        stripe(OpKind::Sync, 3, StripeNote::Fault),
    ] {
        put_step(alloc, &mut out, &request, &note)?;
    }
    let printed = b"A.1 enter 0\nA.1 route 512 1024\nA.1 not-yet 3\nA.1 held 1\nA.1 loaded 2\n\
A.1 stored 1\nA.1 busy 9\nA.1 clean 7\nA.1 synced 0\nA.1 fault\n";
    assert_eq!(rt; out.as_slice(), printed.as_slice());
    Ok(())
}

#[test]
fn answers_and_news_are_printed(rt: HostRuntime) -> Result<(), Fail> {
    let alloc = rt.alloc();
    let a = SessionName::of(b"A").ok_or("no name")?;
    let mut out = Bytes::of(Vec::new(alloc));
    for verdict in [
        Verdict::Got(Bytes::of([0, 0xaa, 0x0f].to_vec(alloc)?)),
        Verdict::Got(Bytes::of(Vec::new(alloc))),
        Verdict::Fine,
        Verdict::Refused(Errno::NoSpace),
        Verdict::Dropped,
    ] {
        put_answer(alloc, &mut out, a, 1, &verdict)?;
    }
    for news in [
        SessionNews::Attached(4096, true),
        SessionNews::Attached(4096, false),
        SessionNews::Refused,
        SessionNews::Crowded,
        SessionNews::Left,
        SessionNews::Detached,
    ] {
        put_session(alloc, &mut out, a, news)?;
    }
    let printed = b"A.1 = 0 00aa0f\nA.1 = 0 -\nA.1 = 0\nA.1 = 28\nA.1 dropped\n\
A attached 4096 rw\nA attached 4096 ro\nA refused\nA crowded\nA left\nA detached\n";
    assert_eq!(rt; out.as_slice(), printed.as_slice());
    Ok(())
}
