ghost use Rattle.std.specs.Prelude.{◌≡◌, ◌<◌, IfOk};
ghost use Rattle.qs_nbd_transmission.specs.Phases.{room_size};
ghost use Rattle.qs_nbd_transmission.specs.Replies.{CanReply};

use crate::{ReplyHead, Room, Transmission, WireEvent, awaits_data, data_head, reply_head};
use qs_bytes::{Ask, Bytes, Errno, Kind, Mode, Verdict};
use qs_status::SessionEnd;
use std::alloc::{AllocError, Global};
use std::process::Abort;
use std::test::Fail;

const PLAIN: Mode = Mode {
    no_zeroes: false,
    structured: false,
};

const STRUCTURED: Mode = Mode {
    no_zeroes: false,
    structured: true,
};

/// What a reader told of a stream.
#[derive(Drop)]
struct Heard {
    asks: Vec<Ask>,
    data: Vec<u8>,
    passed: u64,
    end: SessionEnd,
}

/// Room for so many bytes.
fn room(alloc: Global, length: u64, keeps: bool) -> Result<Room, AllocError>
    ensures { IfOk result (λ room. room_size room ≡ length) }
{
    if !keeps {
        return Ok(Room::Drop(length));
    }
    let buffer = vec![in alloc; 0; length as usize]?;
    Ok(Room::Keep(Bytes::of(buffer)))
}

/// Feeds the stream in pieces of `cut` bytes, and gives a buffer for each WRITE, or drops its data.
fn hear(alloc: Global, stream: &[u8], cut: usize, keeps: bool) -> Result<Heard, AllocError>
    requires { 0 < cut }
{
    let mut link = Transmission::new(PLAIN);
    let mut heard = Heard {
        asks: Vec::new(alloc),
        data: Vec::new(alloc),
        passed: 0,
        end: SessionEnd::Memory,
    };
    let mut rest = stream;
    for _ in 0..stream.len() {
        let fed = link.feed(&rest[..rest.len().min(cut)]);
        rest = &rest[fed.taken..];
        match fed.event {
            None => {}
            Some(WireEvent::Head(ask)) => {
                heard.asks.push(ask)?;
                if awaits_data(&ask) {
                    link.give(room(alloc, ask.length, keeps)?);
                }
            }
            Some(WireEvent::Body(Room::Keep(bytes))) => heard
                .data
                .extend_from_slice(bytes.as_slice())?,
            Some(WireEvent::Body(Room::Drop(count))) => heard.passed = count,
            Some(WireEvent::Disc) | Some(WireEvent::Bad(_)) => break,
        }
    }
    heard.end = link.at_end();
    Ok(heard)
}

/// The stream tells the same however it is cut.
fn tells(
    rt: &impl Abort,
    alloc: Global,
    stream: &[u8],
    asks: &[Ask],
    data: &[u8],
    end: SessionEnd,
) -> Result<(), AllocError> {
    for cut in 1..stream.len() + 1 {
        let heard = hear(alloc, stream, cut, true)?;
        assert_eq!(rt; heard.asks.as_slice(), asks, "cut at {cut}");
        assert_eq!(rt; heard.data.as_slice(), data, "cut at {cut}");
        assert_eq!(rt; heard.end, end, "cut at {cut}");
    }
    Ok(())
}

const WRITE_ONE: Ask = Ask {
    kind: Kind::Write,
    fua: false,
    flags_fit: true,
    cookie: 1,
    offset: 0,
    length: 512,
};

const READ_TWO: Ask = Ask {
    kind: Kind::Read,
    fua: true,
    flags_fit: true,
    cookie: 2,
    offset: 508,
    length: 8,
};

// WRITE of 512 bytes at 0, cookie 1
const WRITE_HEAD: [u8; 28] =
    *b"\x25\x60\x95\x13\0\0\0\x01\0\0\0\0\0\0\0\x01\0\0\0\0\0\0\0\0\0\0\x02\0";
// READ with FUA of 8 bytes at 508, cookie 2
const READ_HEAD: [u8; 28] =
    *b"\x25\x60\x95\x13\0\x01\0\0\0\0\0\0\0\0\0\x02\0\0\0\0\0\0\x01\xfc\0\0\0\x08";
// DISC
const DISC_HEAD: [u8; 28] = *b"\x25\x60\x95\x13\0\0\0\x02\0\0\0\0\0\0\0\0\0\0\0\0\0\0\0\0\0\0\0\0";
// WRITE of 33,554,433 bytes
const LONG_HEAD: [u8; 28] =
    *b"\x25\x60\x95\x13\0\0\0\x01\0\0\0\0\0\0\0\x01\0\0\0\0\0\0\0\0\x02\0\0\x01";
// a head that begins with 25609514
const WRONG_HEAD: [u8; 28] =
    *b"\x25\x60\x95\x14\0\0\0\x01\0\0\0\0\0\0\0\x01\0\0\0\0\0\0\0\0\0\0\x02\0";

#[test]
fn requests_are_read_however_they_are_cut(rt: HostRuntime) -> Result<(), Fail> {
    let alloc = rt.alloc();
    let body = vec![in alloc; 0xab; 512]?;
    let mut stream = WRITE_HEAD.to_vec(alloc)?;
    stream.extend_from_slice(body.as_slice())?;
    stream.extend_from_slice(&READ_HEAD)?;
    tells(
        &rt,
        alloc,
        stream.as_slice(),
        &[WRITE_ONE, READ_TWO],
        body.as_slice(),
        SessionEnd::Done,
    )?;
    tells(
        &rt,
        alloc,
        &stream[..stream.len().min(300)],
        &[WRITE_ONE],
        &[],
        SessionEnd::Truncated,
    )?;
    stream.extend_from_slice(&DISC_HEAD)?;
    stream.extend_from_slice(&WRITE_HEAD)?;
    tells(
        &rt,
        alloc,
        stream.as_slice(),
        &[WRITE_ONE, READ_TWO],
        body.as_slice(),
        SessionEnd::Done,
    )?;
    Ok(())
}

#[test]
fn refusals(rt: HostRuntime) -> Result<(), Fail> {
    let alloc = rt.alloc();
    let magic = SessionEnd::BadMagic(0x25609514);
    tells(&rt, alloc, &WRONG_HEAD[..4], &[], &[], magic)?;
    tells(&rt, alloc, &WRONG_HEAD, &[], &[], magic)?;
    let long = SessionEnd::TooLong(33_554_433);
    tells(&rt, alloc, &LONG_HEAD, &[], &[], long)?;
    Ok(())
}

#[test]
fn input_that_ends_within_a_request(rt: HostRuntime) -> Result<(), Fail> {
    let alloc = rt.alloc();
    let cut = SessionEnd::Truncated;
    tells(&rt, alloc, &WRONG_HEAD[1..4], &[], &[], cut)?;
    tells(&rt, alloc, &LONG_HEAD[..27], &[], &[], cut)?;
    tells(&rt, alloc, &WRITE_HEAD, &[WRITE_ONE], &[], cut)?;
    Ok(())
}

#[test]
fn dropped_data_are_passed_over(rt: HostRuntime) -> Result<(), Fail> {
    let alloc = rt.alloc();
    let mut stream = WRITE_HEAD.to_vec(alloc)?;
    stream.extend_from_slice(vec![in alloc; 0xab; 512]?.as_slice())?;
    stream.extend_from_slice(&READ_HEAD)?;
    let heard = hear(alloc, stream.as_slice(), 100, false)?;
    assert_eq!(rt; heard.asks.as_slice(), [WRITE_ONE, READ_TWO].as_slice());
    assert_eq!(rt; heard.passed, 512);
    assert_eq!(rt; heard.end, SessionEnd::Done);
    Ok(())
}

#[test]
fn flags_that_fit_their_kind(rt: HostRuntime) -> Result<(), Fail> {
    for (structured, kind, flags, fits) in [
        (false, 0u8, 0u8, true),
        (false, 0, 1, true),
        (false, 0, 4, false),
        (true, 0, 4, true),
        (true, 1, 4, false),
        (false, 6, 2, true),
        (false, 6, 3, true),
        (false, 1, 2, false),
        (false, 3, 1, true),
        (true, 0, 8, false),
        (false, 9, 0, true),
    ] {
        let mut head = READ_HEAD;
        head[5] = flags;
        head[7] = kind;
        let mut link = Transmission::new(Mode {
            no_zeroes: false,
            structured,
        });
        match link.feed(&head).event {
            Some(WireEvent::Head(ask)) => {
                assert_eq!(rt; ask.flags_fit, fits, "kind {kind} flags {flags}");
                assert_eq!(rt;
                    ask.fua,
                    flags == 1 || flags == 3,
                    "kind {kind} flags {flags}"
                );
            }
            _ => assert!(rt; false, "kind {kind}"),
        }
    }
    Ok(())
}

fn replies(rt: &impl Abort, mode: Mode, ask: Ask, verdict: Verdict, expected: &[u8])
    requires { CanReply ask verdict }
{
    let head: ReplyHead = reply_head(&mode, &ask, &verdict);
    assert_eq!(rt; head.as_slice(), expected, "{verdict:?}");
}

const READ_AT: Ask = Ask {
    kind: Kind::Read,
    fua: false,
    flags_fit: true,
    cookie: 1,
    offset: 508,
    length: 8,
};

const READ_NONE: Ask = Ask {
    kind: Kind::Read,
    fua: false,
    flags_fit: true,
    cookie: 1,
    offset: 508,
    length: 0,
};

const SIMPLE_FINE: &[u8] = b"\x67\x44\x66\x98\0\0\0\0\0\0\0\0\0\0\0\x01";

const SIMPLE_INVALID: &[u8] = b"\x67\x44\x66\x98\0\0\0\x16\0\0\0\0\0\0\0\x01";

const DATA_CHUNK: &[u8] =
    b"\x66\x8e\x33\xef\0\x01\0\x01\0\0\0\0\0\0\0\x01\0\0\0\x10\0\0\0\0\0\0\x01\xfc";

#[test]
fn heads_of_simple_replies(rt: HostRuntime) -> Result<(), Fail> {
    let bytes = Bytes::of(vec![in rt.alloc(); 7; 8]?);
    let invalid = Verdict::Refused(Errno::Inval);
    replies(&rt, PLAIN, READ_AT, Verdict::Got(bytes), SIMPLE_FINE);
    replies(&rt, PLAIN, READ_AT, invalid, SIMPLE_INVALID);
    assert_eq!(rt; data_head(&PLAIN, &READ_AT).as_slice(), SIMPLE_FINE);
    let invalid = Verdict::Refused(Errno::Inval);
    replies(&rt, STRUCTURED, WRITE_ONE, Verdict::Fine, SIMPLE_FINE);
    replies(&rt, STRUCTURED, WRITE_ONE, invalid, SIMPLE_INVALID);
    Ok(())
}

#[test]
fn heads_of_chunks(rt: HostRuntime) -> Result<(), Fail> {
    let bytes = Bytes::of(vec![in rt.alloc(); 7; 8]?);
    replies(&rt, STRUCTURED, READ_AT, Verdict::Got(bytes), DATA_CHUNK);
    assert_eq!(rt; data_head(&STRUCTURED, &READ_AT).as_slice(), DATA_CHUNK);
    let none = b"\x66\x8e\x33\xef\0\x01\0\0\0\0\0\0\0\0\0\x01\0\0\0\0";
    replies(&rt, STRUCTURED, READ_NONE, Verdict::Fine, none);
    let error = b"\x66\x8e\x33\xef\0\x01\x80\x01\0\0\0\0\0\0\0\x01\0\0\0\x06\0\0\0\x16\0\0";
    let invalid = Verdict::Refused(Errno::Inval);
    replies(&rt, STRUCTURED, READ_AT, invalid, error);
    Ok(())
}
