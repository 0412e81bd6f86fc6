use super::*;
use qs_bytes::{Bytes, Memory};
use qs_script::{Line, ScriptActor, SessionName};
use std::alloc::Global;
use std::test::Fail;

/// Where a live request ends, in place of a core.
#[derive(Clone, Copy, Debug, PartialEq, Eq)]
enum Ends {
    /// As it is run.
    AtRun,
    /// At a step or run where its cookie and the line's place, counted from 0, are a multiple of 5 together.
    Sometimes,
    Never,
}

/// Tells numbers, each behind a space.
fn tell(alloc: Global, out: &mut Bytes, numbers: &[u64]) -> Result<(), Memory> {
    for number in numbers {
        out.append(b" ")?;
        out.append(number.to_string(alloc)?.as_bytes())?;
    }
    Ok(())
}

fn tell_actor(
    alloc: Global,
    out: &mut Bytes,
    verb: &[u8],
    actor: &ScriptActor,
) -> Result<(), Memory> {
    out.append(verb)?;
    match actor {
        ScriptActor::Session(session) => out.append(session.as_slice()),
        ScriptActor::Request(session, cookie) => {
            out.append(session.as_slice())?;
            out.append(b".")?;
            out.append(cookie.to_string(alloc)?.as_bytes())
        }
    }
}

/// Tells the byte that a WRITE has over and over, and how often.
fn tell_body(alloc: Global, out: &mut Bytes, body: &Bytes) -> Result<(), Memory> {
    match body.as_slice() {
        [] => Ok(()),
        [first, ..] => tell(alloc, out, &[*first as u64, body.len() as u64]),
    }
}

/// Tells a request in other words: its verb, its session and numbers.
fn tell_request(
    alloc: Global,
    out: &mut Bytes,
    verb: &[u8],
    session: &SessionName,
    numbers: &[u64],
) -> Result<(), Memory> {
    out.append(verb)?;
    out.append(session.as_slice())?;
    tell(alloc, out, numbers)
}

/// Tells a line that makes a request in other words.
fn tell_ask(alloc: Global, out: &mut Bytes, line: &Line) -> Result<(), Memory> {
    match line {
        Line::Read {
            session,
            cookie,
            offset,
            length,
        } => tell_request(alloc, out, b"read ", session, &[*cookie, *offset, *length]),
        Line::Write {
            session,
            cookie,
            offset,
            body,
            ..
        } => {
            tell_request(alloc, out, b"write ", session, &[*cookie, *offset])?;
            tell_body(alloc, out, body)
        }
        Line::Zero {
            session,
            cookie,
            offset,
            length,
            ..
        } => tell_request(alloc, out, b"zero ", session, &[*cookie, *offset, *length]),
        Line::Flush { session, cookie } => {
            tell_request(alloc, out, b"flush ", session, &[*cookie])
        }
        _ => Ok(()),
    }
}

/// Tells a line in other words.
fn tell_line(alloc: Global, out: &mut Bytes, line: &Line) -> Result<(), Memory> {
    match line {
        Line::Session { session, export } => {
            out.append(b"session ")?;
            out.append(session.as_slice())?;
            out.append(b" ")?;
            out.append(export.as_slice())?;
        }
        Line::Step { actor, .. } => tell_actor(alloc, out, b"step ", actor)?,
        Line::Run { actor, .. } => tell_actor(alloc, out, b"run ", actor)?,
        line => tell_ask(alloc, out, line)?,
    }
    out.append(b"\n")
}

/// The request that a line makes, if it makes one.
fn request_of(line: &Line) -> Option<LiveRequest> {
    match line {
        Line::Read {
            session,
            cookie,
            ..
        }
        | Line::Write {
            session,
            cookie,
            ..
        }
        | Line::Zero {
            session,
            cookie,
            ..
        }
        | Line::Flush { session, cookie } => Some(LiveRequest {
            session: *session,
            cookie: *cookie,
        }),
        _ => None,
    }
}

/// The cookie of the request that ends with a line, if one ends.
fn ended_by(line: &Line, place: u64, ends: Ends) -> Option<u64> {
    let (cookie, is_run) = match line {
        Line::Step {
            actor: ScriptActor::Request(_, cookie),
            ..
        } => (*cookie, false),
        Line::Run {
            actor: ScriptActor::Request(_, cookie),
            ..
        } => (*cookie, true),
        _ => return None,
    };
    let ended = match ends {
        Ends::AtRun => is_run,
        Ends::Sometimes => cookie.wrapping_add(place) % 5 == 0,
        Ends::Never => false,
    };
    if ended { Some(cookie) } else { None }
}

/// Tells the first lines of a run, up to so many.
fn told(alloc: Global, mut run: GeneratedRun, ends: Ends, lines: u64) -> Result<Bytes, Memory> {
    let mut live = Vec::new(alloc);
    let mut out = Bytes::of(Vec::new(alloc));
    for place in 0..lines {
        let line = match run.next_line(alloc, live.as_slice()) {
            None => return Ok(out),
            Some(Ok(line)) => line,
            Some(Err(_)) => return Err(Memory),
        };
        tell_line(alloc, &mut out, &line)?;
        if let Some(request) = request_of(&line) {
            live.push(request)?;
        }
        if let Some(cookie) = ended_by(&line, place, ends) {
            live.retain(|request: &LiveRequest| request.cookie != cookie);
        }
    }
    Ok(out)
}

const FIRST: &[u8] = b"session A disk
session B disk
session C disk
session D disk
flush C 1
step C.1
step C.1
step C.1
step C.1
read D 2 22592 1137
step D.2
step D.2
step C.1
write D 3 27553 50 1591
step C.1
step D.3
read B 4 19312 2025
step B.4
step D.2
step B.4
read B 5 24292 1385
step B.4
step C.1
step C.1
";

#[test]
fn the_first_lines_are_these(rt: HostRuntime) -> Result<(), Fail> {
    let run = GeneratedRun::new(7, 32_768);
    let text = told(rt.alloc(), run, Ends::AtRun, 24)?;
    assert_eq!(rt; text.as_slice(), FIRST);
    Ok(())
}

/// The bytes of a text as the digits of a number to base 31, modulo 2^64.
fn sum_of(text: &[u8]) -> u64 {
    let mut sum = 0u64;
    for byte in text {
        sum = sum.wrapping_mul(31).wrapping_add(*byte as u64);
    }
    sum
}

#[test]
fn whole_runs_are_these(rt: HostRuntime) -> Result<(), Fail> {
    for (seed, size, ends, lines, bytes, sum) in [
        (7, 32768, Ends::AtRun, 100000, 628400, 16556567646100722115),
        (
            7,
            32768,
            Ends::Sometimes,
            100000,
            817646,
            8754449261393192113,
        ),
        (7, 32768, Ends::Never, 400, 3919, 5403498510428937967),
        (
            u64::MAX,
            4096,
            Ends::AtRun,
            100000,
            618415,
            7351926204629779307,
        ),
        (
            0,
            268435456,
            Ends::Sometimes,
            100000,
            847188,
            1054781426055989043,
        ),
    ] {
        let run = GeneratedRun::new(seed, size);
        let text = told(rt.alloc(), run, ends, lines)?;
        assert_eq!(rt; (text.len(), sum_of(text.as_slice())), (bytes, sum));
    }
    Ok(())
}

#[test]
fn bytes_are_weighted_by_their_places(rt: HostRuntime) {
    let rows: [(u64, u64, &[u8], u64); 5] = [
        (9, 7, &[], 9),
        (0, 0, &[1, 2, 3], 14),
        (5, 10, &[255], 2810),
        (u64::MAX, 0, &[1], 0),
        (0, 1 << 63, &[2], 2),
    ];
    for (sum, first, bytes, total) in rows {
        assert_eq!(rt; add_weighted(sum, first, bytes), total);
    }
}

#[test]
fn totals_are_one_line(rt: HostRuntime) -> Result<(), Fail> {
    let mut out = Bytes::of(b"A.1 = 0\n".to_vec(rt.alloc())?);
    let totals = RunTotals {
        errors: 0,
        steps: 43_210,
        sum: u64::MAX,
    };
    put_totals(rt.alloc(), &mut out, &totals)?;
    let text = b"A.1 = 0\nrequests 10000 errors 0 steps 43210 sum 18446744073709551615\n";
    assert_eq!(rt; out.as_slice(), text.as_slice());
    Ok(())
}
