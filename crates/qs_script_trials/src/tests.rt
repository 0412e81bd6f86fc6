use qs_bytes::{Bytes, Memory};
use qs_outside::{CrashChoice, Fail as Failing};
use qs_script::{Line, LineFault, ScriptActor, SessionName, read_line};
use std::alloc::Global;
use std::test::Fail;

/// Tells numbers behind a word, each behind a space.
fn tell(alloc: Global, out: &mut Bytes, word: &[u8], numbers: &[u64]) -> Result<(), Memory> {
    out.append(word)?;
    for number in numbers {
        out.append(b" ")?;
        out.append(number.to_string(alloc)?.as_bytes())?;
    }
    Ok(())
}

fn tell_actor(alloc: Global, out: &mut Bytes, actor: &ScriptActor) -> Result<(), Memory> {
    match actor {
        ScriptActor::Session(session) => out.append(session.as_slice()),
        ScriptActor::Request(session, cookie) => {
            out.append(session.as_slice())?;
            tell(alloc, out, b" request", &[*cookie])
        }
    }
}

fn tell_failure(out: &mut Bytes, kind: Failing) -> Result<(), Memory> {
    match kind {
        Failing::Load => out.append(b" Load"),
        Failing::StoreOld => out.append(b" StoreOld"),
        Failing::StoreNew => out.append(b" StoreNew"),
        Failing::Sync => out.append(b" Sync"),
    }
}

/// Tells a request in other words: its session, a verb and numbers.
fn tell_request(
    alloc: Global,
    out: &mut Bytes,
    session: &SessionName,
    verb: &[u8],
    numbers: &[u64],
) -> Result<(), Memory> {
    out.append(session.as_slice())?;
    tell(alloc, out, verb, numbers)
}

fn tell_fua(out: &mut Bytes, fua: bool) -> Result<(), Memory> {
    match fua {
        true => out.append(b" through"),
        false => Ok(()),
    }
}

/// Tells a WRITE_ZEROES, a TRIM or a FLUSH in other words.
fn tell_dataless(alloc: Global, out: &mut Bytes, line: &Line) -> Result<(), Memory> {
    match line {
        Line::Zero {
            session,
            cookie,
            offset,
            length,
            fua,
        } => {
            let numbers = [*cookie, *offset, *length];
            tell_request(alloc, out, session, b" zeroes", &numbers)?;
            tell_fua(out, *fua)
        }
        Line::Trim {
            session,
            cookie,
            offset,
            length,
        } => {
            let numbers = [*cookie, *offset, *length];
            tell_request(alloc, out, session, b" trims", &numbers)
        }
        Line::Flush { session, cookie } => {
            tell_request(alloc, out, session, b" flushes", &[*cookie])
        }
        _ => Ok(()),
    }
}

/// Tells a READ or a WRITE in other words.
fn tell_data(alloc: Global, out: &mut Bytes, line: &Line) -> Result<(), Memory> {
    match line {
        Line::Read {
            session,
            cookie,
            offset,
            length,
        } => {
            let numbers = [*cookie, *offset, *length];
            tell_request(alloc, out, session, b" reads", &numbers)
        }
        Line::Write {
            session,
            cookie,
            offset,
            body,
            fua,
        } => {
            tell_request(alloc, out, session, b" writes", &[*cookie, *offset])?;
            out.append(b" ")?;
            out.append(body.as_slice())?;
            tell_fua(out, *fua)
        }
        _ => Ok(()),
    }
}

/// Tells what a crash leaves, in other words.
fn tell_crash(alloc: Global, out: &mut Bytes, choice: &CrashChoice) -> Result<(), Memory> {
    tell(alloc, out, b"leaves", &[choice.rest])?;
    for (block, place) in choice.picks.0.iter() {
        tell(alloc, out, b" and of", &[*block])?;
        tell(alloc, out, b"", &[*place])?;
    }
    Ok(())
}

/// Tells a line in other words.
fn tell_line(alloc: Global, out: &mut Bytes, line: &Line) -> Result<(), Memory> {
    match line {
        Line::Nothing => Ok(()),
        Line::Session { session, export } => {
            out.append(session.as_slice())?;
            out.append(b" at ")?;
            out.append(export.as_slice())
        }
        Line::End { session } => {
            out.append(session.as_slice())?;
            out.append(b" ends")
        }
        Line::Read { .. } | Line::Write { .. } => tell_data(alloc, out, line),
        Line::Zero { .. } | Line::Trim { .. } | Line::Flush { .. } => {
            tell_dataless(alloc, out, line)
        }
        Line::Step { actor, now } => {
            tell_actor(alloc, out, actor)?;
            tell(alloc, out, b" steps", &[*now])
        }
        Line::Run { actor, now } => {
            tell_actor(alloc, out, actor)?;
            tell(alloc, out, b" runs", &[*now])
        }
        Line::Fail { stripe, kind } => {
            tell(alloc, out, b"stripe", &[*stripe])?;
            tell_failure(out, *kind)
        }
        Line::Crash(choice) => tell_crash(alloc, out, choice),
    }
}

/// The line that a text spells, in other words.
fn told(alloc: Global, text: &[u8]) -> Result<Bytes, Memory> {
    let mut out = Bytes::of(Vec::new(alloc));
    match read_line(alloc, text) {
        Ok(line) => tell_line(alloc, &mut out, &line)?,
        Err(LineFault::OutOfForm) => out.append(b"out of form")?,
        Err(LineFault::NoBody { .. } | LineFault::NoPicks) => return Err(Memory),
    }
    Ok(out)
}

/// Lines, and what each tells.
const LINES: [(&[u8], &[u8]); 25] = [
    (b"", b""),
    (b"# read A 1 0 512", b""),
    (b"session A disk", b"A at disk"),
    (b"end Abcdefg9", b"Abcdefg9 ends"),
    (b"read A 2 508 4294967295", b"A reads 2 508 4294967295"),
    (b"write A 1 510 6d6D4a", b"A writes 1 510 mmJ"),
    (b"write A 1 7 -", b"A writes 1 7 "),
    (b"write A 1 7 61*3", b"A writes 1 7 aaa"),
    (b"write A 1 7 61*0", b"A writes 1 7 "),
    (b"write A 1 7 61*3 fua", b"A writes 1 7 aaa through"),
    (b"zero A 3 4096 4294967295", b"A zeroes 3 4096 4294967295"),
    (b"zero A 3 0 0 fua", b"A zeroes 3 0 0 through"),
    (b"trim A 4 510 1000", b"A trims 4 510 1000"),
    (
        b"trim A 4 18446744073709551615 1",
        b"A trims 4 18446744073709551615 1",
    ),
    (b"flush A 5", b"A flushes 5"),
    (b"step A.1", b"A request 1 steps 0"),
    (b"step A", b"A steps 0"),
    (
        b"step A.18446744073709551615 7",
        b"A request 18446744073709551615 steps 7",
    ),
    (b"run A.1 1000000", b"A request 1 runs 1000000"),
    (b"fail 7 store-new", b"stripe 7 StoreNew"),
    (b"fail 0 sync", b"stripe 0 Sync"),
    (b"crash 0", b"leaves 0"),
    (b"crash 1 5=2", b"leaves 1 and of 5 2"),
    (b"crash 0 5=1 5=2", b"leaves 0 and of 5 1 and of 5 2"),
    (
        b"crash 18446744073709551615 18446744073709551615=0",
        b"leaves 18446744073709551615 and of 18446744073709551615 0",
    ),
];

#[test]
fn lines_are_read(rt: HostRuntime) -> Result<(), Fail> {
    for (text, wanted) in LINES {
        assert_eq!(rt; told(rt.alloc(), text)?.as_slice(), wanted);
    }
    Ok(())
}
