ghost use Rattle.std.specs.Prelude.{◌≡◌, ◌<◌, false, replicate};
ghost use Rattle.qs_script.specs.declared.line.Line.TheVariants as line;
ghost use Rattle.qs_generate.specs.Rounds.{LineComes, wanted_kind, nth_session, request_line as the_line};

use crate::draws::RoundDraws;
use qs_bytes::Bytes;
use qs_script::{Line, LineFault, SessionName};
use std::alloc::Global;

/// What a round asks for.
#[derive(Clone, Copy, Debug, PartialEq, Eq)]
pub enum Wanted {
    Write,
    Read,
    Zero,
    Flush,
}

/// What a round asks for, by the kind that it drew. Each 64th round flushes, whatever it drew.
fn wanted_in(round: u64, kind: u64) -> Wanted
    ensures { result ≡ wanted_kind round kind }
{
    if round % 64 == 0 {
        return Wanted::Flush;
    }
    match kind {
        0..=2 => Wanted::Write,
        3..=5 => Wanted::Read,
        6 => Wanted::Zero,
        _ => Wanted::Flush,
    }
}

/// The name of a session: A, B, C or D.
pub fn session_name(session: u64) -> SessionName
    requires { session < 4 }
    ensures { result ≡ nth_session session }
{
    match SessionName::of(&[b'A' + session as u8]) {
        Some(name) => name,
        None => unreachable!(),
    }
}

/// The line of a round's request, by what the round drew. Its cookie is the round's number. Where memory
/// is refused for the bytes of a WRITE, that is told.
pub fn request_line(alloc: Global, round: u64, draws: &RoundDraws) -> Result<Line, LineFault>
    requires { draws.now.session < 4 }
    ensures { LineComes (the_line round draws.now) result }
{
    let session = session_name(draws.session);
    let offset = draws.offset;
    let length = draws.length;
    match wanted_in(round, draws.kind) {
        Wanted::Write => write_line(alloc, session, round, draws),
        Wanted::Read => Ok(Line::Read {
            session,
            cookie: round,
            offset,
            length,
        }),
        Wanted::Zero => Ok(Line::Zero {
            session,
            cookie: round,
            offset,
            length,
            fua: false,
        }),
        Wanted::Flush => Ok(Line::Flush {
            session,
            cookie: round,
        }),
    }
}

/// A WRITE of one byte over and over.
fn write_line(
    alloc: Global,
    session: SessionName,
    round: u64,
    draws: &RoundDraws,
) -> Result<Line, LineFault>
    ensures { LineComes (line.Write session round draws.now.offset (replicate draws.now.length draws.now.byte) false)
        result }
{
    let RoundDraws {
        offset,
        length,
        byte,
        ..
    } = *draws;
    match vec![in alloc; byte; length as usize] {
        Ok(bytes) => Ok(Line::Write {
            session,
            cookie: round,
            offset,
            body: Bytes::of(bytes),
            fua: false,
        }),
        Err(_) => Err(LineFault::NoBody {
            session,
            cookie: round,
            offset,
            length,
            fua: false,
        }),
    }
}
