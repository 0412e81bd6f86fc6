ghost use Rattle.std.specs.Prelude.{◌≡◌};
ghost use Rattle.qs_generate.specs.Rounds.{LineComes};
ghost use Rattle.qs_replay_generated.specs.Changes.{change_by, driven as the_driven};
ghost use Rattle.qs_script.specs.declared.line.Line.{Line as ALine};

use qs_generate::LiveRequest;
use qs_script::{Line, LineFault, ScriptActor};

/// What a line does to the requests that are live.
#[derive(Clone, Copy, Debug, PartialEq, Eq)]
pub enum Change {
    /// It makes this one.
    Asks(LiveRequest),
    /// It makes steps of the one with this cookie.
    Drives(u64),
    /// It does neither.
    Stays,
}

/// A step of a request drives it.
fn driven(actor: &ScriptActor) -> Change
    ensures { result ≡ the_driven actor.now }
{
    match actor {
        ScriptActor::Session(_) => Change::Stays,
        ScriptActor::Request(_, cookie) => Change::Drives(*cookie),
    }
}

/// What a line that was read does to the requests that are live.
fn change_of_line(line: &Line) -> Change
    ensures { result ≡ change_by line.now }
{
    match line {
        Line::Read {
            session,
            cookie,
            ..
        }
        | Line::Write {
            session,
            cookie,
            ..
        }
        | Line::Zero {
            session,
            cookie,
            ..
        }
        | Line::Trim {
            session,
            cookie,
            ..
        }
        | Line::Flush { session, cookie } => Change::Asks(LiveRequest {
            session: *session,
            cookie: *cookie,
        }),
        Line::Step { actor, .. } | Line::Run { actor, .. } => driven(actor),
        _ => Change::Stays,
    }
}

/// What a line does to the requests that are live, also a WRITE whose bytes found no memory.
pub fn change_of(made: &Result<Line, LineFault>) -> Change
    ensures { (wanted : ALine) → LineComes wanted made.now → result ≡ change_by wanted }
{
    match made {
        Ok(line) => change_of_line(line),
        Err(
            LineFault::NoBody {
                session,
                cookie,
                ..
            },
        ) => Change::Asks(LiveRequest {
            session: *session,
            cookie: *cookie,
        }),
        Err(_) => Change::Stays,
    }
}
