ghost use Rattle.std.specs.Prelude.{◌≡◌, ◌<◌, IfSome, find, nat_lt};
ghost use Rattle.qs_generate.specs.Lives.{actor_of, attach_line as the_line};

use crate::request::session_name;
use qs_bytes::Name;
use qs_script::{Line, ScriptActor, SessionName};

/// A request that isn't answered yet.
#[derive(Clone, Copy, Debug, PartialEq, Eq)]
pub struct LiveRequest {
    pub session: SessionName,
    pub cookie: u64,
}

impl LiveRequest {
    /// The request as a script's lines name it.
    pub fn actor(&self) -> ScriptActor
        ensures { result ≡ actor_of self.now }
    {
        ScriptActor::Request(self.session, self.cookie)
    }
}

/// What a made-up run does next.
#[derive(Clone, Copy, Debug, PartialEq, Eq)]
pub enum NextMove {
    /// A session is made, counted from 0.
    Attach(u64),
    /// A round's request is made.
    Ask(u64),
    /// A round has so many steps left.
    Step { round: u64, left: u64 },
    /// In this pass behind a round, counted from 1, the requests up to this cookie were run.
    Run { round: u64, pass: u64, done: u64 },
}

/// The line that makes a session on `disk`.
pub fn session_line(session: u64) -> Line
    requires { session < 4 }
    ensures { result ≡ the_line session }
{
    match Name::of(b"disk") {
        Some(export) => Line::Session {
            session: session_name(session),
            export,
        },
        None => unreachable!(),
    }
}

/// The first request whose cookie is above `done`.
pub fn first_left(live: &[LiveRequest], done: u64) -> Option<LiveRequest>
    ensures first { result ≡ find (λ r. nat_lt done r.cookie) live.now }
    ensures above { IfSome result (λ r. done < r.cookie) }
{
    live.iter().copied().find(|request| request.cookie > done)
}
