use crate::actor::ScriptActor;
use crate::session_name::SessionName;
use qs_bytes::{Bytes, Name};
use qs_outside::{CrashChoice, Fail};

/// A line of a script. Offsets and lengths are bytes, readings are nanoseconds.
#[derive(Debug, Drop)]
pub enum Line {
    /// An empty line or a comment.
    Nothing,
    /// `session S EXPORT`
    Session {
        session: SessionName,
        export: Name,
    },
    /// `end S`
    End {
        session: SessionName,
    },
    /// `read S C OFFSET LENGTH`
    Read {
        session: SessionName,
        cookie: u64,
        offset: u64,
        length: u64,
    },
    /// `write S C OFFSET BYTES [fua]`
    Write {
        session: SessionName,
        cookie: u64,
        offset: u64,
        body: Bytes,
        fua: bool,
    },
    /// `zero S C OFFSET LENGTH [fua]`
    Zero {
        session: SessionName,
        cookie: u64,
        offset: u64,
        length: u64,
        fua: bool,
    },
    /// `trim S C OFFSET LENGTH`
    Trim {
        session: SessionName,
        cookie: u64,
        offset: u64,
        length: u64,
    },
    /// `flush S C`
    Flush {
        session: SessionName,
        cookie: u64,
    },
    /// `step ACTOR [READING]`
    Step {
        actor: ScriptActor,
        now: u64,
    },
    /// `run ACTOR [READING]`
    Run {
        actor: ScriptActor,
        now: u64,
    },
    /// `fail STRIPE KIND`
    Fail {
        stripe: u64,
        kind: Fail,
    },
    /// `crash N [B=N]...`
    Crash(CrashChoice),
}

/// Why a text isn't read as a line.
#[derive(Clone, Copy, Debug, PartialEq, Eq)]
pub enum LineFault {
    /// It spells none.
    OutOfForm,
    /// It spells a WRITE of so many bytes, for which memory was refused.
    NoBody {
        session: SessionName,
        cookie: u64,
        offset: u64,
        length: u64,
        fua: bool,
    },
    /// It spells a crash, for whose pairs memory was refused.
    NoPicks,
}
