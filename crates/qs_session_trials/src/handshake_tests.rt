ghost use Rattle.std.specs.Prelude.{◌+◌, ◌≤◌};

use crate::drive::greet;
use crate::station::{OwnCall, TrialCall, TrialStation};
use qs_bytes::{Bytes, Mode, Name};
use qs_handshake_phase::{HandshakeEnd, HandshakePhase};
use qs_links::{MemLink, MemWire};
use qs_outside::{MemSink, MemSource};
use qs_part::graph::Route;
use qs_request_state::Shape;
use qs_status::SessionEnd;
use qs_wire_stream::Sending;
use std::alloc::{AllocError, Global};
use std::process::Abort;
use std::sync::Wait;
use std::test::Fail;

const IMAGE: Shape = Shape {
    align: 512,
    size: 4096,
};

const WAY: Route = Route {
    offset: 0,
    size: 4096,
    writable: true,
    groups: [(0, 0); 8],
    count: 0,
};

// What a client sends (NBD proto.md, "Option haggling").
const FIXED: &[u8] = b"\0\0\0\x01";

const FIXED_SHORT: &[u8] = b"\0\0\0\x03";

const EXPORT_DISK: &[u8] = b"IHAVEOPT\0\0\0\x01\0\0\0\x04disk";

const GO_DISK: &[u8] = b"IHAVEOPT\0\0\0\x07\0\0\0\x0c\0\0\0\x04disk\0\x01\0\x03";

const GO_UNKNOWN: &[u8] = b"IHAVEOPT\0\0\0\x07\0\0\0\x09\0\0\0\x03foo\0\0";

const INFO_DISK: &[u8] = b"IHAVEOPT\0\0\0\x06\0\0\0\x0a\0\0\0\x04disk\0\0";

const LIST: &[u8] = b"IHAVEOPT\0\0\0\x03\0\0\0\0";

const STRUCTURED: &[u8] = b"IHAVEOPT\0\0\0\x08\0\0\0\0";

const ABORT: &[u8] = b"IHAVEOPT\0\0\0\x02\0\0\0\0";

// What it is sent.
const GREETING: &[u8] = b"NBDMAGICIHAVEOPT\0\x03";

const SIZE_AND_FLAGS: &[u8] = b"\0\0\0\0\0\0\x10\0\x01\x6d";

const UNKNOWN_EXPORT: &[u8] = b"\0\x03\xe8\x89\x04\x55\x65\xa9\0\0\0\x07\x80\0\0\x06\0\0\0\0";

const GO_ANSWER: &[u8] =
    b"\0\x03\xe8\x89\x04\x55\x65\xa9\0\0\0\x07\0\0\0\x03\0\0\0\x0c\0\0\0\0\0\0\0\0\x10\0\x01\x6d\
\0\x03\xe8\x89\x04\x55\x65\xa9\0\0\0\x07\0\0\0\x03\0\0\0\x0e\0\x03\0\0\0\x01\0\0\x10\0\x02\0\0\0\
\0\x03\xe8\x89\x04\x55\x65\xa9\0\0\0\x07\0\0\0\x01\0\0\0\0";

const INFO_ANSWER: &[u8] =
    b"\0\x03\xe8\x89\x04\x55\x65\xa9\0\0\0\x06\0\0\0\x03\0\0\0\x0c\0\0\0\0\0\0\0\0\x10\0\x01\x6d\
\0\x03\xe8\x89\x04\x55\x65\xa9\0\0\0\x06\0\0\0\x01\0\0\0\0";

const LIST_ENTRY: &[u8] =
    b"\0\x03\xe8\x89\x04\x55\x65\xa9\0\0\0\x03\0\0\0\x02\0\0\0\x08\0\0\0\x04disk";

const LIST_END: &[u8] = b"\0\x03\xe8\x89\x04\x55\x65\xa9\0\0\0\x03\0\0\0\x01\0\0\0\0";

const STRUCTURED_ANSWER: &[u8] = b"\0\x03\xe8\x89\x04\x55\x65\xa9\0\0\0\x08\0\0\0\x01\0\0\0\0";

const ABORT_ANSWER: &[u8] = b"\0\x03\xe8\x89\x04\x55\x65\xa9\0\0\0\x02\0\0\0\x01\0\0\0\0";

const PLAIN: HandshakeEnd = HandshakeEnd::Serves {
    mode: Mode {
        no_zeroes: false,
        structured: false,
    },
    export: 3,
};

/// A client's messages over an image whose export stands or not. Its reads are cut so; these tries find the wire not
/// ready; these reads and writes fail. The session comes to this end, was sent this, and made these calls: L for a list,
/// F for a find, A for an attach, D for a detach.
#[derive(Clone, Copy, Drop)]
struct Trial {
    name: &'static str,
    stands: bool,
    input: &'static [&'static [u8]],
    cuts: &'static [usize],
    unready: &'static [u64],
    bad_reads: &'static [u64],
    bad_writes: &'static [u64],
    end: HandshakeEnd,
    output: &'static [&'static [u8]],
    calls: &'static [u8],
}

const GOES: Trial = Trial {
    name: "GO",
    stands: true,
    input: &[FIXED, GO_DISK],
    cuts: &[],
    unready: &[],
    bad_reads: &[],
    bad_writes: &[],
    end: PLAIN,
    output: &[GREETING, GO_ANSWER],
    calls: b"A",
};

/// The pieces as one.
fn joined(alloc: Global, pieces: &[&[u8]]) -> Result<Vec<u8>, AllocError> {
    let mut all = Vec::new(alloc);
    for piece in pieces {
        all.extend_from_slice(piece)?;
    }
    Ok(all)
}

/// The letters of the calls.
fn letters(alloc: Global, kept: &[TrialCall]) -> Result<Vec<u8>, AllocError> {
    let mut letters = Vec::new(alloc);
    for call in kept {
        letters.push(match call {
            TrialCall::ForSession(OwnCall::List) => b'L',
            TrialCall::ForSession(OwnCall::Find(_)) => b'F',
            TrialCall::ForSession(OwnCall::Attach(_)) => b'A',
            TrialCall::ForSession(OwnCall::Detach(_)) => b'D',
            TrialCall::ForRequest(_, _, _) => b'R',
        })?;
    }
    Ok(letters)
}

/// A wire of these messages.
fn wire_of(alloc: Global, trial: &Trial) -> Result<MemWire<MemLink>, Fail> {
    let source = MemSource::new(
        Bytes::of(joined(alloc, trial.input)?),
        trial.cuts.to_vec(alloc)?,
        trial.bad_reads.to_vec(alloc)?,
    );
    let sink = MemSink::new(alloc, 1 << 20, trial.bad_writes.to_vec(alloc)?)?;
    Ok(MemWire::new(MemLink::new(source, sink), trial.unready.to_vec(alloc)?))
}

/// A station on which the export stands, or none.
fn station(alloc: Global, stands: Option<Name>) -> TrialStation
    ensures { result.way.offset + result.way.size ≤ 4096 }
{
    TrialStation {
        alloc,
        stands,
        way: WAY,
        busy: 0,
        kept: Vec::new(alloc),
    }
}

/// One handshake over a wire, to its end.
fn shake<R: Abort + Wait>(rt: &R, alloc: Global, trial: &Trial) -> Result<(), Fail> {
    let name = trial.name;
    let stands = if trial.stands {
        Name::of(b"disk")
    } else {
        None
    };
    let mut at = station(alloc, stands);
    let mut phase = match HandshakePhase::new(alloc, wire_of(alloc, trial)?) {
        Ok(phase) => phase,
        Err(_wire) => return Err(Fail::new("memory")),
    };
    let end = greet(rt, &IMAGE, &mut at, &mut phase);
    assert_eq!(rt; end, trial.end, "{name}");
    let mut stream = phase.into_stream();
    if matches!(end, HandshakeEnd::Serves { .. }) {
        assert_eq!(rt; stream.write(), Sending::Written, "{name}");
    }
    let wire = stream.into_wire();
    let output = joined(alloc, trial.output)?;
    assert_eq!(rt; wire.link().sent(), output.as_slice(), "{name}");
    let calls = letters(alloc, at.kept.as_slice())?;
    assert_eq!(rt; calls.as_slice(), trial.calls, "{name}");
    Ok(())
}

#[test]
fn handshakes_end_as_they_should(rt: HostRuntime) -> Result<(), Fail> {
    let trials = [
        GOES,
        Trial {
            name: "cut in pieces",
            cuts: &[1, 2, 1, 1, 7, 8, 3, 2],
            ..GOES
        },
        Trial {
            name: "not ready at tries 0, 1 and 3",
            cuts: &[4, 1, 15],
            unready: &[0, 1, 3],
            ..GOES
        },
        Trial {
            name: "EXPORT_NAME",
            input: &[FIXED, EXPORT_DISK],
            output: &[GREETING, SIZE_AND_FLAGS, &[0; 124]],
            ..GOES
        },
        Trial {
            name: "EXPORT_NAME without zeroes",
            input: &[FIXED_SHORT, EXPORT_DISK],
            output: &[GREETING, SIZE_AND_FLAGS],
            end: HandshakeEnd::Serves {
                mode: Mode {
                    no_zeroes: true,
                    structured: false,
                },
                export: 3,
            },
            ..GOES
        },
        Trial {
            name: "EXPORT_NAME of no export",
            stands: false,
            input: &[FIXED, EXPORT_DISK],
            output: &[GREETING],
            end: HandshakeEnd::Closed(SessionEnd::NoExport),
            ..GOES
        },
        Trial {
            name: "GO to no export",
            stands: false,
            input: &[FIXED, GO_UNKNOWN, ABORT],
            output: &[GREETING, UNKNOWN_EXPORT, ABORT_ANSWER],
            end: HandshakeEnd::Closed(SessionEnd::Aborted),
            ..GOES
        },
        Trial {
            name: "INFO and LIST",
            input: &[FIXED, INFO_DISK, LIST],
            output: &[GREETING, INFO_ANSWER, LIST_ENTRY, LIST_END],
            end: HandshakeEnd::Closed(SessionEnd::Done),
            calls: b"FL",
            ..GOES
        },
        Trial {
            name: "LIST without exports",
            stands: false,
            input: &[FIXED, LIST, STRUCTURED],
            output: &[GREETING, LIST_END, STRUCTURED_ANSWER],
            end: HandshakeEnd::Closed(SessionEnd::Done),
            calls: b"L",
            ..GOES
        },
        Trial {
            name: "unknown flags",
            input: &[b"\0\0\0\x04"],
            output: &[GREETING],
            end: HandshakeEnd::Closed(SessionEnd::BadFlags(4)),
            calls: b"",
            ..GOES
        },
        Trial {
            name: "an option that isn't of the old newstyle",
            input: &[b"\0\0\0\0", LIST],
            output: &[GREETING],
            end: HandshakeEnd::Closed(SessionEnd::NotFixed(3)),
            calls: b"",
            ..GOES
        },
        Trial {
            name: "the client leaves within an option",
            input: &[FIXED, LIST, b"IHAVE"],
            output: &[GREETING, LIST_ENTRY, LIST_END],
            end: HandshakeEnd::Closed(SessionEnd::Truncated),
            calls: b"L",
            ..GOES
        },
        Trial {
            name: "nothing comes",
            input: &[],
            output: &[GREETING],
            end: HandshakeEnd::Closed(SessionEnd::Done),
            calls: b"",
            ..GOES
        },
        Trial {
            name: "read 0 fails",
            bad_reads: &[0],
            output: &[GREETING],
            end: HandshakeEnd::Closed(SessionEnd::LinkFault),
            calls: b"",
            ..GOES
        },
        Trial {
            name: "write 0 fails",
            bad_writes: &[0],
            output: &[],
            end: HandshakeEnd::Closed(SessionEnd::LinkFault),
            calls: b"",
            ..GOES
        },
        Trial {
            name: "an answer can't be written",
            input: &[FIXED, LIST, LIST],
            bad_writes: &[1],
            output: &[GREETING],
            end: HandshakeEnd::Closed(SessionEnd::LinkFault),
            calls: b"L",
            ..GOES
        },
    ];
    for trial in &trials {
        shake(&rt, rt.alloc(), trial)?;
    }
    Ok(())
}
