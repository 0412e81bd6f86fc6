ghost use Rattle.std.specs.Prelude.{◌≡◌, ◌+◌, ◌≤◌, false, IfOk};

use crate::drive::drive;
use crate::station::{OwnCall, TrialCall, TrialStation};
use qs_bytes::{Bytes, Mode};
use qs_links::{MemLink, MemWire};
use qs_outside::{MemClock, MemSink, MemSource};
use qs_part::graph::Route;
use qs_request_state::Shape;
use qs_serving::{Awaited, SessionTurn};
use qs_status::SessionEnd;
use qs_task::Need;
use qs_transmission_phase::TransmissionPhase;
use qs_wire_stream::{PatientLink, WireStream};
use std::alloc::{AllocError, Global};
use std::process::Abort;
use std::sync::Wait;
use std::test::Fail;

const IMAGE: Shape = Shape {
    align: 512,
    size: 4096,
};

const WAY: Route = Route {
    offset: 0,
    size: 4096,
    writable: true,
    groups: [(0, 0); 8],
    count: 0,
};

const PLAIN: Mode = Mode {
    no_zeroes: false,
    structured: false,
};

const EXPORT: u8 = 3;

type TestWire = MemWire<MemLink>;

/// A link of these bytes, whose reads are cut so, and whose reads and writes with these numbers fail.
fn link_of(
    alloc: Global,
    input: &[u8],
    cuts: &[usize],
    bad_reads: &[u64],
    bad_writes: &[u64],
) -> Result<MemLink, Fail> {
    let source = MemSource::new(
        Bytes::of(input.to_vec(alloc)?),
        cuts.to_vec(alloc)?,
        bad_reads.to_vec(alloc)?,
    );
    let sink = MemSink::new(alloc, 1 << 20, bad_writes.to_vec(alloc)?)?;
    Ok(MemLink::new(source, sink))
}

/// The phase over this wire.
fn phase_of<W>(rt: &impl Abort, alloc: Global, wire: W) -> TransmissionPhase<W>
    ensures shape { result.value.crew.shape ≡ record { align = 512; size = 4096 } }
    ensures there { result.value.detached ≡ false }
{
    let stream = match WireStream::new(alloc, wire) {
        Ok(stream) => stream,
        Err(_wire) => {
            assert!(rt; false, "memory");
            unreachable!()
        }
    };
    match TransmissionPhase::new(alloc, PLAIN, stream, EXPORT, IMAGE) {
        Ok(phase) => phase,
        Err(_stream) => {
            assert!(rt; false, "memory");
            unreachable!()
        }
    }
}

/// A station where so many tries to start have to wait.
fn station(alloc: Global, busy: u64) -> TrialStation
    ensures { result.way.offset + result.way.size ≤ 4096 }
{
    TrialStation {
        alloc,
        stands: None,
        way: WAY,
        busy,
        kept: Vec::new(alloc),
    }
}

/// Adds the head of a request (NBD proto.md, "Request message").
fn push_head(
    input: &mut Vec<u8>,
    kind: u16,
    cookie: u64,
    offset: u64,
    length: u32,
) -> Result<(), AllocError> {
    input.extend_from_slice(b"\x25\x60\x95\x13\0\0")?;
    input.extend_from_slice(&kind.to_be_bytes())?;
    input.extend_from_slice(&cookie.to_be_bytes())?;
    input.extend_from_slice(&offset.to_be_bytes())?;
    input.extend_from_slice(&length.to_be_bytes())
}

/// Adds a simple reply without an error, before its data.
fn push_fine(output: &mut Vec<u8>, cookie: u64) -> Result<(), AllocError> {
    output.extend_from_slice(b"\x67\x44\x66\x98\0\0\0\0")?;
    output.extend_from_slice(&cookie.to_be_bytes())
}

/// READ of 512 bytes, WRITE of as many, FLUSH and DISC.
fn four_requests(alloc: Global) -> Result<Vec<u8>, AllocError> {
    let mut input = Vec::new(alloc);
    push_head(&mut input, 0, 11, 0, 512)?;
    push_head(&mut input, 1, 12, 512, 512)?;
    input.extend_from_slice(&[7; 512])?;
    push_head(&mut input, 3, 13, 0, 0)?;
    push_head(&mut input, 2, 14, 0, 0)?;
    Ok(input)
}

/// The replies to these of them, in this order: the image is all zeroes.
fn replies_to(alloc: Global, cookies: &[u64]) -> Result<Vec<u8>, AllocError> {
    let mut output = Vec::new(alloc);
    for cookie in cookies {
        push_fine(&mut output, *cookie)?;
        if *cookie == 11 {
            output.extend_from_slice(&[0; 512])?;
        }
    }
    Ok(output)
}

/// The session left its export as its last call, and once.
fn left_last(kept: &[TrialCall]) -> bool {
    let mut count = 0_usize;
    for call in kept {
        match call {
            TrialCall::ForSession(OwnCall::Detach(EXPORT)) => {
                count = count.saturating_add(1);
            }
            _ => {}
        }
    }
    let is_last = match kept.last() {
        Some(call) => matches!(call, TrialCall::ForSession(_)),
        None => false,
    };
    count == 1 && is_last
}

/// A session of which the client sends so many bytes of its four requests. Its reads are cut so; these tries find the
/// wire not ready; these reads and these writes fail; and so many of the first tries to start have to wait. It ends so,
/// and the client has the replies to these requests.
#[derive(Clone, Copy, Drop)]
struct Trial {
    name: &'static str,
    count: usize,
    cuts: &'static [usize],
    unready: &'static [u64],
    bad_reads: &'static [u64],
    bad_writes: &'static [u64],
    busy: u64,
    end: SessionEnd,
    replies: &'static [u64],
}

/// A head, a head and its data, and two heads.
const PIECES: &[usize] = &[28, 28, 512, 28, 28];

const WHOLE: Trial = Trial {
    name: "whole",
    count: 624,
    cuts: &[],
    unready: &[],
    bad_reads: &[],
    bad_writes: &[],
    busy: 0,
    end: SessionEnd::Done,
    replies: &[11, 12, 13],
};

/// One session over a wire, to its end.
fn serve<R: Abort + Wait>(rt: &R, alloc: Global, input: &[u8], trial: &Trial) -> Result<(), Fail> {
    let name = trial.name;
    let sent = input.get(..trial.count).unwrap_or(input);
    let link = link_of(alloc, sent, trial.cuts, trial.bad_reads, trial.bad_writes)?;
    let wire = MemWire::new(link, trial.unready.to_vec(alloc)?);
    let mut phase = phase_of(rt, alloc, wire);
    let mut at = station(alloc, trial.busy);
    let clock = MemClock::new(0);
    let end = drive(rt, &IMAGE, &mut at, &clock, &mut phase);
    assert_eq!(rt; end, trial.end, "{name}");
    let wire: TestWire = phase.into_stream().into_wire();
    let replies = replies_to(alloc, trial.replies)?;
    assert_eq!(rt; wire.link().sent(), replies.as_slice(), "{name}");
    assert!(rt; left_last(at.kept.as_slice()), "{name}");
    Ok(())
}

#[test]
fn sessions_end_as_they_should(rt: HostRuntime) -> Result<(), Fail> {
    let alloc = rt.alloc();
    let input = four_requests(alloc)?;
    let trials = [
        WHOLE,
        Trial {
            name: "cut in pieces",
            cuts: &[1, 1, 1, 27, 28, 511, 2],
            ..WHOLE
        },
        Trial {
            name: "not ready at tries 0, 1 and 3",
            cuts: &[20, 30, 1, 13, 500],
            unready: &[0, 1, 3],
            ..WHOLE
        },
        Trial {
            name: "not ready for a read, and then for a write",
            cuts: &[28],
            unready: &[1, 2],
            ..WHOLE
        },
        Trial {
            name: "read 0 fails",
            cuts: PIECES,
            bad_reads: &[0],
            end: SessionEnd::LinkFault,
            replies: &[],
            ..WHOLE
        },
        Trial {
            name: "read 1 fails",
            cuts: PIECES,
            bad_reads: &[1],
            end: SessionEnd::LinkFault,
            replies: &[],
            ..WHOLE
        },
        Trial {
            name: "read 2 fails",
            cuts: PIECES,
            bad_reads: &[2],
            end: SessionEnd::LinkFault,
            replies: &[],
            ..WHOLE
        },
        Trial {
            name: "read 3 fails",
            cuts: PIECES,
            bad_reads: &[3],
            end: SessionEnd::LinkFault,
            replies: &[],
            ..WHOLE
        },
        Trial {
            name: "read 4 fails",
            cuts: PIECES,
            bad_reads: &[4],
            end: SessionEnd::LinkFault,
            replies: &[],
            ..WHOLE
        },
        Trial {
            name: "a read fails behind a reply",
            cuts: PIECES,
            unready: &[1],
            bad_reads: &[1],
            end: SessionEnd::LinkFault,
            replies: &[11],
            ..WHOLE
        },
        Trial {
            name: "write 0 fails",
            cuts: PIECES,
            unready: &[1],
            bad_writes: &[0],
            end: SessionEnd::LinkFault,
            replies: &[],
            ..WHOLE
        },
        Trial {
            name: "write 1 fails",
            cuts: PIECES,
            unready: &[1],
            bad_writes: &[1],
            end: SessionEnd::LinkFault,
            replies: &[11],
            ..WHOLE
        },
        Trial {
            name: "nothing comes",
            count: 0,
            replies: &[],
            ..WHOLE
        },
        Trial {
            name: "the client leaves within a head",
            count: 27,
            end: SessionEnd::Truncated,
            replies: &[],
            ..WHOLE
        },
        Trial {
            name: "the client leaves within the data of a WRITE",
            count: 300,
            end: SessionEnd::Truncated,
            replies: &[],
            ..WHOLE
        },
        Trial {
            name: "the client leaves so behind a reply",
            count: 300,
            cuts: &[28],
            unready: &[1],
            end: SessionEnd::Truncated,
            replies: &[11],
            ..WHOLE
        },
        Trial {
            name: "the client leaves between requests",
            count: 568,
            replies: &[11, 12],
            ..WHOLE
        },
        Trial {
            name: "requests are live at the DISC",
            busy: 2,
            replies: &[13, 11, 12],
            ..WHOLE
        },
    ];
    for trial in &trials {
        serve(&rt, alloc, input.as_slice(), trial)?;
    }
    Ok(())
}

/// What is no request is refused, and the session leaves its export.
#[test]
fn another_magic_is_refused(rt: HostRuntime) -> Result<(), Fail> {
    let trial = Trial {
        name: "another magic",
        end: SessionEnd::BadMagic(0x25609514),
        replies: &[],
        ..WHOLE
    };
    serve(&rt, rt.alloc(), b"\x25\x60\x95\x14\0", &trial)
}

/// Sixteen are live while each waits for an earlier one, and the seventeenth is read once one is answered.
#[test]
fn sixteen_requests_are_live(rt: HostRuntime) -> Result<(), Fail> {
    let alloc = rt.alloc();
    let mut input = Vec::new(alloc);
    let mut output = Vec::new(alloc);
    for cookie in 0..17_u64 {
        push_head(&mut input, 1, cookie, 0, 1)?;
        input.extend_from_slice(&[9])?;
        push_fine(&mut output, cookie)?;
    }
    push_head(&mut input, 2, 0, 0, 0)?;
    let link = link_of(alloc, input.as_slice(), &[], &[], &[])?;
    let mut phase = phase_of(&rt, alloc, MemWire::new(link, Vec::new(alloc)));
    let mut at = station(alloc, 32);
    let clock = MemClock::new(0);
    let waits = SessionTurn::Pending(Awaited::Part(Need::Tracker));
    assert_eq!(rt; phase.turn(&rt, &IMAGE, &mut at, &clock), waits);
    assert_eq!(rt; phase.live(), 16);
    assert_eq!(rt;
        drive(&rt, &IMAGE, &mut at, &clock, &mut phase),
        SessionEnd::Done
    );
    let wire: TestWire = phase.into_stream().into_wire();
    assert_eq!(rt; wire.link().sent(), output.as_slice());
    assert!(rt; left_last(at.kept.as_slice()));
    Ok(())
}

/// Over a link that waits, the same.
#[test]
fn a_link_that_waits_is_served(rt: HostRuntime) -> Result<(), Fail> {
    let alloc = rt.alloc();
    let link = link_of(alloc, four_requests(alloc)?.as_slice(), &[20, 30], &[], &[])?;
    let mut phase = phase_of(&rt, alloc, PatientLink::new(link));
    let mut at = station(alloc, 3);
    let clock = MemClock::new(0);
    assert_eq!(rt; phase.serve(&rt, &IMAGE, &mut at, &clock), SessionEnd::Done);
    let wire = phase.into_stream().into_wire();
    assert_eq!(rt;
        wire.link().sent(),
        replies_to(alloc, &[11, 12, 13])?.as_slice()
    );
    assert!(rt; left_last(at.kept.as_slice()));
    Ok(())
}
