ghost use Rattle.std.specs.Prelude.{◌<◌, ℕ, List, Some, IfOk, IsTrue};
ghost use Rattle.qs_nbd_handshake.specs.Answers.{CanAnswer, CanAttach, CanFind, CanTell};
ghost use Rattle.qs_nbd_handshake.specs.Phases.{CanFeed, Reaches, Reader};

use crate::{HandEvent, HandStep, Handshake, Told, Want, laws};
use qs_bytes::{Bytes, Memory, Mode, Name, NameList};
use qs_nbd_wire::ExportInfo2;
use qs_status::SessionEnd;
use std::alloc::Global;
use std::process::Abort;
use std::test::Fail;

/// What a client's bytes made of a session.
#[derive(Drop)]
struct Session {
    flags: Option<u32>,
    wants: Vec<Want>,
    out: Bytes,
    mode: Option<Mode>,
    end: SessionEnd,
}

/// The only export of a server: 4096 bytes that may be written.
const DISK: ExportInfo2 = ExportInfo2 {
    size: 4096,
    writable: true,
};

/// What is told of a name: `disk` and the empty name are the export, `full` is one that has too many
/// clients.
fn look_up(name: &Option<Name>) -> Told
    ensures { CanFind name.now result }
{
    match name {
        Some(name) if name.as_slice().is_empty() || name.as_slice() == b"disk".as_slice() =>
            Told::Info(DISK),
        _ => Told::Missing,
    }
}

fn attach(name: &Option<Name>) -> Told
    ensures { CanAttach name.now result }
{
    match name {
        Some(name) if name.as_slice() == b"full".as_slice() => Told::Crowded,
        _ => look_up(name),
    }
}

/// The names of all exports.
fn names(alloc: Global) -> Result<NameList, Memory> {
    let mut names = Vec::new(alloc);
    if let Some(name) = Name::of(b"disk") {
        names.push(name)?;
    }
    Ok(NameList(names))
}

/// What is told for an answer.
fn tell(alloc: Global, want: &Want) -> Result<Told, Memory>
    ensures { IfOk result (CanTell want.now) }
{
    match want {
        Want::Nothing => Ok(Told::Nothing),
        Want::Find(name) => Ok(look_up(name)),
        Want::Attach(name) => Ok(attach(name)),
        Want::Names => Ok(Told::Names(names(alloc)?)),
    }
}

/// Answers what is wanted, and says whether the handshake goes on.
fn answer(
    alloc: Global,
    shake: &mut Handshake,
    want: Want,
    session: &mut Session,
) -> Result<bool, Memory>
    requires { (told : Told) → CanTell want told → CanAnswer shake.old.phase told }
    ensures { IfOk result (λ stays. IsTrue stays → CanFeed shake.new.phase) }
{
    session.wants.push(want)?;
    let told = tell(alloc, &want)?;
    match shake.answer(alloc, &told, &mut session.out)? {
        HandStep::Stay => Ok(true),
        HandStep::Transmit(mode) => {
            session.mode = Some(mode);
            Ok(false)
        }
        HandStep::Close(_) => Ok(false),
    }
}

/// Does what an event asks for, and says whether the handshake goes on.
fn hear(
    alloc: Global,
    shake: &mut Handshake,
    event: HandEvent,
    session: &mut Session,
) -> Result<bool, Memory>
    requires { (old : Reader) × ((bytes : List ℕ) × Reaches old bytes (Some event) shake.old) }
    ensures { IfOk result (λ stays. IsTrue stays → CanFeed shake.new.phase) }
{
    match event {
        HandEvent::Flags(flags) => {
            session.flags = Some(flags);
            Ok(true)
        }
        HandEvent::Wanted(want) => answer(alloc, shake, want, session),
        HandEvent::Bad(_) => Ok(false),
    }
}

/// Feeds the stream in pieces of `cut` bytes, and answers it.
fn serve(alloc: Global, stream: &[u8], cut: usize) -> Result<Session, Memory>
    requires { 0 < cut }
{
    let mut shake = Handshake::new(alloc)?;
    let mut session = Session {
        flags: None,
        wants: Vec::new(alloc),
        out: Bytes::of(Vec::new(alloc)),
        mode: None,
        end: SessionEnd::Memory,
    };
    let mut rest = stream;
    for _ in 0..stream.len() {
        let fed = shake.feed(&rest[..rest.len().min(cut)]);
        rest = &rest[fed.taken..];
        if let Some(event) = fed.event {
            if !hear(alloc, &mut shake, event, &mut session)? {
                break;
            }
        }
    }
    session.end = shake.at_end();
    Ok(session)
}

/// What a stream comes to.
#[derive(Clone, Copy)]
struct Row<'a> {
    name: &'a str,
    stream: &'a [u8],
    out: &'a [u8],
    end: SessionEnd,
    mode: Option<Mode>,
}

/// The row holds however its stream is cut, in single bytes too.
fn holds(rt: &impl Abort, alloc: Global, row: &Row<'_>) -> Result<(), Memory> {
    for cut in 1..row.stream.len() + 1 {
        let session = serve(alloc, row.stream, cut)?;
        assert_eq!(rt;
            session.out.as_slice(),
            row.out,
            "{} cut at {cut}",
            row.name
        );
        assert_eq!(rt; session.end, row.end, "{} cut at {cut}", row.name);
        assert_eq!(rt; session.mode, row.mode, "{} cut at {cut}", row.name);
    }
    Ok(())
}

const PLAIN: Mode = Mode {
    no_zeroes: false,
    structured: false,
};

const NO_ZEROES: Mode = Mode {
    no_zeroes: true,
    structured: false,
};

const STRUCTURED: Mode = Mode {
    no_zeroes: true,
    structured: true,
};

/// EXPORT_NAME where zeros are left out, and where there is no answer.
const NAMED: [Row<'static>; 4] = [
    Row {
        name: "without zeros",
        stream: b"\0\0\0\x03IHAVEOPT\0\0\0\x01\0\0\0\x04disk",
        out: b"\0\0\0\0\0\0\x10\0\x01\x6d",
        end: SessionEnd::Done,
        mode: Some(NO_ZEROES),
    },
    Row {
        name: "an unknown export",
        stream: b"\0\0\0\x03IHAVEOPT\0\0\0\x01\0\0\0\x03foo",
        out: b"",
        end: SessionEnd::NoExport,
        mode: None,
    },
    Row {
        name: "no UTF-8",
        stream: b"\0\0\0\x03IHAVEOPT\0\0\0\x01\0\0\0\x01\xff",
        out: b"",
        end: SessionEnd::NoExport,
        mode: None,
    },
    Row {
        name: "a crowded export",
        stream: b"\0\0\0\x03IHAVEOPT\0\0\0\x01\0\0\0\x04full",
        out: b"",
        end: SessionEnd::Crowded,
        mode: None,
    },
];

#[test]
fn zeros_end_the_answer_to_export_name(rt: HostRuntime) -> Result<(), Fail> {
    let alloc = rt.alloc();
    let mut zeros = b"\0\0\0\0\0\0\x10\0\x01\x6d".to_vec(alloc)?;
    zeros.extend_from_slice(&[0; 124])?;
    for row in [
        Row {
            name: "with zeros",
            stream: b"\0\0\0\x01IHAVEOPT\0\0\0\x01\0\0\0\x04disk",
            out: zeros.as_slice(),
            end: SessionEnd::Done,
            mode: Some(PLAIN),
        },
        Row {
            name: "without the fixed newstyle",
            stream: b"\0\0\0\0IHAVEOPT\0\0\0\x01\0\0\0\0",
            out: zeros.as_slice(),
            end: SessionEnd::Done,
            mode: Some(PLAIN),
        },
    ] {
        holds(&rt, alloc, &row)?;
    }
    Ok(())
}

#[test]
fn export_name_is_answered_without_a_reply(rt: HostRuntime) -> Result<(), Fail> {
    for row in NAMED {
        holds(&rt, rt.alloc(), &row)?;
    }
    Ok(())
}

const UNKNOWN: &[u8] = b"\x00\x03\xe8\x89\x04\x55\x65\xa9\0\0\0\x07\x80\0\0\x06\0\0\0\0";

const INVALID: &[u8] = b"\x00\x03\xe8\x89\x04\x55\x65\xa9\0\0\0\x07\x80\0\0\x03\0\0\0\0";

/// GO and INFO.
const INQUIRIES: [Row<'static>; 7] = [
    Row {
        name: "GO with block sizes",
        stream: b"\0\0\0\x03IHAVEOPT\0\0\0\x07\0\0\0\x0c\0\0\0\x04disk\0\x01\0\x03",
        out: b"\x00\x03\xe8\x89\x04\x55\x65\xa9\0\0\0\x07\0\0\0\x03\0\0\0\x0c\0\0\0\0\0\0\0\0\x10\0\x01\x6d\
            \x00\x03\xe8\x89\x04\x55\x65\xa9\0\0\0\x07\0\0\0\x03\0\0\0\x0e\0\x03\0\0\0\x01\0\0\x10\0\x02\0\0\0\
            \x00\x03\xe8\x89\x04\x55\x65\xa9\0\0\0\x07\0\0\0\x01\0\0\0\0",
        end: SessionEnd::Done,
        mode: Some(NO_ZEROES),
    },
    Row {
        name: "INFO of another information, and cut",
        stream: b"\0\0\0\x03IHAVEOPT\0\0\0\x06\0\0\0\x08\0\0\0\0\0\x01\0\x01IHAVEOPT",
        out: b"\x00\x03\xe8\x89\x04\x55\x65\xa9\0\0\0\x06\0\0\0\x03\0\0\0\x0c\0\0\0\0\0\0\0\0\x10\0\x01\x6d\
            \x00\x03\xe8\x89\x04\x55\x65\xa9\0\0\0\x06\0\0\0\x01\0\0\0\0",
        end: SessionEnd::Truncated,
        mode: None,
    },
    Row {
        name: "an unknown export, and the session goes on",
        stream: b"\0\0\0\x01IHAVEOPT\0\0\0\x07\0\0\0\x09\0\0\0\x03foo\0\0",
        out: UNKNOWN,
        end: SessionEnd::Done,
        mode: None,
    },
    Row {
        name: "a trailing byte",
        stream: b"\0\0\0\x01IHAVEOPT\0\0\0\x07\0\0\0\x0a\0\0\0\x03foo\0\0\0",
        out: INVALID,
        end: SessionEnd::Done,
        mode: None,
    },
    Row {
        name: "a name longer than the data",
        stream: b"\0\0\0\x01IHAVEOPT\0\0\0\x07\0\0\0\x0a\0\0\0\x07disk\0\0",
        out: INVALID,
        end: SessionEnd::Done,
        mode: None,
    },
    Row {
        name: "no data at all",
        stream: b"\0\0\0\x01IHAVEOPT\0\0\0\x07\0\0\0\0",
        out: INVALID,
        end: SessionEnd::Done,
        mode: None,
    },
    Row {
        name: "a crowded export",
        stream: b"\0\0\0\x01IHAVEOPT\0\0\0\x07\0\0\0\x0a\0\0\0\x04full\0\0",
        out: b"\x00\x03\xe8\x89\x04\x55\x65\xa9\0\0\0\x07\x80\0\0\x02\0\0\0\0",
        end: SessionEnd::Done,
        mode: None,
    },
];

#[test]
fn go_and_info_tell_what_the_export_is(rt: HostRuntime) -> Result<(), Fail> {
    for row in INQUIRIES {
        holds(&rt, rt.alloc(), &row)?;
    }
    Ok(())
}

/// Options that ask for no export.
const OTHERS: [Row<'static>; 6] = [
    Row {
        name: "LIST",
        stream: b"\0\0\0\x01IHAVEOPT\0\0\0\x03\0\0\0\0",
        out: b"\x00\x03\xe8\x89\x04\x55\x65\xa9\0\0\0\x03\0\0\0\x02\0\0\0\x08\0\0\0\x04disk\
            \x00\x03\xe8\x89\x04\x55\x65\xa9\0\0\0\x03\0\0\0\x01\0\0\0\0",
        end: SessionEnd::Done,
        mode: None,
    },
    Row {
        name: "LIST with data",
        stream: b"\0\0\0\x01IHAVEOPT\0\0\0\x03\0\0\0\x01x",
        out: b"\x00\x03\xe8\x89\x04\x55\x65\xa9\0\0\0\x03\x80\0\0\x03\0\0\0\0",
        end: SessionEnd::Done,
        mode: None,
    },
    Row {
        name: "structured replies, twice, and EXPORT_NAME",
        stream: b"\0\0\0\x03IHAVEOPT\0\0\0\x08\0\0\0\0IHAVEOPT\0\0\0\x08\0\0\0\0IHAVEOPT\0\0\0\x01\0\0\0\0",
        out: b"\x00\x03\xe8\x89\x04\x55\x65\xa9\0\0\0\x08\0\0\0\x01\0\0\0\0\
            \x00\x03\xe8\x89\x04\x55\x65\xa9\0\0\0\x08\0\0\0\x01\0\0\0\0\
            \0\0\0\0\0\0\x10\0\x01\xed",
        end: SessionEnd::Done,
        mode: Some(STRUCTURED),
    },
    Row {
        name: "an option that isn't known",
        stream: b"\0\0\0\x01IHAVEOPT\0\0\0\x0b\0\0\0\x01x",
        out: b"\x00\x03\xe8\x89\x04\x55\x65\xa9\0\0\0\x0b\x80\0\0\x01\0\0\0\0",
        end: SessionEnd::Done,
        mode: None,
    },
    Row {
        name: "ABORT with data, and more",
        stream: b"\0\0\0\x01IHAVEOPT\0\0\0\x02\0\0\0\x02byIHAVEOPT",
        out: b"\x00\x03\xe8\x89\x04\x55\x65\xa9\0\0\0\x02\0\0\0\x01\0\0\0\0",
        end: SessionEnd::Aborted,
        mode: None,
    },
    Row {
        name: "ABORT whose data are cut",
        stream: b"\0\0\0\x01IHAVEOPT\0\0\0\x02\0\0\0\x02b",
        out: b"",
        end: SessionEnd::Truncated,
        mode: None,
    },
];

#[test]
fn other_options(rt: HostRuntime) -> Result<(), Fail> {
    for row in OTHERS {
        holds(&rt, rt.alloc(), &row)?;
    }
    Ok(())
}

/// What is refused, or cut, before an option is whole, and how the session ends.
const REFUSALS: [(&str, &[u8], SessionEnd); 9] = [
    ("flags", b"\0\0\0\x04IHAVEOPT", SessionEnd::BadFlags(4)),
    ("a cut of the flags", b"\0\0\0", SessionEnd::Truncated),
    ("flags alone", b"\0\0\0\x01", SessionEnd::Done),
    (
        "LIST of another client",
        b"\0\0\0\0IHAVEOPT\0\0\0\x03\0\0\0\0",
        SessionEnd::NotFixed(3),
    ),
    (
        "a magic",
        b"\0\0\0\x01IHAVEOPU\0\0\0\x03\0\0\0\0",
        SessionEnd::BadMagic(0x49484156454f5055),
    ),
    (
        "a cut of such a magic",
        b"\0\0\0\x01IHAVEOPU\0\0\0\x03\0\0\0",
        SessionEnd::Truncated,
    ),
    (
        "magic before length",
        b"\0\0\0\0IHAVEOPU\0\0\0\x03\xff\0\0\0",
        SessionEnd::BadMagic(0x49484156454f5055),
    ),
    (
        "length before newstyle",
        b"\0\0\0\0IHAVEOPT\0\0\0\x03\0\x01\0\x01",
        SessionEnd::TooLong(65_537),
    ),
    (
        "the longest of another client",
        b"\0\0\0\0IHAVEOPT\0\0\0\x03\0\x01\0\0",
        SessionEnd::NotFixed(3),
    ),
];

#[test]
fn refusals_by_their_field(rt: HostRuntime) -> Result<(), Fail> {
    for (name, stream, end) in REFUSALS {
        let row = Row {
            name,
            stream,
            out: b"",
            end,
            mode: None,
        };
        holds(&rt, rt.alloc(), &row)?;
    }
    Ok(())
}

/// The stream is one option that isn't known.
fn is_unknown(rt: &impl Abort, alloc: Global, stream: &[u8], cut: usize) -> Result<(), Memory>
    requires { 0 < cut }
{
    let session = serve(alloc, stream, cut)?;
    assert_eq!(rt; session.wants.as_slice(), [Want::Nothing].as_slice());
    assert_eq!(rt; session.flags, Some(1));
    assert_eq!(rt; session.end, SessionEnd::Done);
    assert_eq!(rt;
        session.out.as_slice(),
        b"\x00\x03\xe8\x89\x04\x55\x65\xa9\0\0\0\x05\x80\0\0\x01\0\0\0\0".as_slice()
    );
    Ok(())
}

/// Bytes of data.
fn filled(alloc: Global, length: usize) -> Result<Vec<u8>, Memory> {
    Ok(vec![in alloc; 7; length]?)
}

#[test]
fn the_longest_option(rt: HostRuntime) -> Result<(), Fail> {
    let alloc = rt.alloc();
    let mut stream = b"\0\0\0\x01IHAVEOPT\0\0\0\x05\0\x01\0\0".to_vec(alloc)?;
    stream.extend_from_slice(filled(alloc, 65_536)?.as_slice())?;
    is_unknown(&rt, alloc, stream.as_slice(), 1)?;
    is_unknown(&rt, alloc, stream.as_slice(), 1000)?;
    is_unknown(&rt, alloc, stream.as_slice(), 65_556)?;
    Ok(())
}

#[test]
fn the_greeting(rt: HostRuntime) {
    assert_eq!(rt; Handshake::greeting(), *b"NBDMAGICIHAVEOPT\0\x03");
    laws::any_cutting();
    laws::one_event();
    laws::goes_on();
    laws::one_spelling();
    laws::whole_sessions();
    laws::one_reading();
    laws::one_question();
}
