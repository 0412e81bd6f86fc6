use crate::{Opened, open_session, whole_handshakes};
use qs_bytes::{Bytes, Memory, Mode};
use qs_calls::open_core;
use qs_outside::{Failed, MemSink, MemSource, QuietDisk};
use qs_status::{SessionEnd, Status};
use qs_stream::Stream;
use std::alloc::Global;
use std::test::Fail;

const GREETING: &[u8] = b"NBDMAGICIHAVEOPT\0\x03";

const FIXED: &[u8] = b"\0\0\0\x01";

const FIXED_SHORT: &[u8] = b"\0\0\0\x03";

const EXPORT_DISK: &[u8] = b"IHAVEOPT\0\0\0\x01\0\0\0\x04disk";

const GO_UNKNOWN: &[u8] = b"IHAVEOPT\0\0\0\x07\0\0\0\x09\0\0\0\x03foo\0\0";

const GO_DISK: &[u8] = b"IHAVEOPT\0\0\0\x07\0\0\0\x0c\0\0\0\x04disk\0\x01\0\x03";

const INFO_DISK: &[u8] = b"IHAVEOPT\0\0\0\x06\0\0\0\x0a\0\0\0\x04disk\0\0";

const LIST: &[u8] = b"IHAVEOPT\0\0\0\x03\0\0\0\0";

const STRUCTURED: &[u8] = b"IHAVEOPT\0\0\0\x08\0\0\0\0";

const ABORT: &[u8] = b"IHAVEOPT\0\0\0\x02\0\0\0\0";

const SIZE_AND_FLAGS: &[u8] = b"\0\0\0\0\0\0\x10\0\x01\x6d";

const UNKNOWN_EXPORT: &[u8] = b"\0\x03\xe8\x89\x04\x55\x65\xa9\0\0\0\x07\x80\0\0\x06\0\0\0\0";

const GO_ANSWER: &[u8] =
    b"\0\x03\xe8\x89\x04\x55\x65\xa9\0\0\0\x07\0\0\0\x03\0\0\0\x0c\0\0\0\0\0\0\0\0\x10\0\x01\x6d\
\0\x03\xe8\x89\x04\x55\x65\xa9\0\0\0\x07\0\0\0\x03\0\0\0\x0e\0\x03\0\0\0\x01\0\0\x10\0\x02\0\0\0\
\0\x03\xe8\x89\x04\x55\x65\xa9\0\0\0\x07\0\0\0\x01\0\0\0\0";

const INFO_ANSWER: &[u8] =
    b"\0\x03\xe8\x89\x04\x55\x65\xa9\0\0\0\x06\0\0\0\x03\0\0\0\x0c\0\0\0\0\0\0\0\0\x10\0\x01\x6d\
\0\x03\xe8\x89\x04\x55\x65\xa9\0\0\0\x06\0\0\0\x01\0\0\0\0";

const LIST_ANSWER: &[u8] =
    b"\0\x03\xe8\x89\x04\x55\x65\xa9\0\0\0\x03\0\0\0\x02\0\0\0\x08\0\0\0\x04disk\
\0\x03\xe8\x89\x04\x55\x65\xa9\0\0\0\x03\0\0\0\x01\0\0\0\0";

const STRUCTURED_ANSWER: &[u8] = b"\0\x03\xe8\x89\x04\x55\x65\xa9\0\0\0\x08\0\0\0\x01\0\0\0\0";

const ABORT_ANSWER: &[u8] = b"\0\x03\xe8\x89\x04\x55\x65\xa9\0\0\0\x02\0\0\0\x01\0\0\0\0";

/// Messages of a client, what is sent behind the greeting, and how the handshake ends.
type Row = (&'static [&'static [u8]], &'static [&'static [u8]], Opened);

const ROWS: [Row; 13] = [
    (
        &[FIXED, EXPORT_DISK],
        &[SIZE_AND_FLAGS, &[0; 124]],
        Opened::Transmit(Mode {
            no_zeroes: false,
            structured: false,
        }),
    ),
    (
        &[FIXED_SHORT, EXPORT_DISK],
        &[SIZE_AND_FLAGS],
        Opened::Transmit(Mode {
            no_zeroes: true,
            structured: false,
        }),
    ),
    (
        &[FIXED, GO_UNKNOWN, GO_DISK],
        &[UNKNOWN_EXPORT, GO_ANSWER],
        Opened::Transmit(Mode {
            no_zeroes: false,
            structured: false,
        }),
    ),
    (
        &[FIXED, INFO_DISK, ABORT],
        &[INFO_ANSWER, ABORT_ANSWER],
        Opened::Ends(Status::Ended(SessionEnd::Aborted)),
    ),
    (&[FIXED, LIST], &[LIST_ANSWER], Opened::Ends(Status::Done)),
    (
        &[FIXED, STRUCTURED],
        &[STRUCTURED_ANSWER],
        Opened::Ends(Status::Done),
    ),
    (
        &[b"\0\0\0\x04"],
        &[],
        Opened::Ends(Status::Ended(SessionEnd::BadFlags(4))),
    ),
    (
        &[b"\0\0\0\0", LIST],
        &[],
        Opened::Ends(Status::Ended(SessionEnd::NotFixed(3))),
    ),
    (
        &[FIXED, b"IHAVEOPU\0\0\0\x03\0\0\0\0"],
        &[],
        Opened::Ends(Status::Ended(SessionEnd::BadMagic(0x49484156454f5055))),
    ),
    (
        &[FIXED, b"IHAVEOPT\0\0\0\x03\0\x01\0\x01"],
        &[],
        Opened::Ends(Status::Ended(SessionEnd::TooLong(65_537))),
    ),
    (
        &[FIXED, b"IHAVEOPT\0\0\0\x01\0\0\0\x03foo"],
        &[],
        Opened::Ends(Status::Ended(SessionEnd::NoExport)),
    ),
    (
        &[FIXED, LIST, b"IHAVE"],
        &[LIST_ANSWER],
        Opened::Ends(Status::Ended(SessionEnd::Truncated)),
    ),
    (&[], &[], Opened::Ends(Status::Done)),
];

/// The pieces in one.
fn joined(alloc: Global, first: &[u8], pieces: &[&[u8]]) -> Result<Vec<u8>, Memory> {
    let mut whole = Vec::from_slice(alloc, first)?;
    for piece in pieces {
        whole.extend_from_slice(piece)?;
    }
    Ok(whole)
}

/// Eight disks of an image of 4,096 zero bytes.
fn disks(alloc: Global) -> Result<Vec<QuietDisk>, Memory> {
    let mut disks = Vec::new(alloc);
    for stripe in 0..8 {
        disks.push(QuietDisk::new(alloc, stripe, 512, 4096)?)?;
    }
    Ok(disks)
}

/// Opens a session by reads of at most `cut` bytes; how that ended, what was sent, and what waits.
fn open(
    alloc: Global,
    input: Vec<u8>,
    cut: usize,
) -> Result<(Result<Opened, Failed>, Vec<u8>, usize), Memory> {
    let mut cuts = Vec::new(alloc);
    cuts.resize(input.len(), cut)?;
    let mut source = MemSource::new(Bytes::of(input), cuts, Vec::new(alloc));
    let mut sink = MemSink::new(alloc, 1 << 12, Vec::new(alloc))?;
    let mut stream = Stream::new(alloc)?;
    let Ok(mut world) = open_core(alloc, disks(alloc)?, false) else {
        return Err(Memory);
    };
    let opened = open_session(alloc, &mut world, 0, 8, &mut stream, &mut source, &mut sink);
    let _ = stream.flush(&mut sink);
    Ok((
        opened,
        Vec::from_slice(alloc, sink.sent())?,
        stream.waiting().len(),
    ))
}

#[test]
fn each_client_is_answered_however_it_is_cut(rt: HostRuntime) -> Result<(), Fail> {
    let alloc = rt.alloc();
    whole_handshakes::<QuietDisk>();
    for (messages, answers, opened) in ROWS {
        for cut in [1, 65_536] {
            let (told, sent, waiting) = open(alloc, joined(alloc, &[], messages)?, cut)?;
            assert_eq!(rt; told, Ok(opened));
            assert_eq!(rt;
                sent.as_slice(),
                joined(alloc, GREETING, answers)?.as_slice()
            );
            assert_eq!(rt; waiting, 0);
        }
    }
    Ok(())
}

/// What follows the option that opens the session waits for its requests.
#[test]
fn requests_wait(rt: HostRuntime) -> Result<(), Fail> {
    let alloc = rt.alloc();
    let input = joined(alloc, FIXED, &[GO_DISK, b"request"])?;
    let (told, _, waiting) = open(alloc, input, 65_536)?;
    assert_eq!(rt;
        told,
        Ok(Opened::Transmit(Mode {
            no_zeroes: false,
            structured: false
        }))
    );
    assert_eq!(rt; waiting, 7);
    Ok(())
}
