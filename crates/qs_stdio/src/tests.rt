use crate::plain::{Request, front, plain_service};
use crate::{run_stdio, serve_stream};
use qs_bytes::{Bytes, Memory};
use qs_calls::open_core;
use qs_outside::{
    CrashChoice, Fail, MemClock, MemDisk, MemSink, MemSource, Picks, QuietDisk, RiggedDisk,
};
use qs_status::{OpenBad, SessionEnd, Status};
use std::alloc::Global;
use std::test::Fail as Failure;

/// A WRITE of 512 bytes 11 at 0 with cookie 1, a READ of them with cookie 2, and a DISC with cookie 3.
const WRITE: [u8; 28] = *b"\x25\x60\x95\x13\0\0\0\x01\0\0\0\0\0\0\0\x01\0\0\0\0\0\0\0\0\0\0\x02\0";

const READ: [u8; 28] = *b"\x25\x60\x95\x13\0\0\0\0\0\0\0\0\0\0\0\x02\0\0\0\0\0\0\0\0\0\0\x02\0";

const DISC: [u8; 28] = *b"\x25\x60\x95\x13\0\0\0\x02\0\0\0\0\0\0\0\x03\0\0\0\0\0\0\0\0\0\0\0\0";

/// Their replies, the second without its data.
const WRITTEN: [u8; 16] = *b"\x67\x44\x66\x98\0\0\0\0\0\0\0\0\0\0\0\x01";

const READ_BACK: [u8; 16] = *b"\x67\x44\x66\x98\0\0\0\0\0\0\0\0\0\0\0\x02";

/// A WRITE of 33,554,433 bytes.
const TOO_LONG: [u8; 28] =
    *b"\x25\x60\x95\x13\0\0\0\x01\0\0\0\0\0\0\0\x06\0\0\0\0\0\0\0\0\x02\0\0\x01";

/// The worked input, without its DISC.
fn write_and_read(alloc: Global) -> Result<Vec<u8>, Memory> {
    let mut input = Vec::from_slice(alloc, &WRITE)?;
    input.extend_from_slice(&[0x11; 512])?;
    input.extend_from_slice(&READ)?;
    Ok(input)
}

/// The worked input with its DISC, and its replies.
fn worked(alloc: Global) -> Result<(Vec<u8>, Vec<u8>), Memory> {
    let mut input = write_and_read(alloc)?;
    input.extend_from_slice(&DISC)?;
    let mut replies = Vec::from_slice(alloc, &WRITTEN)?;
    replies.extend_from_slice(&READ_BACK)?;
    replies.extend_from_slice(&[0x11; 512])?;
    Ok((input, replies))
}

fn disks_of(alloc: Global, count: u8, align: u32, length: u64) -> Result<Vec<QuietDisk>, Memory> {
    let mut disks = Vec::new(alloc);
    if align == 0 {
        return Ok(disks);
    }
    for stripe in 0..count {
        disks.push(QuietDisk::new(alloc, stripe, align, length)?)?;
    }
    Ok(disks)
}

const GOOD: &[&str] = &["--transmission", "disk.img"];

/// A run over an image of so many zero bytes, with reads of at most `cut` bytes; what was written, and
/// how it ended.
fn run(alloc: Global, length: u64, input: &[u8], cut: usize) -> Result<(Status, Vec<u8>), Memory> {
    let mut cuts = Vec::new(alloc);
    cuts.resize(input.len(), cut)?;
    let mut source = MemSource::new(
        Bytes::of(Vec::from_slice(alloc, input)?),
        cuts,
        Vec::new(alloc),
    );
    let mut sink = MemSink::new(alloc, 1 << 18, Vec::new(alloc))?;
    let status = run_words(alloc, GOOD, &mut source, &mut sink, 8, length)?;
    Ok((status, Vec::from_slice(alloc, sink.sent())?))
}

fn words_of(alloc: Global, words: &[&str]) -> Result<Vec<String>, Memory> {
    let mut texts = Vec::new(alloc);
    for word in words {
        texts.push(String::from_str(alloc, word)?)?;
    }
    Ok(texts)
}

fn run_words(
    alloc: Global,
    words: &[&str],
    source: &mut MemSource,
    sink: &mut MemSink,
    count: u8,
    length: u64,
) -> Result<Status, Memory> {
    let texts = words_of(alloc, words)?;
    let mut disks = disks_of(alloc, count, 512, length)?;
    Ok(run_stdio(
        alloc,
        texts.as_slice(),
        source,
        sink,
        &mut disks,
        &MemClock::new(0),
    ))
}

/// A client's flags, and GO to the export `disk`; with STRUCTURED_REPLY before it.
const GOES: &[u8] = b"\0\0\0\x03IHAVEOPT\0\0\0\x07\0\0\0\x0a\0\0\0\x04disk\0\0";

const GOES_STRUCTURED: &[u8] = b"\0\0\0\x03IHAVEOPT\0\0\0\x08\0\0\0\0\
IHAVEOPT\0\0\0\x07\0\0\0\x0a\0\0\0\x04disk\0\0";

/// INFO, GO to an unknown name, STRUCTURED_REPLY, LIST, and GO to the empty name.
const ASKS: &[u8] = b"\0\0\0\x03IHAVEOPT\0\0\0\x06\0\0\0\x0a\0\0\0\x04disk\0\0\
IHAVEOPT\0\0\0\x07\0\0\0\x09\0\0\0\x03foo\0\0IHAVEOPT\0\0\0\x08\0\0\0\0\
IHAVEOPT\0\0\0\x03\0\0\0\0IHAVEOPT\0\0\0\x07\0\0\0\x06\0\0\0\0\0\0";

/// The greeting and the answers to them, over an image of 4,096 bytes, and what stands before the bytes of
/// the second request, a READ.
const GONE: &[u8] =
    b"NBDMAGICIHAVEOPT\0\x03\0\x03\xe8\x89\x04\x55\x65\xa9\0\0\0\x07\0\0\0\x03\0\0\0\x0c\
\0\0\0\0\0\0\0\0\x10\0\x01\x6d\0\x03\xe8\x89\x04\x55\x65\xa9\0\0\0\x07\0\0\0\x01\0\0\0\0";

const GONE_STRUCTURED: &[u8] =
    b"NBDMAGICIHAVEOPT\0\x03\0\x03\xe8\x89\x04\x55\x65\xa9\0\0\0\x08\0\0\0\x01\0\0\0\0\
\0\x03\xe8\x89\x04\x55\x65\xa9\0\0\0\x07\0\0\0\x03\0\0\0\x0c\0\0\0\0\0\0\0\0\x10\0\x01\xed\
\0\x03\xe8\x89\x04\x55\x65\xa9\0\0\0\x07\0\0\0\x01\0\0\0\0";

const ASKED: &[u8] =
    b"NBDMAGICIHAVEOPT\0\x03\0\x03\xe8\x89\x04\x55\x65\xa9\0\0\0\x06\0\0\0\x03\0\0\0\x0c\
\0\0\0\0\0\0\0\0\x10\0\x01\x6d\0\x03\xe8\x89\x04\x55\x65\xa9\0\0\0\x06\0\0\0\x01\0\0\0\0\
\0\x03\xe8\x89\x04\x55\x65\xa9\0\0\0\x07\x80\0\0\x06\0\0\0\0\
\0\x03\xe8\x89\x04\x55\x65\xa9\0\0\0\x08\0\0\0\x01\0\0\0\0\
\0\x03\xe8\x89\x04\x55\x65\xa9\0\0\0\x03\0\0\0\x02\0\0\0\x08\0\0\0\x04disk\
\0\x03\xe8\x89\x04\x55\x65\xa9\0\0\0\x03\0\0\0\x01\0\0\0\0\
\0\x03\xe8\x89\x04\x55\x65\xa9\0\0\0\x07\0\0\0\x03\0\0\0\x0c\0\0\0\0\0\0\0\0\x10\0\x01\xed\
\0\x03\xe8\x89\x04\x55\x65\xa9\0\0\0\x07\0\0\0\x01\0\0\0\0";

const CHUNK: &[u8] = b"\x66\x8e\x33\xef\0\x01\0\x01\0\0\0\0\0\0\0\x02\0\0\x02\x08\0\0\0\0\0\0\0\0";

/// A run with these words over an image of 4,096 zero bytes, with reads of at most `cut` bytes.
fn run_by(
    alloc: Global,
    words: &[&str],
    input: &[u8],
    cut: usize,
) -> Result<(Status, Vec<u8>), Memory> {
    let mut cuts = Vec::new(alloc);
    cuts.resize(input.len(), cut)?;
    let input = Bytes::of(Vec::from_slice(alloc, input)?);
    let mut source = MemSource::new(input, cuts, Vec::new(alloc));
    let mut sink = MemSink::new(alloc, 1 << 18, Vec::new(alloc))?;
    let status = run_words(alloc, words, &mut source, &mut sink, 8, 4096)?;
    Ok((status, Vec::from_slice(alloc, sink.sent())?))
}

/// The server greets, and serves behind GO, however the input is cut.
#[test]
fn a_client_is_greeted_and_served(rt: HostRuntime) -> Result<(), Failure> {
    let alloc = rt.alloc();
    let (requests, _) = worked(alloc)?;
    for (hello, answers, head) in [
        (GOES, GONE, READ_BACK.as_slice()),
        (GOES_STRUCTURED, GONE_STRUCTURED, CHUNK),
        (ASKS, ASKED, CHUNK),
    ] {
        let mut input = Vec::from_slice(alloc, hello)?;
        input.extend_from_slice(requests.as_slice())?;
        let mut output = Vec::from_slice(alloc, answers)?;
        output.extend_from_slice(&WRITTEN)?;
        output.extend_from_slice(head)?;
        output.extend_from_slice(&[0x11; 512])?;
        for cut in [1, 65_536] {
            let (status, sent) = run_by(alloc, &["disk.img"], input.as_slice(), cut)?;
            assert_eq!(rt; status, Status::Done);
            assert_eq!(rt; sent.as_slice(), output.as_slice());
        }
    }
    Ok(())
}

/// A handshake that doesn't come to requests ends the run as it says.
#[test]
fn a_handshake_ends_a_run(rt: HostRuntime) -> Result<(), Failure> {
    for (input, status) in [
        (b"".as_slice(), Status::Done),
        (b"\0\0", Status::Ended(SessionEnd::Truncated)),
        (b"\0\0\0\x04", Status::Ended(SessionEnd::BadFlags(4))),
        (
            b"\0\0\0\x01IHAVEOPT\0\0\0\x01\0\0\0\x03foo",
            Status::Ended(SessionEnd::NoExport),
        ),
        (
            b"\0\0\0\x01IHAVEOPT\0\0\0\x02\0\0\0\0",
            Status::Ended(SessionEnd::Aborted),
        ),
    ] {
        let (told, _) = run_by(rt.alloc(), &["disk.img"], input, 7)?;
        assert_eq!(rt; told, status);
    }
    Ok(())
}

/// Between requests the end of the input is the end of the run; within one it cuts it.
#[test]
fn each_front_of_the_input_has_its_end(rt: HostRuntime) -> Result<(), Failure> {
    let alloc = rt.alloc();
    let (input, replies) = worked(alloc)?;
    let cut = Status::Ended(SessionEnd::Truncated);
    for n in 0..input.len() + 1 {
        let (status, count) = match n {
            0 => (Status::Done, 0),
            1..=539 => (cut, 0),
            540 => (Status::Done, 16),
            541..=567 => (cut, 16),
            568 => (Status::Done, 544),
            569..=595 => (cut, 544),
            _ => (Status::Done, 544),
        };
        let (ended, sent) = run(alloc, 4096, front(input.as_slice(), n), 65_536)?;
        assert_eq!(rt; ended, status, "after {n} bytes");
        assert_eq!(rt;
            sent.as_slice(),
            front(replies.as_slice(), count),
            "after {n} bytes"
        );
    }
    Ok(())
}

#[test]
fn pieces_of_each_size_are_answered_alike(rt: HostRuntime) -> Result<(), Failure> {
    let alloc = rt.alloc();
    let (input, replies) = worked(alloc)?;
    for cut in 1..input.len() + 1 {
        let (status, sent) = run(alloc, 4096, input.as_slice(), cut)?;
        assert_eq!(rt; status, Status::Done, "pieces of {cut}");
        assert_eq!(rt; sent.as_slice(), replies.as_slice(), "pieces of {cut}");
    }
    Ok(())
}

#[test]
fn what_is_no_request_ends_the_run(rt: HostRuntime) -> Result<(), Failure> {
    let alloc = rt.alloc();
    let bad_magic = *b"\x25\x60\x95\x14";
    let cases: [(&[u8], SessionEnd); 2] = [
        (&bad_magic, SessionEnd::BadMagic(0x25609514)),
        (&TOO_LONG, SessionEnd::TooLong(33_554_433)),
    ];
    for (input, end) in cases {
        let (ended, sent) = run(alloc, 4096, input, 65_536)?;
        assert_eq!(rt; ended, Status::Ended(end));
        assert_eq!(rt; sent.len(), 0);
    }
    Ok(())
}

/// Words, the count of disks and their image's length, the read that fails, and the room of the output;
/// and the status.
type Case = (&'static [&'static str], u8, u64, Option<u64>, usize, Status);

const CASES: [Case; 7] = [
    (&[], 8, 4096, None, 544, Status::Usage),
    (
        &["--transmission", "--align"],
        8,
        4096,
        None,
        544,
        Status::Usage,
    ),
    (&["--unknown"], 8, 4096, None, 544, Status::Usage),
    (GOOD, 7, 4096, None, 544, Status::OpenBad(OpenBad::Count(7))),
    (
        GOOD,
        8,
        700,
        None,
        544,
        Status::OpenBad(OpenBad::Length(700)),
    ),
    (GOOD, 8, 4096, Some(0), 544, Status::ReadFault),
    (GOOD, 8, 4096, None, 543, Status::WriteFault),
];

#[test]
fn words_disks_and_faults_have_their_statuses(rt: HostRuntime) -> Result<(), Failure> {
    let alloc = rt.alloc();
    for (words, count, length, fail, room, status) in CASES {
        let mut fails = Vec::new(alloc);
        if let Some(call) = fail {
            fails.push(call)?;
        }
        let input = Bytes::of(write_and_read(alloc)?);
        let mut source = MemSource::new(input, Vec::new(alloc), fails);
        let mut sink = MemSink::new(alloc, room, Vec::new(alloc))?;
        assert_eq!(rt;
            run_words(alloc, words, &mut source, &mut sink, count, length)?,
            status
        );
    }
    Ok(())
}

/// With `--read-only` a WRITE is answered by error 1 (EPERM), and the READ behind it finds zeros.
#[test]
fn a_read_only_image_takes_no_write(rt: HostRuntime) -> Result<(), Failure> {
    let alloc = rt.alloc();
    let input = Bytes::of(write_and_read(alloc)?);
    let mut source = MemSource::new(input, Vec::new(alloc), Vec::new(alloc));
    let mut sink = MemSink::new(alloc, 544, Vec::new(alloc))?;
    let words = &["--read-only", "--transmission", "disk.img"];
    let status = run_words(alloc, words, &mut source, &mut sink, 8, 4096)?;
    assert_eq!(rt; status, Status::Done);
    assert_eq!(rt; at(sink.sent(), 7), 1);
    assert_eq!(rt; at(sink.sent(), 23), 0);
    assert_eq!(rt; at(sink.sent(), 32), 0);
    Ok(())
}

/// A row of a stream: flags and type of a request, its offset and length, the byte that data repeat.
type Row = (u16, u16, u64, u32, u8);

/// Streams over an image of 130 blocks. Blocks 15 and 16 lie on two disks, and so do 127 and 128.
const STREAMS: [&[Row]; 5] = [
    // the worked inputs
    &[
        (0, 1, 0, 512, 0x11),
        (0, 0, 0, 512, 0),
        (0, 0, 1, 512, 0),
        (0, 3, 0, 0, 0),
        (1, 6, 100, 300, 0),
    ],
    // several blocks and disks, written over one another, at any offset
    &[
        (0, 1, 14 * 512, 5 * 512, 0x22),
        (0, 0, 13 * 512, 7 * 512, 0),
        (1, 1, 127 * 512 - 3, 3 * 512, 0x33),
        (0, 1, 16 * 512 + 1, 100 * 512, 0x44),
        (0, 0, 14 * 512 + 511, 5 * 512 + 2, 0),
        (2, 6, 20 * 512 + 100, 40 * 512, 0),
        (0, 3, 0, 0, 0),
        (0, 4, 30 * 512, 512, 0),
        (0, 1, 16 * 512 + 7, 1, 0x55),
        (0, 1, 17 * 512 - 1, 2, 0x56),
    ],
    // the ends of the image
    &[
        (0, 1, 0, 130 * 512, 0x66),
        (0, 1, 130 * 512 - 1, 1, 0x67),
        (0, 1, 130 * 512 - 1, 2, 0x77),
        (0, 6, 130 * 512 - 1, 2, 0),
        (0, 4, 130 * 512 - 1, 2, 0),
        (0, 0, 130 * 512 - 1, 2, 0),
        (0, 0, 130 * 512, 512, 0),
        (0, 0, u64::MAX - 511, 512, 0),
        (0, 6, u64::MAX, u32::MAX, 0),
        (0, 3, u64::MAX, u32::MAX, 0),
    ],
    // flags, other types, a READ that is too long
    &[
        (4, 0, 0, 512, 0),
        (2, 1, 0, 512, 0x77),
        (8, 6, 0, 512, 0),
        (0, 5, 0, 512, 0),
        (0, 9, 0, 512, 0),
        (0, 0, 0, 33_554_944, 0),
        (9, 0, 131 * 512, 512, 0),
    ],
    // no bytes
    &[
        (0, 0, 0, 0, 0),
        (0, 1, 130 * 512, 0, 0x88),
        (0, 0, 131 * 512, 0, 0),
        (0, 1, 131 * 512, 0, 0x88),
        (0, 6, 131 * 512, 0, 0),
        (0, 0, 1, 0, 0),
    ],
];

/// The requests of a stream.
fn rows_of(alloc: Global, rows: &[Row]) -> Result<Vec<Request>, Memory> {
    let mut requests = Vec::new(alloc);
    for &(flags, kind, offset, length, byte) in rows {
        requests.push(Request {
            flags,
            kind,
            cookie: offset ^ u64::MAX,
            offset,
            length,
            byte,
        })?;
    }
    Ok(requests)
}

/// The requests of a stream, and behind them a READ of the whole image.
fn requests_of(alloc: Global, rows: &[Row]) -> Result<Vec<Request>, Memory> {
    let mut requests = rows_of(alloc, rows)?;
    requests.push(Request {
        flags: 0,
        kind: 0,
        cookie: 9,
        offset: 0,
        length: 130 * 512,
        byte: 0,
    })?;
    Ok(requests)
}

/// The bytes of requests.
fn spelled(alloc: Global, requests: &[Request]) -> Result<Bytes, Memory> {
    let mut stream = Bytes::of(Vec::new(alloc));
    for request in requests {
        request.put(alloc, &mut stream)?;
    }
    Ok(stream)
}

#[test]
fn streams_are_answered_as_by_the_plain_service(rt: HostRuntime) -> Result<(), Failure> {
    let alloc = rt.alloc();
    for rows in STREAMS {
        let requests = requests_of(alloc, rows)?;
        let input = spelled(alloc, requests.as_slice())?;
        let mut content = vec![in alloc; 0; 130 * 512]?;
        let replies = plain_service(alloc, requests.as_slice(), true, &mut content)?;
        for cut in [1, 4096, 65_536] {
            let (status, sent) = run(alloc, 130 * 512, input.as_slice(), cut)?;
            assert_eq!(rt; status, Status::Done);
            assert_eq!(rt; sent.as_slice(), replies.as_slice());
        }
    }
    Ok(())
}

/// A session over a core that was just opened, of so many messages at most; what was written, and how it
/// ended.
fn served(
    alloc: Global,
    disks: Vec<QuietDisk>,
    read_only: bool,
    budget: u64,
    input: &[u8],
) -> Result<(Status, Vec<u8>), Memory> {
    let Ok(mut world) = open_core(alloc, disks, read_only) else {
        return Err(Memory);
    };
    let bytes = Bytes::of(Vec::from_slice(alloc, input)?);
    let mut source = MemSource::new(bytes, Vec::new(alloc), Vec::new(alloc));
    let mut sink = MemSink::new(alloc, 1 << 18, Vec::new(alloc))?;
    let clock = MemClock::new(0);
    let status = serve_stream(alloc, &mut world, budget, &mut source, &mut sink, &clock);
    Ok((status, Vec::from_slice(alloc, sink.sent())?))
}

/// Over a file that can't be written, and over blocks of 4,096 bytes.
#[test]
fn other_cores_are_served_alike(rt: HostRuntime) -> Result<(), Failure> {
    let alloc = rt.alloc();
    for rows in STREAMS {
        let requests = requests_of(alloc, rows)?;
        let input = spelled(alloc, requests.as_slice())?;
        for (align, length, read_only) in [(512, 130 * 512, true), (4096, 17 * 4096, false)] {
            let mut content = vec![in alloc; 0; length]?;
            let replies = plain_service(alloc, requests.as_slice(), !read_only, &mut content)?;
            let disks = disks_of(alloc, 8, align, length as u64)?;
            let (status, sent) = served(alloc, disks, read_only, 100, input.as_slice())?;
            assert_eq!(rt; status, Status::Done);
            assert_eq!(rt; sent.as_slice(), replies.as_slice());
        }
    }
    Ok(())
}

/// After its budget of messages the session ends, before the next is read.
#[test]
fn a_budget_is_spent(rt: HostRuntime) -> Result<(), Failure> {
    let alloc = rt.alloc();
    let (input, replies) = worked(alloc)?;
    for (budget, status, count) in [
        (0, Status::Spent, 0),
        (1, Status::Spent, 16),
        (2, Status::Spent, 544),
        (3, Status::Done, 544),
    ] {
        let disks = disks_of(alloc, 8, 512, 4096)?;
        let (ended, sent) = served(alloc, disks, false, budget, input.as_slice())?;
        assert_eq!(rt; ended, status);
        assert_eq!(rt; sent.as_slice(), front(replies.as_slice(), count));
    }
    Ok(())
}

/// A WRITE of two bytes at the seam of blocks 0 and 1, a FLUSH and another, and a READ of the two bytes.
const PADDED: [Row; 4] = [
    (0, 1, 511, 2, 0x99),
    (0, 3, 0, 0, 0),
    (0, 3, 0, 0, 0),
    (0, 0, 511, 2, 0),
];

/// A failure of the disk of blocks 0 and 1, the errors of the four replies, and the two bytes.
type Failed = (Option<Fail>, [u8; 4], [u8; 2]);

const FAILED: [Failed; 5] = [
    (None, [0, 0, 0, 0], [0x99, 0x99]),
    (Some(Fail::Load), [5, 0, 0, 0], [0, 0]),
    (Some(Fail::StoreOld), [5, 0, 0, 0], [0, 0]),
    (Some(Fail::StoreNew), [5, 0, 0, 0], [0x99, 0]),
    (Some(Fail::Sync), [0, 5, 0, 0], [0x99, 0x99]),
];

/// A byte of the output.
fn at(sent: &[u8], i: usize) -> u8 {
    match sent.get(i) {
        Some(byte) => *byte,
        None => 255,
    }
}

/// The errors of four replies, and the bytes behind the last.
fn told(sent: &[u8]) -> ([u8; 4], &[u8]) {
    let errors = [at(sent, 7), at(sent, 23), at(sent, 39), at(sent, 55)];
    (errors, &sent[sent.len().min(64)..])
}

/// Eight disks of 4,096 zero bytes; the first one's next call of a kind fails.
fn rigged(alloc: Global, fail: Option<Fail>) -> Result<Vec<MemDisk>, Memory> {
    let mut disks = Vec::new(alloc);
    for stripe in 0..8 {
        let mut disk = MemDisk::new(alloc, stripe, 512, 4096, 64)?;
        match fail {
            Some(fail) if stripe == 0 => disk.plan(fail),
            _ => {}
        }
        disks.push(disk)?;
    }
    Ok(disks)
}

#[test]
fn each_planned_failure_has_its_answer(rt: HostRuntime) -> Result<(), Failure> {
    let alloc = rt.alloc();
    let requests = rows_of(alloc, &PADDED)?;
    for (fail, errors, bytes) in FAILED {
        let mut disks = rigged(alloc, fail)?;
        let input = spelled(alloc, requests.as_slice())?;
        let mut source = MemSource::new(input, Vec::new(alloc), Vec::new(alloc));
        let mut sink = MemSink::new(alloc, 1 << 12, Vec::new(alloc))?;
        let words = words_of(alloc, GOOD)?;
        let clock = MemClock::new(0);
        let status = run_stdio(
            alloc,
            words.as_slice(),
            &mut source,
            &mut sink,
            &mut disks,
            &clock,
        );
        assert_eq!(rt; status, Status::Done);
        let (answered, read) = told(sink.sent());
        assert_eq!(rt; answered, errors);
        assert_eq!(rt; read, bytes.as_slice());
    }
    Ok(())
}

/// WRITEs of blocks 0 and 1, a FLUSH, and two WRITEs of block 0.
const FLUSHED: [Row; 5] = [
    (0, 1, 0, 512, 0x11),
    (0, 1, 512, 512, 0x12),
    (0, 3, 0, 0, 0),
    (0, 1, 0, 512, 0x22),
    (0, 1, 0, 512, 0x33),
];

/// The first rows of a stream, as many as it has.
fn front_rows(rows: &[Row], count: usize) -> &[Row] {
    &rows[..count.min(rows.len())]
}

/// What a session of these requests over the disks was answered.
fn session_over(alloc: Global, disks: &mut Vec<MemDisk>, rows: &[Row]) -> Result<Vec<u8>, Memory> {
    let requests = rows_of(alloc, rows)?;
    let input = spelled(alloc, requests.as_slice())?;
    let mut source = MemSource::new(input, Vec::new(alloc), Vec::new(alloc));
    let mut sink = MemSink::new(alloc, 1 << 12, Vec::new(alloc))?;
    let words = words_of(alloc, GOOD)?;
    let clock = MemClock::new(0);
    let _ = run_stdio(
        alloc,
        words.as_slice(),
        &mut source,
        &mut sink,
        disks,
        &clock,
    );
    Ok(Vec::from_slice(alloc, sink.sent())?)
}

/// A crash of each disk leaves this content of each of its blocks, counted from the oldest.
fn crash_all(alloc: Global, disks: &mut [MemDisk], rest: u64) {
    for disk in disks {
        let picks = Picks(Vec::new(alloc));
        disk.crash(&CrashChoice { rest, picks });
    }
}

/// The first bytes of blocks 0 and 1 behind a session and such a crash, as the next session reads them.
fn left_of(alloc: Global, rows: &[Row], rest: u64) -> Result<[u8; 2], Memory> {
    let mut disks = rigged(alloc, None)?;
    let _ = session_over(alloc, &mut disks, rows)?;
    crash_all(alloc, disks.as_mut_slice(), rest);
    let sent = session_over(alloc, &mut disks, &[(0, 0, 0, 1024, 0)])?;
    Ok([at(sent.as_slice(), 16), at(sent.as_slice(), 528)])
}

/// How many of the requests are sent, which content a crash leaves of each block, the oldest first, and a
/// byte of blocks 0 and 1.
const LEFT: [(usize, u64, [u8; 2]); 8] = [
    (2, 0, [0, 0]),
    (2, 1, [0x11, 0x12]),
    (2, 9, [0x11, 0x12]),
    (3, 0, [0x11, 0x12]),
    (5, 0, [0x11, 0x12]),
    (5, 1, [0x22, 0x12]),
    (5, 2, [0x33, 0x12]),
    (5, 9, [0x33, 0x12]),
];

#[test]
fn a_crash_leaves_nothing_older_than_a_flush(rt: HostRuntime) -> Result<(), Failure> {
    let alloc = rt.alloc();
    for (count, rest, bytes) in LEFT {
        let rows = front_rows(&FLUSHED, count);
        assert_eq!(rt; left_of(alloc, rows, rest)?, bytes);
    }
    Ok(())
}
