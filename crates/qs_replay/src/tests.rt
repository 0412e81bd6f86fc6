use crate::{memory_disks, replay_disks, run_replay};
use qs_bytes::{Bytes, Memory};
use qs_outside::{MemDisk, MemSink, MemSource};
use qs_status::{OpenBad, Status};
use std::alloc::Global;
use std::test::Fail;

/// Seven disks of an image of 8 blocks of 512 zero bytes.
fn seven_disks(alloc: Global) -> Result<Vec<MemDisk>, Memory> {
    let mut disks = Vec::new(alloc);
    for stripe in 0..7 {
        disks.push(MemDisk::new(alloc, stripe, 512, 4096, 64)?)?;
    }
    Ok(disks)
}

fn words_of(alloc: Global, words: &[&str]) -> Result<Vec<String>, Memory> {
    let mut list = Vec::new(alloc);
    for word in words {
        list.push(word.to_string(alloc)?)?;
    }
    Ok(list)
}

/// A run of these words over the disks that they name, with reads of at most `cut` bytes: its status and
/// what was printed.
fn run_words(
    alloc: Global,
    words: &[&str],
    script: &[u8],
    cut: usize,
    fails: (Vec<u64>, Vec<u64>),
) -> Result<(Status, Vec<u8>), Memory> {
    let mut cuts = Vec::new(alloc);
    cuts.resize(64, cut)?;
    let (read_fails, write_fails) = fails;
    let mut source = MemSource::new(Bytes::of(Vec::from_slice(alloc, script)?), cuts, read_fails);
    let mut sink = MemSink::new(alloc, 65_536, write_fails)?;
    let list = words_of(alloc, words)?;
    let words = list.as_slice();
    let mut disks = memory_disks(alloc, words)?;
    let status = run_replay(alloc, words, &mut source, &mut sink, &mut disks);
    Ok((status, Vec::from_slice(alloc, sink.sent())?))
}

/// A run of a script over an image of 8 blocks.
fn run(
    alloc: Global,
    script: &[u8],
    cut: usize,
    fails: (Vec<u64>, Vec<u64>),
) -> Result<(Status, Vec<u8>), Memory> {
    run_words(alloc, &["--blocks", "8"], script, cut, fails)
}

/// A script over a whole image, in which nothing outside fails.
fn script(alloc: Global, text: &[u8]) -> Result<(Status, Vec<u8>), Memory> {
    run(alloc, text, 7, (Vec::new(alloc), Vec::new(alloc)))
}

#[test]
fn worked_scripts(rt: HostRuntime) -> Result<(), Fail> {
    for (text, printed) in [
        // Two writes of one block: neither is lost.
        (
            b"session A disk\nsession B disk\nwrite A 1 0 11*256\nwrite B 1 256 22*256\n\
step A.1\nstep B.1\nstep A.1\nstep B.1\nstep A.1\nstep B.1\nstep A.1\nstep B.1\n\
run A.1\nrun B.1\nread A 2 254 4\nrun A.2"
                .as_slice(),
            b"A attached 4096 rw\nB attached 4096 rw\nA.1 enter 0\nB.1 enter 1\nA.1 route 0 4096\n\
B.1 route 0 4096\nA.1 listed 0\nB.1 listed 1\nA.1 started\nB.1 not-yet 0\nA.1 = 0\nB.1 = 0\n\
A.2 = 0 11112222\n"
                .as_slice(),
        ),
        // A write of no length.
        (
            b"session A disk\nwrite A 1 7 -\nstep A.1\nstep A.1\nstep A.1\n",
            b"A attached 4096 rw\nA.1 enter 0\nA.1 route 0 4096\nA.1 ended\nA.1 = 0\n",
        ),
        // Two aligned writes that overlap.
        (
            b"session A disk\nsession B disk\nwrite A 1 0 11*1024\nwrite B 1 0 22*1024\n\
step A.1\nstep A.1\nstep A.1\nstep A.1\nstep A.1\nrun B.1\nrun A.1\nread A 2 511 2\nrun A.2\n",
            b"A attached 4096 rw\nB attached 4096 rw\nA.1 enter 0\nA.1 route 0 4096\nA.1 listed 0\n\
A.1 started\nA.1 stored 0\nB.1 = 0\nA.1 = 0\nA.2 = 0 2211\n",
        ),
        // A read beside a padded write.
        (
            b"session A disk\nsession B disk\nwrite B 1 1 33\nstep B.1\nstep B.1\nstep B.1\nstep B.1\n\
read A 1 0 1\nrun A.1\nrun B.1\nrun A.1\nread A 2 0 1\nstep A.2\nstep A.2\nstep A.2\nstep A.2\n\
write B 2 1 44\nrun B.2\nrun A.2\nrun B.2\nend A\nstep A\nsession A disk\n",
            b"A attached 4096 rw\nB attached 4096 rw\nB.1 enter 0\nB.1 route 0 4096\nB.1 listed 0\n\
B.1 started\nA.1 not-yet 0\nB.1 = 0\nA.1 = 0 00\nA.2 enter 0\nA.2 route 0 4096\nA.2 listed 2\n\
A.2 started\nB.2 not-yet 2\nA.2 = 0 00\nB.2 = 0\nA left\nA detached\nA attached 4096 rw\n",
        ),
    ] {
        let (status, out) = script(rt.alloc(), text)?;
        assert_eq!(rt; status, Status::Done);
        assert_eq!(rt; out.as_slice(), printed);
    }
    Ok(())
}

/// The line `step A.N` so many times.
fn push_steps(text: &mut Vec<u8>, step: &[u8], count: u32) -> Result<(), Memory> {
    for _ in 0..count {
        text.extend_from_slice(step)?;
    }
    Ok(())
}

/// A write, a flush and a write of one block, stopped behind so many of their steps by a crash, and a read of a byte.
fn stopped(alloc: Global, steps: u32, crash: &[u8]) -> Result<(Status, Vec<u8>), Memory> {
    let mut text = Vec::from_slice(alloc, b"session A disk\n")?;
    let mut left = steps;
    for (asks, step, count) in [
        (
            b"write A 1 0 11*512\n".as_slice(),
            b"step A.1\n".as_slice(),
            6,
        ),
        (b"flush A 2\n", b"step A.2\n", 11),
        (b"write A 3 0 22*512\n", b"step A.3\n", 6),
    ] {
        text.extend_from_slice(asks)?;
        let done = left.min(count);
        push_steps(&mut text, step, done)?;
        left -= done;
    }
    text.extend_from_slice(crash)?;
    text.extend_from_slice(b"session A disk\nread A 4 0 1\nrun A.4\n")?;
    script(alloc, text.as_slice())
}

#[test]
fn a_stop_at_each_step_keeps_what_was_flushed(rt: HostRuntime) -> Result<(), Fail> {
    let (none, first, second) = (
        b"\nA.4 = 0 00\n".as_slice(),
        b"\nA.4 = 0 11\n".as_slice(),
        b"\nA.4 = 0 22\n".as_slice(),
    );
    for (from, to, oldest, newest) in [
        (0, 5, none, none),
        (5, 9, none, first),
        (9, 22, first, first),
        (22, 24, first, second),
    ] {
        for steps in from..to {
            let (status, out) = stopped(rt.alloc(), steps, b"crash 0\n")?;
            assert_eq!(rt; status, Status::Done);
            assert!(rt; out.as_slice().ends_with(oldest));
            let (status, out) = stopped(rt.alloc(), steps, b"crash 9\n")?;
            assert_eq!(rt; status, Status::Done);
            assert!(rt; out.as_slice().ends_with(newest));
        }
    }
    Ok(())
}

/// A padded write over two blocks, stopped behind so many of its steps by a crash, and a read around it.
fn padded(alloc: Global, steps: u32, crash: &[u8]) -> Result<(Status, Vec<u8>), Memory> {
    let mut text = Vec::from_slice(alloc, b"session A disk\nwrite A 1 510 aaaaaaaa\n")?;
    push_steps(&mut text, b"step A.1\n", steps)?;
    text.extend_from_slice(crash)?;
    text.extend_from_slice(b"session A disk\nread A 4 508 8\nrun A.4\n")?;
    script(alloc, text.as_slice())
}

#[test]
fn a_stop_of_a_padded_write_leaves_its_pads(rt: HostRuntime) -> Result<(), Fail> {
    let (none, head, tail, both) = (
        b"\nA.4 = 0 0000000000000000\n".as_slice(),
        b"\nA.4 = 0 0000aaaa00000000\n".as_slice(),
        b"\nA.4 = 0 00000000aaaa0000\n".as_slice(),
        b"\nA.4 = 0 0000aaaaaaaa0000\n".as_slice(),
    );
    for (from, to, first, second, whole) in [
        (0, 7, none, none, none),
        (7, 8, head, none, head),
        (8, 10, head, tail, both),
    ] {
        for steps in from..to {
            for (crash, last) in [
                (b"crash 0\n".as_slice(), none),
                (b"crash 0 0=1\n", first),
                (b"crash 0 1=1\n", second),
                (b"crash 9\n", whole),
            ] {
                let (status, out) = padded(rt.alloc(), steps, crash)?;
                assert_eq!(rt; status, Status::Done);
                assert!(rt; out.as_slice().ends_with(last));
            }
        }
    }
    Ok(())
}

/// Two writes of one block, with a flush behind them where `flush` says so, a crash, and a read.
fn crashed(alloc: Global, flush: &[u8], crash: &[u8]) -> Result<(Status, Vec<u8>), Memory> {
    let mut text = Vec::from_slice(alloc, b"session A disk\nwrite A 1 0 11*512\nrun A.1\n")?;
    text.extend_from_slice(b"write A 2 0 22*512\nrun A.2\n")?;
    text.extend_from_slice(flush)?;
    text.extend_from_slice(crash)?;
    text.extend_from_slice(b"session A disk\nread A 4 0 1\nrun A.4\n")?;
    script(alloc, text.as_slice())
}

#[test]
fn a_crash_leaves_what_is_chosen_and_what_was_flushed(rt: HostRuntime) -> Result<(), Fail> {
    let flush = b"flush A 3\nrun A.3\n";
    for (flush, crash, last) in [
        (b"".as_slice(), b"crash 0\n".as_slice(), b"A.4 = 0 00\n"),
        (b"", b"crash 1\n", b"A.4 = 0 11\n"),
        (b"", b"crash 2\n", b"A.4 = 0 22\n"),
        (b"", b"crash 9\n", b"A.4 = 0 22\n"),
        (b"", b"crash 9 0=1 7=0\n", b"A.4 = 0 11\n"),
        (flush.as_slice(), b"crash 0\n", b"A.4 = 0 22\n"),
    ] {
        let (status, out) = crashed(rt.alloc(), flush, crash)?;
        assert_eq!(rt; status, Status::Done);
        assert!(rt; out.as_slice().ends_with(last));
    }
    Ok(())
}

#[test]
fn a_crash_ends_sessions_and_requests(rt: HostRuntime) -> Result<(), Fail> {
    for (text, status, printed) in [
        // A padded write that holds its first block: nothing of it is left.
        (
            b"session A disk\nwrite A 1 510 11*4\nstep A.1\nstep A.1\nstep A.1\nstep A.1\nstep A.1\n\
crash 0\nsession A disk\nread A 2 508 4\nrun A.2\nstep A.1\n"
                .as_slice(),
            Status::NotNext(12),
            b"A attached 4096 rw\nA.1 enter 0\nA.1 route 0 4096\nA.1 listed 0\nA.1 started\n\
A.1 held 0\nA attached 4096 rw\nA.2 = 0 00000000\n"
                .as_slice(),
        ),
        // A cookie stays used.
        (
            b"session A disk\nread A 1 0 1\ncrash 0\nsession A disk\nread A 1 0 1\n",
            Status::BadLine(5),
            b"A attached 4096 rw\nA attached 4096 rw\n",
        ),
    ] {
        let (came, out) = script(rt.alloc(), text)?;
        assert_eq!(rt; came, status);
        assert_eq!(rt; out.as_slice(), printed);
    }
    Ok(())
}

#[test]
fn requests_without_data(rt: HostRuntime) -> Result<(), Fail> {
    for (text, printed) in [
        // A flush syncs the stripe that was stored to, and finds the others clean.
        (
            b"session A disk\nwrite A 1 0 11*512\nrun A.1\nflush A 2\nstep A.2\nstep A.2\nstep A.2\n\
step A.2\nrun A.2\nflush A 3\nstep A.3\nstep A.3\nstep A.3\nrun A.3\n"
                .as_slice(),
            b"A attached 4096 rw\nA.1 = 0\nA.2 enter 0\nA.2 route 0 4096\nA.2 synced 0\nA.2 clean 1\n\
A.2 = 0\nA.3 enter 0\nA.3 route 0 4096\nA.3 clean 0\nA.3 = 0\n"
                .as_slice(),
        ),
        // Zeros over four bytes in two blocks.
        (
            b"session A disk\nwrite A 1 0 11*1024\nrun A.1\nzero A 2 510 4\nrun A.2\nread A 3 508 8\n\
run A.3\nzero A 4 4096 1\nrun A.4\nzero A 5 0 0 fua\nrun A.5\n",
            b"A attached 4096 rw\nA.1 = 0\nA.2 = 0\nA.3 = 0 1111000000001111\nA.4 = 28\nA.5 = 0\n",
        ),
        // A trim does nothing to its places.
        (
            b"session A disk\nwrite A 1 0 11*2\nrun A.1\ntrim A 2 0 4096\nrun A.2\nread A 3 0 2\n\
run A.3\ntrim A 4 4096 1\nrun A.4\n",
            b"A attached 4096 rw\nA.1 = 0\nA.2 = 0\nA.3 = 0 1111\nA.4 = 22\n",
        ),
        // A write with the flag syncs the stripe of its block; the sync fails, and the next one doesn't.
        (
            b"session A disk\nfail 0 sync\nwrite A 1 0 11*512 fua\nrun A.1\nwrite A 2 0 22*512 fua\n\
step A.2\nstep A.2\nstep A.2\nstep A.2\nstep A.2\nstep A.2\nstep A.2\n",
            b"A attached 4096 rw\nA.1 = 5\nA.2 enter 0\nA.2 route 0 4096\nA.2 listed 1\nA.2 started\n\
A.2 stored 0\nA.2 synced 0\nA.2 ended\nA.2 = 0\n",
        ),
    ] {
        let (status, out) = script(rt.alloc(), text)?;
        assert_eq!(rt; status, Status::Done);
        assert_eq!(rt; out.as_slice(), printed);
    }
    Ok(())
}

#[test]
fn refused_stores(rt: HostRuntime) -> Result<(), Fail> {
    for (text, printed) in [
        (
            b"session A disk\nwrite A 1 510 aaaaaaaa\nstep A.1\nstep A.1\nstep A.1\nstep A.1\n\
step A.1\nstep A.1\nstep A.1\nfail 0 store-old\nstep A.1\nstep A.1\nread A 2 508 8\nrun A.2\n"
                .as_slice(),
            b"A.1 stored 0\nA.1 fault\nA.1 ended\nA.1 = 5\nA.2 = 0 0000aaaa00000000\n".as_slice(),
        ),
        (
            b"session A disk\nwrite A 1 510 aaaaaaaa\nstep A.1\nstep A.1\nstep A.1\nstep A.1\n\
step A.1\nstep A.1\nstep A.1\nfail 0 store-new\nstep A.1\nstep A.1\nread A 2 508 8\nrun A.2\n",
            b"A.1 stored 0\nA.1 fault\nA.1 ended\nA.1 = 5\nA.2 = 0 0000aaaaaaaa0000\n",
        ),
        (
            b"session A disk\nwrite A 1 510 aaaaaaaa\nstep A.1\nstep A.1\nstep A.1\nstep A.1\n\
step A.1\nstep A.1\nfail 0 store-old\nstep A.1\nstep A.1\nstep A.1\n",
            b"A.1 held 1\nA.1 fault\nA.1 freed 1\nA.1 ended\nA.1 = 5\n",
        ),
    ] {
        let (status, out) = script(rt.alloc(), text)?;
        assert_eq!(rt; status, Status::Done);
        assert!(rt; out.as_slice().ends_with(printed));
    }
    Ok(())
}

#[test]
fn refused_lines(rt: HostRuntime) -> Result<(), Fail> {
    for (text, status) in [
        (b"session A disk\nstep A.1\n".as_slice(), Status::NotNext(2)),
        (
            b"session A disk\nread A 1 0 0\nrun A.1\nstep A.1\n",
            Status::NotNext(4),
        ),
        (
            b"session A disk\nread A 1 0 0\nrun A.1\nread A 2 0 0\nread A 1 0 0\n",
            Status::BadLine(5),
        ),
        (b"session A disk\njump\n", Status::BadLine(2)),
        (b"session A disk\nend A\r\n", Status::BadLine(2)),
        (b"session A disk", Status::Done),
        (b"session A disk\nread A 01 0 1\n", Status::BadLine(2)),
        (b"session a disk\n", Status::BadLine(1)),
        (
            b"session A disk\nread A 1 0 1\nread A 1 0 1\n",
            Status::BadLine(3),
        ),
        (b"session A disk\nsession A disk\n", Status::NotNext(2)),
        (b"end A", Status::NotNext(1)),
        (b"read A 1 0 1\n", Status::NotNext(1)),
        (b"flush A 1\n", Status::NotNext(1)),
        (
            b"session A disk\nflush A 1\nzero A 1 0 1\n",
            Status::BadLine(3),
        ),
        (
            b"session A disk\nzero A 1 0 1\ntrim A 1 0 1\n",
            Status::BadLine(3),
        ),
        (
            b"session A disk\ntrim A 1 0 1\nflush A 1\n",
            Status::BadLine(3),
        ),
        (b"session A disk\nflush A 1 fua\n", Status::BadLine(2)),
    ] {
        assert_eq!(rt; script(rt.alloc(), text)?.0, status);
    }
    Ok(())
}

#[test]
fn long_lines(rt: HostRuntime) -> Result<(), Fail> {
    let alloc = rt.alloc();
    for (length, status) in [(65_535, Status::Done), (65_536, Status::BadLine(1))] {
        let mut text = vec![in alloc; b'#'; length]?;
        text.push(b'\n')?;
        let none = (Vec::new(alloc), Vec::new(alloc));
        assert_eq!(rt; run(alloc, text.as_slice(), 60_000, none)?.0, status);
    }
    Ok(())
}

#[test]
fn faults_of_the_outside(rt: HostRuntime) -> Result<(), Fail> {
    let alloc = rt.alloc();
    let first = [0].to_vec(alloc)?;
    let read = run(alloc, b"end A", 9, (first, Vec::new(alloc)))?;
    assert_eq!(rt; read.0, Status::ReadFault);
    // What was printed before a fault of the input is written.
    let second = [1].to_vec(alloc)?;
    let text = b"session A disk\nend A\n";
    let later = run(alloc, text, 15, (second, Vec::new(alloc)))?;
    assert_eq!(rt; later.0, Status::ReadFault);
    assert_eq!(rt; later.1.as_slice(), b"A attached 4096 rw\n".as_slice());
    let first = [0].to_vec(alloc)?;
    let write = run(alloc, b"session A disk", 9, (Vec::new(alloc), first))?;
    assert_eq!(rt; write.0, Status::WriteFault);
    assert!(rt; write.1.is_empty());
    Ok(())
}

#[test]
fn seven_disks_are_no_image(rt: HostRuntime) -> Result<(), Fail> {
    let alloc = rt.alloc();
    let mut source = MemSource::new(Bytes::of(Vec::new(alloc)), Vec::new(alloc), Vec::new(alloc));
    let mut sink = MemSink::new(alloc, 65_536, Vec::new(alloc))?;
    let mut disks = seven_disks(alloc)?;
    let status = replay_disks(alloc, &mut source, &mut sink, &mut disks);
    assert_eq!(rt; status, Status::OpenBad(OpenBad::Count(7)));
    Ok(())
}

#[test]
fn made_up_runs(rt: HostRuntime) -> Result<(), Fail> {
    let alloc = rt.alloc();
    let few = ["--blocks", "7", "--generate", "7"].as_slice();
    let none = (Vec::new(alloc), Vec::new(alloc));
    assert_eq!(rt; run_words(alloc, few, b"end A", 9, none)?.0, Status::Usage);
    let words = ["--generate", "7", "--blocks", "8"].as_slice();
    let none = (Vec::new(alloc), Vec::new(alloc));
    let (status, out) = run_words(alloc, words, b"end A", 9, none)?;
    assert_eq!(rt; status, Status::Done);
    assert!(rt;
        out.as_slice()
            .starts_with(b"requests 10000 errors 0 steps ")
    );
    Ok(())
}
