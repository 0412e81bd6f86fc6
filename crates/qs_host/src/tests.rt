ghost use Rattle.std.specs.Prelude.{◌≡◌};
ghost use Rattle.qs_outside.specs.Blocks.{Fixed};

use crate::{
    FileKind, Reading, StartFault, SyncLog, SyncNeed, Unfit, Writing, exit_of, file_disks,
};
use qs_outside::{Disk, Failed, FailedAt, Sink, Source};
use qs_status::{OpenBad, SessionEnd, Status};
use std::fs::{self, File, OpenOptions};
use std::io::{self, PipeReader, Read, Write};
use std::os::fd::{AsRawFd, RawFd};
use std::rt::Files;
use std::sync::Wait;
use std::test::Fail;

#[test]
fn streams_read_and_write(rt: HostRuntime) -> Result<(), Fail> {
    let (reader, writer) = io::pipe(&rt)?;
    let mut source = Reading::new(reader);
    let mut sink = Writing::new(writer);
    let mut bytes = [0; 8];
    assert_eq!(rt; sink.write(b"abc"), Ok(3));
    assert_eq!(rt; source.read(&mut bytes), Ok(3));
    assert_eq!(rt; &bytes[..3], b"abc".as_slice());
    drop(sink);
    assert_eq!(rt; source.read(&mut bytes), Ok(0));
    assert!(rt; source.reason().is_none());
    Ok(())
}

/// A pipe's reader whose first read is interrupted, and whose second isn't ready.
#[derive(Drop)]
struct Hindered {
    reader: PipeReader,
    reads: u8,
}

impl Read for Hindered {
    fn read(&mut self, into: &mut [u8]) -> io::Result<usize> {
        self.reads = self.reads.saturating_add(1);
        match self.reads {
            1 => Err(io::Error::from(io::ErrorKind::Interrupted)),
            2 => Err(io::Error::from(io::ErrorKind::WouldBlock)),
            _ => self.reader.read(into),
        }
    }
}

impl AsRawFd for Hindered {
    fn as_raw_fd(&self) -> RawFd {
        self.reader.as_raw_fd()
    }
}

#[test]
fn a_hindered_read_is_tried_again(rt: HostRuntime) -> Result<(), Fail> {
    let (reader, mut writer) = io::pipe(&rt)?;
    writer.write_all(b"abc")?;
    let mut source = Reading::new(Hindered { reader, reads: 0 });
    let mut bytes = [0; 8];
    assert_eq!(rt; source.read(&mut bytes), Ok(3));
    assert_eq!(rt; &bytes[..3], b"abc".as_slice());
    Ok(())
}

/// A refused write is told, with the system's reason.
#[test]
fn a_full_device_refuses(rt: HostRuntime) -> Result<(), Fail> {
    let full = OpenOptions::new().write(true).open(&rt, "/dev/full")?;
    let mut sink = Writing::new(full);
    assert_eq!(rt; sink.write(b"abc"), Err(Failed));
    let kind = sink.reason().map(|reason| reason.kind());
    assert!(rt; kind == Some(io::ErrorKind::StorageFull));
    Ok(())
}

#[test]
fn exits_by_status(rt: HostRuntime) -> Result<(), Fail> {
    for (status, exit) in [
        (Status::Done, 0),
        (Status::Usage, 2),
        (Status::OpenBad(OpenBad::Count(7)), 3),
        (Status::BadLine(1), 6),
        (Status::Memory, 9),
        (Status::Ended(SessionEnd::Truncated), 10),
    ] {
        assert_eq!(rt; exit_of(status), exit);
    }
    Ok(())
}

/// What a sync through handle 0 and through handle 1 has to do.
fn needs(log: &SyncLog) -> (SyncNeed, SyncNeed) {
    (log.need(0), log.need(1))
}

/// One sync covers what was stored before it began, through whichever handle; a store while it goes on wants
/// another. Once one has failed, each fails.
#[test]
fn one_sync_covers_all_handles(rt: HostRuntime) -> Result<(), Fail> {
    let (nothing, call, fails) = (SyncNeed::Nothing, SyncNeed::Call, SyncNeed::Fails);
    let mut log = SyncLog::new();
    assert_eq!(rt; needs(&log), (nothing, nothing));
    log.store(0);
    log.store(1);
    assert_eq!(rt; needs(&log), (call, call));
    log.begin();
    log.store(1);
    log.end(true);
    assert_eq!(rt; needs(&log), (nothing, call));
    log.begin();
    log.end(false);
    assert_eq!(rt; needs(&log), (fails, fails));
    log.begin();
    log.end(true);
    assert_eq!(rt; needs(&log), (fails, fails));
    Ok(())
}

/// The bytes of a block that was written, and synced, and read again.
fn keeps_a_block<D: Disk>(disk: &mut D) -> Result<[u8; 512], Failed>
    requires stripe { (D.seen disk.old).stripe ≡ 1 }
    requires align { (D.seen disk.old).align ≡ 512 }
    requires size { (D.seen disk.old).size ≡ 16384 }
{
    let mut bytes = [1; 512];
    disk.store(17, &[7; 512])?;
    disk.sync()?;
    disk.load(17, &mut bytes)?;
    Ok(bytes)
}

/// Writes a run of two blocks, of which the first is block 18, and reads it by a run.
fn keeps_a_run<D: Disk>(disk: &mut D) -> Result<[u8; 1024], FailedAt>
    requires stripe { (D.seen disk.old).stripe ≡ 1 }
    requires align { (D.seen disk.old).align ≡ 512 }
    requires size { (D.seen disk.old).size ≡ 16384 }
    ensures { Fixed (D.seen disk.old) (D.seen disk.new) }
{
    let mut bytes = [0; 1024];
    disk.store_run(18, 2, &[9; 1024])?;
    disk.load_run(18, 2, &mut bytes)?;
    Ok(bytes)
}

/// Whether the image keeps a block, through the disk of its stripe.
fn image_keeps_a_block<D: Disk>(disks: &mut [D]) -> bool {
    let mut kept = false;
    for disk in disks.iter_mut() {
        if disk.stripe() == 1 && disk.align() == 512 && disk.length() == 16384 {
            let run = keeps_a_run(disk) == Ok([9; 1024]);
            kept = run && keeps_a_block(disk) == Ok([7; 512]);
        }
    }
    kept
}

/// Why this can't be opened as an image, in a word.
fn fault_of<R: Files<File = File> + AllocGlobal + Wait + Copy>(rt: &R, path: &str) -> &'static str {
    match file_disks(rt, rt.alloc(), path, 512, false) {
        Ok(_) => "opened",
        Err(StartFault::NotOpened(Unfit::InUse)) => "in use",
        Err(StartFault::NotOpened(Unfit::OfKind(FileKind::Directory))) => "directory",
        Err(StartFault::NotOpened(Unfit::OfKind(FileKind::CharacterDevice))) => "device",
        Err(StartFault::NotOpened(Unfit::System(_))) => "system",
        Err(_) => "other",
    }
}

/// An image is opened once at a time, and keeps its blocks.
#[test]
fn a_file_keeps_its_blocks(rt: HostRuntime) -> Result<(), Fail> {
    let name = "file_disk_test.img";
    File::create_new(&rt, name)?.set_len(16384)?;
    let Ok(mut disks) = file_disks(&rt, rt.alloc(), name, 512, false) else {
        return Err(Fail::from(io::Error::other("not opened")));
    };
    assert!(rt; image_keeps_a_block(disks.as_mut_slice()));
    assert_eq!(rt; fault_of(&rt, name), "in use");
    drop(disks);
    assert_eq!(rt; fault_of(&rt, name), "opened");
    fs::remove_file(&rt, name)?;
    Ok(())
}

/// Readers share an image, and a writer has it alone.
#[test]
fn readers_share_an_image(rt: HostRuntime) -> Result<(), Fail> {
    let name = "shared_test.img";
    File::create_new(&rt, name)?.set_len(16384)?;
    let first = file_disks(&rt, rt.alloc(), name, 512, true);
    let second = file_disks(&rt, rt.alloc(), name, 512, true);
    assert!(rt; first.is_ok() && second.is_ok());
    assert_eq!(rt; fault_of(&rt, name), "in use");
    fs::remove_file(&rt, name)?;
    Ok(())
}

#[test]
fn only_an_image_is_opened(rt: HostRuntime) -> Result<(), Fail> {
    for (path, fault) in [
        (".", "directory"),
        ("/dev/null", "device"),
        ("missing.img", "system"),
    ] {
        assert_eq!(rt; fault_of(&rt, path), fault);
    }
    Ok(())
}

/// Stores the first block of a disk's stripe.
fn store_first<D: Disk>(disk: &mut D) -> bool {
    let stripe = u64::from(disk.stripe());
    let b = stripe * 16;
    let fits = b / 16 % 8 == stripe && (b + 1) * 512 <= disk.length();
    disk.align() == 512 && fits && disk.store(b, &[7; 512]).is_ok()
}

/// How many of the disks store their first block.
fn stored<D: Disk>(disks: &mut [D]) -> u32 {
    let mut count: u32 = 0;
    for disk in disks.iter_mut() {
        if store_first(disk) {
            count = count.saturating_add(1);
        }
    }
    count
}

/// How many of the disks' syncs succeed, one after the other.
fn synced<D: Disk>(disks: &mut [D]) -> u32 {
    let mut count: u32 = 0;
    for disk in disks.iter_mut() {
        if disk.sync().is_ok() {
            count = count.saturating_add(1);
        }
    }
    count
}

/// All disks are stored to and synced, synced again, and the fourth is stored to and all are synced. The file is
/// called for the first and the last round, once for each; where a call fails, which bench/hostile.sh brings
/// about, that sync and all behind it fail.
#[test]
fn a_failed_sync_is_remembered(rt: HostRuntime) -> Result<(), Fail> {
    let name = "sync_test.img";
    File::create_new(&rt, name)?.set_len(65536)?;
    let Ok(mut disks) = file_disks(&rt, rt.alloc(), name, 512, false) else {
        return Err(Fail::from(io::Error::other("not opened")));
    };
    assert_eq!(rt; stored(disks.as_mut_slice()), 8);
    let first = synced(disks.as_mut_slice());
    let second = synced(disks.as_mut_slice());
    assert_eq!(rt; stored(&mut disks.as_mut_slice()[3..4]), 1);
    let third = synced(disks.as_mut_slice());
    println!(rt; "synced {first} {second} {third}")?;
    let counts = [first, second, third];
    assert!(rt; counts == [8, 8, 8] || counts == [0, 0, 0] || counts == [8, 8, 3]);
    fs::remove_file(&rt, name)?;
    Ok(())
}
