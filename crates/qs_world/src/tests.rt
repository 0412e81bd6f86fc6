use crate::world::World;
use qs_bytes::{Ask, Bytes, Errno, Kind, Name, Verdict};
use qs_outside::{CrashChoice, Fail, MemDisk, Picks};
use qs_part::event::{Actor, Event, GraphNote, Note, NoteReply, Outcome, StripeNote};
use qs_part::tracker::TrackerReply;
use qs_status::OpenBad;
use std::alloc::{AllocError, Global};
use std::process::Abort;
use std::test::Fail as Failure;

/// What is done: sessions come and go, ask for bytes, and steps are made.
#[derive(Clone, Copy, Debug)]
enum Act {
    Attach(u32),
    AttachElsewhere(u32),
    Leave(u32),
    Write(u32, u64, usize, u8),
    Read(u32, u64, usize),
    Zero(u32, u64, usize),
    Flush(u32),
    /// A READ of four bytes whose buffer has five.
    WrongBuffer(u32),
    Step(u64),
    /// A run of whole blocks of a request, or one step.
    Run(u64),
    StepSession(u32),
    Plan(u8, Fail),
    /// Each block is left as it was stored this often, and the export is made anew, read-only.
    Crash(u64),
}

/// What came of it. Of a READ the first and the last byte are told.
#[derive(Clone, Copy, Debug, PartialEq, Eq)]
enum Said {
    Attached(u64, bool),
    NoExport,
    Left,
    Made(u64),
    Enter(u8),
    Route(u64, u64),
    Listed(u64),
    Started,
    NotYet(u64),
    Filled(u64),
    Stored(u64),
    Freed(u64),
    Fault(u64),
    Clean(u64),
    Synced(u64),
    Detached,
    Got(usize, u8, u8),
    Fine,
    Refused(Errno),
    Dropped,
    NotNext,
    Planned,
    Crashed,
    Other,
}

fn noted(note: &Note) -> Said {
    let at = note.at.unwrap_or(0);
    match &note.reply {
        NoteReply::Tracker(TrackerReply::Entered(k)) => Said::Enter(*k),
        NoteReply::Tracker(TrackerReply::Listed(n)) => Said::Listed(*n),
        NoteReply::Tracker(TrackerReply::Started) => Said::Started,
        NoteReply::Tracker(TrackerReply::NotYet(n)) => Said::NotYet(*n),
        NoteReply::Graph(GraphNote::Routed(way)) => Said::Route(way.offset, way.size),
        NoteReply::Graph(GraphNote::Detached) => Said::Detached,
        NoteReply::Stripe(StripeNote::Filled) => Said::Filled(at),
        NoteReply::Stripe(StripeNote::Done) => Said::Stored(at),
        NoteReply::Stripe(StripeNote::Freed) => Said::Freed(at),
        NoteReply::Stripe(StripeNote::Fault) => Said::Fault(at),
        NoteReply::Stripe(StripeNote::Clean) => Said::Clean(at),
        NoteReply::Stripe(StripeNote::Synced) => Said::Synced(at),
        _ => Said::Other,
    }
}

fn answered(verdict: &Verdict) -> Said {
    match verdict {
        Verdict::Got(bytes) => match bytes.as_slice() {
            [first, .., last] => Said::Got(bytes.len(), *first, *last),
            _ => Said::Got(bytes.len(), 0, 0),
        },
        Verdict::Fine => Said::Fine,
        Verdict::Refused(errno) => Said::Refused(*errno),
        Verdict::Dropped => Said::Dropped,
    }
}

fn told(outcome: &Outcome) -> Said {
    match outcome {
        Outcome::Attached(info) => Said::Attached(info.size, info.writable),
        Outcome::NoExport => Said::NoExport,
        Outcome::Left => Said::Left,
        Outcome::Made(r) => Said::Made(*r),
        Outcome::Moved(note) => noted(note),
        Outcome::Answered(verdict, _) => answered(verdict),
        Outcome::NotNext => Said::NotNext,
        _ => Said::Other,
    }
}

fn ask(kind: Kind, offset: u64, length: usize) -> Ask {
    Ask {
        kind,
        fua: false,
        flags_fit: true,
        cookie: 0,
        offset,
        length: length as u64,
    }
}

fn bytes(alloc: Global, length: usize, byte: u8) -> Result<Bytes, AllocError> {
    Ok(Bytes::of(vec![in alloc; byte; length]?))
}

fn name(text: &[u8]) -> Result<Name, Failure> {
    match Name::of(text) {
        Some(name) => Ok(name),
        None => Err(Failure::new("no name")),
    }
}

fn asked(session: u32, ask: Ask, body: Option<Bytes>) -> Event {
    Event::Ask { session, ask, body }
}

fn stepped(actor: Actor) -> Event {
    Event::Step { actor, now: 0 }
}

fn event(alloc: Global, act: Act) -> Result<Event, Failure> {
    Ok(match act {
        Act::Attach(session) => Event::Attach {
            session,
            name: name(b"disk")?,
        },
        Act::AttachElsewhere(session) => Event::Attach {
            session,
            name: name(b"other")?,
        },
        Act::Leave(session) => Event::Leave { session },
        Act::Write(s, offset, length, byte) => {
            let body = bytes(alloc, length, byte)?;
            asked(s, ask(Kind::Write, offset, length), Some(body))
        }
        Act::Read(s, offset, length) => {
            let body = bytes(alloc, length, 0)?;
            asked(s, ask(Kind::Read, offset, length), Some(body))
        }
        Act::Zero(s, offset, length) => {
            let mut zero = ask(Kind::Zero, offset, length);
            zero.fua = true;
            asked(s, zero, None)
        }
        Act::Flush(s) => asked(s, ask(Kind::Flush, 0, 0), None),
        Act::WrongBuffer(s) => asked(s, ask(Kind::Read, 0, 4), Some(bytes(alloc, 5, 0)?)),
        Act::Step(r) => stepped(Actor::Request(r)),
        Act::StepSession(s) => stepped(Actor::Session(s)),
        Act::Plan(_, _) | Act::Crash(_) | Act::Run(_) => Event::Leave { session: 99 },
    })
}

fn play(
    rt: &impl Abort,
    alloc: Global,
    world: &mut World<MemDisk>,
    script: &[(Act, Said)],
) -> Result<(), Failure> {
    for (act, want) in script.iter() {
        let came = match *act {
            Act::Plan(stripe, fail) => {
                assert!(rt; stripe < 8);
                world.plan(stripe, fail);
                Said::Planned
            }
            Act::Run(r) => told(&world.run_request(r, 0)),
            Act::Crash(rest) => {
                let picks = Picks([(0, 1)].to_vec(alloc)?);
                world.crash(&CrashChoice { rest, picks });
                world.export_disk(name(b"disk")?, false)?;
                Said::Crashed
            }
            other => told(&world.step(event(alloc, other)?)),
        };
        assert_eq!(rt; came, *want);
    }
    Ok(())
}

fn disks(alloc: Global, count: u8) -> Result<Vec<MemDisk>, Failure> {
    let mut disks = Vec::new(alloc);
    for stripe in 0..count {
        disks.push(MemDisk::new(alloc, stripe, 512, 4096, 16)?)?;
    }
    Ok(disks)
}

/// A core over an image of eight blocks, with the export `disk`.
fn world(alloc: Global) -> Result<World<MemDisk>, Failure> {
    match World::new(alloc, disks(alloc, 8)?, name(b"file0")?, false) {
        Ok(mut world) => match world.export_disk(name(b"disk")?, true) {
            Ok(()) => Ok(world),
            Err(_) => Err(Failure::new("no memory")),
        },
        Err(_) => Err(Failure::new("no image")),
    }
}

#[test]
fn a_padded_write_step_by_step(rt: HostRuntime) -> Result<(), Failure> {
    let mut world = world(rt.alloc())?;
    let script = [
        (Act::AttachElsewhere(1), Said::NoExport),
        (Act::Attach(1), Said::Attached(4096, true)),
        (Act::Attach(1), Said::NotNext),
        (Act::Write(1, 510, 4, 0xaa), Said::Made(0)),
        (Act::Step(0), Said::Enter(0)),
        (Act::Step(0), Said::Route(0, 4096)),
        (Act::Step(0), Said::Listed(0)),
        (Act::Step(0), Said::Started),
        (Act::Step(0), Said::Filled(0)),
        (Act::Step(0), Said::Filled(1)),
        (Act::Step(0), Said::Stored(0)),
        (Act::Step(0), Said::Stored(1)),
        (Act::Step(0), Said::Fine),
        (Act::Step(0), Said::NotNext),
        (Act::Read(1, 509, 3), Said::Made(1)),
        (Act::Step(1), Said::Enter(0)),
        (Act::Step(1), Said::Route(0, 4096)),
        (Act::Step(1), Said::Listed(1)),
        (Act::Step(1), Said::Started),
        (Act::Step(1), Said::Filled(0)),
        (Act::Step(1), Said::Got(3, 0, 0xaa)),
    ];
    play(&rt, rt.alloc(), &mut world, &script)
}

#[test]
fn two_writers_of_one_block_both_keep_their_bytes(rt: HostRuntime) -> Result<(), Failure> {
    let mut world = world(rt.alloc())?;
    let script = [
        (Act::Attach(1), Said::Attached(4096, true)),
        (Act::Attach(2), Said::Attached(4096, true)),
        (Act::Write(1, 0, 256, 0x11), Said::Made(0)),
        (Act::Write(2, 256, 256, 0x22), Said::Made(1)),
        (Act::Step(0), Said::Enter(0)),
        (Act::Step(1), Said::Enter(1)),
        (Act::Step(0), Said::Route(0, 4096)),
        (Act::Step(1), Said::Route(0, 4096)),
        (Act::Step(0), Said::Listed(0)),
        (Act::Step(1), Said::Listed(1)),
        (Act::Step(0), Said::Started),
        (Act::Step(1), Said::NotYet(0)),
        (Act::Step(0), Said::Filled(0)),
        (Act::Step(0), Said::Stored(0)),
        (Act::Step(0), Said::Fine),
        (Act::Step(1), Said::Started),
        (Act::Step(1), Said::Filled(0)),
        (Act::Step(1), Said::Stored(0)),
        (Act::Step(1), Said::Fine),
        (Act::Read(1, 0, 512), Said::Made(2)),
        (Act::Step(2), Said::Enter(0)),
        (Act::Step(2), Said::Route(0, 4096)),
        (Act::Step(2), Said::Listed(2)),
        (Act::Step(2), Said::Started),
        (Act::Step(2), Said::Filled(0)),
        (Act::Step(2), Said::Got(512, 0x11, 0x22)),
    ];
    play(&rt, rt.alloc(), &mut world, &script)
}

#[test]
fn zeros_with_fua_and_a_flush_sync_what_was_stored(rt: HostRuntime) -> Result<(), Failure> {
    let mut world = world(rt.alloc())?;
    let script = [
        (Act::Attach(1), Said::Attached(4096, true)),
        (Act::Zero(1, 100, 300), Said::Made(0)),
        (Act::Step(0), Said::Enter(0)),
        (Act::Step(0), Said::Route(0, 4096)),
        (Act::Step(0), Said::Listed(0)),
        (Act::Step(0), Said::Started),
        (Act::Step(0), Said::Filled(0)),
        (Act::Step(0), Said::Stored(0)),
        (Act::Step(0), Said::Synced(0)),
        (Act::Step(0), Said::Fine),
        (Act::Write(1, 0, 512, 0x11), Said::Made(1)),
        (Act::Step(1), Said::Enter(0)),
        (Act::Step(1), Said::Route(0, 4096)),
        (Act::Step(1), Said::Listed(1)),
        (Act::Step(1), Said::Started),
        (Act::Step(1), Said::Stored(0)),
        (Act::Step(1), Said::Fine),
        (Act::Plan(0, Fail::Sync), Said::Planned),
        (Act::Flush(1), Said::Made(2)),
        (Act::Step(2), Said::Enter(0)),
        (Act::Step(2), Said::Route(0, 4096)),
        (Act::Step(2), Said::Fault(0)),
        (Act::Step(2), Said::Refused(Errno::Io)),
        (Act::Flush(1), Said::Made(3)),
        (Act::Step(3), Said::Enter(0)),
        (Act::Step(3), Said::Route(0, 4096)),
        (Act::Step(3), Said::Synced(0)),
        (Act::Step(3), Said::Clean(1)),
    ];
    play(&rt, rt.alloc(), &mut world, &script)
}

#[test]
fn a_refused_disk_and_refused_asks(rt: HostRuntime) -> Result<(), Failure> {
    let mut world = world(rt.alloc())?;
    let script = [
        (Act::Attach(1), Said::Attached(4096, true)),
        (Act::Write(1, 510, 4, 0xaa), Said::Made(0)),
        (Act::Step(0), Said::Enter(0)),
        (Act::Step(0), Said::Route(0, 4096)),
        (Act::Step(0), Said::Listed(0)),
        (Act::Step(0), Said::Started),
        (Act::Step(0), Said::Filled(0)),
        (Act::Plan(0, Fail::Load), Said::Planned),
        (Act::Step(0), Said::Fault(1)),
        (Act::Step(0), Said::Freed(0)),
        (Act::Step(0), Said::Refused(Errno::Io)),
        (Act::WrongBuffer(1), Said::Made(1)),
        (Act::Step(1), Said::Refused(Errno::NoMem)),
        (Act::Write(1, 4095, 2, 0xaa), Said::Made(2)),
        (Act::Step(2), Said::Enter(0)),
        (Act::Step(2), Said::Route(0, 4096)),
        (Act::Step(2), Said::Refused(Errno::NoSpace)),
        (Act::Write(2, 0, 1, 0), Said::NotNext),
        (Act::Step(9), Said::NotNext),
    ];
    play(&rt, rt.alloc(), &mut world, &script)
}

#[test]
fn a_refused_store_leaves_what_was_planned(rt: HostRuntime) -> Result<(), Failure> {
    let mut world = world(rt.alloc())?;
    let script = [
        (Act::Attach(1), Said::Attached(4096, true)),
        (Act::Plan(0, Fail::StoreOld), Said::Planned),
        (Act::Write(1, 0, 512, 0x11), Said::Made(0)),
        (Act::Step(0), Said::Enter(0)),
        (Act::Step(0), Said::Route(0, 4096)),
        (Act::Step(0), Said::Listed(0)),
        (Act::Step(0), Said::Started),
        (Act::Step(0), Said::Fault(0)),
        (Act::Step(0), Said::Refused(Errno::Io)),
        (Act::Read(1, 0, 512), Said::Made(1)),
        (Act::Step(1), Said::Enter(0)),
        (Act::Step(1), Said::Route(0, 4096)),
        (Act::Step(1), Said::Listed(1)),
        (Act::Step(1), Said::Started),
        (Act::Step(1), Said::Filled(0)),
        (Act::Step(1), Said::Got(512, 0, 0)),
        (Act::Plan(0, Fail::StoreNew), Said::Planned),
        (Act::Write(1, 0, 512, 0x22), Said::Made(2)),
        (Act::Step(2), Said::Enter(0)),
        (Act::Step(2), Said::Route(0, 4096)),
        (Act::Step(2), Said::Listed(2)),
        (Act::Step(2), Said::Started),
        (Act::Step(2), Said::Fault(0)),
        (Act::Step(2), Said::Refused(Errno::Io)),
        (Act::Plan(1, Fail::Load), Said::Planned),
        (Act::Read(1, 0, 512), Said::Made(3)),
        (Act::Step(3), Said::Enter(0)),
        (Act::Step(3), Said::Route(0, 4096)),
        (Act::Step(3), Said::Listed(3)),
        (Act::Step(3), Said::Started),
        (Act::Step(3), Said::Filled(0)),
        (Act::Step(3), Said::Got(512, 0x22, 0x22)),
    ];
    play(&rt, rt.alloc(), &mut world, &script)
}

#[test]
fn a_session_leaves_and_is_detached(rt: HostRuntime) -> Result<(), Failure> {
    let mut world = world(rt.alloc())?;
    let script = [
        (Act::Attach(1), Said::Attached(4096, true)),
        (Act::Write(1, 0, 4, 0xaa), Said::Made(0)),
        (Act::Read(1, 0, 4), Said::Made(1)),
        (Act::Step(0), Said::Enter(0)),
        (Act::StepSession(1), Said::NotNext),
        (Act::Leave(1), Said::Left),
        (Act::Leave(1), Said::NotNext),
        (Act::Attach(1), Said::NotNext),
        (Act::Read(1, 0, 4), Said::NotNext),
        (Act::StepSession(1), Said::NotNext),
        (Act::Step(0), Said::Dropped),
        (Act::StepSession(1), Said::NotNext),
        (Act::Step(1), Said::Dropped),
        (Act::StepSession(1), Said::Detached),
        (Act::StepSession(1), Said::NotNext),
        (Act::Attach(1), Said::Attached(4096, true)),
    ];
    play(&rt, rt.alloc(), &mut world, &script)
}

#[test]
fn a_crash_leaves_the_image_alone_and_numbers_go_on(rt: HostRuntime) -> Result<(), Failure> {
    let mut world = world(rt.alloc())?;
    let script = [
        (Act::Attach(1), Said::Attached(4096, true)),
        (Act::Write(1, 0, 512, 0x11), Said::Made(0)),
        (Act::Step(0), Said::Enter(0)),
        (Act::Step(0), Said::Route(0, 4096)),
        (Act::Step(0), Said::Listed(0)),
        (Act::Step(0), Said::Started),
        (Act::Step(0), Said::Stored(0)),
        (Act::Step(0), Said::Fine),
        (Act::Write(1, 514, 4, 0x22), Said::Made(1)),
        (Act::Step(1), Said::Enter(0)),
        (Act::Step(1), Said::Route(0, 4096)),
        (Act::Step(1), Said::Listed(1)),
        (Act::Step(1), Said::Started),
        (Act::Step(1), Said::Filled(1)),
        (Act::Plan(0, Fail::Load), Said::Planned),
        (Act::Crash(0), Said::Crashed),
        (Act::Step(1), Said::NotNext),
        (Act::Leave(1), Said::NotNext),
        (Act::Attach(2), Said::Attached(4096, false)),
        (Act::Read(2, 0, 1024), Said::Made(2)),
        (Act::Step(2), Said::Enter(0)),
        (Act::Step(2), Said::Route(0, 4096)),
        (Act::Step(2), Said::Listed(0)),
        (Act::Step(2), Said::Started),
        (Act::Step(2), Said::Filled(0)),
        (Act::Step(2), Said::Filled(1)),
        (Act::Step(2), Said::Got(1024, 0x11, 0)),
    ];
    play(&rt, rt.alloc(), &mut world, &script)
}

#[test]
fn seven_disks_come_back(rt: HostRuntime) -> Result<(), Failure> {
    match World::new(rt.alloc(), disks(rt.alloc(), 7)?, name(b"file0")?, false) {
        Ok(_) => Err(Failure::new("no image was refused")),
        Err((back, bad)) => {
            assert_eq!(&rt; back.len(), 7);
            assert_eq!(&rt; bad, Some(OpenBad::Count(7)));
            let world = world(rt.alloc())?;
            assert_eq!(&rt; world.into_disks().len(), 8);
            Ok(())
        }
    }
}

#[test]
fn whole_blocks_in_runs(rt: HostRuntime) -> Result<(), Failure> {
    let mut world = world(rt.alloc())?;
    let script = [
        (Act::Attach(1), Said::Attached(4096, true)),
        (Act::Write(1, 0, 1536, 0x11), Said::Made(0)),
        (Act::Run(0), Said::Enter(0)),
        (Act::Run(0), Said::Route(0, 4096)),
        (Act::Run(0), Said::Listed(0)),
        (Act::Run(0), Said::Started),
        (Act::Run(0), Said::Stored(2)),
        (Act::Run(0), Said::Fine),
        (Act::Run(0), Said::NotNext),
        (Act::Read(1, 100, 1500), Said::Made(1)),
        (Act::Run(1), Said::Enter(0)),
        (Act::Run(1), Said::Route(0, 4096)),
        (Act::Run(1), Said::Listed(1)),
        (Act::Run(1), Said::Started),
        (Act::Run(1), Said::Filled(0)),
        (Act::Run(1), Said::Filled(2)),
        (Act::Run(1), Said::Filled(3)),
        (Act::Run(1), Said::Got(1500, 0x11, 0)),
        (Act::Plan(0, Fail::Load), Said::Planned),
        (Act::Read(1, 0, 4096), Said::Made(2)),
        (Act::Run(2), Said::Enter(0)),
        (Act::Run(2), Said::Route(0, 4096)),
        (Act::Run(2), Said::Listed(2)),
        (Act::Run(2), Said::Started),
        (Act::Run(2), Said::Fault(0)),
        (Act::Run(2), Said::Refused(Errno::Io)),
    ];
    play(&rt, rt.alloc(), &mut world, &script)
}
