ghost use Rattle.std.specs.Prelude.{◌≡◌, false, true, IfOk};
ghost use Rattle.qs_outside.specs.Journal.{journal_seen};
ghost use Rattle.qs_request_state.specs.Shapes.{IsShape};
ghost use Rattle.qs_task.specs.Tasks.{RunsTo};
ghost use Rattle.qs_shared.specs.Hall.{IsSessionPass};
ghost use Rattle.qs_shared.specs.Passes.{FollowsAll, is_first_pass, own_book, passes_out};

use crate::parts::{SessionPass, Shared};
use qs_bytes::{Ask, Bytes, Kind, Name, Verdict};
use qs_outside::{MemClock, MemDisk};
use qs_part::graph::{GraphOp, GraphReply};
use qs_part::group::{Dir, GroupOp, GroupReply};
use qs_part::part::Part;
use qs_part::runs::{RunOp, RunReply, StripeAnswer, StripeCall};
use qs_part::tracker::{TrackerOp, TrackerReply};
use qs_request::Req;
use qs_request_state::{Blocks, Shape};
use qs_status::OpenBad;
use qs_stripe::geometry::Geometry;
use qs_task::{RequestTask, poll_alone};
use qs_tracker::tracker::Tracker;
use std::alloc::Global;
use std::process::Abort;
use std::sync::Wait;
use std::test::Fail;
use std::thread::{Threads, join};

const IMAGE: Shape = Shape {
    align: 512,
    size: 4096,
};

fn name(text: &[u8]) -> Result<Name, Fail> {
    match Name::of(text) {
        Some(name) => Ok(name),
        None => Err(Fail::new("no name")),
    }
}

/// Disks in memory of these alignments and lengths, one for each stripe but for the fourth, which is of the stripe that
/// is given.
fn disks(alloc: Global, rows: &[(u8, u32, u64)]) -> Result<Vec<MemDisk>, Fail> {
    let mut disks = Vec::new(alloc);
    for (stripe, align, length) in rows.iter().copied() {
        if align > 0 {
            disks.push(MemDisk::new(alloc, stripe, align, length, 16)?)?;
        }
    }
    Ok(disks)
}

/// Stripe, alignment and length of the disks of an image of eight blocks, of which the fourth is so.
fn rows(align: u32, length: u64, fourth: (u8, u32, u64)) -> [(u8, u32, u64); 8] {
    [
        (0, align, length),
        (1, align, length),
        (2, align, length),
        fourth,
        (4, align, length),
        (5, align, length),
        (6, align, length),
        (7, align, length),
    ]
}

/// The turns over such an image, and their first pass.
fn open(alloc: Global, disks: Vec<MemDisk>) -> Result<(Shared<MemDisk>, SessionPass<MemDisk>), Fail>
    ensures of { IfOk result (λ r. IsSessionPass journal_seen r.0 r.1) }
    ensures first { IfOk result (λ r. (is_first_pass r.1 ≡ true) × (passes_out r.1 ≡ 0)) }
{
    match Shared::new(alloc, disks, name(b"file0")?, false) {
        Ok(both) => Ok(both),
        Err(_) => Err(Fail::new("no image")),
    }
}

/// Exports the file node at place 0.
fn export<R: Wait>(
    rt: &R,
    shared: &Shared<MemDisk>,
    first: &mut SessionPass<MemDisk>,
) -> Result<(), Fail>
    requires { IsSessionPass journal_seen shared.now first.old }
    ensures of { IsSessionPass journal_seen shared.now first.new }
    ensures later { FollowsAll first.old first.new }
{
    let disk = name(b"disk")?;
    let add = GraphOp::ExportAdd {
        id: disk,
        name: disk,
        node: name(b"file0")?,
        writable: true,
        share_write: true,
    };
    match shared.call_graph(rt, first, 0, add) {
        GraphReply::Added(_) => Ok(()),
        _ => Err(Fail::new("it wasn't exported")),
    }
}

/// A request of so many bytes, each of which is `byte`, to the export at place 0.
fn request(
    rt: &impl Abort,
    alloc: Global,
    kind: Kind,
    offset: u64,
    length: u64,
    byte: u8,
) -> Result<RequestTask, Fail>
    ensures { IfOk result (λ t. (t.shape ≡ record { align = 512; size = 4096 }) × (t.over ≡ false)) }
{
    let ask = Ask {
        kind,
        fua: false,
        flags_fit: true,
        cookie: 0,
        offset,
        length,
    };
    let body = Bytes::of(vec![in alloc; byte; length as usize]?);
    assert!(rt; body.len() as u64 == ask.length);
    let blocks = Blocks::new(alloc, 512)?;
    let request = Req::new(alloc, 1, ask, 0, Some(body), Some(blocks), IMAGE);
    Ok(RequestTask::new(request, 1))
}

/// Runs a request of a session to its answer.
fn serve<R: Wait>(
    rt: &R,
    shared: &Shared<MemDisk>,
    pass: SessionPass<MemDisk>,
    task: RequestTask,
) -> (Verdict, SessionPass<MemDisk>)
    requires of { IsSessionPass journal_seen shared.now pass }
    requires shape { task.shape ≡ shared.now.shape }
    requires unanswered { task.over ≡ false }
    ensures of { IsSessionPass journal_seen shared.now result.1 }
    ensures runs { RunsTo result.0 task (own_book pass) (own_book result.1) }
    ensures later { FollowsAll pass result.1 }
{
    poll_alone(rt, shared, pass, task, &MemClock::new(0))
}

/// Two sessions on two threads, with a request each.
fn serve_two<R: Threads + Wait + Sync>(
    rt: &R,
    shared: &Shared<MemDisk>,
    first: SessionPass<MemDisk>,
    second: SessionPass<MemDisk>,
    ours: RequestTask,
    theirs: RequestTask,
) -> (
    (Verdict, SessionPass<MemDisk>),
    (Verdict, SessionPass<MemDisk>),
)
    requires of { IsSessionPass journal_seen shared.now first × IsSessionPass journal_seen shared.now second }
    requires shape { (ours.shape ≡ shared.now.shape) × (theirs.shape ≡ shared.now.shape) }
    requires unanswered { (ours.over ≡ false) × (theirs.over ≡ false) }
    ensures of { IsSessionPass journal_seen shared.now result.0.1 × IsSessionPass journal_seen shared.now result.1.1 }
    ensures ours { RunsTo result.0.0 ours (own_book first) (own_book result.0.1) }
    ensures theirs { RunsTo result.1.0 theirs (own_book second) (own_book result.1.1) }
    ensures later { FollowsAll first result.0.1 × FollowsAll second result.1.1 }
{
    join(
        rt,
        move || -> (Verdict, SessionPass<MemDisk>)
            requires { IsSessionPass journal_seen shared.now first × (ours.shape ≡ shared.now.shape)
                × (ours.over ≡ false) }
            ensures { IsSessionPass journal_seen shared.entry.now result.1
                × RunsTo result.0 ours (own_book first) (own_book result.1) × FollowsAll first result.1 }
        { serve(rt, shared, first, ours) },
        move || -> (Verdict, SessionPass<MemDisk>)
            requires { IsSessionPass journal_seen shared.now second × (theirs.shape ≡ shared.now.shape)
                × (theirs.over ≡ false) }
            ensures { IsSessionPass journal_seen shared.entry.now result.1
                × RunsTo result.0 theirs (own_book second) (own_book result.1) × FollowsAll second result.1 }
        { serve(rt, shared, second, theirs) },
    )
}

/// Two sessions write a half of the first block each, at once. The disks and the tracker come back.
fn write_halves<R: Threads + Wait + Sync + Abort>(
    rt: &R,
    alloc: Global,
) -> Result<(Vec<MemDisk>, Tracker), Fail> {
    let (shared, mut first) = open(alloc, disks(alloc, &rows(512, 4096, (3, 512, 4096)))?)?;
    assert!(rt; shared.shape() == IMAGE);
    export(rt, &shared, &mut first)?;
    let second = first.split(alloc, &shared)?;
    let ours = request(rt, alloc, Kind::Write, 0, 256, 0x11)?;
    let theirs = request(rt, alloc, Kind::Write, 256, 256, 0x22)?;
    let ((one, mut first), (two, second)) = serve_two(rt, &shared, first, second, ours, theirs);
    assert!(rt; matches!(one, Verdict::Fine), "{one:?}");
    assert!(rt; matches!(two, Verdict::Fine), "{two:?}");
    first.join(&shared, second);
    Ok(shared.close(first))
}

/// What the first block of the image holds.
fn first_block<R: Wait + Abort>(rt: &R, alloc: Global, disks: Vec<MemDisk>) -> Result<Bytes, Fail> {
    let (shared, mut first) = open(alloc, disks)?;
    assert!(rt; shared.shape() == IMAGE);
    export(rt, &shared, &mut first)?;
    let read = request(rt, alloc, Kind::Read, 0, 512, 0)?;
    let (verdict, _first) = serve(rt, &shared, first, read);
    match verdict {
        Verdict::Got(bytes) => Ok(bytes),
        _ => Err(Fail::new("nothing was read")),
    }
}

#[test]
fn both_halves_of_a_block_stand(rt: HostRuntime) -> Result<(), Fail> {
    let (disks, mut tracker) = write_halves(&rt, rt.alloc())?;
    assert_eq!(rt; tracker.step(TrackerOp::Drained), TrackerReply::Empty);
    let block = first_block(&rt, rt.alloc(), disks)?;
    let ours = block.as_slice().iter().take(256);
    let theirs = block.as_slice().iter().skip(256);
    assert!(rt; ours.eq([0x11; 256].iter()));
    assert!(rt; theirs.eq([0x22; 256].iter()));
    Ok(())
}

#[test]
fn disks_that_are_no_image_are_refused(rt: HostRuntime) -> Result<(), Fail> {
    let table = [
        (8, 512, 4096, (4, 512, 4096), OpenBad::Different(3)),
        (8, 512, 4096, (3, 4096, 4096), OpenBad::Different(3)),
        (8, 512, 4096, (3, 512, 8192), OpenBad::Different(3)),
        (8, 1024, 4096, (3, 1024, 4096), OpenBad::Align(1024)),
        (8, 512, 700, (3, 512, 700), OpenBad::Length(700)),
        (7, 512, 4096, (3, 512, 4096), OpenBad::Count(7)),
    ];
    for (count, align, length, fourth, bad) in table {
        let rows = rows(align, length, fourth);
        let disks = disks(rt.alloc(), &rows[..count])?;
        match Shared::new(rt.alloc(), disks, name(b"file0")?, false) {
            Ok(_) => return Err(Fail::new("no disk was refused")),
            Err(found) => assert_eq!(rt; found, Some(bad)),
        }
    }
    Ok(())
}

/// A group lets one request go where it has no limits, and a run of two blocks is one call.
#[test]
fn group_and_run_are_called(rt: HostRuntime) -> Result<(), Fail> {
    let (shared, mut first) = open(
        rt.alloc(),
        disks(rt.alloc(), &rows(512, 4096, (3, 512, 4096)))?,
    )?;
    let queue = GroupOp::Queue {
        member: 1,
        dir: Dir::Write,
        bytes: 1024,
    };
    let admit = GroupOp::Admit { t: 0, now: 0 };
    assert_eq!(rt;
        shared.call_group(&rt, &mut first, 15, 1, queue),
        GroupReply::Ticket(0)
    );
    assert_eq!(rt;
        shared.call_group(&rt, &mut first, 15, 1, admit),
        GroupReply::Go
    );
    let store = StripeCall::Run(RunOp::Store {
        b: 2,
        k: 0,
        n: 2,
        at: 0,
        buf: Bytes::of(vec![in rt.alloc(); 7; 1024]?),
    });
    let shape = shared.shape();
    let geometry = Geometry {
        stripe: 0,
        align: shape.align,
        size: shape.size,
    };
    assert!(rt; geometry.fits_call(&store));
    let answer = shared.call_stripe(&rt, &mut first, 0, 1, store);
    assert!(rt;
        matches!(answer, StripeAnswer::Run(RunReply::Done(_))),
        "{answer:?}"
    );
    Ok(())
}
