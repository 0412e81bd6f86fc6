ghost use Rattle.std.specs.Prelude.{◌≡◌, ◌<◌, ◌^◌, length};
ghost use Rattle.qs_outside.specs.Blocks.{Fixed, IsBlock};
ghost use Rattle.qs_links.specs.Starts.{started_after};

use crate::{
    Acceptor, ClosureSpawner, CountSpawner, Flag, Gate, GatedDisk, GatedLink, Link, MemAcceptor,
    MemLink, MemWire, Spawner, Tried, Wire,
};
use qs_bytes::Bytes;
use qs_outside::{Disk, Failed, MemSink, MemSource, QuietDisk, Sink, Source};
use std::alloc::Global;
use std::sync::{Arc, Wait};
use std::test::Fail;
use std::thread::join;

fn link_of(
    alloc: Global,
    bytes: &[u8],
    cuts: &[usize],
    bad_reads: &[u64],
    bad_writes: &[u64],
) -> Result<MemLink, Fail> {
    let source = MemSource::new(
        Bytes::of(bytes.to_vec(alloc)?),
        cuts.to_vec(alloc)?,
        bad_reads.to_vec(alloc)?,
    );
    let sink = MemSink::new(alloc, 16, bad_writes.to_vec(alloc)?)?;
    Ok(MemLink::new(source, sink))
}

fn echo<L: Link>(link: &mut L, into: &mut [u8]) -> Result<usize, Failed> {
    let count = link.read(into)?;
    link.write(&into[..count])
}

fn read_from<W: Wire>(wire: &mut W, into: &mut [u8]) -> Tried {
    wire.try_read(into)
}

fn write_to<W: Wire>(wire: &mut W, piece: &[u8]) -> Tried {
    wire.try_write(piece)
}

fn accept_from<A: Acceptor, R: Wait>(acceptor: &mut A, rt: &R) -> Result<A::L, Failed> {
    acceptor.accept(rt)
}

fn load_from<D: Disk>(disk: &mut D, b: u64, into: &mut [u8]) -> Result<(), Failed>
    requires block { IsBlock (D.seen disk.old) b }
    requires whole { length into.old ≡ (D.seen disk.old).align }
    ensures { Fixed (D.seen disk.old) (D.seen disk.new) }
{
    disk.load(b, into)
}

fn start_on<J, S: Spawner<J>>(spawner: &mut S, job: J) -> Result<(), Failed>
    requires ready { S.ready spawner.old }
    requires room { S.started spawner.old < 2 ^ 63 }
    ensures ready { S.ready spawner.new }
    ensures started { S.started spawner.new ≡ started_after (S.started spawner.old) result }
{
    spawner.start(job)
}

fn is_raised<G: Gate>(gate: &G) -> bool {
    gate.raised()
}

#[test]
fn a_link_goes_both_ways(rt: HostRuntime) -> Result<(), Fail> {
    let mut link = link_of(rt.alloc(), &[1, 2, 3, 4, 5], &[2], &[1], &[1])?;
    let mut into = [0; 3];
    assert_eq!(rt; echo(&mut link, &mut into), Ok(2));
    assert_eq!(rt; link.sent(), [1, 2].as_slice());
    assert_eq!(rt; echo(&mut link, &mut into), Err(Failed));
    assert_eq!(rt; echo(&mut link, &mut into), Err(Failed));
    assert_eq!(rt; echo(&mut link, &mut into), Ok(0));
    assert_eq!(rt; link.sent(), [1, 2].as_slice());
    Ok(())
}

#[test]
fn a_wire_is_not_ready_as_told(rt: HostRuntime) -> Result<(), Fail> {
    let link = link_of(rt.alloc(), &[1, 2, 3], &[2], &[1], &[1])?;
    let mut wire = MemWire::new(link, [0, 2].to_vec(rt.alloc())?);
    let mut into = [0; 4];
    assert_eq!(rt; read_from(&mut wire, &mut into), Tried::NotReady);
    assert_eq!(rt; read_from(&mut wire, &mut into), Tried::Did(2));
    assert_eq!(rt; write_to(&mut wire, &[7, 8]), Tried::NotReady);
    assert_eq!(rt; write_to(&mut wire, &[7, 8]), Tried::Did(2));
    assert_eq!(rt; write_to(&mut wire, &[9]), Tried::Failed);
    assert_eq!(rt; read_from(&mut wire, &mut into), Tried::Failed);
    assert_eq!(rt; read_from(&mut wire, &mut []), Tried::Did(0));
    assert_eq!(rt; read_from(&mut wire, &mut into), Tried::Did(1));
    assert_eq!(rt; read_from(&mut wire, &mut into), Tried::Ended);
    assert_eq!(rt; wire.link().sent(), [7, 8].as_slice());
    Ok(())
}

#[test]
fn a_load_waits_for_its_gate(rt: HostRuntime) -> Result<(), Fail> {
    let (begun, gate) = (Flag::new(), Flag::new());
    let inner = QuietDisk::new(rt.alloc(), 0, 2, 4)?;
    let mut disk = GatedDisk::new(inner, &begun, &gate, 3);
    let mut into = [9; 2];
    assert_eq!(rt; disk.store(1, &[5, 6]), Ok(()));
    assert!(rt; !is_raised(&begun));
    assert_eq!(rt; load_from(&mut disk, 1, &mut into), Err(Failed));
    assert!(rt; is_raised(&begun) && !is_raised(&gate));
    gate.raise();
    assert_eq!(rt; load_from(&mut disk, 1, &mut into), Ok(()));
    assert_eq!(rt; into, [5, 6]);
    assert_eq!(rt;
        (disk.stripe(), disk.align(), disk.length(), disk.sync()),
        (0, 2, 4, Ok(()))
    );
    Ok(())
}

#[test]
fn a_link_raises_its_gate_behind_so_many_bytes(rt: HostRuntime) -> Result<(), Fail> {
    let gate = Flag::new();
    let mut link = GatedLink::new(link_of(rt.alloc(), &[1, 2, 3], &[], &[], &[1])?, &gate, 3);
    let mut into = [0; 3];
    assert_eq!(rt; echo(&mut link, &mut into), Ok(3));
    assert_eq!(rt; link.write(&[4, 5]), Err(Failed));
    assert!(rt; !is_raised(&gate));
    assert_eq!(rt; link.write(&[4]), Ok(1));
    assert!(rt; is_raised(&gate));
    assert_eq!(rt; link.link().sent(), [1, 2, 3, 4].as_slice());
    Ok(())
}

#[test]
fn a_shared_flag_is_raised_for_all(rt: HostRuntime) -> Result<(), Fail> {
    let mine = Arc::new(rt.alloc(), Flag::new())?;
    let theirs = Arc::try_clone(&mine)?;
    assert!(rt; !is_raised(&theirs));
    Gate::raise(&mine);
    assert!(rt; is_raised(&theirs));
    Ok(())
}

#[test]
fn one_thread_lets_the_load_of_another_through(rt: HostRuntime) -> Result<(), Fail> {
    let (begun, gate) = (Flag::new(), Flag::new());
    let inner = QuietDisk::new(rt.alloc(), 0, 2, 4)?;
    let mut disk = GatedDisk::new(inner, &begun, &gate, 200_000_000);
    let mut into = [9; 2];
    let (loaded, seen) = join(
        &rt,
        || disk.load(0, &mut into),
        || {
            for _ in 0..200_000_000_u64 {
                if begun.raised() {
                    gate.raise();
                    return true;
                }
            }
            false
        },
    );
    assert_eq!(rt; loaded, Ok(()));
    assert!(rt; seen);
    Ok(())
}

#[test]
fn an_acceptor_gives_its_wires_in_order(rt: HostRuntime) -> Result<(), Fail> {
    let alloc = rt.alloc();
    let first = MemWire::new(link_of(alloc, &[1], &[], &[], &[])?, Vec::new(alloc));
    let second = MemWire::new(link_of(alloc, &[2], &[], &[], &[])?, Vec::new(alloc));
    let mut acceptor = MemAcceptor::new(Vec::from_array(alloc, [first, second])?);
    let mut into = [0];
    for expected in 1..3_u8 {
        let mut wire = accept_from(&mut acceptor, &rt)?;
        assert_eq!(rt; wire.try_read(&mut into), Tried::Did(1));
        assert_eq!(rt; into, [expected]);
    }
    assert!(rt; accept_from(&mut acceptor, &rt).is_err());
    Ok(())
}

#[test]
fn spawners_count_what_they_started(rt: HostRuntime) -> Result<(), Fail> {
    let mut counter = CountSpawner::new([1].to_vec(rt.alloc())?);
    assert_eq!(rt; start_on(&mut counter, 7), Ok(()));
    assert_eq!(rt; start_on(&mut counter, 8), Err(Failed));
    assert_eq!(rt; start_on(&mut counter, 9), Ok(()));
    assert_eq!(rt; counter.started(), 2);
    let mut sum = 0;
    let mut spawner = ClosureSpawner::new(|job: u8| {
        let fits = job < 9;
        if fits {
            sum = job;
        }
        fits
    });
    assert_eq!(rt; start_on(&mut spawner, 7), Ok(()));
    assert_eq!(rt; start_on(&mut spawner, 9), Err(Failed));
    assert_eq!(rt; spawner.started(), 1);
    Ok(())
}
