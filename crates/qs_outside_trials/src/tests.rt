ghost use Rattle.std.specs.Prelude.{◌≡◌, ◌*◌, length};
ghost use Rattle.qs_outside.specs.Blocks.{Fixed, IsBlock};
ghost use Rattle.qs_outside.specs.Runs.{IsRun};

use qs_bytes::Bytes;
use qs_outside::{
    Clock, CrashChoice, Disk, Fail, Failed, FailedAt, MemClock, MemDisk, MemSink, MemSource, Picks,
    QuietDisk, RiggedDisk, Sink, Source,
};
use std::sync::Arc;
use std::test::Fail as Failure;

fn read_from<S: Source>(source: &mut S, into: &mut [u8]) -> Result<usize, Failed> {
    source.read(into)
}

fn write_to<S: Sink>(sink: &mut S, piece: &[u8]) -> Result<usize, Failed> {
    sink.write(piece)
}

fn time_of<C: Clock>(clock: &C) -> u64 {
    clock.now()
}

fn shape_of<D: Disk>(disk: &D) -> (u8, u32, u64) {
    (disk.stripe(), disk.align(), disk.length())
}

fn store_to<D: Disk>(disk: &mut D, b: u64, bytes: &[u8]) -> Result<(), Failed>
    requires block { IsBlock (D.seen disk.old) b }
    requires whole { length bytes.now ≡ (D.seen disk.old).align }
    ensures { Fixed (D.seen disk.old) (D.seen disk.new) }
{
    disk.store(b, bytes)
}

fn load_from<D: Disk>(disk: &mut D, b: u64, into: &mut [u8]) -> Result<(), Failed>
    requires block { IsBlock (D.seen disk.old) b }
    requires whole { length into.old ≡ (D.seen disk.old).align }
    ensures { Fixed (D.seen disk.old) (D.seen disk.new) }
{
    disk.load(b, into)
}

fn store_run_to<D: Disk>(disk: &mut D, b: u64, n: u8, bytes: &[u8]) -> Result<(), FailedAt>
    requires run { IsRun (D.seen disk.old) b n }
    requires whole { length bytes.now ≡ n * (D.seen disk.old).align }
    ensures { Fixed (D.seen disk.old) (D.seen disk.new) }
{
    disk.store_run(b, n, bytes)
}

fn load_run_from<D: Disk>(disk: &mut D, b: u64, n: u8, into: &mut [u8]) -> Result<(), FailedAt>
    requires run { IsRun (D.seen disk.old) b n }
    requires whole { length into.old ≡ n * (D.seen disk.old).align }
    ensures { Fixed (D.seen disk.old) (D.seen disk.new) }
{
    disk.load_run(b, n, into)
}

fn sync_of<D: Disk>(disk: &mut D) -> Result<(), Failed>
    ensures { Fixed (D.seen disk.old) (D.seen disk.new) }
{
    disk.sync()
}

fn plan_of<D: RiggedDisk>(disk: &mut D, fail: Fail)
    ensures { Fixed (D.seen disk.old) (D.seen disk.new) }
{
    disk.plan(fail)
}

#[test]
fn reads_are_cut_and_fail_as_told(rt: HostRuntime) -> Result<(), Failure> {
    let bytes = Bytes::of([1, 2, 3, 4, 5, 6].to_vec(rt.alloc())?);
    let cuts = [2, 0, 9].to_vec(rt.alloc())?;
    let fails = [2].to_vec(rt.alloc())?;
    let mut source = MemSource::new(bytes, cuts, fails);
    for (want, front) in [
        (Ok(2), [1, 2, 0, 0]),
        (Ok(1), [3, 0, 0, 0]),
        (Err(Failed), [0, 0, 0, 0]),
        (Ok(3), [4, 5, 6, 0]),
        (Ok(0), [0, 0, 0, 0]),
    ] {
        let mut into = [0u8; 4];
        assert_eq!(rt; read_from(&mut source, &mut into), want);
        assert_eq!(rt; into, front);
    }
    Ok(())
}

#[test]
fn a_full_sink_fails(rt: HostRuntime) -> Result<(), Failure> {
    let fails = [0].to_vec(rt.alloc())?;
    let mut sink = MemSink::new(rt.alloc(), 3, fails)?;
    for (piece, want) in [
        ([7, 7], Err(Failed)),
        ([1, 2], Ok(2)),
        ([3, 4], Ok(1)),
        ([5, 6], Err(Failed)),
    ] {
        assert_eq!(rt; write_to(&mut sink, &piece), want);
    }
    assert_eq!(rt; sink.sent(), [1, 2, 3].as_slice());
    Ok(())
}

#[test]
fn clocks_stand_still(rt: HostRuntime) -> Result<(), Failure> {
    let clock = MemClock::new(7);
    assert_eq!(rt; time_of(&clock), 7);
    assert_eq!(rt; time_of(&&clock), 7);
    assert_eq!(rt; time_of(&Arc::new(rt.alloc(), clock)?), 7);
    Ok(())
}

#[test]
fn a_store_is_loaded_back(rt: HostRuntime) -> Result<(), Failure> {
    let mut disk = QuietDisk::new(rt.alloc(), 1, 2, 256)?;
    assert_eq!(rt; shape_of(&disk), (1, 2, 256));
    let mut into = [0u8; 2];
    assert_eq!(rt; store_to(&mut disk, 17, &[8, 9]), Ok(()));
    assert_eq!(rt; load_from(&mut disk, 17, &mut into), Ok(()));
    assert_eq!(rt; into, [8, 9]);
    assert_eq!(rt; load_from(&mut disk, 16, &mut into), Ok(()));
    assert_eq!(rt; into, [0, 0]);
    assert_eq!(rt; sync_of(&mut disk), Ok(()));
    Ok(())
}

#[test]
fn a_run_ends_at_the_block_that_fails(rt: HostRuntime) -> Result<(), Failure> {
    let mut disk = MemDisk::new(rt.alloc(), 1, 2, 256, 5)?;
    let mut into = [0u8; 6];
    assert_eq!(rt; store_run_to(&mut disk, 17, 3, &[1, 2, 3, 4, 5, 6]), Ok(()));
    assert_eq!(rt; load_run_from(&mut disk, 17, 3, &mut into), Ok(()));
    assert_eq!(rt; into, [1, 2, 3, 4, 5, 6]);
    assert_eq!(rt;
        store_run_to(&mut disk, 18, 3, &[7; 6]),
        Err(FailedAt { done: 2 })
    );
    assert_eq!(rt; load_run_from(&mut disk, 17, 3, &mut into), Ok(()));
    assert_eq!(rt; into, [1, 2, 7, 7, 7, 7]);
    assert_eq!(rt; load_run_from(&mut disk, 18, 3, &mut into), Ok(()));
    assert_eq!(rt; into, [7, 7, 7, 7, 0, 0]);
    plan_of(&mut disk, Fail::Load);
    assert_eq!(rt;
        load_run_from(&mut disk, 16, 3, &mut into),
        Err(FailedAt { done: 0 })
    );
    Ok(())
}

#[test]
fn a_full_disk_fails_until_its_sync(rt: HostRuntime) -> Result<(), Failure> {
    let mut disk = MemDisk::new(rt.alloc(), 0, 2, 256, 1)?;
    assert_eq!(rt; shape_of(&disk), (0, 2, 256));
    let mut into = [0u8; 2];
    assert_eq!(rt; store_to(&mut disk, 3, &[1, 2]), Ok(()));
    assert_eq!(rt; store_to(&mut disk, 3, &[3, 4]), Err(Failed));
    assert_eq!(rt; load_from(&mut disk, 3, &mut into), Ok(()));
    assert_eq!(rt; into, [1, 2]);
    assert_eq!(rt; sync_of(&mut disk), Ok(()));
    assert_eq!(rt; store_to(&mut disk, 3, &[3, 4]), Ok(()));
    assert_eq!(rt; load_from(&mut disk, 3, &mut into), Ok(()));
    assert_eq!(rt; into, [3, 4]);
    Ok(())
}

#[test]
fn each_planned_call_fails_once(rt: HostRuntime) -> Result<(), Failure> {
    let mut disk = MemDisk::new(rt.alloc(), 0, 2, 256, 4)?;
    let mut into = [0u8; 2];
    plan_of(&mut disk, Fail::Load);
    assert_eq!(rt; load_from(&mut disk, 3, &mut into), Err(Failed));
    assert_eq!(rt; load_from(&mut disk, 3, &mut into), Ok(()));
    plan_of(&mut disk, Fail::Sync);
    assert_eq!(rt; sync_of(&mut disk), Err(Failed));
    assert_eq!(rt; sync_of(&mut disk), Ok(()));
    plan_of(&mut disk, Fail::StoreOld);
    assert_eq!(rt; store_to(&mut disk, 3, &[7, 7]), Err(Failed));
    assert_eq!(rt; load_from(&mut disk, 3, &mut into), Ok(()));
    assert_eq!(rt; into, [0, 0]);
    plan_of(&mut disk, Fail::StoreNew);
    assert_eq!(rt; store_to(&mut disk, 3, &[7, 7]), Err(Failed));
    assert_eq!(rt; load_from(&mut disk, 3, &mut into), Ok(()));
    assert_eq!(rt; into, [7, 7]);
    assert_eq!(rt; store_to(&mut disk, 3, &[8, 8]), Ok(()));
    Ok(())
}

#[test]
fn a_later_plan_of_a_store_replaces_the_earlier(rt: HostRuntime) -> Result<(), Failure> {
    let mut disk = MemDisk::new(rt.alloc(), 0, 2, 256, 1)?;
    let mut into = [0u8; 2];
    plan_of(&mut disk, Fail::StoreOld);
    plan_of(&mut disk, Fail::StoreNew);
    assert_eq!(rt; store_to(&mut disk, 3, &[7, 7]), Err(Failed));
    assert_eq!(rt; load_from(&mut disk, 3, &mut into), Ok(()));
    assert_eq!(rt; into, [7, 7]);
    plan_of(&mut disk, Fail::StoreNew);
    assert_eq!(rt; store_to(&mut disk, 3, &[8, 8]), Err(Failed));
    assert_eq!(rt; load_from(&mut disk, 3, &mut into), Ok(()));
    assert_eq!(rt; into, [7, 7]);
    assert_eq!(rt; sync_of(&mut disk), Ok(()));
    assert_eq!(rt; store_to(&mut disk, 3, &[8, 8]), Ok(()));
    Ok(())
}

fn crash_of<D: RiggedDisk>(disk: &mut D, choice: &CrashChoice)
    ensures { Fixed (D.seen disk.old) (D.seen disk.new) }
{
    disk.crash(choice)
}

#[test]
fn a_crash_leaves_the_chosen_contents(rt: HostRuntime) -> Result<(), Failure> {
    let none: [(u64, u64); 0] = [];
    for (rest, pairs, third, fourth) in [
        (0, none.as_slice(), 0, 0),
        (1, none.as_slice(), 1, 7),
        (2, none.as_slice(), 2, 7),
        (u64::MAX, none.as_slice(), 2, 7),
        (0, [(3, 1)].as_slice(), 1, 0),
        (2, [(3, 1), (3, 0), (19, 1), (999, 1)].as_slice(), 0, 7),
        (0, [(4, 5), (3, 5)].as_slice(), 2, 7),
    ] {
        let mut disk = MemDisk::new(rt.alloc(), 0, 2, 256, 3)?;
        let mut into = [0u8; 2];
        assert_eq!(rt; store_to(&mut disk, 3, &[1, 1]), Ok(()));
        assert_eq!(rt; store_to(&mut disk, 4, &[7, 7]), Ok(()));
        assert_eq!(rt; store_to(&mut disk, 3, &[2, 2]), Ok(()));
        assert_eq!(rt; store_to(&mut disk, 3, &[3, 3]), Err(Failed));
        plan_of(&mut disk, Fail::Load);
        let picks = Picks(pairs.to_vec(rt.alloc())?);
        crash_of(&mut disk, &CrashChoice { rest, picks });
        assert_eq!(rt; load_from(&mut disk, 3, &mut into), Ok(()));
        assert_eq!(rt; into, [third, third]);
        assert_eq!(rt; load_from(&mut disk, 4, &mut into), Ok(()));
        assert_eq!(rt; into, [fourth, fourth]);
        let choice = CrashChoice {
            rest: 9,
            picks: Picks(none.to_vec(rt.alloc())?),
        };
        crash_of(&mut disk, &choice);
        assert_eq!(rt; load_from(&mut disk, 3, &mut into), Ok(()));
        assert_eq!(rt; into, [third, third]);
        assert_eq!(rt; store_to(&mut disk, 3, &[8, 8]), Ok(()));
    }
    Ok(())
}

#[test]
fn a_refused_store_may_come_back_by_a_crash(rt: HostRuntime) -> Result<(), Failure> {
    let mut disk = MemDisk::new(rt.alloc(), 0, 2, 256, 3)?;
    let mut into = [0u8; 2];
    plan_of(&mut disk, Fail::StoreOld);
    assert_eq!(rt; store_to(&mut disk, 3, &[7, 7]), Err(Failed));
    let picks = Picks([(3, 1)].to_vec(rt.alloc())?);
    crash_of(&mut disk, &CrashChoice { rest: 0, picks });
    assert_eq!(rt; load_from(&mut disk, 3, &mut into), Ok(()));
    assert_eq!(rt; into, [7, 7]);
    Ok(())
}
