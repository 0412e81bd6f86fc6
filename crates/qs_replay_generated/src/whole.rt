ghost use Rattle.std.specs.Prelude.{◌≡◌, ◌*◌, ◌<◌, map};
ghost use Rattle.qs_image.specs.Image.{align_of, size_of};
ghost use Rattle.qs_image.specs.Opening.{IsImage};
ghost use Rattle.qs_stream.specs.Buffers.{new_buffers};
ghost use Rattle.qs_replay_generated.specs.Generating.{CountsFault, Generates, Prints, RunsCore, TellsTotals, status_of as the_status};

use crate::counts::Counts;
use crate::making::make_run;
use crate::sum::sum_of_disks;
use qs_bytes::Bytes;
use qs_calls::open_core;
use qs_generate::{GeneratedRun, RunTotals, put_totals};
use qs_outside::{Disk, RiggedDisk, Sink};
use qs_replay_lines::{Desk, Stop, Table};
use qs_status::Status;
use qs_stream::Stream;
use qs_world::world::World;
use std::alloc::Global;
use std::mem;

/// Writes a line. What of it was written where that failed is a front of it.
fn print_line<O: Sink>(stream: &mut Stream, output: &mut O, line: &Bytes) -> Status
    requires { stream.old ≡ new_buffers }
    ensures prints { Prints line.now (O.sent output.old) result (O.sent output.new) }
    ensures cause { CountsFault result (O.write_faults output.old) (O.write_faults output.new) }
{
    stream.put(output, line.as_slice());
    match stream.flush(output) {
        Ok(()) => Status::Done,
        Err(_) => Status::WriteFault,
    }
}

/// Sums up what the disks hold, and writes the line of a run that came to these counts.
fn tell_totals<O: Sink, D: Disk + Drop>(
    alloc: Global,
    align: u32,
    blocks: u64,
    counts: Counts,
    output: &mut O,
    disks: &mut Vec<D>,
) -> Status
    requires image { IsImage (map D.seen disks.old.items) }
    requires align { align_of (map D.seen disks.old.items) ≡ align }
    requires size { size_of (map D.seen disks.old.items) ≡ blocks * align }
    ensures tells { TellsTotals D.seen align blocks counts disks.old.items (O.sent output.old) result disks.new.items
        (O.sent output.new) }
    ensures cause { CountsFault result (O.write_faults output.old) (O.write_faults output.new) }
{
    let Ok(mut stream) = Stream::new(alloc) else {
        return Status::Memory;
    };
    let Ok(sum) = sum_of_disks(alloc, disks, align, blocks) else {
        return Status::Memory;
    };
    let totals = RunTotals {
        errors: counts.errors,
        steps: counts.steps,
        sum,
    };
    let mut line = Bytes::of(Vec::new(alloc));
    match put_totals(alloc, &mut line, &totals) {
        Ok(()) => print_line(&mut stream, output, &line),
        Err(_) => Status::Memory,
    }
}

/// The status of a run that ended sooner, behind so many lines.
fn status_of(stop: Stop, lines: u64) -> Status
    ensures { result ≡ the_status stop lines }
{
    match stop {
        Stop::BadLine => Status::BadLine(lines.wrapping_add(1)),
        Stop::NotNext => Status::NotNext(lines.wrapping_add(1)),
        Stop::Memory => Status::Memory,
    }
}

/// The run of a seed, from its first line, over an image of `size` bytes.
fn run_core<D: RiggedDisk + Drop>(
    alloc: Global,
    seed: u64,
    size: u64,
    world: World<D>,
    counts: &mut Counts,
) -> (World<D>, Result<(), Stop>)
    requires { 2048 < size }
    ensures { RunsCore D.Disk.seen seed size world result.1 result.0 counts.new }
{
    let mut desk = Desk {
        world,
        table: Table::new(alloc),
        out: Bytes::of(Vec::new(alloc)),
        alloc,
    };
    let mut run = GeneratedRun::new(seed, size);
    let mut live = Vec::new(alloc);
    let made = make_run(&mut desk, &mut run, &mut live, counts);
    let Desk { world, .. } = desk;
    (world, made)
}

/// Makes up a run from a seed over the image that the disks hold, if they hold one: 10,000 rounds of
/// requests and their steps. Then one line tells how many answers weren't 0, how many steps there were,
/// and the sum of the image's bytes. The disks come back as the run left them.
pub fn generate_disks<O: Sink, D: RiggedDisk + Drop>(
    alloc: Global,
    seed: u64,
    align: u32,
    blocks: u64,
    output: &mut O,
    disks: &mut Vec<D>,
) -> Status
    requires long { 2048 < blocks * align }
    requires image { IsImage (map D.Disk.seen disks.old.items) →
        (align_of (map D.Disk.seen disks.old.items) ≡ align)
        × (size_of (map D.Disk.seen disks.old.items) ≡ blocks * align) }
    ensures generates { Generates D.Disk.seen seed align blocks disks.old.items (O.sent output.old) result
        disks.new.items (O.sent output.new) }
    ensures cause { CountsFault result (O.write_faults output.old) (O.write_faults output.new) }
{
    let taken = mem::replace(disks, Vec::new(alloc));
    let world = match open_core(alloc, taken, false) {
        Ok(world) => world,
        Err((back, status)) => {
            *disks = back;
            return status;
        }
    };
    let mut counts = Counts {
        errors: 0,
        steps: 0,
        lines: 0,
    };
    let size = blocks * u64::from(align);
    let (world, made) = run_core(alloc, seed, size, world, &mut counts);
    *disks = world.into_disks();
    match made {
        Ok(()) => tell_totals(alloc, align, blocks, counts, output, disks),
        Err(stop) => status_of(stop, counts.lines),
    }
}
