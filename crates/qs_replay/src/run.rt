ghost use Rattle.std.specs.Prelude.{◌≡◌, ◌≢◌, ◌*◌, map, None};
ghost use Rattle.qs_image.specs.Image.{align_of, size_of};
ghost use Rattle.qs_image.specs.Opening.{IsImage};
ghost use Rattle.qs_stream.specs.Flows.{Rises};
ghost use Rattle.qs_replay_words.specs.Words.{IsImageOf, TellsWords};
ghost use Rattle.qs_replay_words.specs.declared.words.ReplayWords.{ReplayWords as Told};
ghost use Rattle.qs_replay.specs.Runs.{Opening, Ran, RanBy};
ghost use Rattle.qs_replay.specs.Scripts.{side_of};

use crate::replay::replay;
use qs_bytes::Bytes;
use qs_calls::open_core;
use qs_outside::{RiggedDisk, Sink, Source};
use qs_replay_generated::generate_disks;
use qs_replay_lines::{Desk, Table};
use qs_replay_words::{ReplayWords, replay_words};
use qs_script::LineCutter;
use qs_status::Status;
use qs_stream::Stream;
use std::alloc::Global;
use std::mem;

/// How many lines one call reads at most.
const MOST_LINES: u64 = 1 << 32;

/// The fewest blocks of an image that a made-up run is over.
const FEWEST_BLOCKS: u64 = 8;

/// Replays the script over the image that the disks hold, if they hold one.
pub fn replay_disks<I: Source, O: Sink, D: RiggedDisk + Drop>(
    alloc: Global,
    input: &mut I,
    output: &mut O,
    disks: &mut Vec<D>,
) -> Status
    ensures opening { Opening D.Disk.seen disks.old.items (I.left input.old) (O.sent output.old) result
        disks.new.items (I.left input.new) (O.sent output.new) }
    ensures cause { Rises (side_of result) (I.read_faults input.old) (I.read_faults input.new)
        (O.write_faults output.old) (O.write_faults output.new) }
{
    let Ok(mut cutter) = LineCutter::new(alloc) else {
        return Status::Memory;
    };
    let Ok(mut stream) = Stream::new(alloc) else {
        return Status::Memory;
    };
    let taken = mem::replace(disks, Vec::new(alloc));
    let world = match open_core(alloc, taken, false) {
        Ok(world) => world,
        Err((back, status)) => {
            *disks = back;
            return status;
        }
    };
    let mut desk = Desk {
        world,
        table: Table::new(alloc),
        out: Bytes::of(Vec::new(alloc)),
        alloc,
    };
    let status = replay(
        &mut desk,
        &mut cutter,
        &mut stream,
        input,
        output,
        MOST_LINES,
    );
    let Desk { world, .. } = desk;
    *disks = world.into_disks();
    status
}

/// Replays a script, or makes up a run where the words have a seed, over the image that the disks hold.
fn run_told<I: Source, O: Sink, D: RiggedDisk + Drop>(
    alloc: Global,
    told: ReplayWords,
    input: &mut I,
    output: &mut O,
    disks: &mut Vec<D>,
) -> Status
    requires form { IsImageOf told }
    requires image { told.generate ≢ None → IsImage (map D.Disk.seen disks.old.items) →
        (align_of (map D.Disk.seen disks.old.items) ≡ told.align)
        × (size_of (map D.Disk.seen disks.old.items) ≡ told.blocks * told.align) }
    ensures ran { RanBy told D.Disk.seen disks.old.items (I.left input.old) (O.sent output.old) result disks.new.items
        (I.left input.new) (O.sent output.new) }
    ensures cause { Rises (side_of result) (I.read_faults input.old) (I.read_faults input.new)
        (O.write_faults output.old) (O.write_faults output.new) }
{
    let ReplayWords {
        blocks,
        align,
        generate,
    } = told;
    match generate {
        None => replay_disks(alloc, input, output, disks),
        Some(seed) if blocks >= FEWEST_BLOCKS => {
            generate_disks(alloc, seed, align, blocks, output, disks)
        }
        Some(_) => Status::Usage,
    }
}

/// Replays a script against the core over the image that the disks hold, from the input to the output,
/// and answers how it ended. Where the words have a seed, a run is made up from it instead, the input
/// isn't read, and one line tells what the run came to. It takes no handle, and returns.
///
/// The words are those behind the program's name, `[--blocks N] [--align N] [--generate N]`; a run is
/// made up only over 8 blocks or more. The image is the file node `file0`, under the writable export
/// `disk`. A fault of the input or the output ends the run at that call. The disks come back as the run
/// left them.
pub fn run_replay<I: Source, O: Sink, D: RiggedDisk + Drop>(
    alloc: Global,
    words: &[String],
    input: &mut I,
    output: &mut O,
    disks: &mut Vec<D>,
) -> Status
    requires { (told : Told) → TellsWords words.now told → told.generate ≢ None →
        IsImage (map D.Disk.seen disks.old.items) →
        (align_of (map D.Disk.seen disks.old.items) ≡ told.align)
        × (size_of (map D.Disk.seen disks.old.items) ≡ told.blocks * told.align) }
    ensures ran { Ran words.now D.Disk.seen disks.old.items (I.left input.old) (O.sent output.old) result
        disks.new.items (I.left input.new) (O.sent output.new) }
    // A fault is told only where its count rose, and every other end leaves the count.
    ensures cause { Rises (side_of result) (I.read_faults input.old) (I.read_faults input.new)
        (O.write_faults output.old) (O.write_faults output.new) }
{
    match replay_words(words) {
        Some(told) => run_told(alloc, told, input, output, disks),
        None => Status::Usage,
    }
}
