ghost use Rattle.std.specs.Prelude.{◌*◌, ◌≤◌, IfOk};
ghost use Rattle.qs_image.specs.Opening.{IsAlign};
ghost use Rattle.qs_replay.specs.ZeroDisks.{AreDisksOf, AreZeroDisks, IsZeroDisk};

use qs_bytes::{Memory, STRIPES};
use qs_outside::MemDisk;
use qs_replay_words::{ReplayWords, replay_words};
use std::alloc::Global;

/// How many stores a disk keeps before it is full.
const ROOM: u32 = 4096;

/// The disk of one stripe of an image of zeros.
fn zero_disk(alloc: Global, stripe: u8, told: ReplayWords) -> Result<MemDisk, Memory>
    requires align { IsAlign told.align }
    requires blocks { told.blocks ≤ 65536 }
    ensures { IfOk result (IsZeroDisk told.align (told.blocks * told.align) stripe) }
{
    let length = told.blocks * u64::from(told.align);
    MemDisk::new(alloc, stripe, told.align, length, ROOM)
}

/// The eight disks of an image of zeros in memory, of so many blocks: each tells its content, is settled,
/// and keeps 4,096 stores.
fn zero_disks(alloc: Global, told: ReplayWords) -> Result<Vec<MemDisk>, Memory>
    requires align { IsAlign told.align }
    requires blocks { told.blocks ≤ 65536 }
    ensures { IfOk result (λ disks. AreZeroDisks told.align (told.blocks * told.align) disks.items) }
{
    let mut disks = Vec::new(alloc);
    for stripe in 0..STRIPES {
        disks.push(zero_disk(alloc, stripe, told)?)?;
    }
    Ok(disks)
}

/// The disks that the words of the command name: an image of zeros in memory. None where the words aren't
/// of the command's form.
pub fn memory_disks(alloc: Global, words: &[String]) -> Result<Vec<MemDisk>, Memory>
    ensures { IfOk result (λ disks. AreDisksOf words.now disks.items) }
{
    match replay_words(words) {
        Some(told) => zero_disks(alloc, told),
        None => Ok(Vec::new(alloc)),
    }
}
