ghost use Rattle.std.specs.Prelude.{◌≡◌, ◌+◌, ◌*◌, ◌^◌, ◌<◌, ◌≤◌, length, map, IfOk, OnErr};
ghost use Rattle.qs_image.specs.Image.{align_of, size_of};
ghost use Rattle.qs_image.specs.Opening.{IsImage};
ghost use Rattle.qs_replay_generated.specs.Summing.{AddsBlock, SumsUp};

use qs_bytes::Memory;
use qs_generate::add_weighted;
use qs_image::load_block;
use qs_outside::Disk;
use std::alloc::Global;

/// A sum and the bytes of block `b`, each times its place in the image counted from 1, modulo 2^64. A block
/// whose load fails adds nothing.
fn with_block<D: Disk>(disks: &mut [D], b: u64, work: &mut [u8], sum: u64) -> u64
    requires image { IsImage (map D.seen disks.old) }
    requires inside { (b + 1) * align_of (map D.seen disks.old) ≤ size_of (map D.seen disks.old) }
    requires whole { length work.old ≡ align_of (map D.seen disks.old) }
    ensures adds { AddsBlock (map D.seen disks.old) (align_of (map D.seen disks.old)) b sum result
        (map D.seen disks.new) }
{
    let place = b * work.len() as u64;
    match load_block(disks, b, work) {
        Ok(()) => add_weighted(sum, place, work),
        Err(_) => sum,
    }
}

/// The sum of the first blocks of an image.
fn sum_of_blocks<D: Disk>(disks: &mut [D], blocks: u64, work: &mut [u8]) -> u64
    requires image { IsImage (map D.seen disks.old) }
    requires inside { blocks * align_of (map D.seen disks.old) ≤ size_of (map D.seen disks.old) }
    requires whole { length work.old ≡ align_of (map D.seen disks.old) }
    ensures { SumsUp D.seen (align_of (map D.seen disks.old)) blocks disks.old result disks.new }
{
    let mut sum = 0u64;
    for b in 0..blocks {
        sum = with_block(disks, b, work, sum);
    }
    sum
}

/// The sum of an image's bytes, each times its place counted from 1, modulo 2^64: its blocks are loaded one
/// after the other, and one whose load fails adds nothing. Nothing is written. Its only error is refused
/// memory for a block.
pub fn sum_of_disks<D: Disk + Drop>(
    alloc: Global,
    disks: &mut Vec<D>,
    align: u32,
    blocks: u64,
) -> Result<u64, Memory>
    requires image { IsImage (map D.seen disks.old.items) }
    requires align { align_of (map D.seen disks.old.items) ≡ align }
    requires size { size_of (map D.seen disks.old.items) ≡ blocks * align }
    ensures ok { IfOk result (λ sum. SumsUp D.seen align blocks disks.old.items sum disks.new.items) }
    ensures err { OnErr result (disks.new.items ≡ disks.old.items) }
{
    let mut work = vec![in alloc; 0; align as usize]?;
    Ok(sum_of_blocks(disks.as_mut_slice(), blocks, work.as_mut_slice()))
}
