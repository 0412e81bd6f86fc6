ghost use Rattle.std.specs.Prelude.{◌≡◌, ◌+◌, ◌*◌, ◌%◌, ◌≤◌, length, map};
ghost use Rattle.qs_image.specs.Image.{align_of, size_of, Loads, Stores};
ghost use Rattle.qs_image.specs.Opening.{IsImage};

use qs_bytes::stripe_of;
use qs_outside::{Disk, Failed};

/// Reads block `b` of the image into `into`, which has a block's bytes.
pub fn load_block<D: Disk>(disks: &mut [D], b: u64, into: &mut [u8]) -> Result<(), Failed>
    requires image { IsImage (map D.seen disks.old) }
    requires inside { (b + 1) * align_of (map D.seen disks.old) ≤ size_of (map D.seen disks.old) }
    requires whole { length into.old ≡ align_of (map D.seen disks.old) }
    ensures { Loads (map D.seen disks.old) (b * align_of (map D.seen disks.old)) into.new result
        (map D.seen disks.new) }
{
    let k = usize::from(stripe_of(b));
    disks[k].load(b, into)
}

/// Writes block `b` of the image. Where it fails the block is as it was, or written.
pub fn store_block<D: Disk>(disks: &mut [D], b: u64, bytes: &[u8]) -> Result<(), Failed>
    requires image { IsImage (map D.seen disks.old) }
    requires inside { (b + 1) * align_of (map D.seen disks.old) ≤ size_of (map D.seen disks.old) }
    requires whole { length bytes.now ≡ align_of (map D.seen disks.old) }
    ensures { Stores (map D.seen disks.old) (b * align_of (map D.seen disks.old)) bytes.now result
        (map D.seen disks.new) }
{
    let k = usize::from(stripe_of(b));
    disks[k].store(b, bytes)
}

/// Reads the bytes from place `at` on into `into`. Both the place and the number of bytes are
/// multiples of the block, and they lie inside the image.
pub fn load_span<D: Disk>(
    disks: &mut [D],
    align: usize,
    at: u64,
    into: &mut [u8],
) -> Result<(), Failed>
    requires image { IsImage (map D.seen disks.old) }
    requires align { align ≡ align_of (map D.seen disks.old) }
    requires blocks { (at % align ≡ 0) × (length into.old % align ≡ 0) }
    requires inside { at + length into.old ≤ size_of (map D.seen disks.old) }
    ensures { Loads (map D.seen disks.old) at into.new result (map D.seen disks.new) }
{
    let first = at / align as u64;
    for i in 0..into.len() / align {
        let start = i * align;
        match load_block(disks, first + i as u64, &mut into[start..start + align]) {
            Ok(()) => {}
            Err(failed) => return Err(failed),
        }
    }
    Ok(())
}

/// Writes bytes from place `at` on. Both the place and the number of bytes are multiples of the
/// block, and they lie inside the image. Where it fails, a front of them is written at most.
pub fn store_span<D: Disk>(
    disks: &mut [D],
    align: usize,
    at: u64,
    bytes: &[u8],
) -> Result<(), Failed>
    requires image { IsImage (map D.seen disks.old) }
    requires align { align ≡ align_of (map D.seen disks.old) }
    requires blocks { (at % align ≡ 0) × (length bytes.now % align ≡ 0) }
    requires inside { at + length bytes.now ≤ size_of (map D.seen disks.old) }
    ensures { Stores (map D.seen disks.old) at bytes.now result (map D.seen disks.new) }
{
    let first = at / align as u64;
    for i in 0..bytes.len() / align {
        let start = i * align;
        match store_block(disks, first + i as u64, &bytes[start..start + align]) {
            Ok(()) => {}
            Err(failed) => return Err(failed),
        }
    }
    Ok(())
}
