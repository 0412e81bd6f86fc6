ghost use Rattle.std.specs.Prelude.{◌≡◌, ◌≤◌, map};
ghost use Rattle.qs_image.specs.Image.{align_of, size_of};
ghost use Rattle.qs_outside.specs.Faults.{Rose};
ghost use Rattle.qs_image.specs.Opening.{IsImage};

use super::*;
use qs_bytes::Memory;
use qs_outside::{Disk, Failed, QuietDisk};
use qs_status::OpenBad;
use std::alloc::Global;
use std::test::Fail;

/// A disk whose calls all fail.
#[derive(Drop)]
struct DeadDisk {
    stripe: u8,
    align: u32,
    length: u64,
    faults: u64,
}

impl DeadDisk {
    fn fail(&mut self) -> Failed
        ensures fixed { self.new ≡ record self.old { faults = self.new.faults } }
        ensures rose { Rose self.old.faults self.new.faults }
        ensures later { self.old.faults ≤ self.new.faults }
    {
        self.faults = self.faults.saturating_add(1);
        Failed
    }
}

impl Disk for DeadDisk {
    ghost use Rattle.std.specs.Prelude.{false, [], None};

    ghost seen = { λ d. record {
      stripe = d.stripe;
      align = d.align;
      size = d.length;
      faults = d.faults;
      tells = false;
      now = λ b. [];
      past = λ b. [];
      planned = None;
      full = None;
    } };

    fn stripe(&self) -> u8 {
        self.stripe
    }

    fn align(&self) -> u32 {
        self.align
    }

    fn length(&self) -> u64 {
        self.length
    }

    fn load(&mut self, _b: u64, _into: &mut [u8]) -> Result<(), Failed> {
        Err(self.fail())
    }

    fn store(&mut self, _b: u64, _bytes: &[u8]) -> Result<(), Failed> {
        Err(self.fail())
    }

    fn sync(&mut self) -> Result<(), Failed> {
        Err(self.fail())
    }
}

/// Eight dead disks, of which the fourth is told apart.
fn dead_disks(
    alloc: Global,
    align: u32,
    length: u64,
    fourth: (u8, u32, u64),
) -> Result<Vec<DeadDisk>, Memory> {
    let mut disks = Vec::new(alloc);
    for k in 0..8 {
        let (stripe, align, length) = if k == 3 { fourth } else { (k, align, length) };
        disks.push(DeadDisk {
            stripe,
            align,
            length,
            faults: 0,
        })?;
    }
    Ok(disks)
}

/// The bytes of a block and of the whole image.
fn shape<D: Disk>(disks: &[D]) -> (usize, u64)
    requires { IsImage (map D.seen disks.now) }
    ensures align { result.0 ≡ align_of (map D.seen disks.now) }
    ensures size { result.1 ≡ size_of (map D.seen disks.now) }
{
    (disks[0].align() as usize, disks[0].length())
}

/// Writes at a place of the image, where the disks are one and the bytes are whole blocks inside it.
fn write<D: Disk>(disks: &mut [D], at: u64, bytes: &[u8]) -> Option<Result<(), Failed>> {
    match open_fault(disks) {
        Some(_) => return None,
        None => {}
    }
    let (align, size) = shape(disks);
    let length = bytes.len();
    let whole = at % align as u64 == 0 && length % align == 0;
    if whole && at <= size && length as u64 <= size - at {
        Some(store_span(disks, align, at, bytes))
    } else {
        None
    }
}

/// Reads from a place of the image, where the disks are one and the bytes are whole blocks inside it.
fn read<D: Disk>(disks: &mut [D], at: u64, into: &mut [u8]) -> Option<Result<(), Failed>> {
    match open_fault(disks) {
        Some(_) => return None,
        None => {}
    }
    let (align, size) = shape(disks);
    let length = into.len();
    let whole = at % align as u64 == 0 && length % align == 0;
    if whole && at <= size && length as u64 <= size - at {
        Some(load_span(disks, align, at, into))
    } else {
        None
    }
}

/// Writes one block, where the disks are an image that has it.
fn write_one<D: Disk>(disks: &mut [D], b: u64, block: &[u8]) -> Option<Result<(), Failed>> {
    match open_fault(disks) {
        Some(_) => return None,
        None => {}
    }
    let (align, size) = shape(disks);
    let end = (u128::from(b) + 1) * align as u128;
    if block.len() == align && end <= u128::from(size) {
        Some(store_block(disks, b, block))
    } else {
        None
    }
}

/// Reads one block, where the disks are an image that has it.
fn read_one<D: Disk>(disks: &mut [D], b: u64, block: &mut [u8]) -> Option<Result<(), Failed>> {
    match open_fault(disks) {
        Some(_) => return None,
        None => {}
    }
    let (align, size) = shape(disks);
    let end = (u128::from(b) + 1) * align as u128;
    if block.len() == align && end <= u128::from(size) {
        Some(load_block(disks, b, block))
    } else {
        None
    }
}

#[test]
fn the_first_broken_rule_is_told(rt: HostRuntime) -> Result<(), Fail> {
    let alloc = rt.alloc();
    let large = (1 << 40) + 512;
    let rows = [
        (512, 4096, (3, 512, 4096), None),
        (4096, 1 << 40, (3, 4096, 1 << 40), None),
        (512, 0, (3, 512, 0), None),
        (512, 700, (4, 512, 700), Some(OpenBad::Different(3))),
        (512, 4096, (3, 4096, 4096), Some(OpenBad::Different(3))),
        (512, 4096, (3, 512, 8192), Some(OpenBad::Different(3))),
        (1024, 700, (3, 1024, 700), Some(OpenBad::Align(1024))),
        (512, 700, (3, 512, 700), Some(OpenBad::Length(700))),
        (512, large, (3, 512, large), Some(OpenBad::TooLarge(large))),
    ];
    for (align, length, fourth, fault) in rows {
        let mut disks = dead_disks(alloc, align, length, fourth)?;
        assert_eq!(rt; open_fault(disks.as_slice()), fault);
        let _last = disks.pop();
        assert_eq!(rt; open_fault(disks.as_slice()), Some(OpenBad::Count(7)));
    }
    Ok(())
}

#[test]
fn dead_disks_fail(rt: HostRuntime) -> Result<(), Fail> {
    let mut disks = dead_disks(rt.alloc(), 512, 4096, (3, 512, 4096))?;
    let mut block = [0; 512];
    let disks = disks.as_mut_slice();
    assert_eq!(rt; read(disks, 512, &mut block), Some(Err(Failed)));
    assert_eq!(rt; write(disks, 512, &block), Some(Err(Failed)));
    assert_eq!(rt; read_one(disks, 7, &mut block), Some(Err(Failed)));
    assert_eq!(rt; write_one(disks, 7, &block), Some(Err(Failed)));
    Ok(())
}

/// Blocks 15 to 17 and 127 to 129 lie on two disks each: 0 and 1, 7 and 0.
#[test]
fn bytes_are_kept_block_by_block(rt: HostRuntime) -> Result<(), Fail> {
    let alloc = rt.alloc();
    let mut disks = Vec::new(alloc);
    for stripe in 0..8 {
        disks.push(QuietDisk::new(alloc, stripe, 512, 130 * 512)?)?;
    }
    let disks = disks.as_mut_slice();
    let mut bytes = vec![in alloc; 0x11; 1536]?;
    bytes.as_mut_slice()[512..1024].copy_from_slice(&[0x22; 512]);
    bytes.as_mut_slice()[1024..].copy_from_slice(&[0x33; 512]);
    for at in [15 * 512, 127 * 512] {
        let written = write(disks, at, bytes.as_slice());
        assert_eq!(rt; written, Some(Ok(())));
    }
    assert_eq!(rt; write_one(disks, 32, &[0x44; 512]), Some(Ok(())));
    let rows = [
        (0, 0x00),
        (14, 0x00),
        (15, 0x11),
        (16, 0x22),
        (17, 0x33),
        (18, 0x00),
        (31, 0x00),
        (32, 0x44),
        (33, 0x00),
        (126, 0x00),
        (127, 0x11),
        (128, 0x22),
        (129, 0x33),
    ];
    for (b, byte) in rows {
        let mut block = [0xff; 512];
        assert_eq!(rt; read_one(disks, b, &mut block), Some(Ok(())));
        assert_eq!(rt; block, [byte; 512], "block {b}");
    }
    let mut back = [0; 1536];
    assert_eq!(rt; read(disks, 15 * 512, &mut back), Some(Ok(())));
    assert_eq!(rt; back.as_slice(), bytes.as_slice());
    Ok(())
}
