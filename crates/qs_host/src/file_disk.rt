ghost use Rattle.std.specs.Prelude.{◌≡◌, ◌<◌, ◌≤ℤ◌, ℕ, pos, map, IfOk};
ghost use Rattle.std.specs.Fd.{file_raw_fd};
ghost use Rattle.qs_host.specs.Stripes.{Shape, stripes};

use crate::faults::Faults;
use crate::file_syncs::FileSyncs;
use crate::image::{handle_of, open_image};
use crate::start_fault::StartFault;
use qs_bytes::STRIPES;
use qs_outside::{Disk, Failed, FailedAt};
use std::alloc::Global;
use std::fs::File;
use std::io;
use std::os::unix::fs::FileExt;
use std::rt::Files;
use std::sync::{Arc, Wait};

/// One stripe of an image file, with a file handle of its own. It tells no content.
#[derive(Drop)]
pub struct FileDisk<R: Wait> {
    rt: R,
    file: File,
    syncs: Arc<FileSyncs, Global>,
    stripe: u8,
    align: u32,
    length: u64,
    faults: Faults,
    ghost known: { stripe < 8 },
    ghost apart: { pos 3 ≤ℤ file_raw_fd file },
}

/// The eight disks that hold an image file, with blocks of `align` bytes. The file is opened and locked once,
/// and each disk has a handle of it whose number is none of a standard stream's.
pub fn file_disks<R: Files<File = File> + Wait + Copy>(
    rt: &R,
    alloc: Global,
    path: &str,
    align: u32,
    read_only: bool,
) -> Result<Vec<FileDisk<R>>, StartFault>
    ensures disks { IfOk result (λ disks. (length : ℕ) ×
        (map {B = Shape} (λ d. (d.stripe, d.align, d.length)) disks.items ≡ stripes 8 align length)) }
{
    let (file, length) = open_image(rt, path, read_only)?;
    let syncs = Arc::new(alloc, FileSyncs::new())?;
    let mut disks = Vec::with_capacity(alloc, usize::from(STRIPES))?;
    for stripe in 0..STRIPES {
        disks.push(FileDisk {
            rt: *rt,
            file: handle_of(&file)?,
            syncs: Arc::try_clone(&syncs)?,
            stripe,
            align,
            length,
            faults: Faults::new(),
        })?;
    }
    Ok(disks)
}

impl<R: Wait> FileDisk<R> {
    /// Why the last call failed that did.
    pub fn reason(&self) -> Option<io::Error>
        ensures { result ≡ self.now.faults.last }
    {
        self.faults.reason()
    }
}

impl<R: Wait> Disk for FileDisk<R> {
    ghost use Rattle.std.specs.Prelude.{false, [], None};

    ghost seen = { λ d. record {
      stripe = d.stripe;
      align = d.align;
      size = d.length;
      faults = d.faults.count;
      tells = false;
      now = λ b. [];
      past = λ b. [];
      planned = None;
      full = None;
    } };

    fn stripe(&self) -> u8 {
        self.stripe
    }

    fn align(&self) -> u32 {
        self.align
    }

    fn length(&self) -> u64 {
        self.length
    }

    fn load(&mut self, b: u64, into: &mut [u8]) -> Result<(), Failed> {
        match self.file.read_exact_at(into, b * u64::from(self.align)) {
            Ok(()) => Ok(()),
            Err(reason) => Err(self.faults.note(reason)),
        }
    }

    fn store(&mut self, b: u64, bytes: &[u8]) -> Result<(), Failed> {
        let done = self.file.write_all_at(bytes, b * u64::from(self.align));
        self.syncs.stored(&self.rt, usize::from(self.stripe));
        match done {
            Ok(()) => Ok(()),
            Err(reason) => Err(self.faults.note(reason)),
        }
    }

    fn sync(&mut self) -> Result<(), Failed> {
        match self
            .syncs
            .sync(&self.rt, &self.file, usize::from(self.stripe))
        {
            Ok(()) => Ok(()),
            Err(reason) => Err(self.faults.note(reason)),
        }
    }

    /// One call of the file for all blocks. Where it fails they are read one by one, so that it is told how
    /// many could be.
    fn load_run(&mut self, b: u64, n: u8, into: &mut [u8]) -> Result<(), FailedAt> {
        match self.file.read_exact_at(into, b * u64::from(self.align)) {
            Ok(()) => Ok(()),
            Err(_) => self.load_each(b, n, into),
        }
    }

    /// One call of the file for all blocks. Where it fails they are written one by one; blocks behind the
    /// one at which that ends may have been written by the first call.
    fn store_run(&mut self, b: u64, n: u8, bytes: &[u8]) -> Result<(), FailedAt> {
        let done = self.file.write_all_at(bytes, b * u64::from(self.align));
        self.syncs.stored(&self.rt, usize::from(self.stripe));
        match done {
            Ok(()) => Ok(()),
            Err(_) => self.store_each(b, n, bytes),
        }
    }
}
