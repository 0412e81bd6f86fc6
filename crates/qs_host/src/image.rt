ghost use Rattle.std.specs.Prelude.{◌≡◌, ◌≤ℤ◌, pos, IfOk};
ghost use Rattle.std.specs.Fd.{file_raw_fd};
ghost use Rattle.std.specs.Fs.{metadata_mode};
ghost use Rattle.qs_host.specs.Images.{fit, kind_of_mode};

use crate::start_fault::{StartFault, Unfit};
use std::fs::{self, File, Metadata, OpenOptions, TryLockError};
use std::io::{Seek, SeekFrom};
use std::os::fd::AsRawFd;
use std::os::unix::fs::MetadataExt;
use std::rt::Files;

/// The kind of a file.
#[derive(Clone, Copy, Debug, PartialEq, Eq)]
pub enum FileKind {
    File,
    BlockDevice,
    Directory,
    CharacterDevice,
    Pipe,
    Socket,
    Unknown,
}

/// The kind that stands in the mode of a file.
fn kind_of(mode: u32) -> FileKind
    ensures { result ≡ kind_of_mode mode }
{
    match mode & 0o170000 {
        0o100000 => FileKind::File,
        0o060000 => FileKind::BlockDevice,
        0o040000 => FileKind::Directory,
        0o020000 => FileKind::CharacterDevice,
        0o010000 => FileKind::Pipe,
        0o140000 => FileKind::Socket,
        _ => FileKind::Unknown,
    }
}

/// The kind of a file that may be an image: a file or a block device.
fn image_kind(metadata: &Metadata) -> Result<FileKind, StartFault>
    ensures { result ≡ fit (kind_of_mode (metadata_mode metadata.now)) }
{
    match kind_of(metadata.mode()) {
        FileKind::File => Ok(FileKind::File),
        FileKind::BlockDevice => Ok(FileKind::BlockDevice),
        other => Err(StartFault::NotOpened(Unfit::OfKind(other))),
    }
}

/// The bytes of an image: of a file its length, of a block device the place of its end.
fn length_of(file: &mut File) -> Result<u64, StartFault> {
    let metadata = file.metadata()?;
    match image_kind(&metadata)? {
        FileKind::BlockDevice => Ok(file.seek(SeekFrom::End(0))?),
        _ => Ok(metadata.len()),
    }
}

/// Locks the image, for this program alone, or with others that only read it. The lock is of the open file,
/// so each handle holds it, and it ends with the last of them.
fn lock(file: &File, read_only: bool) -> Result<(), StartFault> {
    let locked = if read_only {
        file.try_lock_shared()
    } else {
        file.try_lock()
    };
    match locked {
        Ok(()) => Ok(()),
        Err(TryLockError::WouldBlock) => Err(StartFault::NotOpened(Unfit::InUse)),
        Err(TryLockError::Error(error)) => Err(StartFault::from(error)),
    }
}

/// Another handle of the open file, whose number is none of a standard stream's, also where those are closed.
pub fn handle_of(file: &File) -> Result<File, StartFault>
    ensures { IfOk result (λ handle. pos 3 ≤ℤ file_raw_fd handle) }
{
    let handle = file.try_clone()?;
    if handle.as_raw_fd() < 3 {
        return Err(StartFault::NotOpened(Unfit::Standard));
    }
    Ok(handle)
}

/// Opens and locks an image, and tells its length in bytes. What is no image isn't opened, since that may
/// wait, as at a pipe, or do something, as at a device.
pub fn open_image<R: Files<File = File>>(
    rt: &R,
    path: &str,
    read_only: bool,
) -> Result<(File, u64), StartFault> {
    image_kind(&fs::metadata(rt, path)?)?;
    let mut file = OpenOptions::new()
        .read(true)
        .write(!read_only)
        .open(rt, path)?;
    lock(&file, read_only)?;
    let length = length_of(&mut file)?;
    Ok((file, length))
}
