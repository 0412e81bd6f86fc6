ghost use Rattle.std.specs.Prelude.{◌≡◌, MatchResult};
ghost use Rattle.qs_calls.specs.Runs.{Begins, ComesBack, opening_status};

use qs_bytes::Name;
use qs_outside::Disk;
use qs_status::{OpenBad, Status};
use qs_world::world::World;
use std::alloc::Global;

/// The status where no core could be made: the rule that the disks break, or refused memory.
fn fault(bad: Option<OpenBad>) -> Status
    ensures { result ≡ opening_status bad }
{
    match bad {
        Some(bad) => Status::OpenBad(bad),
        None => Status::Memory,
    }
}

/// The core over the image that the disks hold, with the file node `file0` and over it the export `disk`,
/// which may be written unless `read_only`. Else the disks come back, in their order, with the status: the
/// rule of an image that they break first, or refused memory.
pub fn open_core<D: Disk + Drop>(
    alloc: Global,
    disks: Vec<D>,
    read_only: bool,
) -> Result<World<D>, (Vec<D>, Status)>
    ensures { MatchResult result
        (Begins D.seen disks.items read_only)
        (λ back. ComesBack D.seen disks.items back.0.items back.1) }
{
    let Some(file) = Name::of(b"file0") else {
        unreachable!();
    };
    let Some(export) = Name::of(b"disk") else {
        unreachable!();
    };
    let mut world = match World::new(alloc, disks, file, read_only) {
        Ok(world) => world,
        Err((back, bad)) => return Err((back, fault(bad))),
    };
    match world.export_disk(export, !read_only) {
        Ok(()) => Ok(world),
        Err(_) => Err((world.into_disks(), Status::Memory)),
    }
}
