ghost use Rattle.std.specs.Prelude.{◌≡◌, Bool, List, IfNone, IfSome, codes, not};
ghost use Rattle.qs_calls.specs.Runs.{Begins};
ghost use Rattle.qs_single.specs.Joining.{Names};
ghost use Rattle.qs_single.specs.Resting.{Attaches};

use qs_bytes::Name;
use qs_outside::Disk;
use qs_part::event::{Event, Outcome};
use qs_part::graph::ExportInfo;
use qs_world::world::World;

/// The session of this number begins at the export that the name means, of a core that was just opened.
/// `None` only for want of memory, and then nothing changes.
pub fn attach_by<D: Disk + Drop>(
    world: &mut World<D>,
    session: u32,
    name: Name,
) -> Option<ExportInfo>
    requires begins { (disks : List D) × (read_only : Bool) × Begins D.seen disks read_only world.old }
    requires named { Names world.old name }
    ensures some { IfSome result (λ info. (disks : List D) (read_only : Bool) →
        Begins D.seen disks read_only world.old →
        Attaches D.seen session (not read_only) world.old name info world.new) }
    ensures none { IfNone result (world.new ≡ world.old) }
{
    match world.step(Event::Attach { session, name }) {
        Outcome::Attached(info) => Some(info),
        Outcome::Memory => None,
        _ => unreachable!(),
    }
}

/// The session of this number begins at the export `disk`, of a core that was just opened. `None` only for
/// want of memory, and then nothing changes.
pub fn attach<D: Disk + Drop>(world: &mut World<D>, session: u32) -> Option<ExportInfo>
    requires { (disks : List D) × (read_only : Bool) × Begins D.seen disks read_only world.old }
    ensures some { IfSome result (λ info. (disks : List D) (read_only : Bool) →
        Begins D.seen disks read_only world.old →
        Attaches D.seen session (not read_only) world.old (codes "disk") info world.new) }
    ensures none { IfNone result (world.new ≡ world.old) }
{
    let Some(name) = Name::of(b"disk") else {
        unreachable!();
    };
    attach_by(world, session, name)
}
