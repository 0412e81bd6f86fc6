ghost use Rattle.std.specs.Prelude.{◌≡◌, Bool, List, IfNone, IfSome, not};
ghost use Rattle.qs_calls.specs.Runs.{Begins};
ghost use Rattle.qs_graph.specs.Readings.{info_of, names_of};
ghost use Rattle.qs_opening.specs.Telling.{WantChanges, Joins, JoinsAt, told_info, told_name, graph_told};

use qs_bytes::{Name, NameList};
use qs_nbd_handshake::{Told, Want};
use qs_nbd_wire::ExportInfo2;
use qs_outside::Disk;
use qs_part::graph::ExportInfo;
use qs_single::attach_by;
use qs_world::world::World;
use std::alloc::Global;

/// The names of all exports, in the order of making. `None` for want of memory.
fn export_names<D: Disk + Drop>(alloc: Global, world: &World<D>) -> Option<NameList>
    ensures { IfSome result (λ names. names ≡ names_of world.now.graph) }
{
    let mut names = Vec::new(alloc);
    while let Some(name) = world.export_name(names.len()) {
        match names.push(name) {
            Ok(()) => {}
            Err(_) => return None,
        }
    }
    Some(NameList(names))
}

/// What is told of an export, if there is one.
fn told_by(info: &Option<ExportInfo>) -> Told
    ensures { result ≡ told_info info.now }
{
    match info {
        Some(info) => Told::Info(ExportInfo2 {
            size: info.size,
            writable: info.writable,
        }),
        None => Told::Missing,
    }
}

/// What is told of a name.
fn find<D: Disk + Drop>(world: &World<D>, name: &Option<Name>) -> Told
    ensures { result ≡ told_name world.now.graph name.now }
{
    match name {
        Some(name) => told_by(&world.export_info(*name)),
        None => Told::Missing,
    }
}

/// Attaches the session to the export that the name means, if it means one, and says what is told of it.
/// `None` for want of memory, and then nothing changes.
fn join_by<D: Disk + Drop>(world: &mut World<D>, session: u32, name: Name) -> Option<Told>
    requires begins { (disks : List D) × (read_only : Bool) × Begins D.seen disks read_only world.old }
    ensures told { IfSome result (λ told. told ≡ told_info (info_of world.old.graph name)) }
    ensures joins { IfSome result (λ told. (disks : List D) (read_only : Bool) →
        Begins D.seen disks read_only world.old →
        JoinsAt D.seen session (not read_only) world.old name (info_of world.old.graph name) world.new) }
    ensures none { IfNone result (world.new ≡ world.old) }
{
    let info = world.export_info(name);
    if info.is_some() {
        match attach_by(world, session, name) {
            Some(_) => {}
            None => return None,
        }
    }
    Some(told_by(&info))
}

/// As [`join_by`], where bytes that are no name name no export.
fn join<D: Disk + Drop>(world: &mut World<D>, session: u32, name: &Option<Name>) -> Option<Told>
    requires begins { (disks : List D) × (read_only : Bool) × Begins D.seen disks read_only world.old }
    ensures told { IfSome result (λ told. told ≡ told_name world.old.graph name.now) }
    ensures joins { IfSome result (λ told. (disks : List D) (read_only : Bool) →
        Begins D.seen disks read_only world.old →
        Joins D.seen session (not read_only) world.old name.now world.new) }
    ensures none { IfNone result (world.new ≡ world.old) }
{
    match name {
        Some(name) => join_by(world, session, *name),
        None => Some(Told::Missing),
    }
}

/// What the core tells one who wants this. One who wants to attach is attached, where there is such an
/// export. `None` for want of memory, and then nothing changes.
pub fn tell<D: Disk + Drop>(
    alloc: Global,
    world: &mut World<D>,
    session: u32,
    want: &Want,
) -> Option<Told>
    requires begins { (disks : List D) × (read_only : Bool) × Begins D.seen disks read_only world.old }
    ensures told { IfSome result (λ told. told ≡ graph_told world.old.graph want.now) }
    ensures changes { IfSome result (λ told. (disks : List D) (read_only : Bool) →
        Begins D.seen disks read_only world.old →
        WantChanges D.seen session (not read_only) world.old want.now world.new) }
    ensures none { IfNone result (world.new ≡ world.old) }
{
    match want {
        Want::Nothing => Some(Told::Nothing),
        Want::Find(name) => Some(find(world, name)),
        Want::Attach(name) => join(world, session, name),
        Want::Names => match export_names(alloc, world) {
            Some(names) => Some(Told::Names(names)),
            None => None,
        },
    }
}
