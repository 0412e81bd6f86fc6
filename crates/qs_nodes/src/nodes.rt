ghost use Rattle.std.specs.Prelude.{◌≡◌, ◌<◌, length, IfOk};
ghost use Rattle.qs_nodes.specs.Table.{fresh, set_node, AddsGroup, AddsRaw, AddsThrottle, Deletes, EndsGroup, ReopensRaw, ReopensThrottle};
ghost use Rattle.qs_nodes.specs.Tree.{IsTree};
ghost use Rattle.qs_nodes.specs.Ways.{place_of, way_from};

use crate::node::{Kind, Node, Refused};
use crate::way::WayDown;
use crate::{scan, walk};
use qs_bytes::{Memory, Name};
use qs_part::graph::User;
use std::alloc::Global;
use std::marker::Model;

/// How many throttle nodes may be on a path.
const MOST_THROTTLES: u8 = 8;

/// The tree of nodes over an image, and the throttle groups.
///
/// Nodes have 64 places and groups 16 slots; a new one takes the lowest that is free. Exports are
/// users of nodes too, and are kept by the caller.
#[derive(Debug, Drop)]
pub struct Nodes {
    /// The bytes of the image.
    size: u64,
    /// In the order in which they were made.
    nodes: Vec<Node>,
    groups: Vec<Option<Name>>,
}

impl Model for Nodes {
    ghost use Rattle.qs_nodes.specs.Table.{NodesValue};
    ghost use Rattle.qs_nodes.specs.Tree.{IsTree};

    ghost Value = { NodesValue };

    ghost view = { λ g. record { size = g.size; nodes = g.nodes.items; groups = g.groups.items } };

    ghost invariant = { λ g. IsTree (record { size = g.size; nodes = g.nodes.items; groups = g.groups.items }) };
}

impl Nodes {
    /// The file node of this name over an image of `size` bytes, and no group.
    pub fn new(alloc: Global, size: u64, file: Name, read_only: bool) -> Result<Self, Memory>
        ensures { IfOk result (λ g. g ≡ fresh size file read_only) }
    {
        let root = Node {
            name: file,
            place: 0,
            size,
            read_only,
            depth: 0,
            kind: Kind::File,
        };
        Ok(Nodes {
            size,
            nodes: Vec::from_array(alloc, [root])?,
            groups: Vec::from_array(alloc, [None; 16])?,
        })
    }

    /// Makes a raw node, which shows `size` bytes of its child from `offset` on; without a size,
    /// the rest of it. Answers its place (QMP's blockdev-add, driver raw).
    ///
    /// # Errors
    ///
    /// `Duplicate`, `NoNode` of the child, `OutOfRange`, `Full`, `Memory`, in this order.
    pub fn add_raw(
        &mut self,
        name: Name,
        child: Name,
        offset: u64,
        size: Option<u64>,
        read_only: bool,
    ) -> Result<u8, Refused>
        ensures { AddsRaw self.old name child offset size read_only result self.new }
    {
        if let Some(node) = scan::named(&self.nodes, &name) {
            return Err(Refused::Duplicate(node.place));
        }
        let Some(below) = scan::named(&self.nodes, &child) else {
            return Err(Refused::NoNode(child));
        };
        let Some(bytes) = scan::part_of(below.size, offset, size) else {
            return Err(Refused::OutOfRange(below.size));
        };
        let Some(place) = scan::lowest_free(&self.nodes) else {
            return Err(Refused::Full);
        };
        let node = Node {
            name,
            place,
            size: bytes,
            read_only,
            depth: below.depth,
            kind: Kind::Raw {
                child: below.place,
                offset,
            },
        };
        if self.nodes.push(node).is_err() {
            return Err(Refused::Memory);
        }
        Ok(place)
    }

    /// Makes a throttle node, which shows its whole child. Answers its place (QMP's blockdev-add,
    /// driver throttle).
    ///
    /// # Errors
    ///
    /// `Duplicate`, `NoNode` of the child, `NoGroup`, `Deep`, `Full`, `Memory`, in this order.
    pub fn add_throttle(
        &mut self,
        name: Name,
        child: Name,
        group: &Name,
        read_only: bool,
    ) -> Result<u8, Refused>
        ensures { AddsThrottle self.old name child group.now read_only result self.new }
    {
        if let Some(node) = scan::named(&self.nodes, &name) {
            return Err(Refused::Duplicate(node.place));
        }
        let Some(below) = scan::named(&self.nodes, &child) else {
            return Err(Refused::NoNode(child));
        };
        let Some(slot) = scan::slot_of(&self.groups, group) else {
            return Err(Refused::NoGroup);
        };
        if below.depth >= MOST_THROTTLES {
            return Err(Refused::Deep);
        }
        let Some(place) = scan::lowest_free(&self.nodes) else {
            return Err(Refused::Full);
        };
        let node = Node {
            name,
            place,
            size: below.size,
            read_only,
            depth: below.depth + 1,
            kind: Kind::Throttle {
                child: below.place,
                slot: slot as u8,
            },
        };
        if self.nodes.push(node).is_err() {
            return Err(Refused::Memory);
        }
        Ok(place)
    }

    /// Takes a node away, where it has no user. `export` is the id of the first export over it
    /// (QMP's blockdev-del).
    ///
    /// # Errors
    ///
    /// `NoNode`, `Root`, `InUse` with the first node over it, else with that export, in this order.
    pub fn del(&mut self, name: Name, export: Option<Name>) -> Result<(), Refused>
        ensures { Deletes self.old name export result self.new }
    {
        let Some(at) = scan::index_of(&self.nodes, &name) else {
            return Err(Refused::NoNode(name));
        };
        let place = self.nodes[at].place;
        if place == 0 {
            return Err(Refused::Root);
        }
        if let Some(above) = scan::first_user(&self.nodes, place) {
            return Err(Refused::InUse(User::Node(above.name)));
        }
        if let Some(id) = export {
            return Err(Refused::InUse(User::Export(id)));
        }
        self.nodes.remove(at);
        Ok(())
    }

    /// The place of the node of a name. `None` exactly where no node has it.
    pub fn place_of(&self, name: &Name) -> Option<u8>
        ensures { result ≡ place_of self.now.nodes name.now }
    {
        scan::place_of(&self.nodes, name)
    }

    /// The way from the node at a place down to the image, with offsets in bytes (a request's path
    /// through QEMU's `bs->file` children, block.c). `None` exactly where no node is there.
    pub fn route_from(&self, place: u8) -> Option<WayDown>
        ensures { result ≡ way_from self.now.nodes place }
    {
        walk::way_from(&self.nodes, place)
    }

    fn set(&mut self, at: usize, node: Node)
        requires inside { at < length self.old.nodes }
        requires tree { IsTree (set_node self.old at node) }
        ensures { self.new ≡ set_node self.old at node }
    {
        self.nodes[at] = node;
    }

    /// Gives a raw node another part of its child (QMP's blockdev-reopen). `export` is the id of
    /// the first export over it.
    ///
    /// # Errors
    ///
    /// `NoNode` of the node, else of the child; `OtherKind`, `OtherFile`, `OutOfRange`, and `InUse`
    /// where its size would change, in this order.
    pub fn reopen_raw(
        &mut self,
        name: Name,
        child: Name,
        offset: u64,
        size: Option<u64>,
        export: Option<Name>,
    ) -> Result<(), Refused>
        ensures { ReopensRaw self.old name child offset size export result self.new }
    {
        let Some(at) = scan::index_of(&self.nodes, &name) else {
            return Err(Refused::NoNode(name));
        };
        let Some(below) = scan::named(&self.nodes, &child) else {
            return Err(Refused::NoNode(child));
        };
        let node = self.nodes[at];
        let Some(own) = node.raw_child() else {
            return Err(Refused::OtherKind);
        };
        if own != below.place {
            return Err(Refused::OtherFile);
        }
        let Some(bytes) = scan::part_of(below.size, offset, size) else {
            return Err(Refused::OutOfRange(below.size));
        };
        if let Some(user) = scan::resized_user(&self.nodes, &node, bytes, export) {
            return Err(Refused::InUse(user));
        }
        let kind = Kind::Raw {
            child: below.place,
            offset,
        };
        self.set(
            at,
            Node {
                size: bytes,
                kind,
                ..node
            },
        );
        Ok(())
    }

    /// Puts a throttle node into another group (QMP's blockdev-reopen).
    ///
    /// # Errors
    ///
    /// `NoNode` of the node, else of the child; `OtherKind`, `OtherFile`, `NoGroup`, in this order.
    pub fn reopen_throttle(&mut self, name: Name, child: Name, group: &Name) -> Result<(), Refused>
        ensures { ReopensThrottle self.old name child group.now result self.new }
    {
        let Some(at) = scan::index_of(&self.nodes, &name) else {
            return Err(Refused::NoNode(name));
        };
        let Some(below) = scan::named(&self.nodes, &child) else {
            return Err(Refused::NoNode(child));
        };
        let node = self.nodes[at];
        let Some(own) = node.throttle_child() else {
            return Err(Refused::OtherKind);
        };
        if own != below.place {
            return Err(Refused::OtherFile);
        }
        let Some(slot) = scan::slot_of(&self.groups, group) else {
            return Err(Refused::NoGroup);
        };
        let kind = Kind::Throttle {
            child: below.place,
            slot: slot as u8,
        };
        self.set(at, Node { kind, ..node });
        Ok(())
    }

    /// Makes a throttle group. Answers its slot (QMP's object-add).
    ///
    /// # Errors
    ///
    /// `Duplicate`, `Full`, in this order.
    pub fn group_add(&mut self, id: Name) -> Result<u8, Refused>
        ensures { AddsGroup self.old id result self.new }
    {
        if let Some(slot) = scan::slot_of(&self.groups, &id) {
            return Err(Refused::Duplicate(slot as u8));
        }
        match scan::free_slot(&self.groups) {
            Some(slot) => {
                self.groups[slot] = Some(id);
                Ok(slot as u8)
            }
            None => Err(Refused::Full),
        }
    }

    /// Takes a throttle group away (QMP's object-del).
    ///
    /// # Errors
    ///
    /// `NoGroup`, `InUse` with the first throttle node of it, in this order.
    pub fn group_del(&mut self, id: &Name) -> Result<(), Refused>
        ensures { EndsGroup self.old id.now result self.new }
    {
        let Some(slot) = scan::slot_of(&self.groups, id) else {
            return Err(Refused::NoGroup);
        };
        match scan::first_member(&self.nodes, slot as u8) {
            Some(node) => Err(Refused::InUse(User::Node(node.name))),
            None => {
                self.groups[slot] = None;
                Ok(())
            }
        }
    }
}

#[cfg(test)]
mod tests;
