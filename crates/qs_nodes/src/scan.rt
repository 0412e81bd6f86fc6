ghost use Rattle.std.specs.Prelude.{◌≡◌, ◌<◌, length, position, IfSome};
ghost use Rattle.qs_nodes.specs.Nodes.{first_member, first_user, free_slot, has_id, has_name, is_taken, named, resized_user, slot_of, user_of, IsPart, LowestFree};
ghost use Rattle.qs_nodes.specs.Tree.{node_at};
ghost use Rattle.qs_nodes.specs.Ways.{place_of};

use crate::node::Node;
use qs_bytes::Name;
use qs_part::graph::User;

/// How many nodes can stand.
pub const PLACES: u8 = 64;

/// The node of a name.
pub fn named(nodes: &[Node], name: &Name) -> Option<Node>
    ensures { result ≡ named nodes.now name.now }
{
    nodes.iter().copied().find(|node| node.is_named(name))
}

/// The node at a place.
pub fn at_place(nodes: &[Node], place: u8) -> Option<Node>
    ensures { result ≡ node_at nodes.now place }
{
    nodes.iter().copied().find(|node| node.place == place)
}

/// The place of the node of a name.
pub fn place_of(nodes: &[Node], name: &Name) -> Option<u8>
    ensures { result ≡ place_of nodes.now name.now }
{
    match named(nodes, name) {
        Some(node) => Some(node.place),
        None => None,
    }
}

/// The number, in order of making, of the node of a name.
pub fn index_of(nodes: &[Node], name: &Name) -> Option<usize>
    ensures at { result ≡ position (has_name name.now) nodes.now }
    ensures inside { IfSome result (λ at. at < length nodes.now) }
{
    nodes.iter().position(|node| node.is_named(name))
}

/// The first user of the node at a place, in order of making.
pub fn first_user(nodes: &[Node], place: u8) -> Option<Node>
    ensures { result ≡ first_user nodes.now place }
{
    nodes.iter().copied().find(|node| node.is_over(place))
}

/// The first user of the node at a place: the first node over it, else the export.
pub fn user_of(nodes: &[Node], place: u8, export: Option<Name>) -> Option<User>
    ensures { result ≡ user_of nodes.now place export }
{
    if let Some(above) = first_user(nodes, place) {
        return Some(User::Node(above.name));
    }
    match export {
        Some(id) => Some(User::Export(id)),
        None => None,
    }
}

/// The first user of a node that would get another size.
pub fn resized_user(nodes: &[Node], node: &Node, bytes: u64, export: Option<Name>) -> Option<User>
    ensures { result ≡ resized_user nodes.now node.now bytes export }
{
    if bytes == node.size {
        return None;
    }
    user_of(nodes, node.place, export)
}

/// The first throttle node of the group at a slot, in order of making.
pub fn first_member(nodes: &[Node], slot: u8) -> Option<Node>
    ensures { result ≡ first_member nodes.now slot }
{
    nodes.iter().copied().find(|node| node.is_in_group(slot))
}

fn is_taken(nodes: &[Node], place: u8) -> bool
    ensures { result ≡ is_taken nodes.now place }
{
    nodes.iter().any(|node| node.place == place)
}

/// The lowest free place.
pub fn lowest_free(nodes: &[Node]) -> Option<u8>
    ensures { LowestFree nodes.now result }
{
    for place in 0..PLACES {
        if !is_taken(nodes, place) {
            return Some(place);
        }
    }
    None
}

fn has_id(group: &Option<Name>, id: &Name) -> bool
    ensures { result ≡ has_id id.now group.now }
{
    match group {
        Some(own) => own.as_slice() == id.as_slice(),
        None => false,
    }
}

/// The slot of the group of this id.
pub fn slot_of(groups: &[Option<Name>], id: &Name) -> Option<usize>
    ensures slot { result ≡ slot_of groups.now id.now }
    ensures inside { IfSome result (λ slot. slot < length groups.now) }
{
    groups.iter().position(|group| has_id(group, id))
}

/// The lowest free slot.
pub fn free_slot(groups: &[Option<Name>]) -> Option<usize>
    ensures slot { result ≡ free_slot groups.now }
    ensures inside { IfSome result (λ slot. slot < length groups.now) }
{
    groups.iter().position(|group| group.is_none())
}

/// The bytes that a part of a child shows; `None` exactly where it passes the child's end.
pub fn part_of(all: u64, offset: u64, size: Option<u64>) -> Option<u64>
    ensures { IsPart all offset size result }
{
    let rest = all.checked_sub(offset)?;
    match size {
        Some(size) if size > rest => None,
        Some(size) => Some(size),
        None => Some(rest),
    }
}
