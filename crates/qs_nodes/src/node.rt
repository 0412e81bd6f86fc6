ghost use Rattle.std.specs.Prelude.{◌≡◌};
ghost use Rattle.std.specs.Str.{bytes_eq};
ghost use Rattle.qs_nodes.specs.Nodes.{is_in_group, is_over, raw_child, throttle_child};
ghost use Rattle.qs_nodes.specs.Ways.{child_of};

use qs_bytes::Name;
use qs_part::graph::User;

/// What a node does with its child, which is named by its place.
#[derive(Clone, Copy, Debug, PartialEq, Eq)]
pub enum Kind {
    /// The image itself.
    File,
    /// The bytes of the child from `offset` on.
    Raw { child: u8, offset: u64 },
    /// The whole child, for the members of the group at this slot.
    Throttle { child: u8, slot: u8 },
}

/// A node: a view of the image, or of the part of it that its child shows.
#[derive(Clone, Copy, Debug)]
pub struct Node {
    pub name: Name,
    /// Its place, from 0 to 63.
    pub place: u8,
    /// How many bytes it shows.
    pub size: u64,
    pub read_only: bool,
    /// How many throttle nodes are on the path down from it, itself among them.
    pub depth: u8,
    pub kind: Kind,
}

/// Why the tree of nodes stays as it was.
#[derive(Clone, Copy, Debug, PartialEq, Eq)]
pub enum Refused {
    /// A node or a group of this name stands; its place or slot.
    Duplicate(u8),
    /// There is no node of this name.
    NoNode(Name),
    /// There is no group of this id.
    NoGroup,
    /// The part of the child passes its end; the child's bytes.
    OutOfRange(u64),
    /// The path down would have more than 8 throttle nodes.
    Deep,
    /// All places are taken.
    Full,
    /// The node is the file node.
    Root,
    /// It has a user; the first one in order of making.
    InUse(User),
    /// The node is of another driver.
    OtherKind,
    /// The node has another child.
    OtherFile,
    /// Memory was refused.
    Memory,
}

impl Node {
    /// Whether it has this name.
    pub fn is_named(&self, name: &Name) -> bool
        ensures { result ≡ bytes_eq self.now.name name.now }
    {
        self.name.as_slice() == name.as_slice()
    }

    /// Whether the node at this place is its child.
    pub fn is_over(&self, place: u8) -> bool
        ensures { result ≡ is_over place self.now }
    {
        match self.kind {
            Kind::File => false,
            Kind::Raw { child, .. } | Kind::Throttle { child, .. } => child == place,
        }
    }

    /// Whether it is a throttle node of the group at this slot.
    pub fn is_in_group(&self, slot: u8) -> bool
        ensures { result ≡ is_in_group slot self.now }
    {
        match self.kind {
            Kind::Throttle { slot: own, .. } => own == slot,
            _ => false,
        }
    }

    /// The place of its child.
    pub fn child(&self) -> Option<u8>
        ensures { result ≡ child_of self.now.kind }
    {
        match self.kind {
            Kind::File => None,
            Kind::Raw { child, .. } | Kind::Throttle { child, .. } => Some(child),
        }
    }

    /// The place of a raw node's child.
    pub fn raw_child(&self) -> Option<u8>
        ensures { result ≡ raw_child self.now.kind }
    {
        match self.kind {
            Kind::Raw { child, .. } => Some(child),
            _ => None,
        }
    }

    /// The place of a throttle node's child.
    pub fn throttle_child(&self) -> Option<u8>
        ensures { result ≡ throttle_child self.now.kind }
    {
        match self.kind {
            Kind::Throttle { child, .. } => Some(child),
            _ => None,
        }
    }
}
