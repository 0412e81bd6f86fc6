ghost use Rattle.std.specs.Prelude.{◌≡◌};
ghost use Rattle.qs_nodes.specs.Ways.{first_read_only, met, through, FitsWay};

use crate::node::{Kind, Node};
use qs_bytes::Name;

/// The way down from a node to the image (QEMU's `BlockDriverState`s below it, block.c).
#[derive(Clone, Copy, Debug)]
pub struct WayDown {
    /// The sum of the raw nodes' offsets, in bytes.
    pub offset: u64,
    /// How many bytes the upper node shows.
    pub size: u64,
    /// The throttle nodes from the upper one downward: the slot of the group, and the node's place.
    pub groups: [(u8, u8); 8],
    /// How many throttle nodes there are.
    pub count: u8,
    /// The first read-only node, from the upper one downward.
    pub read_only: Option<Name>,
}

fn first_read_only(known: Option<Name>, node: &Node) -> Option<Name>
    ensures { result ≡ first_read_only known node.now }
{
    if known.is_some() {
        return known;
    }
    if node.read_only {
        return Some(node.name);
    }
    None
}

impl WayDown {
    fn through(self, kind: Kind, place: u8) -> Self
        requires { FitsWay kind self }
        ensures { result ≡ through kind place self }
    {
        match kind {
            Kind::File => self,
            Kind::Raw { offset, .. } => WayDown {
                offset: self.offset + offset,
                ..self
            },
            Kind::Throttle { slot, .. } => {
                let mut groups = self.groups;
                groups[self.count as usize] = (slot, place);
                WayDown {
                    groups,
                    count: self.count + 1,
                    ..self
                }
            }
        }
    }

    /// The way through one node more.
    pub fn met(self, node: &Node) -> Self
        requires { FitsWay node.now.kind self }
        ensures { result ≡ met node.now self }
    {
        WayDown {
            read_only: first_read_only(self.read_only, node),
            ..self.through(node.kind, node.place)
        }
    }
}
