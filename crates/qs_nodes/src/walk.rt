ghost use Rattle.std.specs.Prelude.{◌≡◌, Some};
ghost use Rattle.qs_nodes.specs.Tree.{node_at};
ghost use Rattle.qs_nodes.specs.Ways.{walk_begun, is_next, walked_past, walked, way_from, AreRooted, CanPass};

use crate::node::Node;
use crate::scan;
use crate::way::WayDown;

/// A walk down: the place that it goes on to, and the way so far.
#[derive(Clone, Copy, Debug)]
pub struct Walk {
    pub next: Option<u8>,
    pub way: WayDown,
}

impl Walk {
    fn begun(place: u8, size: u64) -> Self
        ensures { result ≡ walk_begun place size }
    {
        Walk {
            next: Some(place),
            way: WayDown {
                offset: 0,
                size,
                groups: [(0, 0); 8],
                count: 0,
                read_only: None,
            },
        }
    }

    fn is_next(&self, place: u8) -> bool
        ensures { result ≡ is_next place self.now.next }
    {
        match self.next {
            Some(next) => place == next,
            None => false,
        }
    }

    fn passed(self, node: &Node) -> Self
        requires { CanPass node.now self }
        ensures { result ≡ walked_past node.now self }
    {
        if !self.is_next(node.place) {
            return self;
        }
        Walk {
            next: node.child(),
            way: self.way.met(node),
        }
    }
}

// Children are older than their users, so that one round from the newest node on is enough.
fn walk_down(nodes: &[Node], place: u8, node: Node) -> Walk
    requires tree { AreRooted nodes.now }
    requires found { node_at nodes.now place ≡ Some node }
    ensures { result ≡ walked nodes.now (walk_begun place node.size) }
{
    let mut walk = Walk::begun(place, node.size);
    for done in 0..nodes.len() {
        walk = walk.passed(&nodes[nodes.len() - 1 - done]);
    }
    walk
}

/// The way down from the node at a place.
pub fn way_from(nodes: &[Node], place: u8) -> Option<WayDown>
    requires { AreRooted nodes.now }
    ensures { result ≡ way_from nodes.now place }
{
    match scan::at_place(nodes, place) {
        Some(node) => Some(walk_down(nodes, place, node).way),
        None => None,
    }
}
