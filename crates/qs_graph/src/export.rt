ghost use Rattle.std.specs.Prelude.{◌≡◌};
ghost use Rattle.std.specs.Str.{bytes_eq};
ghost use Rattle.qs_graph.specs.Exports.{allows, conflicts, is_alike, new_export, shares, takes};

use qs_bytes::Name;

/// What a user of a node may take of it, and share with its other users (QEMU's
/// `BLK_PERM_CONSISTENT_READ` and `BLK_PERM_WRITE`).
#[derive(Clone, Copy, Debug, PartialEq, Eq)]
pub enum Right {
    Read,
    Write,
}

const RIGHTS: [Right; 2] = [Right::Read, Right::Write];

/// A standing export of the file node.
#[derive(Clone, Copy, Debug)]
pub struct Export {
    pub id: Name,
    /// The name by which clients ask for it.
    pub name: Name,
    /// Whether its clients may write.
    pub writable: bool,
    /// Whether other users of the node may write as well.
    pub share_write: bool,
    /// How many clients are attached.
    pub clients: u16,
}

/// Whether two names are the same bytes.
pub fn is_same(name: &Name, other: &Name) -> bool
    ensures { result ≡ bytes_eq name.now other.now }
{
    name.as_slice() == other.as_slice()
}

impl Export {
    /// An export without clients.
    pub fn new(id: Name, name: Name, writable: bool, share_write: bool) -> Self
        ensures { result ≡ new_export id name writable share_write }
    {
        Export {
            id,
            name,
            writable,
            share_write,
            clients: 0,
        }
    }

    /// Whether it has this id or this name.
    pub fn is_alike(&self, id: &Name, name: &Name) -> bool
        ensures { result ≡ is_alike id.now name.now self.now }
    {
        is_same(&self.id, id) || is_same(&self.name, name)
    }

    /// Whether the export takes this right: read always, and write where it is writable.
    pub fn takes(&self, right: Right) -> bool
        ensures { result ≡ takes self.now right }
    {
        match right {
            Right::Read => true,
            Right::Write => self.writable,
        }
    }

    /// Whether the export shares this right with the node's other users.
    pub fn shares(&self, right: Right) -> bool
        ensures { result ≡ shares self.now right }
    {
        match right {
            Right::Read => true,
            Right::Write => self.share_write,
        }
    }

    fn allows(&self, other: &Export) -> bool
        ensures { result ≡ allows self.now other.now }
    {
        RIGHTS
            .iter()
            .all(|&right| !other.takes(right) || self.shares(right))
    }

    /// Whether one of the two takes a right that the other doesn't share (QEMU's `bdrv_a_allow_b`).
    pub fn conflicts(&self, other: &Export) -> bool
        ensures { result ≡ conflicts self.now other.now }
    {
        !self.allows(other) || !other.allows(self)
    }
}
