ghost use Rattle.std.specs.Prelude.{◌≡◌};
ghost use Rattle.qs_exports.specs.Standing.{is_meant_by, has_standing_id, is_alike, goes_with_next, is_over_node, stands_at};

use qs_bytes::Name;

/// What a new export is (QMP's block-export-add, type nbd).
#[derive(Clone, Copy, Debug)]
pub struct NewExport {
    pub id: Name,
    /// The name that clients ask for.
    pub name: Name,
    /// The place of the node that it exports.
    pub node: u8,
    pub writable: bool,
    /// Whether other users of the node may write as well.
    pub share_write: bool,
}

/// An export, as it stands.
#[derive(Clone, Copy, Debug)]
pub struct Export {
    pub made: NewExport,
    /// Its place, from 0 to 63.
    pub place: u8,
    /// How many clients it has, 1,024 at most.
    pub clients: u16,
    /// Whether it was deleted while it had clients. It is gone with the last of them.
    pub shutting: bool,
}

/// Why the exports stay as they were.
#[derive(Clone, Copy, Debug, PartialEq, Eq)]
pub enum Refused {
    /// A standing export has this id or this name; the lowest place of one.
    Duplicate(u8),
    /// All places are taken.
    Full,
    /// No export of this name or id stands.
    NoExport,
    /// The export has 1,024 clients.
    Crowded,
    /// No client is attached at this place.
    NotAttached,
    /// The export has so many clients.
    Connected(u16),
    /// Memory was refused.
    Memory,
}

impl Export {
    /// Whether its place is this one.
    pub fn stands_at(&self, place: u8) -> bool
        ensures { result ≡ stands_at place self.now }
    {
        self.place == place
    }

    /// Whether it stands and has this id.
    pub fn has_standing_id(&self, id: &Name) -> bool
        ensures { result ≡ has_standing_id id.now self.now }
    {
        !self.shutting && self.made.id.as_slice() == id.as_slice()
    }

    /// Whether it stands and has this id or this name.
    pub fn is_alike(&self, id: &Name, name: &Name) -> bool
        ensures { result ≡ is_alike id.now name.now self.now }
    {
        !self.shutting
            && (self.made.id.as_slice() == id.as_slice()
                || self.made.name.as_slice() == name.as_slice())
    }

    /// Whether it stands and a client that asks for this name means it. The empty name means every one.
    pub fn answers_to(&self, name: &Name) -> bool
        ensures { result ≡ is_meant_by name.now self.now }
    {
        let meant = match name.as_slice() {
            [] => true,
            wanted => self.made.name.as_slice() == wanted,
        };
        !self.shutting && meant
    }

    /// Whether it goes with its next client that leaves.
    pub fn is_last(&self) -> bool
        ensures { result ≡ goes_with_next self.now }
    {
        self.shutting && self.clients == 1
    }

    /// Whether it exports the node at this place.
    pub fn is_over_node(&self, node: u8) -> bool
        ensures { result ≡ is_over_node node self.now }
    {
        self.made.node == node
    }
}
