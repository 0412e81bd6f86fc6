ghost use Rattle.std.specs.Prelude.{◌≡◌};
ghost use Rattle.qs_perm.specs.Perms.{all, intersection, is_within, none, union};

/// A set of permissions on a node (QEMU's `BLK_PERM_CONSISTENT_READ`, `BLK_PERM_WRITE` and
/// `BLK_PERM_RESIZE`).
#[derive(Clone, Copy, Debug, PartialEq, Eq)]
pub struct Perms {
    pub read: bool,
    pub write: bool,
    pub resize: bool,
}

impl Perms {
    /// No permission.
    pub fn none() -> Self
        ensures { result ≡ none }
    {
        Perms {
            read: false,
            write: false,
            resize: false,
        }
    }

    /// Every permission.
    pub fn all() -> Self
        ensures { result ≡ all }
    {
        Perms {
            read: true,
            write: true,
            resize: true,
        }
    }

    /// The permissions that are in one of the two sets.
    pub fn union(self, other: Perms) -> Self
        ensures { result ≡ union self other }
    {
        Perms {
            read: self.read || other.read,
            write: self.write || other.write,
            resize: self.resize || other.resize,
        }
    }

    /// The permissions that are in both sets.
    pub fn intersection(self, other: Perms) -> Self
        ensures { result ≡ intersection self other }
    {
        Perms {
            read: self.read && other.read,
            write: self.write && other.write,
            resize: self.resize && other.resize,
        }
    }

    /// Whether each permission of this set is in the other one.
    pub fn is_within(self, other: Perms) -> bool
        ensures { result ≡ is_within self other }
    {
        (!self.read || other.read) && (!self.write || other.write) && (!self.resize || other.resize)
    }
}
