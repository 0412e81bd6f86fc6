ghost use Rattle.std.specs.Prelude.{◌≡◌, ◌<◌, length};
ghost use Rattle.qs_perm.specs.Users.{conflicts, export_perms, idle, union_of, joined_all, Checks, FirstAgainst};

use crate::perms::Perms;

/// What a user of a node takes of it, and what it lets the node's other users take.
#[derive(Clone, Copy, Debug, PartialEq, Eq)]
pub struct UserPerms {
    pub taken: Perms,
    pub shared: Perms,
}

impl UserPerms {
    /// A user that takes nothing and shares all.
    pub fn idle() -> Self
        ensures { result ≡ idle }
    {
        UserPerms {
            taken: Perms::none(),
            shared: Perms::all(),
        }
    }

    /// What an export takes of its node: read, and write where it is writable. It shares read, and
    /// write where `share_write` is set.
    pub fn export(writable: bool, share_write: bool) -> Self
        ensures { result ≡ export_perms writable share_write }
    {
        UserPerms {
            taken: Perms {
                read: true,
                write: writable,
                resize: false,
            },
            shared: Perms {
                read: true,
                write: share_write,
                resize: false,
            },
        }
    }

    /// What two users take together, and what both share.
    pub fn join(self, other: UserPerms) -> Self
        ensures { result ≡ union_of self other }
    {
        UserPerms {
            taken: self.taken.union(other.taken),
            shared: self.shared.intersection(other.shared),
        }
    }

    /// Whether one of the two takes what the other doesn't share (QEMU's `bdrv_a_allow_b`).
    pub fn conflicts(self, other: UserPerms) -> bool
        ensures { result ≡ conflicts self other }
    {
        !self.taken.is_within(other.shared) || !other.taken.is_within(self.shared)
    }
}

/// What a node takes of its child and shares there: the union of what its users take and the
/// intersection of what they share (QEMU's `bdrv_default_perms`). With no user it takes nothing and
/// shares all.
pub fn join_all(users: &[UserPerms]) -> UserPerms
    ensures { result ≡ joined_all users.now }
{
    users
        .iter()
        .fold(UserPerms::idle(), |joined, user| joined.join(*user))
}

/// The first user after `first` that conflicts with it.
fn first_against(users: &[UserPerms], first: usize) -> Option<usize>
    requires { first < length users.now }
    ensures { FirstAgainst users.now first result }
{
    for second in first + 1..users.len() {
        if users[first].conflicts(users[second]) {
            return Some(second);
        }
    }
    None
}

/// Whether each user takes only what every other one shares (QEMU's permission check in block.c).
///
/// # Errors
///
/// The numbers of the first two users that conflict: the first of them is the lowest that there is,
/// and the second the lowest above it.
pub fn check(users: &[UserPerms]) -> Result<(), (usize, usize)>
    ensures { Checks users.now result }
{
    for first in 0..users.len() {
        match first_against(users, first) {
            Some(second) => return Err((first, second)),
            None => {}
        }
    }
    Ok(())
}

#[cfg(test)]
mod tests;
