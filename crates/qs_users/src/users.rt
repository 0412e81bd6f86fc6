ghost use Rattle.std.specs.Prelude.{◌≡◌, ◌+◌, ◌<◌, ◌≤◌, ◌++◌, [], ◌∷◌, length, IfOk};
ghost use Rattle.qs_nodes.specs.Ways.{is_next};
ghost use Rattle.qs_users.specs.Taken.{exported};
ghost use Rattle.qs_users.specs.Conflicts.{export_users, no_users, node_users, users_at, with_user, with_users, ClashAt, ClashOnWay};

use crate::perms::{made_perms, perms_at};
use qs_bytes::Memory;
use qs_exports::{Export, NewExport};
use qs_nodes::node::Node;
use qs_part::graph::User;
use qs_perm::{UserPerms, check};
use std::alloc::Global;
use std::marker::Model;

/// How many users a node can have: 63 nodes, 64 exports, and a new one.
const ROOM: usize = 128;

/// A list of users of a node, and beside it what each takes and shares.
#[derive(Debug, Drop)]
pub struct Users {
    who: Vec<User>,
    perms: Vec<UserPerms>,
}

impl Model for Users {
    ghost use Rattle.std.specs.Prelude.{◌≡◌, ◌≤◌, length, vec_capacity};
    ghost use Rattle.qs_users.specs.Conflicts.{UsersValue};

    ghost Value = { UsersValue };

    ghost view = { λ u. record { who = u.who.items; perms = u.perms.items } };

    ghost invariant = { λ u.
        (length u.who.items ≡ length u.perms.items) × (128 ≤ vec_capacity u.who) × (128 ≤ vec_capacity u.perms) };
}

fn is_next(next: Option<u8>, place: u8) -> bool
    ensures { result ≡ is_next place next }
{
    match next {
        Some(next) => place == next,
        None => false,
    }
}

impl Users {
    /// No user. It takes all the memory that it ever needs.
    pub fn new(alloc: Global) -> Result<Self, Memory>
        ensures { IfOk result (λ u. u ≡ no_users) }
    {
        Ok(Users {
            who: Vec::with_capacity(alloc, ROOM)?,
            perms: Vec::with_capacity(alloc, ROOM)?,
        })
    }

    fn clear(&mut self)
        ensures { self.new ≡ no_users }
    {
        self.who.clear();
        self.perms.clear();
    }

    fn push(&mut self, who: User, perms: UserPerms)
        requires { length self.old.who < 128 }
        ensures { self.new ≡ with_user self.old who perms }
    {
        match self.who.push(who) {
            Ok(()) => {}
            Err(_) => unreachable!(),
        }
        match self.perms.push(perms) {
            Ok(()) => {}
            Err(_) => unreachable!(),
        }
    }

    fn list_nodes(&mut self, nodes: &[Node], exports: &[Export], new: &NewExport, place: u8)
        requires { length self.old.who + length nodes.now ≤ 128 }
        ensures listed { self.new ≡ with_users self.old
            (node_users nodes.now nodes.now (exported exports.now ++ new.now ∷ []) place) }
        ensures few { length self.new.who ≤ length self.old.who + length nodes.now }
    {
        for node in nodes {
            if node.is_over(place) {
                let perms = perms_at(nodes, exports, new, node.place);
                self.push(User::Node(node.name), perms);
            }
        }
    }

    fn list_exports(&mut self, exports: &[Export], place: u8)
        requires { length self.old.who + length exports.now ≤ 128 }
        ensures listed { self.new ≡ with_users self.old (export_users (exported exports.now) place) }
        ensures few { length self.new.who ≤ length self.old.who + length exports.now }
    {
        for export in exports {
            if export.is_over_node(place) {
                self.push(User::Export(export.made.id), made_perms(&export.made));
            }
        }
    }

    fn list(&mut self, nodes: &[Node], exports: &[Export], new: &NewExport, place: u8)
        requires { length nodes.now + length exports.now < 128 }
        ensures { self.new ≡ users_at nodes.now (exported exports.now ++ new.now ∷ []) place }
    {
        self.clear();
        self.list_nodes(nodes, exports, new, place);
        self.list_exports(exports, place);
        if new.node == place {
            self.push(User::Export(new.id), made_perms(new));
        }
    }

    fn clash(&self) -> Option<(User, User)>
        ensures { ClashAt self.now result }
    {
        match check(&self.perms) {
            Ok(()) => None,
            Err((first, second)) => Some((self.who[first], self.who[second])),
        }
    }

    /// The first node on the way down from a new export where two users would conflict, by those two
    /// (QEMU's permission check in block.c). Users are nodes before exports, each in the order of
    /// making, and the new export is the last one.
    pub fn first_clash(
        &mut self,
        nodes: &[Node],
        exports: &[Export],
        new: &NewExport,
    ) -> Option<(User, User)>
        requires { length nodes.now + length exports.now < 128 }
        ensures { ClashOnWay nodes.now (exported exports.now) new.now result }
    {
        let mut next = Some(new.node);
        for done in 0..nodes.len() {
            let node = &nodes[nodes.len() - 1 - done];
            if is_next(next, node.place) {
                self.list(nodes, exports, new, node.place);
                match self.clash() {
                    Some(pair) => return Some(pair),
                    None => {}
                }
                next = node.child();
            }
        }
        None
    }
}

#[cfg(test)]
mod tests;
