ghost use Rattle.std.specs.Prelude.{◌≡◌, ◌<◌, IfOk, Some, None};
ghost use Rattle.qs_part.specs.Limits.{first_broken};
ghost use Rattle.qs_group.specs.Budget.{budget_for, wait_for, reading_at};
ghost use Rattle.qs_group.specs.Table.{fresh, opened_group, ticket_passed, Fits, answers};

use crate::budget::Budget;
use crate::queue::{self, Queued, TICKETS};
use crate::turns::Turns;
use qs_part::group::{Dir, GroupOp, GroupReply};
use qs_part::limits::Limits;
use qs_part::part::Part;
use std::alloc::{AllocError, Global};
use std::marker::Model;

/// A throttle group, after QEMU's block/throttle-groups.c: members of the group queue requests,
/// and each goes in its turn and as soon as the group's limits let it.
///
/// Turns go round the members, apart for reads and for writes. A clock's reading below the
/// greatest at which a request went counts as that one.
#[derive(Debug, Drop)]
pub struct Group {
    /// The requests that wait, in the order in which they came.
    waiting: Vec<Queued>,
    turns: Turns,
    budget: Box<Budget>,
}

impl Model for Group {
    ghost use Rattle.std.specs.Prelude.{◌≤◌, ◌<◌, length, All, vec_capacity};
    ghost use Rattle.qs_group.specs.Queue.{InRange};
    ghost use Rattle.qs_group.specs.Table.{GroupValue};

    ghost Value = { GroupValue };

    ghost view = { λ g. record { waiting = g.waiting.items; turns = g.turns; budget = g.budget.value } };

    ghost invariant = { λ g. (256 ≤ vec_capacity g.waiting) × (length g.waiting.items ≤ 256)
        × All InRange g.waiting.items × (g.turns.read < 64) × (g.turns.write < 64) };
}

impl Group {
    /// A group with no limits and no requests. It takes all the memory that it ever needs.
    pub fn new(alloc: Global) -> Result<Self, AllocError>
        ensures { IfOk result (λ g. g ≡ fresh) }
    {
        Ok(Group {
            waiting: Vec::with_capacity(alloc, TICKETS)?,
            turns: Turns::START,
            budget: Box::new(alloc, Budget::new(&Limits::NONE))?,
        })
    }

    /// Makes the group what [`Group::new`] makes.
    pub fn reset(&mut self)
        ensures { self.new ≡ fresh }
    {
        self.waiting.clear();
        self.turns = Turns::START;
        *self.budget = Budget::new(&Limits::NONE);
    }

    fn queue(&mut self, member: u8, dir: Dir, bytes: u64) -> GroupReply
        requires { member < 64 }
        ensures { answers self.old (GroupOp.Queue member dir bytes) result self.new }
    {
        if self.waiting.len() == TICKETS {
            return GroupReply::Full;
        }
        let ticket = queue::lowest_free(&self.waiting);
        self.waiting.push_reserved(Queued {
            ticket,
            member,
            dir,
            bytes,
        });
        GroupReply::Ticket(ticket)
    }

    fn admit(&mut self, t: u8, now: u64) -> GroupReply
        ensures { answers self.old (GroupOp.Admit t now) result self.new }
    {
        let Some(w) = queue::ticket_at(&self.waiting, t) else {
            return GroupReply::Strange;
        };
        let first = queue::earliest(&self.waiting, w);
        if first != w.ticket {
            return GroupReply::Behind(first);
        }
        let member = queue::turn_member(&self.waiting, w.dir, self.turns.of(w.dir), w.member);
        if member != w.member {
            return GroupReply::TurnOf(member);
        }
        match self.budget.wait(w.dir, now) {
            0 => {
                self.pass(w, now);
                GroupReply::Go
            }
            wait => GroupReply::Wait(wait),
        }
    }

    fn pass(&mut self, w: Queued, now: u64)
        requires member { w.member < 64 }
        requires go { wait_for self.old.budget w.dir (reading_at self.old.budget now) ≡ 0 }
        ensures { self.new ≡ ticket_passed self.old (Some w) now }
    {
        queue::remove(&mut self.waiting, w.ticket);
        self.turns.pass_on(w.dir, w.member);
        self.budget.charge(w.dir, w.bytes, now);
    }

    fn withdraw(&mut self, t: u8) -> GroupReply
        ensures { answers self.old (GroupOp.Withdraw t) result self.new }
    {
        if queue::ticket_at(&self.waiting, t).is_none() {
            return GroupReply::Strange;
        }
        queue::remove(&mut self.waiting, t);
        GroupReply::Withdrawn
    }

    fn set(&mut self, limits: Limits) -> GroupReply
        ensures { answers self.old (GroupOp.Set limits) result self.new }
    {
        if let Some(t) = queue::lowest_waiting(&self.waiting) {
            return GroupReply::Waiting(t);
        }
        match limits.check() {
            Err(rule) => GroupReply::Bad(rule),
            Ok(()) => {
                self.turns = Turns::START;
                *self.budget = Budget::new(&limits);
                GroupReply::Set
            }
        }
    }
}

impl Part for Group {
    type Fixed = ();

    type Op = GroupOp;

    type Reply = GroupReply;

    ghost fixed_of = { λ _. tt };

    ghost can = { λ _ op. Fits op };

    ghost legal = { answers };

    fn fixed(&self) {}

    fn fits(_fixed: &(), op: &GroupOp) -> bool {
        match op {
            GroupOp::Queue { member, .. } => *member < queue::MEMBERS,
            _ => true,
        }
    }

    fn step(&mut self, op: GroupOp) -> GroupReply {
        match op {
            GroupOp::Queue { member, dir, bytes } => self.queue(member, dir, bytes),
            GroupOp::Admit { t, now } => self.admit(t, now),
            GroupOp::Withdraw { t } => self.withdraw(t),
            GroupOp::Set { limits } => self.set(limits),
        }
    }
}

#[cfg(test)]
mod tests;
