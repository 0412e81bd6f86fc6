ghost use Rattle.std.specs.Prelude.{◌≡◌, ◌++◌, [], IfOk, MatchResult, MatchOption};
ghost use Rattle.crossbeam_queue.specs.Fifo.{Held};
ghost use Rattle.crossbeam_queue.specs.Passes.{view};
ghost use Rattle.qs_pool.specs.Lines.{IsFair, IsOfPool, PutsLink, TakesLink, WaitIn, ledger};

use crate::ledger::Ledger;
use crate::rule::{Adding, Fairness, Line, Putting, Taking};
use crossbeam_queue::{Pass, RuledArrayQueue};
use qs_bytes::Memory;
use std::alloc::Global;
use std::marker::Model;
use std::sync::Wait;

/// How many links may wait.
pub const ROOM: usize = 64;

/// Links that were accepted and wait for a worker, first in first out. Threads share it, each with a pass of its own.
#[derive(Drop)]
pub struct Pool<L: Drop> {
    queue: RuledArrayQueue<L, Ledger<L>, Line>,
}

impl<L: Drop> Model for Pool<L> {
    ghost use Rattle.std.specs.Prelude.{◌≡◌};
    ghost use Rattle.atomic_table.specs.Seated.{TableId};
    ghost use Rattle.crossbeam_queue.specs.Passes.{ruled_capacity};

    ghost Value = { TableId };

    ghost view = { λ p. p.queue.table.shared.table_id };

    ghost invariant = { λ p. ruled_capacity p.queue ≡ 64 };
}

/// What one thread puts links with and takes them. It has no bytes.
pub type PoolPass<L> = Pass<L, Ledger<L>>;

impl<L: Drop> Pool<L> {
    /// A pool in which no link waits. All memory is taken here.
    pub fn new(alloc: Global) -> Result<Self, Memory> {
        match RuledArrayQueue::ruled(alloc, ROOM) {
            Ok((queue, _pass)) => Ok(Pool { queue }),
            Err(_) => Err(Memory),
        }
    }

    /// A pass that has put and taken nothing. It takes no memory.
    pub fn pass(&self) -> PoolPass<L>
        ensures pool { IsOfPool self.now result }
        ensures fresh { view result ≡ ledger [] [] }
    {
        self.queue.pass()
    }

    /// Puts a link at the end of the line. It comes back only where 64 links waited at one moment of the call.
    pub fn put<R: Wait>(&self, rt: &R, pass: &mut PoolPass<L>, link: L) -> Result<(), L>
        requires pool { IsOfPool self.now pass.old }
        ensures pool { IsOfPool self.now pass.new }
        ensures put { MatchResult result (λ _. PutsLink link (view pass.old) (view pass.new))
            (λ back. (back ≡ link) × (view pass.new ≡ view pass.old) × Held 64 (WaitIn (view pass.old))) }
    {
        self.queue.push_as::<Putting, R>(rt, pass, link)
    }

    /// Takes the link that has waited longest. None only where no link waited at one moment of the call.
    pub fn take<R: Wait>(&self, rt: &R, pass: &mut PoolPass<L>) -> Option<L>
        requires pool { IsOfPool self.now pass.old }
        ensures pool { IsOfPool self.now pass.new }
        ensures took { MatchOption result ((view pass.new ≡ view pass.old) × Held 0 (WaitIn (view pass.old)))
            (λ link. TakesLink link (view pass.old) (view pass.new)) }
    {
        self.queue.pop_as::<Taking, R>(rt, pass)
    }

    /// Puts what another pass knows behind what this one knows.
    pub fn join(&self, pass: &mut PoolPass<L>, other: PoolPass<L>)
        requires pool { IsOfPool self.now pass.old × IsOfPool self.now other }
        ensures pool { IsOfPool self.now pass.new }
        ensures both { view pass.new ≡ ledger ((view pass.old).put ++ (view other).put)
            ((view pass.old).got ++ (view other).got) }
    {
        self.queue.absorb::<Adding>(pass, other);
    }

    /// Tells of what a pass put and took that no link was put twice or taken twice, and that each that it took
    /// and put is the same. Joined passes know this of one another.
    pub fn tell(&self, pass: &mut PoolPass<L>)
        requires pool { IsOfPool self.now pass.old }
        ensures pool { IsOfPool self.now pass.new }
        ensures same { view pass.new ≡ view pass.old }
        ensures fair { IsFair (view pass.new) }
    {
        self.queue.learn_as::<Fairness>(pass);
    }
}
