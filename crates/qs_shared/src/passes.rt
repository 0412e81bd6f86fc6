//! Passes that are split off and joined back.
ghost use Rattle.std.specs.Prelude.{◌≡◌, true, false, IfOk, IfErr};
ghost use Rattle.qs_shared.specs.Hall.{IsSessionPass, JoinsAll, SplitsOff};
ghost use Rattle.qs_shared.specs.Passes.{is_first_pass};

use crate::parts::{PartPasses, SessionPass, Shared};
use qs_bytes::Memory;
use qs_outside::Disk;
use qs_turn_rows::rows::{join_all, split_into};
use std::alloc::Global;

impl<D: Disk + Drop> SessionPass<D> {
    /// Another pass, which has seen what this one has and has made no call.
    ///
    /// Its only error is refused memory, which leaves all as before.
    pub fn split(&mut self, alloc: Global, shared: &Shared<D>) -> Result<SessionPass<D>, Memory>
        requires of { IsSessionPass D.seen shared.now self.old }
        requires first { is_first_pass self.old ≡ true }
        ensures err { IfErr result (λ _. self.new ≡ self.old) }
        ensures of { IfOk result (λ given. IsSessionPass D.seen shared.now self.new
            × IsSessionPass D.seen shared.now given) }
        ensures splits { IfOk result (λ given. SplitsOff self.old self.new given) }
    {
        let groups = Vec::with_capacity(alloc, shared.groups.len())?;
        let stripes = Vec::with_capacity(alloc, shared.stripes.len())?;
        Ok(PartPasses {
            tracker: shared.tracker.split(&mut self.tracker),
            graph: shared.graph.split(&mut self.graph),
            groups: split_into(&shared.groups, &mut self.groups, groups),
            stripes: split_into(&shared.stripes, &mut self.stripes, stripes),
            stripe_room: Vec::new(alloc),
            disk_room: Vec::new(alloc),
        })
    }

    /// Joins another pass into the first one, whose calls are its own from then on. It takes no memory.
    pub fn join(&mut self, shared: &Shared<D>, other: SessionPass<D>)
        requires of { IsSessionPass D.seen shared.now self.old × IsSessionPass D.seen shared.now other }
        requires first { (is_first_pass self.old ≡ true) × (is_first_pass other ≡ false) }
        ensures of { IsSessionPass D.seen shared.now self.new }
        ensures joins { JoinsAll self.old other self.new }
    {
        let PartPasses {
            tracker,
            graph,
            groups,
            stripes,
            stripe_room: _,
            disk_room: _,
        } = other;
        shared.tracker.join(&mut self.tracker, tracker);
        shared.graph.join(&mut self.graph, graph);
        join_all(&shared.groups, &mut self.groups, groups);
        join_all(&shared.stripes, &mut self.stripes, stripes);
    }
}
