ghost use Rattle.std.specs.Prelude.{◌≡◌, ◌↔◌, ◌<◌, ◌&&◌, false, map, MatchResult};
ghost use Rattle.qs_part.specs.declared.event.Actor.TheVariants.{Request as ARequest};
ghost use Rattle.qs_part.specs.declared.event.Event.TheVariants.{Step as AStep};
ghost use Rattle.qs_part.specs.declared.event.Outcome.TheVariants.{NotNext};
ghost use Rattle.qs_model.specs.Worlds.{World as Model_};
ghost use Rattle.qs_world.specs.Crashing.{Crashed};
ghost use Rattle.qs_world.specs.Events.{HasCause, IsNotNext, StepsTo};
ghost use Rattle.qs_world.specs.Openings.{ComeBack, Exports, HasNoExport, IsOpened, Planned};
ghost use Rattle.qs_world.specs.Running.{RepeatsTo};
ghost use Rattle.qs_world.specs.Stands.{Stands};

use crate::crash::crash_all;
use crate::disks::{put_away, put_back};
use crate::inner::Core;
use crate::spare::Spare;
use crate::zeros::{MOST_ZEROS, zeros_of};
use qs_bytes::{Bytes, Memory, Name};
use qs_graph::graph::Graph;
use qs_image::open_fault;
use qs_outside::{CrashChoice, Disk, Fail, RiggedDisk};
use qs_part::event::{Event, Outcome};
use qs_request_state::Shape;
use qs_status::OpenBad;
use qs_tracker::tracker::Tracker;
use std::alloc::Global;
use std::marker::Model;

mod exports;

/// The core over many sessions: eight stripes of one image, the tracker of requests, the graph of
/// exports, the sessions, and their requests.
///
/// Each event is one operation of one actor on one part, or a session's coming, asking or leaving.
/// Nothing limits which actor is next.
#[derive(Debug, Drop)]
pub struct World<D: Disk + Drop> {
    core: Core<D>,
    /// The vector that the disks came in, kept empty, so that giving them back takes no memory.
    spare: Vec<D>,
    /// What runs of zeros are stored from.
    zeros: Bytes,
}

impl<D: Disk + Drop> Model for World<D> {
    ghost use Rattle.std.specs.Prelude.{◌≡◌, ◌≤◌, []};
    ghost use Rattle.std.specs.Vec.{vec_capacity};
    ghost use Rattle.qs_world.specs.Values.{WorldValue};

    ghost Value = { WorldValue D };

    ghost use Rattle.qs_world.specs.Cores.{value_of};
    ghost use Rattle.qs_request.specs.RunSteps.{AreZeros};
    ghost use Rattle.qs_world.specs.Sound.{IsSound};

    ghost view = { λ w. value_of w.core };

    ghost invariant = { λ w. IsSound D.seen (value_of w.core) × (w.spare.items ≡ []) × (8 ≤ vec_capacity w.spare)
        × AreZeros 65536 w.zeros };
}

impl<D: Disk + Drop> World<D> {
    /// The core over the image that the disks hold, with a file node of that name and no export. The
    /// disks come back, in their order, with the first rule of an image that they break, or without one
    /// for want of memory.
    pub fn new(
        alloc: Global,
        disks: Vec<D>,
        file: Name,
        read_only: bool,
    ) -> Result<World<D>, (Vec<D>, Option<OpenBad>)>
        ensures { MatchResult result
            (IsOpened D.seen disks.items file read_only)
            (λ back. ComeBack D.seen disks.items back.0.items back.1) }
    {
        match open_fault(&disks) {
            Some(bad) => return Err((disks, Some(bad))),
            None => {}
        }
        let shape = Shape {
            align: disks[0].align(),
            size: disks[0].length(),
        };
        let Ok(graph) = Graph::new(alloc, shape.size, file, read_only) else {
            return Err((disks, None));
        };
        let Ok(tracker) = Tracker::new(alloc, 0) else {
            return Err((disks, None));
        };
        let Some(zeros) = zeros_of(alloc, MOST_ZEROS) else {
            return Err((disks, None));
        };
        let mut spare = disks;
        match put_away(alloc, &mut spare) {
            Some(stripes) => {
                let core = Core {
                    shape,
                    next: 0,
                    requests: Vec::new(alloc),
                    sessions: Vec::new(alloc),
                    graph,
                    tracker,
                    stripes,
                    spare: Spare::new(),
                    alloc,
                };
                Ok(World { core, spare, zeros })
            }
            None => Err((spare, None)),
        }
    }

    /// The disks, in their order, with what they hold now. It takes no memory.
    pub fn into_disks(self) -> Vec<D>
        ensures { result.items ≡ map (λ s. s.disk) self.stripes }
    {
        let mut disks = self.spare;
        let mut stripes = self.core.stripes;
        put_back(&mut stripes, &mut disks);
        disks
    }

    /// An event happens: a step of the model (clause `step`), or nothing. NotNext comes exactly where
    /// the event can't come now (clause `next`), Memory only for an Attach or an Ask; then all is as
    /// before. A fault of a disk has a raised count (clause `cause`). The core always stands for a state
    /// of the model, before and after (clauses `before` and `model`).
    pub fn step(&mut self, event: Event) -> Outcome
        ensures step { StepsTo D.seen self.old event result self.new }
        ensures next { (result ≡ NotNext) ↔ IsNotNext self.old event }
        ensures cause { HasCause D.seen self.old result self.new }
        ensures before { (m : Model_) × Stands D.seen self.old m }
        ensures model { (m : Model_) × Stands D.seen self.new m }
    {
        self.core.step(event)
    }

    /// The bytes that the last answered WRITE brought, and none behind another request, so that the next one can use
    /// their memory. Nothing else changes.
    pub fn spare_body(&mut self) -> Option<Bytes>
        ensures { self.new ≡ self.old }
    {
        self.core.spare.take_body()
    }

    /// A request does the run of whole blocks that is next, as one call of a stripe, or its next step: single
    /// steps of the model, one after the other, up to the first that isn't done (clause `repeats`). The
    /// outcome is that of the last one. NotNext comes exactly where there is no such request. It takes no
    /// memory.
    pub fn run_request(&mut self, number: u64, now: u64) -> Outcome
        ensures repeats { RepeatsTo D.seen self.old (AStep (ARequest number) now) result self.new }
        ensures next { (result ≡ NotNext) ↔ IsNotNext self.old (AStep (ARequest number) now) }
        ensures before { (m : Model_) × Stands D.seen self.old m }
        ensures model { (m : Model_) × Stands D.seen self.new m }
    {
        self.core.run_request(number, now, &mut self.zeros)
    }

    /// Whether the file node may only be read.
    pub fn is_read_only(&self) -> bool
        ensures { result ≡ self.now.graph.read_only }
    {
        self.core.graph.is_read_only()
    }

    /// Exports the file node under this id and name. Its only error is refused memory, which leaves all
    /// as it was.
    pub fn export_disk(&mut self, name: Name, writable: bool) -> Result<(), Memory>
        requires none { HasNoExport self.old }
        requires permitted { (writable && self.old.graph.read_only) ≡ false }
        ensures { MatchResult result
            (λ _. Exports D.seen self.old name writable self.new)
            (λ _. self.new ≡ self.old) }
    {
        self.core.export(name, writable)
    }
}

impl<D: RiggedDisk + Drop> World<D> {
    /// Plans a failure of a stripe's disk, once. Nothing else changes. It takes no memory.
    pub fn plan(&mut self, stripe: u8, fail: Fail)
        requires { stripe < 8 }
        ensures { Planned D.Disk.seen self.old stripe fail self.new }
    {
        self.core.stripes[usize::from(stripe)].plan(fail);
    }

    /// The power fails: each disk crashes, and requests, sessions and exports are gone, as [`World::new`] left them;
    /// the numbers of requests go on. It takes no memory.
    pub fn crash(&mut self, choice: &CrashChoice)
        ensures { Crashed D.Disk.seen self.old choice.now self.new }
    {
        crash_all(&mut self.core.stripes, choice);
        self.core.requests.clear();
        self.core.sessions.clear();
        self.core.graph.reset();
        self.core.tracker.reset();
    }
}
