ghost use Rattle.std.specs.Prelude.{◌≡◌, ◌<◌, ◌++◌, ◌∷◌, [], false, length, MatchResult};
ghost use Rattle.std.specs.Vec.{vec_len, vec_capacity};
ghost use Rattle.qs_world.specs.declared.live.Live.{Live as ALive};
ghost use Rattle.qs_part.specs.declared.event.Actor.TheVariants.{Request as ARequest, Session as ASession};
ghost use Rattle.qs_part.specs.declared.event.Event.TheVariants.{Attach, Leave, Step};
ghost use Rattle.qs_world.specs.Cores.{Handles, IsPlain, StepsRequest, value_of};
ghost use Rattle.qs_world.specs.Follows.{IsElement};
ghost use Rattle.qs_world.specs.Openings.{Exports};
ghost use Rattle.qs_world.specs.Sound.{IsSound};

use crate::live::{Live, Member, abandon_all, find_member, find_request, follow, has_request};
use crate::notes::{detach_note, route_note, stripe_kind, stripe_note, tracker_kind, tracker_note};
use crate::spare::Spare;
use qs_bytes::{Memory, Name};
use qs_graph::graph::Graph;
use qs_outside::Disk;
use qs_part::event::{Actor, Event, Outcome};
use qs_part::graph::{GraphOp, GraphReply};
use qs_part::part::Part;
use qs_request::{PartReply, Todo};
use qs_request_state::Shape;
use qs_stripe::stripe::Stripe;
use qs_tracker::tracker::Tracker;
use std::alloc::Global;

/// What the core is made of: the parts, the sessions, and the requests that haven't been answered.
#[derive(Debug, Drop)]
pub struct Core<D> {
    pub shape: Shape,
    /// The number of the next request.
    pub next: u64,
    pub requests: Vec<Live>,
    pub sessions: Vec<Member>,
    pub graph: Graph,
    pub tracker: Tracker,
    pub stripes: Vec<Stripe<D>>,
    pub spare: Spare,
    pub alloc: Global,
}

impl<D: Disk + Drop> Core<D> {
    /// The request at an index does its next operation, on one part.
    pub fn step_at(&mut self, at: usize, now: u64) -> Outcome
        requires sound { IsSound D.seen (value_of self.old) }
        requires inside { at < length self.old.requests.items }
        ensures { (l : ALive) → IsElement self.old.requests.items at l →
            StepsRequest D.seen (value_of self.old) l.number result (value_of self.new) }
    {
        match self.requests[at].next(now) {
            Todo::Tracker(op) => {
                let kind = tracker_kind(&op);
                let reply = self.tracker.step(op);
                let note = tracker_note(kind, reply);
                let by = PartReply::Tracker(reply);
                follow(&mut self.requests, &mut self.spare, at, by, note)
            }
            Todo::Route { e } => {
                let reply = self.graph.step(GraphOp::Route { e });
                let note = route_note(&reply);
                let by = PartReply::Graph(reply);
                follow(&mut self.requests, &mut self.spare, at, by, note)
            }
            Todo::Stripe(stripe, op) => {
                let (kind, place) = stripe_kind(stripe, &op);
                let reply = self.stripes[usize::from(stripe)].one(op);
                let note = stripe_note(kind, place, &reply);
                let by = PartReply::Stripe(reply);
                follow(&mut self.requests, &mut self.spare, at, by, note)
            }
            Todo::Answer(verdict) => {
                let live = self.requests.remove(at);
                self.spare.keep(live.request);
                Outcome::Answered(verdict, None)
            }
        }
    }

    /// A request does its next step.
    fn step_request(&mut self, number: u64, now: u64) -> Outcome
        requires sound { IsSound D.seen (value_of self.old) }
        ensures { Handles D.seen (value_of self.old) (Step (ARequest number) now) result (value_of self.new) }
    {
        match find_request(&self.requests, number) {
            Some(at) => self.step_at(at, now),
            None => Outcome::NotNext,
        }
    }

    /// Notes a session that was attached. There is room for it.
    fn seat(&mut self, session: u32, e: u8)
        requires { vec_len self.old.sessions < vec_capacity self.old.sessions }
        ensures sessions { self.new.sessions.items ≡ self.old.sessions.items
            ++ record { session = session; e = e; left = false } ∷ [] }
        ensures same { value_of self.new ≡ record (value_of self.old) { sessions = self.new.sessions.items } }
    {
        let member = Member {
            session,
            e,
            left: false,
        };
        match self.sessions.push(member) {
            Ok(()) => {}
            Err(_) => unreachable!(),
        }
    }

    /// A session begins, at the export of that name.
    fn attach(&mut self, session: u32, name: Name) -> Outcome
        requires sound { IsSound D.seen (value_of self.old) }
        ensures { Handles D.seen (value_of self.old) (Attach session name) result (value_of self.new) }
    {
        match find_member(&self.sessions, session) {
            Some(_) => return Outcome::NotNext,
            None => {}
        }
        match self.sessions.reserve(1) {
            Ok(()) => {}
            Err(_) => return Outcome::Memory,
        }
        match self.graph.step(GraphOp::Attach { name }) {
            GraphReply::Attached(info) => {
                self.seat(session, info.e);
                return Outcome::Attached(info);
            }
            GraphReply::NoExport => return Outcome::NoExport,
            _ => return Outcome::Crowded,
        }
    }

    /// A session leaves; its requests are abandoned.
    fn leave(&mut self, session: u32) -> Outcome
        requires sound { IsSound D.seen (value_of self.old) }
        ensures { Handles D.seen (value_of self.old) (Leave session) result (value_of self.new) }
    {
        let Some(at) = find_member(&self.sessions, session) else {
            return Outcome::NotNext;
        };
        if self.sessions[at].left {
            return Outcome::NotNext;
        }
        self.sessions[at].left = true;
        abandon_all(&mut self.requests, session);
        Outcome::Left
    }

    /// A session that has left and has no request any more is detached.
    fn step_session(&mut self, session: u32, now: u64) -> Outcome
        requires sound { IsSound D.seen (value_of self.old) }
        ensures { Handles D.seen (value_of self.old) (Step (ASession session) now) result (value_of self.new) }
    {
        let _ = now;
        let Some(at) = find_member(&self.sessions, session) else {
            return Outcome::NotNext;
        };
        let member = self.sessions[at];
        if !member.left {
            return Outcome::NotNext;
        }
        if has_request(&self.requests, session) {
            return Outcome::NotNext;
        }
        let reply = self.graph.step(GraphOp::Detach { e: member.e });
        let note = detach_note(&reply);
        match reply {
            GraphReply::Detached => {
                self.sessions.remove(at);
                return Outcome::Moved(note);
            }
            _ => return Outcome::Moved(note),
        }
    }

    /// Exports the file node.
    pub fn export(&mut self, name: Name, writable: bool) -> Result<(), Memory>
        requires sound { IsSound D.seen (value_of self.old) }
        ensures exports { MatchResult result
            (λ _. Exports D.seen (value_of self.old) name writable (value_of self.new))
            (λ _. value_of self.new ≡ value_of self.old) }
        ensures sound { IsSound D.seen (value_of self.new) }
    {
        let op = GraphOp::ExportAdd {
            id: name,
            name,
            node: self.graph.file(),
            writable,
            share_write: true,
        };
        match self.graph.step(op) {
            GraphReply::Added(_) => return Ok(()),
            _ => return Err(Memory),
        }
    }

    /// An event that brings no body happens.
    fn step_plain(&mut self, event: &Event) -> Outcome
        requires sound { IsSound D.seen (value_of self.old) }
        requires plain { IsPlain event.now }
        ensures { Handles D.seen (value_of self.old) event.now result (value_of self.new) }
    {
        match event {
            Event::Attach { session, name } => self.attach(*session, *name),
            Event::Leave { session } => self.leave(*session),
            Event::Step {
                actor: Actor::Session(session),
                now,
            } => self.step_session(*session, *now),
            Event::Step {
                actor: Actor::Request(number),
                now,
            } => self.step_request(*number, *now),
            Event::Ask { .. } => unreachable!(),
        }
    }

    /// An event happens.
    pub fn step(&mut self, event: Event) -> Outcome
        requires sound { IsSound D.seen (value_of self.old) }
        ensures { Handles D.seen (value_of self.old) event result (value_of self.new) }
    {
        match event {
            Event::Ask { session, ask, body } => self.ask(session, ask, body),
            other => self.step_plain(&other),
        }
    }
}
