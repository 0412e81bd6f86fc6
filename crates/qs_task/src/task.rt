ghost use Rattle.std.specs.Prelude.{◌≡◌, false, true, if◌then◌else◌, None};
ghost use Rattle.qs_model.specs.Requests.{abandon};
ghost use Rattle.qs_request.specs.Table.{FitsPart, Wants};
ghost use Rattle.qs_task.specs.Books.{IsOperation};
ghost use Rattle.qs_task.specs.Tasks.{IsAnsweredTask, MakesCall, Moves, Polls, RunsTo, pause};

use crate::need::{Need, Polled, is_wait, part_of};
use crate::station::Station;
use qs_bytes::{Ask, Verdict};
use qs_outside::Clock;
use qs_request::{Req, Todo};
use qs_request_state::Shape;
use std::marker::Model;
use std::sync::Wait;

/// A live request, and the number that all its calls have.
#[derive(Debug, Drop)]
pub struct RequestTask {
    request: Req,
    number: u64,
}

impl Model for RequestTask {
    ghost use Rattle.std.specs.Prelude.{◌≡◌, false};
    ghost use Rattle.qs_task.specs.Tasks.{TaskValue};

    ghost Value = { TaskValue };

    ghost view = { λ t. record {
      number = t.number;
      request = t.request.request;
      shape = t.request.shape;
      over = t.request.answered;
    } };

    ghost invariant = { λ t. t.request.answered ≡ false → t.request.waits ≡ false };
}

/// What a request has to wait for after an answer of this part, if it can't go on.
fn wait_for(part: Option<Need>, waits: bool) -> Option<Need>
    ensures { result ≡ (if waits then part else None) }
{
    if waits { part } else { None }
}

/// Makes the call that comes next, and says what the request has to wait for, if it can't go on.
#[tactic(auto, using(qs_request::proofs::Wanted::may_reply))]
fn make_call<S: Station, R: Wait>(
    rt: &R,
    hall: &S::Hall,
    station: &mut S,
    request: &mut Req,
    number: u64,
    todo: Todo,
) -> Option<Need>
    requires of { S.is_of hall.now station.old }
    requires shape { request.old.shape ≡ S.shape hall.now }
    requires waits { request.old.waits ≡ true }
    requires unanswered { request.old.answered ≡ false }
    requires wants { Wants request.old.shape.align request.old.request todo }
    requires operation { IsOperation todo }
    requires fits { FitsPart request.old.shape todo }
    ensures of { S.is_of hall.now station.new }
    ensures makes { MakesCall request.old.shape number result request.old.request request.new.request
        (S.book station.old) (S.book station.new) }
    ensures rest { request.new ≡ record request.old { request = request.new.request; waits = false } }
    ensures later { S.follows station.old station.new }
{
    let part = part_of(&todo);
    let reply = station.call(rt, hall, number, todo);
    let waits = is_wait(&reply);
    request.after(reply);
    wait_for(part, waits)
}

/// How a poll ends after a call, if it ends.
fn paused(wait: Option<Need>) -> Option<Polled>
    ensures { result ≡ pause wait }
{
    match wait {
        Some(need) => Some(Polled::Pending(need)),
        None => None,
    }
}

impl RequestTask {
    /// The task of a request that hasn't begun.
    pub fn new(request: Req, number: u64) -> RequestTask
        requires free { request.waits ≡ false }
        requires unanswered { request.answered ≡ false }
        ensures { result ≡ record {
          number = number;
          request = request.request;
          shape = request.shape;
          over = false;
        } }
    {
        RequestTask { request, number }
    }

    /// The number that its calls have.
    pub fn number(&self) -> u64
        ensures { result ≡ self.now.number }
    {
        self.number
    }

    /// The image that the request goes to.
    pub fn shape(&self) -> Shape
        ensures { result ≡ self.now.shape }
    {
        self.request.shape()
    }

    /// Whether the answer was given.
    pub fn is_over(&self) -> bool
        ensures { result ≡ self.now.over }
    {
        self.request.is_answered()
    }

    /// What the client asked for.
    pub fn ask(&self) -> Ask
        ensures { result ≡ self.now.request.client.ask }
    {
        self.request.ask()
    }

    /// The request itself, which nothing more is asked of.
    pub fn into_request(self) -> Req {
        self.request
    }

    /// The session has left: a request that hasn't entered is dropped at once, one without a span ends, also a
    /// FLUSH that syncs, and another runs on. Its verdict is Dropped.
    pub fn abandon(&mut self)
        requires { self.old.over ≡ false }
        ensures { self.new ≡ record self.old { request = abandon self.old.request } }
    {
        self.request.abandon();
    }

    /// Makes the next call, or gives the answer. None where the request can go on.
    fn advance<S: Station, R: Wait>(
        &mut self,
        rt: &R,
        hall: &S::Hall,
        station: &mut S,
        now: u64,
    ) -> Option<Polled>
        requires of { S.is_of hall.now station.old }
        requires shape { self.old.shape ≡ S.shape hall.now }
        requires unanswered { self.old.over ≡ false }
        ensures of { S.is_of hall.now station.new }
        ensures moves { Moves result self.old self.new (S.book station.old) (S.book station.new) }
        ensures later { S.follows station.old station.new }
    {
        match self.request.next(now) {
            Todo::Answer(verdict) => Some(Polled::Ready(verdict)),
            todo => {
                let wait = make_call(rt, hall, station, &mut self.request, self.number, todo);
                paused(wait)
            }
        }
    }

    /// Does the request's operations, until it has its answer or has to wait for a part. Ready comes exactly where
    /// the request table says the answer, and Pending exactly where the last operation of this poll was answered by
    /// Quiesced, Full, NotYet, HeldBy, Taken, Strange or NotHeld. Nothing is asked of an answered task. `now` is the
    /// clock's reading in nanoseconds.
    pub fn poll<S: Station, R: Wait>(
        &mut self,
        rt: &R,
        hall: &S::Hall,
        station: &mut S,
        now: u64,
    ) -> Polled
        requires of { S.is_of hall.now station.old }
        requires shape { self.old.shape ≡ S.shape hall.now }
        requires unanswered { self.old.over ≡ false }
        ensures of { S.is_of hall.now station.new }
        ensures polls { Polls result self.old self.new (S.book station.old) (S.book station.new) }
        ensures later { S.follows station.old station.new }
    {
        for _ in rt.forever() {
            match self.advance(rt, hall, station, now) {
                Some(polled) => return polled,
                None => {}
            }
        }
        unreachable!()
    }

    /// Polls until the answer, each time at a reading of the clock.
    pub fn finish<S: Station, C: Clock, R: Wait>(
        &mut self,
        rt: &R,
        hall: &S::Hall,
        station: &mut S,
        clock: &C,
    ) -> Verdict
        requires of { S.is_of hall.now station.old }
        requires shape { self.old.shape ≡ S.shape hall.now }
        requires unanswered { self.old.over ≡ false }
        ensures of { S.is_of hall.now station.new }
        ensures runs { RunsTo result self.old (S.book station.old) (S.book station.new) }
        ensures answered { IsAnsweredTask self.old self.new }
        ensures later { S.follows station.old station.new }
    {
        for _ in rt.forever() {
            match self.poll(rt, hall, station, clock.now()) {
                Polled::Ready(verdict) => return verdict,
                Polled::Pending(_) => {}
            }
        }
        unreachable!()
    }
}

/// Runs one request to its answer, and gives the station back.
pub fn poll_alone<S: Station, C: Clock, R: Wait>(
    rt: &R,
    hall: &S::Hall,
    station: S,
    task: RequestTask,
    clock: &C,
) -> (Verdict, S)
    requires of { S.is_of hall.now station }
    requires shape { task.shape ≡ S.shape hall.now }
    requires unanswered { task.over ≡ false }
    ensures of { S.is_of hall.now result.1 }
    ensures runs { RunsTo result.0 task (S.book station) (S.book result.1) }
    ensures later { S.follows station result.1 }
{
    let mut at = station;
    let mut alone = task;
    let verdict = alone.finish(rt, hall, &mut at, clock);
    (verdict, at)
}
