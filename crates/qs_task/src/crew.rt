ghost use Rattle.std.specs.Prelude.{◌≡◌, ◌<◌, ◌≤◌, ◌==◌, ◌++◌, ◌∷◌, [], false, length, map, position, slice_get, Some, IfOk, MatchResult};
ghost use Rattle.std.specs.List.{AllByRecursion};
ghost use Rattle.std.specs.Vec.{vec_capacity};
ghost use Rattle.qs_task.specs.Crews.{Began, IsManned, Left, CrewPolls, CrewStep, NextAbove, PollsAt, abandoned_task, lesser_above, no_crew};
ghost use Rattle.qs_task.specs.Tasks.{TaskValue};

use crate::need::{Need, Polled};
use crate::station::Station;
use crate::task::RequestTask;
use qs_bytes::{Ask, Memory, Verdict};
use qs_request::Req;
use qs_request_state::Shape;
use std::alloc::Global;
use std::marker::Model;
use std::sync::Wait;

/// How many requests of a session may be live.
pub const MOST: usize = 16;

/// How a poll of a crew ended.
#[derive(Debug, Drop)]
pub enum CrewPoll {
    /// No live request has the number.
    NoSuch,
    /// The request can't go on before this part answers otherwise.
    Pending(Need),
    /// What was asked for is answered so. The request isn't live any more.
    Answered(Ask, Verdict),
}

/// The live requests of a session to one image, up to 16, each with a number above all that came before.
#[derive(Debug, Drop)]
pub struct Crew {
    tasks: Vec<RequestTask>,
    shape: Shape,
    newest: u64,
    /// The request that was answered last, with its memory.
    answered: Option<Req>,
}

impl Model for Crew {
    ghost use Rattle.std.specs.Prelude.{◌≡◌, ◌≤◌};
    ghost use Rattle.std.specs.Vec.{vec_capacity};
    ghost use Rattle.std.specs.List.{AllByRecursion};
    ghost use Rattle.qs_task.specs.Crews.{CrewValue, IsManned};

    ghost Value = { CrewValue };

    ghost view = { λ c. record { shape = c.shape; newest = c.newest; live = c.tasks.items } };

    ghost invariant = { λ c. (16 ≤ vec_capacity c.tasks) × AllByRecursion (IsManned c.shape) c.tasks.items };
}

/// The place of the task with this number.
fn find(tasks: &[RequestTask], number: u64) -> Option<usize>
    ensures { result ≡ position (λ t. t.number == number) tasks.now }
{
    tasks.iter().position(|task| task.number() == number)
}

/// The lesser of two numbers, of which the second counts only where it is above `low`.
fn lesser_above(low: u64, least: Option<u64>, number: u64) -> Option<u64>
    ensures { result ≡ lesser_above low least number }
{
    if number <= low {
        return least;
    }
    match least {
        Some(other) if other <= number => Some(other),
        _ => Some(number),
    }
}

/// The least number above `low` that one of the tasks has.
fn least_above(tasks: &[RequestTask], low: u64) -> Option<u64>
    ensures { NextAbove low tasks.now result }
{
    let mut least = None;
    for task in tasks {
        least = lesser_above(low, least, task.number());
    }
    least
}

/// Polls the task at a place, and takes it out where it is answered.
fn poll_at<S: Station, R: Wait>(
    rt: &R,
    hall: &S::Hall,
    station: &mut S,
    tasks: &mut Vec<RequestTask>,
    answered: &mut Option<Req>,
    at: usize,
    now: u64,
) -> CrewPoll
    requires of { S.is_of hall.now station.old }
    requires inside { at < length tasks.old.items }
    requires manned { (t : TaskValue) → slice_get tasks.old.items at ≡ Some t → IsManned (S.shape hall.now) t }
    ensures of { S.is_of hall.now station.new }
    ensures polls { (t : TaskValue) → slice_get tasks.old.items at ≡ Some t →
        PollsAt result at t tasks.old.items tasks.new.items (S.book station.old) (S.book station.new) }
    ensures capacity { vec_capacity tasks.new ≡ vec_capacity tasks.old }
    ensures later { S.follows station.old station.new }
{
    let ask = tasks[at].ask();
    match tasks[at].poll(rt, hall, station, now) {
        Polled::Pending(need) => CrewPoll::Pending(need),
        Polled::Ready(verdict) => {
            let task = tasks.remove(at);
            *answered = Some(task.into_request());
            CrewPoll::Answered(ask, verdict)
        }
    }
}

/// Abandons each request.
fn abandon_all(tasks: &mut [RequestTask])
    requires { AllByRecursion (λ t. t.over ≡ false) tasks.old }
    ensures { tasks.new ≡ map abandoned_task tasks.old }
{
    for task in tasks {
        task.abandon();
    }
}

/// The same over the tasks of a vector.
fn abandon_each(tasks: &mut Vec<RequestTask>)
    requires { AllByRecursion (λ t. t.over ≡ false) tasks.old.items }
    ensures items { tasks.new.items ≡ map abandoned_task tasks.old.items }
    ensures capacity { vec_capacity tasks.new ≡ vec_capacity tasks.old }
{
    abandon_all(tasks.as_mut_slice());
}

impl Crew {
    /// A crew for requests to an image of this shape, with nobody in it. It takes all the memory that it ever needs,
    /// and its only error is refused memory.
    pub fn new(alloc: Global, shape: Shape) -> Result<Crew, Memory>
        ensures { IfOk result (λ crew. crew ≡ no_crew shape) }
    {
        Ok(Crew {
            tasks: Vec::with_capacity(alloc, MOST)?,
            shape,
            newest: 0,
            answered: None,
        })
    }

    /// The image that its requests go to.
    pub fn shape(&self) -> Shape
        ensures { result ≡ self.now.shape }
    {
        self.shape
    }

    /// The number of the request that came last, and 0 where none came.
    pub fn newest(&self) -> u64
        ensures { result ≡ self.now.newest }
    {
        self.newest
    }

    /// The least number above this one that a live request has.
    pub fn next_above(&self, number: u64) -> Option<u64>
        ensures { NextAbove number self.now.live result }
    {
        least_above(&self.tasks, number)
    }

    /// The request that was answered last, for its memory. It is given once.
    pub fn take_answered(&mut self) -> Option<Req>
        ensures { self.new ≡ self.old }
    {
        self.answered.take()
    }

    /// How many requests are live.
    pub fn live(&self) -> usize
        ensures { result ≡ length self.now.live }
    {
        self.tasks.len()
    }

    /// Takes a request that hasn't begun. It comes back exactly where 16 are live, and nothing changes then. It
    /// takes no memory.
    pub fn add(&mut self, request: Req, number: u64) -> Result<(), Req>
        requires free { request.waits ≡ false }
        requires unanswered { request.answered ≡ false }
        requires shape { request.shape ≡ self.old.shape }
        requires number { self.old.newest < number }
        ensures { MatchResult result
            (λ _. CrewStep self.old
            (Began (record { number = number; request = request.request; shape = request.shape; over = false })) self.new)
            (λ back. (16 ≤ length self.old.live) × (back ≡ request) × (self.new ≡ self.old)) }
    {
        if self.tasks.len() >= MOST {
            return Err(request);
        }
        let task = RequestTask::new(request, number);
        self.tasks.push_reserved(task);
        self.newest = number;
        Ok(())
    }

    /// Polls the live request with this number. NoSuch comes exactly where none has it. Else the request makes its
    /// calls up to its answer, with which it leaves the crew, or up to a wait.
    pub fn poll<S: Station, R: Wait>(
        &mut self,
        rt: &R,
        hall: &S::Hall,
        station: &mut S,
        number: u64,
        now: u64,
    ) -> CrewPoll
        requires of { S.is_of hall.now station.old }
        requires shape { self.old.shape ≡ S.shape hall.now }
        ensures of { S.is_of hall.now station.new }
        ensures polls { CrewPolls result number self.old self.new (S.book station.old) (S.book station.new) }
        ensures later { S.follows station.old station.new }
    {
        match find(&self.tasks, number) {
            Some(at) => poll_at(
                rt,
                hall,
                station,
                &mut self.tasks,
                &mut self.answered,
                at,
                now,
            ),
            None => return CrewPoll::NoSuch,
        }
    }

    /// The session has left: each live request is abandoned, and runs on to its end where it has to.
    pub fn abandon(&mut self)
        ensures { CrewStep self.old Left self.new }
    {
        abandon_each(&mut self.tasks);
    }
}
