//! What lies in the slot of a turn, and what a pass knows.

use std::collections::LinkedList;
use std::marker::Model;
use std::snapshot::Snapshot;

/// A call that was made, which contracts see as a `Call` of a history. No value of it is made.
pub struct MadeCall<O, R> {
    request: u64,
    op: O,
    reply: R,
}

impl<O, R> Model for MadeCall<O, R> {
    ghost use Rattle.qs_part.specs.Histories.{Call};

    ghost Value = { Call O R };

    ghost view = { λ c. record { request = c.request; op = c.op; reply = c.reply } };
}

/// A call in the history of a turn, with the number of the pass that made it. No value of it is
/// made.
pub struct Entry<O, R> {
    pub by: u64,
    pub call: MadeCall<O, R>,
}

/// What the last caller says of its call, as it gives the turn back.
#[derive(Drop)]
pub struct Said<O, R> {
    pub request: u64,
    pub op: Snapshot<O>,
    pub reply: Snapshot<R>,
}

/// The slot of a turn: the part, which is out while a call is made, and what the last caller said.
#[derive(Drop)]
pub struct Slot<P: Drop, O, R> {
    pub part: Option<P>,
    pub said: Option<Said<O, R>>,
}

/// The numbers of some passes, what was seen of the history, and the calls of these passes in it.
/// No value of it is made.
pub struct Half<O, R> {
    pub owned: LinkedList<u64>,
    pub seen: LinkedList<Entry<O, R>>,
    pub own: LinkedList<MadeCall<O, R>>,
}

/// What a pass knows. No value of it is made.
pub struct View<P, O, R> {
    /// Whether it is the first pass.
    pub first: bool,
    /// Of the first pass: how many passes were split off it.
    pub made: u64,
    /// The number under which the pass calls.
    pub number: u64,
    /// The state that the turn was made with.
    pub opening: Option<P>,
    /// While the pass has the turn: the state of the part.
    pub turn: Option<P>,
    pub mine: Half<O, R>,
    /// What another pass knew that is being joined into this one.
    pub joining: Half<O, R>,
}
