ghost use Rattle.std.specs.Prelude.{◌≡◌, ◌<◌, ◌-◌, ◌^◌, IfOk, MatchOption};
ghost use Rattle.qs_tracker.specs.declared.seat.Seat.TheVariants.{Vacant};
ghost use Rattle.qs_tracker.specs.Seats.{IsClear, IsLowestBefore};
ghost use Rattle.qs_tracker.specs.Table.{fresh, numbered, placed, Fits, answers};

use crate::places::{self, PLACES};
use crate::seat::{Listing, Seat};
use qs_bytes::{Memory, Span};
use qs_part::part::Part;
use qs_part::tracker::{TrackerOp, TrackerReply};
use std::alloc::Global;
use std::marker::Model;

/// The tracker of requests in flight, after QEMU's tracked requests (block/io.c).
///
/// A request takes a place, lists the whole blocks that it reaches, and starts once no conflicting
/// span was listed before its own. Spans go in the order of their numbers.
#[derive(Debug, Drop)]
pub struct Tracker {
    /// The 256 places.
    seats: Vec<Seat>,
    /// Nobody is at this place or behind it, so that a search may end before it.
    top: usize,
    /// The number of the next span.
    number: u64,
    quiesced: bool,
}

impl Model for Tracker {
    ghost use Rattle.std.specs.Prelude.{◌≡◌, ◌≤◌, length};
    ghost use Rattle.qs_tracker.specs.Seats.{VacantFrom};
    ghost use Rattle.qs_tracker.specs.Table.{TrackerValue};

    ghost Value = { TrackerValue };

    ghost view = { λ t. record { seats = t.seats.items; number = t.number; quiesced = t.quiesced } };

    ghost invariant = { λ t. (length t.seats.items ≡ 256) × (t.top ≤ 256) × VacantFrom t.top t.seats.items };
}

impl Tracker {
    /// A tracker with nobody in, whose numbers begin at `first`. It takes all the memory that it
    /// ever needs.
    pub fn new(alloc: Global, first: u64) -> Result<Self, Memory>
        ensures { IfOk result (λ t. t ≡ fresh first) }
    {
        Ok(Tracker {
            seats: Vec::from_array(alloc, [Seat::Vacant; PLACES])?,
            top: 0,
            number: first,
            quiesced: false,
        })
    }

    /// Makes the tracker what [`Tracker::new`] makes, with numbers from 0 on.
    pub fn reset(&mut self)
        ensures { self.new ≡ fresh 0 }
    {
        self.seats.fill(Seat::Vacant);
        self.top = 0;
        self.number = 0;
        self.quiesced = false;
    }

    fn put(&mut self, k: usize, seat: Seat)
        requires { k < 256 }
        ensures { self.new ≡ placed self.old k seat }
    {
        self.seats[k] = seat;
        self.top = self.top.max(k + 1);
    }

    fn vacate(&mut self, k: usize)
        requires { k < 256 }
        ensures { self.new ≡ placed self.old k Vacant }
    {
        self.seats[k] = Seat::Vacant;
        self.top = places::top_of(&self.seats[..self.top]);
    }

    fn enter(&mut self) -> TrackerReply
        ensures { answers self.old TrackerOp.Enter result self.new }
    {
        if self.quiesced {
            return TrackerReply::Quiesced;
        }
        match places::first_vacant(&self.seats) {
            Some(k) => {
                self.put(k, Seat::Present);
                TrackerReply::Entered(k as u8)
            }
            None => TrackerReply::Full,
        }
    }

    /// Numbers the listed spans anew where the next number would be 2^64 - 1.
    fn make_room(&mut self)
        ensures numbered { self.new ≡ numbered self.old }
        ensures room { self.new.number < 2 ^ 64 - 1 }
    {
        if self.number == u64::MAX {
            self.number = places::count_listed(&self.seats) as u64;
            places::renumber(&mut self.seats);
        }
    }

    fn list(&mut self, k: u8, span: Span, serial: bool) -> TrackerReply
        ensures { answers self.old (TrackerOp.List k span serial) result self.new }
    {
        let k = usize::from(k);
        if self.seats[k] != Seat::Present {
            return TrackerReply::Strange;
        }
        self.make_room();
        let number = self.number;
        self.number = number + 1;
        let listing = Listing {
            span,
            serial,
            number,
            started: false,
        };
        self.put(k, Seat::Has(listing));
        TrackerReply::Listed(number)
    }

    fn lowest_before(&self, own: &Listing) -> Option<u64>
        ensures { MatchOption result (IsClear self.now.seats own.now) (IsLowestBefore self.now.seats own.now) }
    {
        places::lowest_before(&self.seats[..self.top], own)
    }

    fn start(&mut self, k: u8) -> TrackerReply
        ensures { answers self.old (TrackerOp.Start k) result self.new }
    {
        let k = usize::from(k);
        let Seat::Has(own) = self.seats[k] else {
            return TrackerReply::Strange;
        };
        match self.lowest_before(&own) {
            Some(n) => TrackerReply::NotYet(n),
            None => {
                let going = Listing {
                    started: true,
                    ..own
                };
                self.put(k, Seat::Has(going));
                TrackerReply::Started
            }
        }
    }

    fn end(&mut self, k: u8) -> TrackerReply
        ensures { answers self.old (TrackerOp.End k) result self.new }
    {
        let k = usize::from(k);
        if self.seats[k].is_vacant() {
            return TrackerReply::Strange;
        }
        self.vacate(k);
        TrackerReply::Ended
    }

    fn quiesce(&mut self) -> TrackerReply
        ensures { answers self.old TrackerOp.Quiesce result self.new }
    {
        if self.quiesced {
            return TrackerReply::Already;
        }
        self.quiesced = true;
        TrackerReply::Stopped
    }

    fn drained(&self) -> TrackerReply
        ensures { answers self.now TrackerOp.Drained result self.now }
    {
        match places::first_in(&self.seats[..self.top]) {
            Some(k) => TrackerReply::InFlight(k as u8),
            None => TrackerReply::Empty,
        }
    }

    fn resume(&mut self) -> TrackerReply
        ensures { answers self.old TrackerOp.Resume result self.new }
    {
        if !self.quiesced {
            return TrackerReply::Strange;
        }
        self.quiesced = false;
        TrackerReply::Resumed
    }
}

impl Part for Tracker {
    type Fixed = ();

    type Op = TrackerOp;

    type Reply = TrackerReply;

    ghost fixed_of = { λ _. tt };

    ghost can = { λ _ op. Fits op };

    ghost legal = { answers };

    fn fixed(&self) {}

    fn fits(_fixed: &(), op: &TrackerOp) -> bool {
        match op {
            TrackerOp::List { span, .. } => span.lo() < span.hi() && span.is_aligned(512),
            _ => true,
        }
    }

    fn step(&mut self, op: TrackerOp) -> TrackerReply {
        match op {
            TrackerOp::Enter => self.enter(),
            TrackerOp::List { k, span, serial } => self.list(k, span, serial),
            TrackerOp::Start { k } => self.start(k),
            TrackerOp::End { k } => self.end(k),
            TrackerOp::Quiesce => self.quiesce(),
            TrackerOp::Drained => self.drained(),
            TrackerOp::Resume => self.resume(),
        }
    }
}

#[cfg(test)]
mod tests;
