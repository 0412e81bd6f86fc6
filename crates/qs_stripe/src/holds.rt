ghost use Rattle.std.specs.Prelude.{◌≡◌, ◌≢◌, ◌↔◌, ◌⊎◌, ◌≤◌, ℕ, length, IfOk, IsTrue, None, Some, MatchOption};
ghost use Rattle.qs_part.specs.declared.stripe.Side.{Side as End};
ghost use Rattle.qs_stripe.specs.Holds.{EmptyFrom, HasBlock, IsFree, IsFreeFor, IsHeld, LetsGo, Takes, held_at_end, ends_with, ends_without, holds_of, hold_left};

use qs_part::stripe::Side;
use std::alloc::{AllocError, Global};
use std::marker::Model;

/// How many requests can hold blocks.
pub const PLACES: usize = 256;

/// The blocks that one request holds, at the ends of its span.
#[derive(Clone, Copy, Debug, PartialEq, Eq)]
pub struct Ends {
    pub head: Option<u64>,
    pub tail: Option<u64>,
}

fn is_block(held: Option<u64>, b: u64) -> bool
    ensures { IsTrue result ↔ (held ≡ Some b) }
{
    match held {
        Some(c) => c == b,
        None => false,
    }
}

fn left(held: Option<u64>, b: u64) -> Option<u64>
    ensures { result ≡ hold_left held b }
{
    match held {
        Some(c) if c != b => Some(c),
        _ => None,
    }
}

impl Ends {
    pub const NONE: Ends = Ends {
        head: None,
        tail: None,
    };

    /// The block that is held at this end.
    pub fn at(&self, side: Side) -> Option<u64>
        ensures { result ≡ held_at_end self.now side }
    {
        match side {
            Side::Head => self.head,
            Side::Tail => self.tail,
        }
    }

    /// Whether the block is held.
    pub fn has(&self, b: u64) -> bool
        ensures { IsTrue result ↔ HasBlock self.now b }
    {
        is_block(self.head, b) || is_block(self.tail, b)
    }

    /// With block `b` at this end.
    pub fn with(self, side: Side, b: u64) -> Ends
        ensures { result ≡ ends_with self side b }
    {
        match side {
            Side::Head => Ends {
                head: Some(b),
                ..self
            },
            Side::Tail => Ends {
                tail: Some(b),
                ..self
            },
        }
    }

    /// Without block `b`.
    pub fn without(self, b: u64) -> Ends
        ensures { result ≡ ends_without self b }
    {
        Ends {
            head: left(self.head, b),
            tail: left(self.tail, b),
        }
    }
}

fn first_holder(places: &[Ends], b: u64) -> Option<u8>
    requires { length places.now ≤ 256 }
    ensures { MatchOption result (IsFree (holds_of places.now) b) (λ j. IsHeld (holds_of places.now) j b) }
{
    for j in 0..places.len() {
        if places[j].has(b) {
            return Some(j as u8);
        }
    }
    None
}

fn first_other(places: &[Ends], b: u64, k: u8) -> Option<u8>
    requires { length places.now ≤ 256 }
    ensures { MatchOption result (IsFreeFor (holds_of places.now) k b)
        (λ j. IsHeld (holds_of places.now) j b × (j ≢ k)) }
{
    for j in 0..places.len() {
        if places[j].has(b) {
            if j != k as usize {
                return Some(j as u8);
            }
        }
    }
    None
}

/// How many places there are up to the last one that holds a block.
fn top_of(places: &[Ends]) -> usize
    ensures inside { result ≤ length places.now }
    ensures rest { EmptyFrom result places.now }
    ensures least { (n : ℕ) → EmptyFrom n places.now → result ≤ n }
{
    match places.iter().rposition(|ends| *ends != Ends::NONE) {
        Some(k) => k + 1,
        None => 0,
    }
}

/// What every place holds: of each of the 256 places of requests, the blocks of its two ends.
#[derive(Debug, Drop)]
pub struct Holds {
    places: Vec<Ends>,
    /// This place and those behind it hold nothing, so that a search may end before it.
    top: usize,
}

impl Model for Holds {
    ghost use Rattle.std.specs.Prelude.{◌≡◌, ◌≤◌, List, length};
    ghost use Rattle.qs_stripe.specs.declared.holds.Ends.{Ends};
    ghost use Rattle.qs_stripe.specs.Holds.{EmptyFrom};

    ghost Value = { List Ends };

    ghost view = { λ h. h.places.items };

    ghost invariant = { λ h. (length h.places.items ≡ 256) × (h.top ≤ 256) × EmptyFrom h.top h.places.items };
}

impl Holds {
    /// Nothing is held. All memory is taken here; no later call takes any.
    pub fn new(alloc: Global) -> Result<Self, AllocError>
        ensures { IfOk result (λ h. (k : ℕ) (side : End) → holds_of h k side ≡ None) }
    {
        match vec![in alloc; Ends::NONE; PLACES] {
            Ok(places) => Ok(Holds { places, top: 0 }),
            Err(_) => Err(AllocError),
        }
    }

    /// Nothing is held any more.
    pub fn clear(&mut self)
        ensures { (k : ℕ) (side : End) → holds_of self.new k side ≡ None }
    {
        self.places.fill(Ends::NONE);
        self.top = 0;
    }

    /// The block that place `k` holds at this end.
    pub fn at(&self, k: u8, side: Side) -> Option<u64>
        ensures { result ≡ holds_of self.now k side }
    {
        self.places[k as usize].at(side)
    }

    /// Whether place `k` holds the block.
    pub fn has(&self, k: u8, b: u64) -> bool
        ensures { IsTrue result ↔ IsHeld (holds_of self.now) k b }
    {
        self.places[k as usize].has(b)
    }

    /// A place that holds the block.
    pub fn holder(&self, b: u64) -> Option<u8>
        ensures { MatchOption result (IsFree (holds_of self.now) b) (λ j. IsHeld (holds_of self.now) j b) }
    {
        first_holder(&self.places[..self.top], b)
    }

    /// A place that holds the block and isn't `k`.
    pub fn other_holder(&self, b: u64, k: u8) -> Option<u8>
        ensures { MatchOption result (IsFreeFor (holds_of self.now) k b)
            (λ j. IsHeld (holds_of self.now) j b × (j ≢ k)) }
    {
        first_other(&self.places[..self.top], b, k)
    }

    /// Place `k` holds the block at this end from now on.
    pub fn take(&mut self, k: u8, side: Side, b: u64)
        ensures { Takes k side b (holds_of self.old) (holds_of self.new) }
    {
        let k = k as usize;
        self.places[k] = self.places[k].with(side, b);
        self.top = self.top.max(k + 1);
    }

    /// Place `k` doesn't hold the block any more.
    pub fn let_go(&mut self, k: u8, b: u64)
        ensures { LetsGo k b (holds_of self.old) (holds_of self.new) }
    {
        let k = k as usize;
        if k < self.top {
            self.places[k] = self.places[k].without(b);
            self.top = top_of(&self.places[..self.top]);
        }
    }
}
