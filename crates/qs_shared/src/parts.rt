//! The turns of all parts, and a pass of each, over plain type parameters.
//!
//! That a struct may cross threads is found for these at every part; it isn't found for a struct that is generic in
//! the disk itself.

use qs_graph::graph::Graph;
use qs_group::group::Group;
use qs_request_state::Shape;
use qs_stripe::geometry::Geometry;
use qs_stripe::stripe::Stripe;
use qs_tracker::tracker::Tracker;
use qs_turn::turn::{Pass, Turn};
use std::marker::PhantomData;

/// How many throttle groups there are.
pub const GROUPS: usize = 16;

/// The turns: that of the tracker, that of the graph, those of the groups and those of the stripes, each in the order
/// of its number. `F` is what never changes about a stripe.
#[derive(Drop)]
pub struct PartTurns<T: Drop, G: Drop, L: Drop, S: Drop, F> {
    pub(crate) shape: Shape,
    pub(crate) tracker: T,
    pub(crate) graph: G,
    pub(crate) groups: Vec<L>,
    pub(crate) stripes: Vec<S>,
    pub(crate) fixed: PhantomData<F>,
}

/// A pass of each turn.
#[derive(Drop)]
pub struct PartPasses<T: Drop, G: Drop, L: Drop, S: Drop, B: Drop, D: Drop> {
    pub(crate) tracker: T,
    pub(crate) graph: G,
    pub(crate) groups: Vec<L>,
    pub(crate) stripes: Vec<S>,
    /// Room for the stripes of the turns that are closed, in the first pass.
    pub(crate) stripe_room: Vec<B>,
    /// Room for their disks: the emptied vector in which they came.
    pub(crate) disk_room: Vec<D>,
}

/// The parts of the daemon behind 26 turns: the tracker of requests, the graph, 16 throttle groups, and 8 stripes of
/// the image. Any number of threads may share it; each calls with a pass of its own.
pub type Shared<D> = PartTurns<Turn<Tracker>, Turn<Graph>, Turn<Group>, Turn<Stripe<D>>, Geometry>;

/// What a session calls the parts with: a pass of each turn.
///
/// Contracts see the calls that it has seen of each part, those of them that are its own, whether it is the first
/// pass, and of the first pass how many are out.
pub type SessionPass<D> = PartPasses<
    Pass<Tracker>,
    Pass<Graph>,
    Pass<Group>,
    Pass<Stripe<D>>,
    Stripe<D>,
    D,
>;
