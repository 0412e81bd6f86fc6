//! Calls of one thread.
ghost use Rattle.std.specs.Prelude.{◌≡◌};
ghost use Rattle.qs_part.specs.Histories.{lawful};
ghost use Rattle.qs_turn.specs.Words.{opening, IsPassOf, Calls};

use qs_outside::Disk;
use qs_part::part::Part;
use qs_part::runs::{StripeAnswer, StripeCall};
use qs_stripe::stripe::Stripe;
use qs_turn::turn::{Pass, Turn};
use std::sync::Wait;

/// Makes two calls in a row. Calls of other threads may come between them.
pub fn twice<P: Part, R: Wait>(
    rt: &R,
    turn: &Turn<P>,
    pass: &mut Pass<P>,
    first: P::Op,
    second: P::Op,
) -> (P::Reply, P::Reply)
    requires turn { IsPassOf turn.now pass.old }
    requires first { P.can (P.fixed_of (opening turn.now)) first }
    requires second { P.can (P.fixed_of (opening turn.now)) second }
    ensures turn { IsPassOf turn.now pass.new }
    ensures calls { (mid : _)
        × Calls (lawful P.fixed_of P.can P.legal) (opening turn.now) pass.old 1 first result.0 mid
        × Calls (lawful P.fixed_of P.can P.legal) (opening turn.now) mid 2 second result.1 pass.new }
{
    let one = turn.call(rt, pass, 1, first);
    let two = turn.call(rt, pass, 2, second);
    (one, two)
}

/// Makes a call of a stripe, whatever disk it is on.
#[tactic(none)]
pub fn on_stripe<D: Disk + Drop, R: Wait>(
    rt: &R,
    turn: &Turn<Stripe<D>>,
    pass: &mut Pass<Stripe<D>>,
    request: u64,
    op: StripeCall,
) -> StripeAnswer
    requires turn { IsPassOf turn.now pass.old }
    requires fits { ⟦<Stripe<D> as Part>⟧.can (⟦<Stripe<D> as Part>⟧.fixed_of (opening turn.now)) op }
    ensures turn { IsPassOf turn.now pass.new }
    ensures call { Calls (lawful ⟦<Stripe<D> as Part>⟧.fixed_of ⟦<Stripe<D> as Part>⟧.can ⟦<Stripe<D> as Part>⟧.legal)
        (opening turn.now) pass.old request op result pass.new }
{
    turn.call(rt, pass, request, op)
}
