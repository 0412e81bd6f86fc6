//! The rule of a turn, and the kinds of step that keep it. All of it exists in proofs alone.

use crate::view::{Slot, View};
use atomic_table::{Join, Play, Split, TableRule};
use qs_part::part::Part;
use std::snapshot::Snapshot;

/// What holds of the word, the slot and all passes between any two steps.
pub struct Law;

impl<P: Part> TableRule<Slot<P, P::Op, P::Reply>, View<P, P::Op, P::Reply>, Snapshot<P>> for Law {
    ghost use Rattle.qs_part.specs.Histories.{lawful};
    ghost use Rattle.qs_turn.specs.Rule.{Kept, first_view};

    ghost holds = { λ key. Kept (lawful P.fixed_of P.can P.legal) key.value };

    ghost first = { λ key. first_view key.value };
}

/// The turn is taken, where the word is the even number that was expected.
pub struct Take;

impl<P: Part> Play<Slot<P, P::Op, P::Reply>, View<P, P::Op, P::Reply>> for Take {
    ghost use Rattle.qs_part.specs.Histories.{lawful};
    ghost use Rattle.qs_turn.specs.Steps.{taken};

    ghost then = { taken (lawful P.fixed_of P.can P.legal) };
}

/// The turn is given back, with the call that was made.
pub struct Give;

impl<P: Drop, O, R> Play<Slot<P, O, R>, View<P, O, R>> for Give {
    ghost use Rattle.qs_turn.specs.Steps.{given};

    ghost then = { given };
}

/// One more pass is made.
pub struct Fork;

impl<P, O, R> Split<View<P, O, R>> for Fork {
    ghost use Rattle.qs_turn.specs.Steps.{forked, newcomer};

    ghost left = { forked };

    ghost right = { newcomer };
}

/// What another pass knew is put beside.
pub struct Meet;

impl<P, O, R> Join<View<P, O, R>> for Meet {
    ghost use Rattle.qs_turn.specs.Steps.{beside, spent};

    ghost both = { beside };

    ghost spent = { spent };
}

/// What was put beside is taken in.
pub struct Look;

impl<P: Drop, O, R> Play<Slot<P, O, R>, View<P, O, R>> for Look {
    ghost use Rattle.qs_turn.specs.Steps.{looked};

    ghost then = { looked };
}
