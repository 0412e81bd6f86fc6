//! A turn and a pass over plain type parameters.
//!
//! That a struct may cross threads is found for these at every part; it isn't found for a struct
//! that is generic in the part itself. `turn` has the names under which they are used.

use crate::sleepers::Sleepers;
use crate::view::View;
use atomic_table::{Seat, Table, TableRule};
use std::alloc::Global;
use std::marker::Model;

/// What holds of a pass between two calls.
pub trait Resting {
    ghost rests: { Self → Type 0 };
}

impl<P, O, R> Resting for View<P, O, R> {
    ghost use Rattle.qs_turn.specs.Idle.{IsIdle};

    ghost rests = { IsIdle };
}

/// A lock: the table with the word and the slot, and who sleeps until it is free.
#[derive(Drop)]
pub struct Lock<S: Drop, V, K, L: TableRule<S, V, K>> {
    pub(crate) table: Table<S, V, K, L, Global>,
    pub(crate) sleepers: Sleepers,
}

impl<S: Drop, V, K, L: TableRule<S, V, K>> Model for Lock<S, V, K, L> {
    ghost use Rattle.std.specs.Prelude.{◌≡◌};
    ghost use Rattle.qs_turn.specs.Names.{Name};

    ghost Value = { Name K };

    ghost view = { λ t. record { table = t.table.shared.table_id; key = t.table.shared.key } };

    ghost invariant = { λ t. (t.table.shared.table_id.words ≡ 16) × (t.table.shared.table_id.slots ≡ 1) };
}

/// What a thread calls with. It has no bytes.
#[derive(Drop)]
pub struct Token<S, V: Resting> {
    pub(crate) seat: Seat<S, V>,
}

impl<S, V: Resting> Model for Token<S, V> {
    ghost use Rattle.std.specs.Prelude.{◌≡◌, []};
    ghost use Rattle.qs_turn.specs.Names.{Known};

    ghost Value = { Known V };

    ghost view = { λ p. record { turn = p.seat.table_id; view = p.seat.me.0 } };

    ghost invariant = { λ p. (p.seat.me.1 ≡ []) × V.rests p.seat.me.0 };
}
