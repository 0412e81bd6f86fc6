use crate::ledger::Ledger;
use crossbeam_queue::protocol::{Join, Lesson, Outcome, Protocol};

/// The rule that each link which was put is taken at most once, first in first out.
pub struct Line;

impl<L> Protocol<L, Ledger<L>> for Line {
    ghost use Rattle.std.specs.Prelude.{[]};
    ghost use Rattle.qs_pool.specs.Lines.{InLine, ledger};

    ghost holds = { InLine };

    ghost first = { ledger [] [] };
}

/// A link was put.
pub struct Putting;

impl<L> Outcome<L, Ledger<L>> for Putting {
    ghost use Rattle.qs_pool.specs.Lines.{PutsLink};

    ghost then = { λ old link new. PutsLink link old new };
}

impl<L> Lesson<L, Ledger<L>> for Putting {
    ghost use Rattle.qs_pool.specs.Lines.{WaitIn};

    ghost fact = { WaitIn };
}

/// A link was taken.
pub struct Taking;

impl<L> Outcome<L, Ledger<L>> for Taking {
    ghost use Rattle.qs_pool.specs.Lines.{TakesLink};

    ghost then = { λ old link new. TakesLink link old new };
}

impl<L> Lesson<L, Ledger<L>> for Taking {
    ghost use Rattle.qs_pool.specs.Lines.{WaitIn};

    ghost fact = { WaitIn };
}

/// Two ledgers become one.
pub struct Adding;

impl<L> Join<Ledger<L>> for Adding {
    ghost use Rattle.std.specs.Prelude.{[], ◌++◌};
    ghost use Rattle.qs_pool.specs.Lines.{ledger};

    ghost both = { λ v w. ledger (v.put ++ w.put) (v.got ++ w.got) };

    ghost spent = { ledger [] [] };
}

/// What holds of every ledger.
pub struct Fairness;

impl<L> Lesson<L, Ledger<L>> for Fairness {
    ghost use Rattle.qs_pool.specs.Lines.{IsFair};

    ghost fact = { λ v _. IsFair v };
}
