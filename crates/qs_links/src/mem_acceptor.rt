ghost use Rattle.std.specs.Prelude.{◌≡◌, ◌↔◌, [], IsErr, Some};
ghost use Rattle.qs_outside.specs.Faults.{HasCause};
ghost use Rattle.qs_links.specs.Starts.{Accepts};

use crate::acceptor::Acceptor;
use crate::wire::Wire;
use qs_outside::Failed;
use std::collections::VecDeque;
use std::marker::Model;
use std::sync::Wait;

/// An acceptor of known wires, which then fails.
#[derive(Drop)]
pub struct MemAcceptor<L> {
    links: VecDeque<L>,
    faults: u64,
}

impl<L> Model for MemAcceptor<L> {
    ghost use Rattle.qs_links.specs.Starts.{Arriving};

    ghost Value = { Arriving L };

    ghost view = { λ a. record { links = a.links.items; faults = a.faults } };
}

impl<L> MemAcceptor<L> {
    /// An acceptor that gives these in their order. It takes no memory.
    pub fn new(links: Vec<L>) -> Self
        ensures { result ≡ record { links = links.items; faults = 0 } }
    {
        MemAcceptor {
            links: VecDeque::from(links),
            faults: 0,
        }
    }
}

impl<L: Wire + Drop> Acceptor for MemAcceptor<L> {
    type L = L;

    ghost arriving = { λ a. Some a.links };

    ghost faults = { λ a. a.faults };

    fn accept<R: Wait>(&mut self, _rt: &R) -> Result<L, Failed>
        ensures came { Accepts (Some self.old.links) (Some self.new.links) result }
        ensures cause { HasCause self.old.faults self.new.faults result }

        // It fails exactly where none is left.
        ensures fails { IsErr result ↔ (self.old.links ≡ []) }
    {
        match self.links.pop_front() {
            Some(link) => Ok(link),
            None => {
                self.faults = self.faults.saturating_add(1);
                Err(Failed)
            }
        }
    }
}
