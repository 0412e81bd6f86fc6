//! What sessions and the daemon need of the outside: links and wires to clients, what accepts them,
//! what starts jobs, and gates that threads watch; each as a trait, with such objects in memory.
#![tactic(auto)]

mod acceptor;
mod closure_spawner;
mod count_spawner;
mod gate;
mod gated_disk;
mod gated_link;
mod link;
mod mem_acceptor;
mod mem_link;
mod mem_wire;
mod plan;
mod spawner;
#[cfg(test)]
mod tests;
mod wire;

pub use acceptor::Acceptor;
pub use closure_spawner::ClosureSpawner;
pub use count_spawner::CountSpawner;
pub use gate::{Flag, Gate};
pub use gated_disk::GatedDisk;
pub use gated_link::GatedLink;
pub use link::Link;
pub use mem_acceptor::MemAcceptor;
pub use mem_link::MemLink;
pub use mem_wire::MemWire;
pub use spawner::Spawner;
pub use wire::{Tried, Wire};
