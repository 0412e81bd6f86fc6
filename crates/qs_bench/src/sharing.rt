//! How threads share locks in a measurement.

use crate::{locks, turns};
use qs_bytes::Memory;
use std::alloc::Global;
use std::sync::Wait;
use std::thread::Threads;

/// What is measured.
#[derive(Clone, Copy, Debug, PartialEq, Eq)]
pub enum Lock {
    Turn,
    Mutex,
}

/// Which threads call which locks.
#[derive(Clone, Copy, Debug, PartialEq, Eq)]
pub enum Sharing {
    Alone,
    TwoOnOne,
    FourOnOne,
    OneEach,
    FourOverEight,
}

/// Each way with its name.
pub const SHARINGS: [(Sharing, &str); 5] = [
    (Sharing::Alone, "1 thread"),
    (Sharing::TwoOnOne, "2 threads on one"),
    (Sharing::FourOnOne, "4 threads on one"),
    (Sharing::OneEach, "4 threads on one each"),
    (Sharing::FourOverEight, "4 threads over eight"),
];

/// Makes `n` calls of each thread, of steps with so many `spins`; how many calls were made in all.
pub fn calls_made<R: Threads + Wait + Sync>(
    rt: &R,
    alloc: Global,
    lock: Lock,
    sharing: Sharing,
    spins: u32,
    n: u32,
) -> Result<u64, Memory> {
    match lock {
        Lock::Turn => calls_of_turns(rt, alloc, sharing, spins, n),
        Lock::Mutex => calls_of_mutexes(rt, alloc, sharing, spins, n),
    }
}

fn calls_of_turns<R: Threads + Wait + Sync>(
    rt: &R,
    alloc: Global,
    sharing: Sharing,
    spins: u32,
    n: u32,
) -> Result<u64, Memory> {
    match sharing {
        Sharing::Alone => turns::alone(rt, alloc, spins, n),
        Sharing::TwoOnOne => turns::shared_by_two(rt, alloc, spins, n),
        Sharing::FourOnOne => turns::shared_by_four(rt, alloc, spins, n),
        Sharing::OneEach => turns::one_each(rt, alloc, spins, n),
        Sharing::FourOverEight => turns::over_eight(rt, alloc, spins, n),
    }
}

fn calls_of_mutexes<R: Threads + Wait + Sync>(
    rt: &R,
    alloc: Global,
    sharing: Sharing,
    spins: u32,
    n: u32,
) -> Result<u64, Memory> {
    match sharing {
        Sharing::Alone => Ok(locks::alone(rt, spins, n)),
        Sharing::TwoOnOne => Ok(locks::shared_by_two(rt, spins, n)),
        Sharing::FourOnOne => Ok(locks::shared_by_four(rt, spins, n)),
        Sharing::OneEach => locks::one_each(rt, alloc, spins, n),
        Sharing::FourOverEight => locks::over_eight(rt, alloc, spins, n),
    }
}
