//! Steps of a tally under std's `Mutex`.

use crate::places::{Place, first_place};
use qs_bytes::Memory;
use qs_part::part::Part;
use qs_turn_uses::tally::Tally;
use std::alloc::Global;
use std::sync::{Mutex, Wait};
use std::thread::{Threads, join};

fn tick<R: Wait>(rt: &R, tally: &Mutex<Tally>, n: u32) {
    for _ in 0..n {
        tally.lock(rt).step(());
    }
}

fn both<R: Threads + Wait + Sync>(rt: &R, first: &Mutex<Tally>, second: &Mutex<Tally>, n: u32) {
    join(rt, || tick(rt, first, n), || tick(rt, second, n));
}

fn fresh(spins: u32) -> Mutex<Tally> {
    Mutex::new(Tally { count: 0, spins })
}

pub fn alone<R: Wait>(rt: &R, spins: u32, n: u32) -> u64 {
    let tally = fresh(spins);
    tick(rt, &tally, n);
    tally.into_inner().count
}

pub fn shared_by_two<R: Threads + Wait + Sync>(rt: &R, spins: u32, n: u32) -> u64 {
    let tally = fresh(spins);
    both(rt, &tally, &tally, n);
    tally.into_inner().count
}

pub fn shared_by_four<R: Threads + Wait + Sync>(rt: &R, spins: u32, n: u32) -> u64 {
    let tally = fresh(spins);
    join(
        rt,
        || both(rt, &tally, &tally, n),
        || both(rt, &tally, &tally, n),
    );
    tally.into_inner().count
}

fn sum(tallies: Vec<Mutex<Tally>>) -> u64 {
    let mut all: u64 = 0;
    for tally in tallies {
        all = all.wrapping_add(tally.into_inner().count);
    }
    all
}

fn row(alloc: Global, spins: u32, long: usize) -> Result<Vec<Mutex<Tally>>, Memory> {
    let mut tallies = Vec::new(alloc);
    for _ in 0..long {
        tallies.push(fresh(spins))?;
    }
    Ok(tallies)
}

/// Four threads, each on a lock of its own.
pub fn one_each<R: Threads + Wait + Sync>(
    rt: &R,
    alloc: Global,
    spins: u32,
    n: u32,
) -> Result<u64, Memory> {
    let tallies = row(alloc, spins, 4)?;
    if let [a, b, c, d] = tallies.as_slice() {
        join(rt, || both(rt, a, b, n), || both(rt, c, d, n));
    }
    Ok(sum(tallies))
}

fn wander<R: Wait>(rt: &R, tallies: &[Mutex<Tally>], start: Place, n: u32) {
    let mut place = start;
    for _ in 0..n {
        if let Some(tally) = tallies.get(place.of(tallies.len())) {
            tally.lock(rt).step(());
        }
        place = place.next();
    }
}

fn wander_both<R: Threads + Wait + Sync>(rt: &R, tallies: &[Mutex<Tally>], start: u64, n: u32) {
    join(
        rt,
        || wander(rt, tallies, first_place(start), n),
        || wander(rt, tallies, first_place(start.wrapping_add(1)), n),
    );
}

/// Four threads, each of which wanders over eight locks.
pub fn over_eight<R: Threads + Wait + Sync>(
    rt: &R,
    alloc: Global,
    spins: u32,
    n: u32,
) -> Result<u64, Memory> {
    let tallies = row(alloc, spins, 8)?;
    let all = tallies.as_slice();
    join(
        rt,
        || wander_both(rt, all, 0, n),
        || wander_both(rt, all, 2, n),
    );
    Ok(sum(tallies))
}
