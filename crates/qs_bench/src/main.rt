//! Measures single operations of the core's parts, whole requests of the core, and turns beside std's
//! `Mutex`.
//!
//! - `qs_bench`: a thousand rounds of each, which prints how many were answered as they should be.
//! - `qs_bench WORK ROUNDS`: so many rounds of one kind of work of a part, to be timed from outside;
//!   WORK is `seat`, `list`, `start`, `load`, `store`, `admit`, `admit16` or `admit256` (with so many
//!   requests that wait), `burst` or `go`; `read` (of 4 bytes), `read64k` or `flush` is a request of the
//!   core.
//! - `qs_bench turns CALLS`: the calls that turns and mutexes make in a second, with CALLS calls of
//!   each thread and no work in a step, and with a tenth as many of a microsecond each.
#![tactic(auto)]

mod locks;
mod parts;
mod places;
mod requests;
mod sharing;
mod turns;

use crate::parts::{WORKS, Work, rounds_of};
use crate::sharing::{Lock, SHARINGS, Sharing, calls_made};
use anyhow::{Context, Result, bail};
use qs_part::part::Part;
use qs_turn_uses::tally::Tally;
use std::env;
use std::rt::Clock;
use std::sync::Wait;
use std::thread::Threads;
use std::time::Instant;

/// The rounds of a run without words.
const ROUNDS: u32 = 1000;

/// The spins that are timed at once to learn how long one takes.
const TIMED_SPINS: u32 = 20_000;

/// How often they are timed.
const TIMINGS: u32 = 100;

fn work_of(word: &str) -> Option<(&'static str, Work)> {
    WORKS.iter().copied().find(|(name, _)| *name == word)
}

fn tell_work<R: Threads + Wait + Sync + AllocGlobal + Print + Clock>(
    rt: &R,
    name: &str,
    work: Work,
    rounds: u64,
) -> Result<()> {
    let fine = rounds_of(rt.alloc(), work, rounds)?;
    println!(rt; "{name}: {fine} of {rounds}")?;
    Ok(())
}

fn tell_calls<R: Threads + Wait + Sync + AllocGlobal + Print + Clock>(
    rt: &R,
    sharing: Sharing,
    name: &str,
) -> Result<()> {
    let turns = calls_made(rt, rt.alloc(), Lock::Turn, sharing, 0, ROUNDS)?;
    let mutexes = calls_made(rt, rt.alloc(), Lock::Mutex, sharing, 0, ROUNDS)?;
    println!(rt; "{name}: {turns} calls of turns, {mutexes} of mutexes")?;
    Ok(())
}

fn tell_all<R: Threads + Wait + Sync + AllocGlobal + Print + Clock>(rt: &R) -> Result<()> {
    for (name, work) in WORKS {
        tell_work(rt, name, work, u64::from(ROUNDS))?;
    }
    for (sharing, name) in SHARINGS {
        tell_calls(rt, sharing, name)?;
    }
    Ok(())
}

/// The microseconds that a step of [`TIMED_SPINS`] takes.
fn timed<R: Clock>(rt: &R) -> Result<u128> {
    let mut tally = Tally {
        count: 0,
        spins: TIMED_SPINS,
    };
    let start = Instant::now(rt)?;
    tally.step(());
    Ok(start.elapsed(rt)?.as_micros())
}

/// The spins of a step that takes a microsecond, by the shortest of some timings.
fn spins_of_a_microsecond<R: Clock>(rt: &R) -> Result<u32> {
    let mut least = u128::from(TIMED_SPINS);
    for _ in 0..TIMINGS {
        least = least.min(timed(rt)?);
    }
    Ok(u32::try_from(u128::from(TIMED_SPINS) / least.max(1))?)
}

/// The calls in a second.
fn rate<R: Threads + Wait + Sync + AllocGlobal + Print + Clock>(
    rt: &R,
    lock: Lock,
    sharing: Sharing,
    spins: u32,
    calls: u32,
) -> Result<u128> {
    let start = Instant::now(rt)?;
    let made = calls_made(rt, rt.alloc(), lock, sharing, spins, calls)?;
    let micros = start.elapsed(rt)?.as_micros();
    Ok(u128::from(made) * 1_000_000 / (micros + 1))
}

fn tell_rates<R: Threads + Wait + Sync + AllocGlobal + Print + Clock>(
    rt: &R,
    step: &str,
    spins: u32,
    calls: u32,
) -> Result<()> {
    for (sharing, name) in SHARINGS {
        let turns = rate(rt, Lock::Turn, sharing, spins, calls)?;
        let mutexes = rate(rt, Lock::Mutex, sharing, spins, calls)?;
        let hundredths = turns.saturating_mul(100) / mutexes.max(1);
        println!(rt;
            "{step}, {name}: turns {turns}, mutexes {mutexes} a second: {hundredths} to 100"
        )?;
    }
    Ok(())
}

fn tell_turns<R: Threads + Wait + Sync + AllocGlobal + Print + Clock>(
    rt: &R,
    calls: u32,
) -> Result<()> {
    let spins = spins_of_a_microsecond(rt)?;
    println!(rt; "a microsecond is {spins} spins")?;
    tell_rates(rt, "empty steps", 0, calls)?;
    tell_rates(rt, "steps of 1 us", spins, calls / 10)
}

fn main(rt: HostRuntime) -> Result<()> {
    let mut words = env::args(&rt)?.skip(1);
    let Some(kind) = words.next() else {
        return tell_all(&rt);
    };
    let Some(number) = words.next() else {
        bail!("usage: qs_bench [WORK ROUNDS | turns CALLS]");
    };
    if kind.as_str() == "turns" {
        return tell_turns(&rt, number.parse::<u32>().context("the number of calls")?);
    }
    let rounds = number.parse::<u64>().context("the number of rounds")?;
    match work_of(kind.as_str()) {
        Some((name, work)) => tell_work(&rt, name, work, rounds),
        None => bail!("there is no work of that name"),
    }
}
