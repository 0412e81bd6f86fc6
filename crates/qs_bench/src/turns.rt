//! Steps of a tally behind a turn.
ghost use Rattle.std.specs.Prelude.{◌≡◌, ◌<◌, length, IfOk};
ghost use Rattle.qs_turn.specs.Words.{IsPassOf};
ghost use Rattle.qs_turn_rows.specs.Rows.{Pairs, Each, IsAlone};
ghost use Rattle.qs_turn_uses.specs.Ticks.{Ticked};

use crate::places::{Place, first_place};
use qs_bytes::Memory;
use qs_turn::turn::{Pass, Turn};
use qs_turn_rows::rows::{call_at, open_next, split_all};
use qs_turn_uses::tally::{Tally, count_by_four, tick};
use std::alloc::Global;
use std::sync::Wait;
use std::thread::{Threads, join};

/// Two threads make `n` calls each, of turns that may be one and the same.
fn both<R: Threads + Wait + Sync>(
    rt: &R,
    left: &Turn<Tally>,
    mine: Pass<Tally>,
    right: &Turn<Tally>,
    theirs: Pass<Tally>,
    n: u64,
) -> (Pass<Tally>, Pass<Tally>)
    requires { IsPassOf left.now mine × IsPassOf right.now theirs }
    ensures mine { Ticked left.now n mine result.0 }
    ensures theirs { Ticked right.now n theirs result.1 }
{
    join(
        rt,
        move || -> Pass<Tally>
            requires { IsPassOf left.now mine }
            ensures { Ticked left.entry.now n mine result }
        { tick(rt, left, mine, n) },
        move || -> Pass<Tally>
            requires { IsPassOf right.now theirs }
            ensures { Ticked right.entry.now n theirs result }
        { tick(rt, right, theirs, n) },
    )
}

pub fn alone<R: Wait>(rt: &R, alloc: Global, spins: u32, n: u32) -> Result<u64, Memory> {
    let (turn, pass) = Turn::new(alloc, Tally { count: 0, spins })?;
    let pass = tick(rt, &turn, pass, u64::from(n));
    Ok(turn.close(pass).count)
}

pub fn shared_by_two<R: Threads + Wait + Sync>(
    rt: &R,
    alloc: Global,
    spins: u32,
    n: u32,
) -> Result<u64, Memory> {
    let (turn, mut first) = Turn::new(alloc, Tally { count: 0, spins })?;
    let second = turn.split(&mut first);
    let (mut first, second) = both(rt, &turn, first, &turn, second, u64::from(n));
    turn.join(&mut first, second);
    Ok(turn.close(first).count)
}

pub fn shared_by_four<R: Threads + Wait + Sync>(
    rt: &R,
    alloc: Global,
    spins: u32,
    n: u32,
) -> Result<u64, Memory> {
    count_by_four(rt, alloc, spins, u64::from(n))
}

/// Four threads, each on a turn of its own.
pub fn one_each<R: Threads + Wait + Sync>(
    rt: &R,
    alloc: Global,
    spins: u32,
    n: u32,
) -> Result<u64, Memory> {
    let (one, first) = Turn::new(alloc, Tally { count: 0, spins })?;
    let (two, second) = Turn::new(alloc, Tally { count: 0, spins })?;
    let (three, third) = Turn::new(alloc, Tally { count: 0, spins })?;
    let (four, fourth) = Turn::new(alloc, Tally { count: 0, spins })?;
    let calls = u64::from(n);
    let (a, b, c, d) = (&one, &two, &three, &four);
    let (front, back) = join(
        rt,
        move || -> (Pass<Tally>, Pass<Tally>)
            requires { IsPassOf a.now first × IsPassOf b.now second }
            ensures { Ticked a.entry.now calls first result.0 × Ticked b.entry.now calls second result.1 }
        { both(rt, a, first, b, second, calls) },
        move || -> (Pass<Tally>, Pass<Tally>)
            requires { IsPassOf c.now third × IsPassOf d.now fourth }
            ensures { Ticked c.entry.now calls third result.0 × Ticked d.entry.now calls fourth result.1 }
        { both(rt, c, third, d, fourth, calls) },
    );
    let (first, second) = front;
    let (third, fourth) = back;
    let front = one.close(first).count.wrapping_add(two.close(second).count);
    let back = three
        .close(third)
        .count
        .wrapping_add(four.close(fourth).count);
    Ok(front.wrapping_add(back))
}

/// Makes `n` calls of turns of a row, one after another in an order of the thread's own.
fn wander<R: Wait>(
    rt: &R,
    turns: &[Turn<Tally>],
    mut passes: Vec<Pass<Tally>>,
    start: Place,
    n: u32,
) -> Vec<Pass<Tally>>
    requires { Pairs IsPassOf turns.now passes.items }
    ensures { Pairs IsPassOf turns.now result.items }
{
    let mut place = start;
    for i in 0..n {
        let at = place.of(turns.len());
        if at < turns.len() {
            call_at(rt, turns, &mut passes, at, u64::from(i), ());
        }
        place = place.next();
    }
    passes
}

/// Two threads wander over a row.
fn wander_both<R: Threads + Wait + Sync>(
    rt: &R,
    turns: &[Turn<Tally>],
    mine: Vec<Pass<Tally>>,
    theirs: Vec<Pass<Tally>>,
    start: u64,
    n: u32,
) -> (Vec<Pass<Tally>>, Vec<Pass<Tally>>)
    requires { Pairs IsPassOf turns.now mine.items × Pairs IsPassOf turns.now theirs.items }
    ensures { Pairs IsPassOf turns.now result.0.items × Pairs IsPassOf turns.now result.1.items }
{
    join(
        rt,
        move || -> Vec<Pass<Tally>>
            requires { Pairs IsPassOf turns.now mine.items }
            ensures { Pairs IsPassOf turns.entry.now result.items }
        { wander(rt, turns, mine, first_place(start), n) },
        move || -> Vec<Pass<Tally>>
            requires { Pairs IsPassOf turns.now theirs.items }
            ensures { Pairs IsPassOf turns.entry.now result.items }
        { wander(rt, turns, theirs, first_place(start.wrapping_add(1)), n) },
    )
}

/// So many turns of a tally, with their first passes.
fn open_row(
    alloc: Global,
    spins: u32,
    long: usize,
) -> Result<(Vec<Turn<Tally>>, Vec<Pass<Tally>>), Memory>
    ensures { IfOk result (λ row. Pairs IsPassOf row.0.items row.1.items × Each IsAlone row.1.items) }
{
    let mut turns = Vec::new(alloc);
    let mut passes = Vec::new(alloc);
    for _ in 0..long {
        open_next(alloc, &mut turns, &mut passes, Tally { count: 0, spins })?;
    }
    Ok((turns, passes))
}

/// The calls that were made of all turns of a row, told by one more call of each.
fn calls_of_row<R: Wait>(rt: &R, turns: &[Turn<Tally>], mut passes: Vec<Pass<Tally>>) -> u64
    requires { Pairs IsPassOf turns.now passes.items }
{
    let mut all: u64 = 0;
    for at in 0..turns.len() {
        let count = call_at(rt, turns, &mut passes, at, 0, ());
        all = all.wrapping_add(count.wrapping_sub(1));
    }
    all
}

/// Four threads, each of which wanders over eight turns.
pub fn over_eight<R: Threads + Wait + Sync>(
    rt: &R,
    alloc: Global,
    spins: u32,
    n: u32,
) -> Result<u64, Memory> {
    let (turns, mut first) = open_row(alloc, spins, 8)?;
    let row = turns.as_slice();
    let second = split_all(alloc, row, &mut first)?;
    let third = split_all(alloc, row, &mut first)?;
    let fourth = split_all(alloc, row, &mut first)?;
    let (front, _back) = join(
        rt,
        move || -> (Vec<Pass<Tally>>, Vec<Pass<Tally>>)
            requires { Pairs IsPassOf row.now first.items × Pairs IsPassOf row.now second.items }
            ensures { Pairs IsPassOf row.entry.now result.0.items × Pairs IsPassOf row.entry.now result.1.items }
        { wander_both(rt, row, first, second, 0, n) },
        move || -> (Vec<Pass<Tally>>, Vec<Pass<Tally>>)
            requires { Pairs IsPassOf row.now third.items × Pairs IsPassOf row.now fourth.items }
            ensures { Pairs IsPassOf row.entry.now result.0.items × Pairs IsPassOf row.entry.now result.1.items }
        { wander_both(rt, row, third, fourth, 2, n) },
    );
    let (first, _second) = front;
    Ok(calls_of_row(rt, row, first))
}
