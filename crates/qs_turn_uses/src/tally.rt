//! A small part: it counts its calls.
ghost use Rattle.std.specs.Prelude.{◌≡◌, ◌*◌, ◌^◌, ◌<◌, IfOk};
ghost use Rattle.qs_turn_uses.specs.Tallies.{counts, tally_fixed, tally_fits};
ghost use Rattle.qs_turn_uses.specs.Ticks.{Ticked};
ghost use Rattle.qs_part.specs.Histories.{lawful};
ghost use Rattle.qs_turn.specs.Words.{opening, IsPassOf, Calls};

use qs_bytes::Memory;
use qs_part::part::Part;
use qs_turn::turn::{Pass, Turn};
use std::alloc::Global;
use std::hint::spin_loop;
use std::sync::Wait;
use std::thread::{Threads, join};

/// A part that counts its calls and answers each by its number, from 1 on.
#[derive(Debug, Drop)]
pub struct Tally {
    pub count: u64,
    /// How long a step takes: so many times the processor is told that nothing is to do.
    pub spins: u32,
}

/// Does nothing for a while.
fn spin(times: u32) {
    for _ in 0..times {
        spin_loop();
    }
}

impl Part for Tally {
    type Fixed = ();

    type Op = ();

    type Reply = u64;

    ghost fixed_of = { tally_fixed };

    ghost can = { tally_fits };

    ghost legal = { counts };

    fn fixed(&self) {}

    fn fits(_fixed: &(), _op: &()) -> bool {
        true
    }

    fn step(&mut self, _op: ()) -> u64 {
        spin(self.spins);
        self.count = self.count.wrapping_add(1);
        self.count
    }
}

/// Makes one call: the number that the tally answers.
pub fn next<R: Wait>(rt: &R, turn: &Turn<Tally>, pass: &mut Pass<Tally>, request: u64) -> u64
    requires { IsPassOf turn.now pass.old }
    ensures turn { IsPassOf turn.now pass.new }
    ensures call { Calls (lawful tally_fixed tally_fits counts) (opening turn.now) pass.old request tt result pass.new }
{
    turn.call(rt, pass, request, ())
}

/// Makes `n` calls, and gives the pass back.
pub fn tick<R: Wait>(rt: &R, turn: &Turn<Tally>, mut pass: Pass<Tally>, n: u64) -> Pass<Tally>
    requires { IsPassOf turn.now pass }
    ensures { Ticked turn.now n pass result }
{
    for i in 0..n {
        next(rt, turn, &mut pass, i);
    }
    pass
}

/// Two threads make `n` calls each.
fn tick_both<R: Threads + Wait + Sync>(
    rt: &R,
    turn: &Turn<Tally>,
    first: Pass<Tally>,
    second: Pass<Tally>,
    n: u64,
) -> (Pass<Tally>, Pass<Tally>)
    requires { IsPassOf turn.now first × IsPassOf turn.now second }
    ensures first { Ticked turn.now n first result.0 }
    ensures second { Ticked turn.now n second result.1 }
{
    join(
        rt,
        move || -> Pass<Tally>
            requires { IsPassOf turn.now first }
            ensures { Ticked turn.entry.now n first result }
        { tick(rt, turn, first, n) },
        move || -> Pass<Tally>
            requires { IsPassOf turn.now second }
            ensures { Ticked turn.entry.now n second result }
        { tick(rt, turn, second, n) },
    )
}

/// The count after four threads made `n` calls each of a tally with so many `spins`: four times `n`.
pub fn count_by_four<R: Threads + Wait + Sync>(
    rt: &R,
    alloc: Global,
    spins: u32,
    n: u64,
) -> Result<u64, Memory>
    requires { 4 * n < 2 ^ 64 }
    ensures { IfOk result (λ count. count ≡ 4 * n) }
{
    let (turn, mut first) = Turn::new(alloc, Tally { count: 0, spins })?;
    let second = turn.split(&mut first);
    let third = turn.split(&mut first);
    let fourth = turn.split(&mut first);
    let shared = &turn;
    let (one, two) = join(
        rt,
        move || -> (Pass<Tally>, Pass<Tally>)
            requires { IsPassOf shared.now first × IsPassOf shared.now second }
            ensures { Ticked shared.entry.now n first result.0 × Ticked shared.entry.now n second result.1 }
        { tick_both(rt, shared, first, second, n) },
        move || -> (Pass<Tally>, Pass<Tally>)
            requires { IsPassOf shared.now third × IsPassOf shared.now fourth }
            ensures { Ticked shared.entry.now n third result.0 × Ticked shared.entry.now n fourth result.1 }
        { tick_both(rt, shared, third, fourth, n) },
    );
    let (mut first, second) = one;
    let (third, fourth) = two;
    turn.join(&mut first, second);
    turn.join(&mut first, third);
    turn.join(&mut first, fourth);
    Ok(turn.close(first).count)
}
