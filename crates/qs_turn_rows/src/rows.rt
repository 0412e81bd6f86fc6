//! Rows of turns of one kind, with a row of passes, one for each turn.
ghost use Rattle.std.specs.Prelude.{◌≡◌, ◌<◌, ◌≤◌, [], length, IfOk, IfErr, vec_capacity};
ghost use Rattle.qs_part.specs.Histories.{lawful};
ghost use Rattle.qs_turn.specs.Words.{IsPassOf, Joined};
ghost use Rattle.qs_turn_rows.specs.Rows.{Pairs, Triples, Each, IsFirst, IsOther, IsAlone, Forked, Closed, IsPassAt, FitsAt, CalledAt, JoinedAt, Opened};

use qs_bytes::Memory;
use qs_part::part::Part;
use qs_turn::turn::{Pass, Turn};
use std::alloc::Global;
use std::sync::Wait;

/// Opens one more turn at the end of a row. For want of memory the rows stay as they were.
pub fn open_next<P: Part>(
    alloc: Global,
    turns: &mut Vec<Turn<P>>,
    passes: &mut Vec<Pass<P>>,
    part: P,
) -> Result<(), Memory>
    requires turns { Pairs IsPassOf turns.old.items passes.old.items }
    requires alone { Each IsAlone passes.old.items }
    ensures err { IfErr result (λ _. (turns.new.items ≡ turns.old.items) × (passes.new.items ≡ passes.old.items)) }
    ensures opened { IfOk result (λ _. Opened turns.old.items passes.old.items part turns.new.items passes.new.items) }
    ensures turns { Pairs IsPassOf turns.new.items passes.new.items }
    ensures alone { Each IsAlone passes.new.items }
{
    turns.reserve(1)?;
    passes.reserve(1)?;
    let (turn, pass) = Turn::new(alloc, part)?;
    turns.push_reserved(turn);
    passes.push_reserved(pass);
    Ok(())
}

/// Splits a pass off the first pass of each turn, into an empty vector that has room for them.
pub fn split_into<P: Part>(
    turns: &[Turn<P>],
    passes: &mut Vec<Pass<P>>,
    mut given: Vec<Pass<P>>,
) -> Vec<Pass<P>>
    requires turns { Pairs IsPassOf turns.now passes.old.items }
    requires first { Each IsFirst passes.old.items }
    requires room { (given.items ≡ []) × (length turns.now ≤ vec_capacity given) }
    ensures turns { Pairs IsPassOf turns.now passes.new.items × Pairs IsPassOf turns.now result.items }
    ensures forked { Triples Forked passes.old.items passes.new.items result.items }
    ensures first { Each IsFirst passes.new.items × Each IsOther result.items }
{
    for i in 0..turns.len() {
        given.push_reserved(turns[i].split(&mut passes[i]));
    }
    given
}

/// Splits a pass off the first pass of each turn.
///
/// The memory for the new row is taken first: where it is refused, nothing is split.
pub fn split_all<P: Part>(
    alloc: Global,
    turns: &[Turn<P>],
    passes: &mut Vec<Pass<P>>,
) -> Result<Vec<Pass<P>>, Memory>
    requires turns { Pairs IsPassOf turns.now passes.old.items }
    requires first { Each IsFirst passes.old.items }
    ensures err { IfErr result (λ _. passes.new ≡ passes.old) }
    ensures turns { IfOk result (λ given. Pairs IsPassOf turns.now passes.new.items
        × Pairs IsPassOf turns.now given.items) }
    ensures forked { IfOk result (λ given. Triples Forked passes.old.items passes.new.items given.items) }
    ensures first { IfOk result (λ given. Each IsFirst passes.new.items × Each IsOther given.items) }
{
    let given = Vec::with_capacity(alloc, turns.len())?;
    Ok(split_into(turns, passes, given))
}

/// Makes one call of the turn at a place, with the pass there.
pub fn call_at<P: Part, R: Wait>(
    rt: &R,
    turns: &[Turn<P>],
    passes: &mut Vec<Pass<P>>,
    place: usize,
    request: u64,
    op: P::Op,
) -> P::Reply
    requires turns { Pairs IsPassOf turns.now passes.old.items }
    requires place { place < length turns.now }
    requires fits { FitsAt P.fixed_of P.can turns.now place op }
    ensures turns { Pairs IsPassOf turns.now passes.new.items }
    ensures called { CalledAt (lawful P.fixed_of P.can P.legal) turns.now place passes.old.items request op result
        passes.new.items }
{
    turns[place].call(rt, &mut passes[place], request, op)
}

/// Joins a pass into the first pass of the turn at a place.
pub fn join_at<P: Part>(turns: &[Turn<P>], passes: &mut Vec<Pass<P>>, place: usize, other: Pass<P>)
    requires turns { Pairs IsPassOf turns.now passes.old.items }
    requires first { Each IsFirst passes.old.items × IsOther other }
    requires place { place < length turns.now }
    requires other { IsPassAt turns.now place other }
    ensures turns { Pairs IsPassOf turns.now passes.new.items }
    ensures joined { JoinedAt place passes.old.items other passes.new.items }
{
    turns[place].join(&mut passes[place], other);
}

/// Joins each pass of a row into the first pass of its turn.
pub fn join_all<P: Part>(turns: &[Turn<P>], passes: &mut Vec<Pass<P>>, mut others: Vec<Pass<P>>)
    requires turns { Pairs IsPassOf turns.now passes.old.items × Pairs IsPassOf turns.now others.items }
    requires first { Each IsFirst passes.old.items × Each IsOther others.items }
    ensures turns { Pairs IsPassOf turns.now passes.new.items }
    ensures joined { Triples Joined passes.old.items others.items passes.new.items }
{
    while let Some(other) = others.pop() {
        join_at(turns, passes, others.len(), other);
    }
}

/// Closes each turn, and gives the parts in the order of the turns, in the vector that was given
/// for them.
pub fn close_all<P: Part>(
    mut turns: Vec<Turn<P>>,
    mut passes: Vec<Pass<P>>,
    mut parts: Vec<P>,
) -> Vec<P>
    requires turns { Pairs IsPassOf turns.items passes.items }
    requires first { Each IsAlone passes.items }
    requires room { (parts.items ≡ []) × (length turns.items ≤ vec_capacity parts) }
    ensures { Triples (Closed (lawful P.fixed_of P.can P.legal)) turns.items passes.items result.items }
{
    while let Some(turn) = turns.pop() {
        let Some(pass) = passes.pop() else {
            unreachable!()
        };
        parts.push_reserved(turn.close(pass));
    }
    parts.reverse();
    parts
}

/// Splits a row of passes off and joins it back, and closes the turns. The parts come in the order
/// of the turns, and each stands for what the pass of its turn had seen.
pub fn split_and_close<P: Part>(
    alloc: Global,
    turns: Vec<Turn<P>>,
    mut passes: Vec<Pass<P>>,
) -> Result<Vec<P>, Memory>
    requires turns { Pairs IsPassOf turns.items passes.items }
    requires alone { Each IsAlone passes.items }
    ensures { IfOk result (λ parts. Triples (Closed (lawful P.fixed_of P.can P.legal)) turns.items passes.items
        parts.items) }
{
    let parts = Vec::with_capacity(alloc, turns.len())?;
    let others = split_all(alloc, &turns, &mut passes)?;
    join_all(&turns, &mut passes, others);
    Ok(close_all(turns, passes, parts))
}
