ghost use Rattle.std.specs.Prelude.{◌≡◌, ◌↔◌, ◌++◌, ◌∷◌, [], All, ℕ, List, Err, IfOk, IfSome, OnOk, OnErr, MatchResult, ◌<◌, ◌%◌, ◌^◌, length as list_length, true};
ghost use Rattle.qs_part.specs.declared.event.Event.TheVariants.{Step as AStep};
ghost use Rattle.qs_script.specs.declared.line.Line.TheVariants as line;
ghost use Rattle.qs_world.specs.Events.{IsNotNext, TakesMemory};
ghost use Rattle.qs_calls.specs.Calls.{Call, Happened, Plays};
ghost use Rattle.qs_replay_lines.specs.Effects.{IsRoom, bytes_or, IsActor, IsKey, IsNotLive, PlaysLine, answer_text, note_text, run_text, step_text, read_ask, write_ask};
ghost use Rattle.qs_calls.specs.Goings.{RunsOut};
ghost use Rattle.qs_replay_lines.specs.declared.stop.Stop.TheVariants.{NotNext, Memory as NoMemory, BadLine};

use crate::stop::Stop;
use crate::table::Table;
use qs_bytes::{Bytes, MAX_PAYLOAD, Memory, Verdict};
use qs_calls::{StepsMade, run_counted};
use qs_outside::Disk;
use qs_part::event::{Actor, Event, Note, Outcome};
use qs_script::{ScriptActor, put_answer, put_step};
use qs_world::world::World;
use std::alloc::Global;

/// What a script works on: the core, what its names stand for, and the lines that wait to be written.
#[derive(Debug, Drop)]
pub struct Desk<D: Disk + Drop> {
    pub world: World<D>,
    pub table: Table,
    pub out: Bytes,
    pub alloc: Global,
}

/// An event happens, or it can't come now, or memory is refused; then nothing changes.
pub fn happen<D: Disk + Drop>(world: &mut World<D>, event: Event) -> Result<Outcome, Stop>
    ensures ok { IfOk result (λ outcome. Plays D.seen world.old (Happened event outcome ∷ []) world.new) }
    ensures err { OnErr result (world.new ≡ world.old) }
    ensures next { result ≡ Err NotNext → IsNotNext world.old event }
    ensures memory { result ≡ Err NoMemory → TakesMemory event }
    ensures form { result ≡ Err BadLine → ⊥ }
{
    match world.step(event) {
        Outcome::NotNext => Err(Stop::NotNext),
        Outcome::Memory => Err(Stop::Memory),
        outcome => Ok(outcome),
    }
}

/// An actor's steps, up to an answer, a Detach, or a step that leaves it as it was: the outcome of the
/// last one, and how many they are.
pub fn run_all<D: Disk + Drop>(
    world: &mut World<D>,
    actor: Actor,
    now: u64,
) -> Result<StepsMade, Stop>
    ensures ok { IfOk result (λ made. (calls : List Call)
        × (Plays D.seen world.old calls world.new × RunsOut (AStep actor now) calls made.last ×
        (made.count ≡ list_length calls % 2 ^ 64))) }
    ensures next { OnErr result (IsNotNext world.old (AStep actor now) × (world.new ≡ world.old)) }
    ensures only { (result ≡ Err BadLine → ⊥) × (result ≡ Err NoMemory → ⊥) }
{
    match run_counted(world, actor, now) {
        Some(made) => Ok(made),
        None => Err(Stop::NotNext),
    }
}

/// Writes an answer's line at the end, for a request.
fn put_verdict(
    alloc: Global,
    out: &mut Bytes,
    who: &ScriptActor,
    verdict: &Verdict,
) -> Result<(), Memory>
    ensures ok { OnOk result (out.new ≡ out.old ++ answer_text who.now verdict.now) }
    ensures err { OnErr result (out.new ≡ out.old) }
{
    match who {
        ScriptActor::Session(_) => Ok(()),
        ScriptActor::Request(session, cookie) => {
            put_answer(alloc, out, *session, *cookie, verdict)
        }
    }
}

/// Writes the line of an operation at the end, if there is one.
fn put_note(
    alloc: Global,
    out: &mut Bytes,
    who: &ScriptActor,
    note: &Option<Note>,
) -> Result<(), Memory>
    ensures ok { OnOk result (out.new ≡ out.old ++ note_text who.now note.now) }
    ensures err { OnErr result (out.new ≡ out.old) }
{
    match note {
        Some(note) => put_step(alloc, out, who, note),
        None => Ok(()),
    }
}

/// What a step prints.
pub fn step_lines(alloc: Global, who: &ScriptActor, outcome: &Outcome) -> Result<Bytes, Memory>
    ensures { IfOk result (λ text. text ≡ step_text who.now outcome.now) }
{
    let mut text = Bytes::of(Vec::new(alloc));
    match outcome {
        Outcome::Moved(note) => put_step(alloc, &mut text, who, note)?,
        Outcome::Answered(verdict, note) => {
            put_note(alloc, &mut text, who, note)?;
            put_verdict(alloc, &mut text, who, verdict)?;
        }
        _ => {}
    }
    Ok(text)
}

/// What a run prints, by its last outcome.
pub fn run_lines(alloc: Global, who: &ScriptActor, outcome: &Outcome) -> Result<Bytes, Memory>
    ensures { IfOk result (λ text. text ≡ run_text who.now outcome.now) }
{
    let mut text = Bytes::of(Vec::new(alloc));
    match outcome {
        Outcome::Moved(note) => put_step(alloc, &mut text, who, note)?,
        Outcome::Answered(verdict, _) => put_verdict(alloc, &mut text, who, verdict)?,
        _ => {}
    }
    Ok(text)
}

/// The body of a READ, where there is memory for it; none where it is too long to be served.
pub fn room_for(alloc: Global, length: u64) -> Option<Bytes>
    ensures { IsRoom result length }
{
    if length > MAX_PAYLOAD {
        return None;
    }
    if length == 0 {
        return Some(Bytes::of(Vec::new(alloc)));
    }
    match vec![in alloc; 0; length as usize] {
        Ok(bytes) => Some(Bytes::of(bytes)),
        Err(_) => None,
    }
}

/// The body of a WRITE of this length whose bytes found no memory: none, but where none are wanted.
pub fn lost_bytes(alloc: Global, length: u64) -> Option<Bytes>
    ensures { (bytes : List ℕ) → list_length bytes ≡ length → result ≡ bytes_or true bytes }
{
    if length == 0 {
        Some(Bytes::of(Vec::new(alloc)))
    } else {
        None
    }
}

/// An actor that a script names: who it is in the core, and what the table keeps it under if it is a
/// request.
#[derive(Clone, Copy, Debug, PartialEq, Eq)]
pub struct Found {
    pub actor: Actor,
    pub key: Option<(u32, u64)>,
}

/// The actor that a script names, or why there is none.
pub fn actor_for(table: &mut Table, who: &ScriptActor) -> Result<Found, Stop>
    ensures ok { IfOk result (λ found. IsActor table.old who.now found.actor table.new
        × IsKey table.new who.now found.key) }
    ensures next { result ≡ Err NotNext → IsNotLive table.old who.now }
    ensures form { result ≡ Err BadLine → ⊥ }
{
    match who {
        ScriptActor::Session(session) => {
            let number = table.number(*session)?;
            Ok(Found {
                actor: Actor::Session(number),
                key: None,
            })
        }
        ScriptActor::Request(session, cookie) => {
            let number = table.number(*session)?;
            let request = table.request(number, *cookie).ok_or(Stop::NotNext)?;
            Ok(Found {
                actor: Actor::Request(request),
                key: Some((number, *cookie)),
            })
        }
    }
}
