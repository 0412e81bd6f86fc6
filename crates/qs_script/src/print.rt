ghost use Rattle.std.specs.Prelude.{◌≡◌, ◌++◌, ◌∷◌, OnOk, OnErr};
ghost use Rattle.std.specs.Fmt.{decimal};
ghost use Rattle.qs_script.specs.Prints.{actor_text, answer_line, count_line, data_text, graph_words, news_words, note_words, session_line, step_line, stripe_words, tracker_words, verdict_words};

use crate::actor::ScriptActor;
use crate::session_name::SessionName;
use qs_bytes::{Bytes, Memory, Verdict};
use qs_part::event::{GraphNote, Note, NoteReply, OpKind, StripeNote};
use qs_part::tracker::TrackerReply;
use std::alloc::Global;

/// What became of a session. A size is in bytes.
#[derive(Clone, Copy, Debug, PartialEq, Eq)]
pub enum SessionNews {
    /// It began at an export of this size that may be written, or may not.
    Attached(u64, bool),
    /// No export of the name stands.
    Refused,
    /// The export has its most clients.
    Crowded,
    /// It has left.
    Left,
    /// It has left the export.
    Detached,
}

/// Writes the line of a step at the end. Refused memory leaves `out` as it was.
pub fn put_step(
    alloc: Global,
    out: &mut Bytes,
    actor: &ScriptActor,
    note: &Note,
) -> Result<(), Memory>
    ensures ok { OnOk result (out.new ≡ out.old ++ step_line actor.now note.now) }
    ensures err { OnErr result (out.new ≡ out.old) }
{
    let mut line = Bytes::of(Vec::new(alloc));
    put_actor(alloc, &mut line, actor)?;
    line.append(b" ")?;
    put_note(alloc, &mut line, note)?;
    line.append(b"\n")?;
    out.append(line.as_slice())
}

/// Writes the line of an answer to the request with this cookie at the end. Refused memory leaves `out`
/// as it was.
pub fn put_answer(
    alloc: Global,
    out: &mut Bytes,
    session: SessionName,
    cookie: u64,
    verdict: &Verdict,
) -> Result<(), Memory>
    ensures ok { OnOk result (out.new ≡ out.old ++ answer_line session cookie verdict.now) }
    ensures err { OnErr result (out.new ≡ out.old) }
{
    let mut line = Bytes::of(Vec::new(alloc));
    put_actor(alloc, &mut line, &ScriptActor::Request(session, cookie))?;
    line.append(b" ")?;
    put_verdict(alloc, &mut line, verdict)?;
    line.append(b"\n")?;
    out.append(line.as_slice())
}

/// Writes the line that tells what became of a session at the end. Refused memory leaves `out` as it was.
pub fn put_session(
    alloc: Global,
    out: &mut Bytes,
    session: SessionName,
    news: SessionNews,
) -> Result<(), Memory>
    ensures ok { OnOk result (out.new ≡ out.old ++ session_line session news) }
    ensures err { OnErr result (out.new ≡ out.old) }
{
    let mut line = Bytes::of(Vec::new(alloc));
    line.append(session.as_slice())?;
    line.append(b" ")?;
    put_news(alloc, &mut line, news)?;
    line.append(b"\n")?;
    out.append(line.as_slice())
}

fn put_decimal(alloc: Global, out: &mut Bytes, n: u64) -> Result<(), Memory>
    ensures { OnOk result (out.new ≡ out.old ++ decimal n) }
{
    let text = n.to_string(alloc)?;
    out.append(text.as_bytes())
}

/// A word and a number.
fn put_counted(alloc: Global, out: &mut Bytes, word: &[u8], n: u64) -> Result<(), Memory>
    ensures { OnOk result (out.new ≡ out.old ++ count_line word.now n) }
{
    out.append(word)?;
    out.append(b" ")?;
    put_decimal(alloc, out, n)
}

fn put_actor(alloc: Global, out: &mut Bytes, actor: &ScriptActor) -> Result<(), Memory>
    ensures { OnOk result (out.new ≡ out.old ++ actor_text actor.now) }
{
    match actor {
        ScriptActor::Session(session) => out.append(session.as_slice()),
        ScriptActor::Request(session, cookie) => {
            out.append(session.as_slice())?;
            out.append(b".")?;
            put_decimal(alloc, out, *cookie)
        }
    }
}

fn put_note(alloc: Global, out: &mut Bytes, note: &Note) -> Result<(), Memory>
    ensures { OnOk result (out.new ≡ out.old ++ note_words note.now) }
{
    match note.reply {
        NoteReply::Tracker(reply) => put_tracker(alloc, out, reply),
        NoteReply::Graph(reply) => put_graph(alloc, out, reply),
        NoteReply::Stripe(reply) => {
            put_stripe(alloc, out, note.kind, reply, note.at.unwrap_or(0))
        }
    }
}

fn put_tracker(alloc: Global, out: &mut Bytes, reply: TrackerReply) -> Result<(), Memory>
    ensures { OnOk result (out.new ≡ out.old ++ tracker_words reply) }
{
    match reply {
        TrackerReply::Entered(k) => put_counted(alloc, out, b"enter", u64::from(k)),
        TrackerReply::Quiesced => out.append(b"quiesced"),
        TrackerReply::Full => out.append(b"full"),
        TrackerReply::Listed(n) => put_counted(alloc, out, b"listed", n),
        TrackerReply::Strange => out.append(b"strange"),
        TrackerReply::Started => out.append(b"started"),
        TrackerReply::NotYet(n) => put_counted(alloc, out, b"not-yet", n),
        TrackerReply::Ended => out.append(b"ended"),
        TrackerReply::Stopped => out.append(b"stopped"),
        TrackerReply::Already => out.append(b"already"),
        TrackerReply::Empty => out.append(b"drained"),
        TrackerReply::InFlight(k) => put_counted(alloc, out, b"in-flight", u64::from(k)),
        TrackerReply::Resumed => out.append(b"resumed"),
    }
}

fn put_graph(alloc: Global, out: &mut Bytes, reply: GraphNote) -> Result<(), Memory>
    ensures { OnOk result (out.new ≡ out.old ++ graph_words reply) }
{
    match reply {
        GraphNote::Routed(route) => {
            put_counted(alloc, out, b"route", route.offset)?;
            put_counted(alloc, out, b"", route.size)
        }
        GraphNote::Shutting => out.append(b"shutting"),
        GraphNote::Detached => out.append(b"detached"),
        GraphNote::NotAttached => out.append(b"strange"),
    }
}

/// An operation of kind `kind` on block `b`; a Sync is of the stripe `b`.
fn put_stripe(
    alloc: Global,
    out: &mut Bytes,
    kind: OpKind,
    reply: StripeNote,
    b: u64,
) -> Result<(), Memory>
    ensures { OnOk result (out.new ≡ out.old ++ stripe_words kind reply b) }
{
    match reply {
        StripeNote::Filled => put_filled(alloc, out, kind, b),
        StripeNote::Fault => out.append(b"fault"),
        StripeNote::HeldBy(k) => put_counted(alloc, out, b"busy", u64::from(k)),
        StripeNote::Taken(other) => put_counted(alloc, out, b"taken", other),
        StripeNote::Done => put_counted(alloc, out, b"stored", b),
        StripeNote::Freed => put_counted(alloc, out, b"freed", b),
        StripeNote::NotHeld => out.append(b"strange"),
        StripeNote::Clean => put_counted(alloc, out, b"clean", b),
        StripeNote::Synced => put_counted(alloc, out, b"synced", b),
    }
}

fn put_filled(alloc: Global, out: &mut Bytes, kind: OpKind, b: u64) -> Result<(), Memory>
    ensures { OnOk result (out.new ≡ out.old ++ stripe_words kind StripeNote.Filled b) }
{
    match kind {
        OpKind::Hold => put_counted(alloc, out, b"held", b),
        _ => put_counted(alloc, out, b"loaded", b),
    }
}

fn put_verdict(alloc: Global, out: &mut Bytes, verdict: &Verdict) -> Result<(), Memory>
    ensures { OnOk result (out.new ≡ out.old ++ verdict_words verdict.now) }
{
    match verdict {
        Verdict::Got(bytes) => {
            out.append(b"= 0 ")?;
            put_data(alloc, out, bytes.as_slice())
        }
        Verdict::Fine => out.append(b"= 0"),
        Verdict::Refused(errno) => put_counted(alloc, out, b"=", u64::from(errno.number())),
        Verdict::Dropped => out.append(b"dropped"),
    }
}

/// The bytes of a READ in small hexadecimal digits, or `-`.
fn put_data(alloc: Global, out: &mut Bytes, bytes: &[u8]) -> Result<(), Memory>
    ensures { OnOk result (out.new ≡ out.old ++ data_text bytes.now) }
{
    match bytes {
        [] => out.append(b"-"),
        _ => {
            let text = hex::encode(alloc, bytes)?;
            out.append(text.as_bytes())
        }
    }
}

fn put_news(alloc: Global, out: &mut Bytes, news: SessionNews) -> Result<(), Memory>
    ensures { OnOk result (out.new ≡ out.old ++ news_words news) }
{
    match news {
        SessionNews::Attached(size, writable) => {
            put_counted(alloc, out, b"attached", size)?;
            match writable {
                true => out.append(b" rw"),
                false => out.append(b" ro"),
            }
        }
        SessionNews::Refused => out.append(b"refused"),
        SessionNews::Crowded => out.append(b"crowded"),
        SessionNews::Left => out.append(b"left"),
        SessionNews::Detached => out.append(b"detached"),
    }
}
