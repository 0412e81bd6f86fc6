ghost use Rattle.std.specs.Prelude.{◌≡◌, ◌≢◌, ◌↔◌, Bool, IfErr, IfOk, IsNone, IsTrue, IfSome, [], ◌∷◌, codes};
ghost use Rattle.qs_script.specs.Lines.{IsLineFault, IsPlace, IsQuiet, Place, ReadsLine, WordsSpell, fua_words, words_left, words_of};
ghost use Rattle.qs_outside.specs.declared.rigged_disk.Fail.{Fail as Failure};
ghost use Rattle.qs_script.specs.Spelled.{fail_word};
ghost use Rattle.qs_script.specs.Verbs.{verb_word};
ghost use Rattle.qs_script.specs.declared.read.Verb.{Verb as AVerb};
ghost use Rattle.qs_script.specs.declared.line.Line.{Line as ALine};

use crate::actor::actor_of;
use crate::data::{DataFault, data_of};
use crate::find::cut_word;
use crate::line::{Line, LineFault};
use crate::number::number;
use crate::picks::{PicksFault, picks_of};
use crate::session_name::SessionName;
use qs_bytes::Name;
use qs_outside::{CrashChoice, Fail};
use std::alloc::Global;

/// The greatest length of a request, in bytes.
const GREATEST_LENGTH: u64 = 0xffff_ffff;

/// The line that a text spells, which has no LF. OutOfForm exactly where it spells none.
pub fn read_line(alloc: Global, text: &[u8]) -> Result<Line, LineFault>
    ensures ok { IfOk result (ReadsLine text.now) }
    ensures fault { IfErr result (IsLineFault (ReadsLine text.now)) }
{
    if is_quiet(text) {
        return Ok(Line::Nothing);
    }
    let (verb, rest) = cut_word(text);
    let Some(rest) = rest else {
        return Err(LineFault::OutOfForm);
    };
    if is_crash(verb) {
        return crash_line(alloc, rest);
    }
    let (first, rest) = cut_word(rest);
    let Some(rest) = rest else {
        return two_words(verb, first).ok_or(LineFault::OutOfForm);
    };
    let (second, rest) = cut_word(rest);
    let Some(rest) = rest else {
        return three_words(verb, first, second).ok_or(LineFault::OutOfForm);
    };
    let (third, rest) = cut_word(rest);
    let Some(rest) = rest else {
        return Err(LineFault::OutOfForm);
    };
    let (fourth, rest) = cut_word(rest);
    match fua_of(rest) {
        Some(fua) => request(alloc, verb, first, second, third, fourth, fua),
        None => Err(LineFault::OutOfForm),
    }
}

/// Whether the line is empty, or a comment: then [`read_line`] gives `Nothing`.
pub fn is_quiet(text: &[u8]) -> bool
    ensures { IsTrue result ↔ IsQuiet text.now }
{
    match text {
        [] => true,
        [first, ..] => *first == b'#',
    }
}

/// Whether the text is `crash`.
fn is_crash(text: &[u8]) -> bool
    ensures { IsTrue result ↔ (text.now ≡ codes "crash") }
{
    matches!(text, b"crash")
}

/// A crash, by the words behind `crash`: a number, and pairs of a block and a number.
fn crash_line(alloc: Global, text: &[u8]) -> Result<Line, LineFault>
    ensures ok { IfOk result (WordsSpell (codes "crash" ∷ words_of text.now)) }
    ensures fault { IfErr result (IsLineFault (WordsSpell (codes "crash" ∷ words_of text.now))) }
{
    let (word, left) = cut_word(text);
    let Some(rest) = number(word, u64::MAX) else {
        return Err(LineFault::OutOfForm);
    };
    match picks_of(alloc, left) {
        Ok(picks) => Ok(Line::Crash(CrashChoice { rest, picks })),
        Err(PicksFault::OutOfForm) => Err(LineFault::OutOfForm),
        Err(PicksFault::Memory) => Err(LineFault::NoPicks),
    }
}

/// Whether `fua` is all that is left of a request's words; `None` where something else is.
fn fua_of(left: Option<&[u8]>) -> Option<bool>
    ensures some { IfSome result (λ fua. words_left left.entry ≡ fua_words fua) }
    ensures none { IsNone result → (fua : Bool) → ¬ (words_left left.entry ≡ fua_words fua) }
{
    match left {
        None => Some(false),
        Some(text) if is_fua(text) => Some(true),
        Some(_) => None,
    }
}

/// Whether the text is `fua`.
fn is_fua(text: &[u8]) -> bool
    ensures { IsTrue result ↔ (text.now ≡ codes "fua") }
{
    matches!(text, b"fua")
}

/// The first word of a line that has at most six.
#[derive(Clone, Copy, Debug, PartialEq, Eq)]
enum Verb {
    Session,
    End,
    Read,
    Write,
    Zero,
    Trim,
    Flush,
    Step,
    Run,
    Fail,
}

/// The verb that a word names.
fn verb_of(word: &[u8]) -> Option<Verb>
    ensures some { IfSome result (λ verb. word.now ≡ verb_word verb) }
    ensures none { IsNone result → (verb : AVerb) → ¬ (word.now ≡ verb_word verb) }
{
    match word {
        b"session" => Some(Verb::Session),
        b"end" => Some(Verb::End),
        b"read" => Some(Verb::Read),
        b"write" => Some(Verb::Write),
        b"zero" => Some(Verb::Zero),
        b"trim" => Some(Verb::Trim),
        b"flush" => Some(Verb::Flush),
        b"step" => Some(Verb::Step),
        b"run" => Some(Verb::Run),
        b"fail" => Some(Verb::Fail),
        _ => None,
    }
}

/// `end S`, or `step` or `run` of an actor at reading 0.
fn two_words(verb: &[u8], word: &[u8]) -> Option<Line>
    requires { verb.now ≢ codes "crash" }
    ensures some { IfSome result (WordsSpell (verb.now ∷ word.now ∷ [])) }
    ensures none { IsNone result → (line : ALine) → ¬ WordsSpell (verb.now ∷ word.now ∷ []) line }
{
    match verb_of(verb)? {
        Verb::End => Some(Line::End {
            session: SessionName::of(word)?,
        }),
        Verb::Step => Some(Line::Step {
            actor: actor_of(word)?,
            now: 0,
        }),
        Verb::Run => Some(Line::Run {
            actor: actor_of(word)?,
            now: 0,
        }),
        Verb::Session
        | Verb::Read
        | Verb::Write
        | Verb::Zero
        | Verb::Trim
        | Verb::Flush
        | Verb::Fail => None,
    }
}

/// `session S EXPORT`, `flush S C`, `step` or `run` of an actor at a reading, or `fail STRIPE KIND`.
fn three_words(verb: &[u8], first: &[u8], second: &[u8]) -> Option<Line>
    requires { verb.now ≢ codes "crash" }
    ensures some { IfSome result (WordsSpell (verb.now ∷ first.now ∷ second.now ∷ [])) }
    ensures none { IsNone result → (line : ALine) → ¬ WordsSpell (verb.now ∷ first.now ∷ second.now ∷ []) line }
{
    match verb_of(verb)? {
        Verb::Session => session_line(first, second),
        Verb::Flush => Some(Line::Flush {
            session: SessionName::of(first)?,
            cookie: number(second, u64::MAX)?,
        }),
        Verb::Step => Some(Line::Step {
            actor: actor_of(first)?,
            now: number(second, u64::MAX)?,
        }),
        Verb::Run => Some(Line::Run {
            actor: actor_of(first)?,
            now: number(second, u64::MAX)?,
        }),
        Verb::Fail => Some(Line::Fail {
            stripe: number(first, 7)?,
            kind: fail_of(second)?,
        }),
        Verb::End | Verb::Read | Verb::Write | Verb::Zero | Verb::Trim => None,
    }
}

/// The line that begins a session at an export, whose name isn't empty.
fn session_line(session: &[u8], export: &[u8]) -> Option<Line>
    ensures some { IfSome result (WordsSpell (verb_word Verb.Session ∷ session.now ∷ export.now ∷ [])) }
    ensures none { IsNone result → (line : ALine) →
        ¬ WordsSpell (verb_word Verb.Session ∷ session.now ∷ export.now ∷ []) line }
{
    if export.is_empty() {
        return None;
    }
    Some(Line::Session {
        session: SessionName::of(session)?,
        export: Name::of(export)?,
    })
}

/// The failure that a word names.
fn fail_of(word: &[u8]) -> Option<Fail>
    ensures some { IfSome result (λ kind. word.now ≡ fail_word kind) }
    ensures none { IsNone result → (kind : Failure) → ¬ (word.now ≡ fail_word kind) }
{
    match word {
        b"load" => Some(Fail::Load),
        b"store-old" => Some(Fail::StoreOld),
        b"store-new" => Some(Fail::StoreNew),
        b"sync" => Some(Fail::Sync),
        _ => None,
    }
}

/// A request whose last word is a length or data: a READ, a WRITE, a WRITE_ZEROES or a TRIM, with the
/// flag FUA where `fua` stands behind them.
fn request(
    alloc: Global,
    verb: &[u8],
    session: &[u8],
    cookie: &[u8],
    offset: &[u8],
    last: &[u8],
    fua: bool,
) -> Result<Line, LineFault>
    requires { verb.now ≢ codes "crash" }
    ensures ok { IfOk result (WordsSpell (verb.now ∷ session.now ∷ cookie.now ∷ offset.now ∷ last.now
        ∷ fua_words fua)) }
    ensures fault { IfErr result (IsLineFault
        (WordsSpell (verb.now ∷ session.now ∷ cookie.now ∷ offset.now ∷ last.now ∷ fua_words fua))) }
{
    match verb_of(verb) {
        None => Err(LineFault::OutOfForm),
        Some(Verb::Write) => write_request(alloc, session, cookie, offset, last, fua),
        Some(verb) => {
            sized_request(verb, session, cookie, offset, last, fua).ok_or(LineFault::OutOfForm)
        }
    }
}

/// A request of another kind than WRITE, whose last word is its length.
fn sized_request(
    verb: Verb,
    session: &[u8],
    cookie: &[u8],
    offset: &[u8],
    last: &[u8],
    fua: bool,
) -> Option<Line>
    requires { verb ≢ Verb.Write }
    ensures some { IfSome result (WordsSpell (verb_word verb ∷ session.now ∷ cookie.now ∷ offset.now ∷ last.now
        ∷ fua_words fua)) }
    ensures none { IsNone result → (line : ALine) →
        ¬ WordsSpell (verb_word verb ∷ session.now ∷ cookie.now ∷ offset.now ∷ last.now ∷ fua_words fua) line }
{
    let (session, cookie, offset) = place_of(session, cookie, offset)?;
    let length = number(last, GREATEST_LENGTH)?;
    match (verb, fua) {
        (Verb::Read, false) => Some(Line::Read {
            session,
            cookie,
            offset,
            length,
        }),
        (Verb::Zero, _) => Some(Line::Zero {
            session,
            cookie,
            offset,
            length,
            fua,
        }),
        (Verb::Trim, false) => Some(Line::Trim {
            session,
            cookie,
            offset,
            length,
        }),
        _ => None,
    }
}

/// A WRITE, whose last word is its data.
fn write_request(
    alloc: Global,
    session: &[u8],
    cookie: &[u8],
    offset: &[u8],
    last: &[u8],
    fua: bool,
) -> Result<Line, LineFault>
    ensures ok { IfOk result (WordsSpell (verb_word Verb.Write ∷ session.now ∷ cookie.now ∷ offset.now ∷ last.now
        ∷ fua_words fua)) }
    ensures fault { IfErr result (IsLineFault
        (WordsSpell (verb_word Verb.Write ∷ session.now ∷ cookie.now ∷ offset.now ∷ last.now ∷ fua_words fua))) }
{
    let Some((session, cookie, offset)) = place_of(session, cookie, offset) else {
        return Err(LineFault::OutOfForm);
    };
    match data_of(alloc, last) {
        Ok(body) => Ok(Line::Write {
            session,
            cookie,
            offset,
            body,
            fua,
        }),
        Err(DataFault::OutOfForm) => Err(LineFault::OutOfForm),
        Err(DataFault::Memory(length)) => Err(LineFault::NoBody {
            session,
            cookie,
            offset,
            length,
            fua,
        }),
    }
}

/// The session, the cookie and the offset of a request.
fn place_of(session: &[u8], cookie: &[u8], offset: &[u8]) -> Option<(SessionName, u64, u64)>
    ensures some { IfSome result (IsPlace session.now cookie.now offset.now) }
    ensures none { IsNone result → (place : Place) → ¬ IsPlace session.now cookie.now offset.now place }
{
    Some((
        SessionName::of(session)?,
        number(cookie, u64::MAX)?,
        number(offset, u64::MAX)?,
    ))
}
