ghost use Rattle.std.specs.Prelude.{◌≡◌, ℕ, ◌+◌, ◌<◌, ◌≤◌, ◌⊎◌, false, List, ◌++◌, Some, length, take, IfNone};
ghost use Rattle.qs_bytes.specs.Numbers.{number32};
ghost use Rattle.qs_nbd_wire.specs.Greetings.{flags_of};
ghost use Rattle.qs_nbd_wire.specs.Options.{option_head_of};
ghost use Rattle.qs_nbd_handshake.specs.Phases.{CanFeed, Reaches, behind_flags, data_size, flags_event, is_stuck};
ghost use Rattle.qs_nbd_handshake.specs.Phases.{option_event, option_phase, option_size};
ghost use Rattle.qs_nbd_handshake.specs.Stages.{IsSound, phase_of, reader_of};
ghost use Rattle.qs_nbd_handshake.specs.Wishes.{option_fault};

use crate::event::HandEvent;
use crate::wish::{LONGEST, Wish, head_fault, read_wish, wanted};
use qs_bytes::{Mode, u32_at, write_over};
use qs_nbd_wire::{OPTION_HEAD_BYTES, OptionHead, client_flags, option_head};
use qs_status::SessionEnd;

/// The bytes of the client's flags.
const FLAGS_BYTES: usize = 4;

/// Room for the longest message.
pub const ROOM: usize = OPTION_HEAD_BYTES + LONGEST as usize;

/// What a session has agreed on so far.
#[derive(Clone, Copy, Debug, PartialEq, Eq)]
pub struct Terms {
    /// The client is of the fixed newstyle.
    pub fixed: bool,
    pub mode: Mode,
}

/// What is held of the next message, beside its bytes.
#[derive(Clone, Copy, Debug, PartialEq, Eq)]
pub enum Stage {
    /// So many bytes of the client's flags.
    Flags(usize),
    /// So many bytes of an option.
    Option(usize),
    /// An option that isn't answered yet.
    Asked(Wish),
    /// The handshake is over, and so is the session where it ended otherwise than as Done.
    Over(SessionEnd),
    /// A refusal came.
    Stuck(SessionEnd),
}

/// How far a piece led: the bytes taken, the event at their end, and what is so there.
#[derive(Drop)]
pub struct Advance {
    pub taken: usize,
    pub event: Option<HandEvent>,
    pub terms: Terms,
    pub stage: Stage,
}

/// Takes the piece as far as the message goes, writing into `buffer` what is of it.
pub fn take_piece(terms: Terms, buffer: &mut [u8], stage: &Stage, piece: &[u8]) -> Advance
    requires room { length buffer.old ≡ 65552 }
    requires sound { IsSound terms.fixed buffer.old stage.now }
    requires can { CanFeed (phase_of buffer.old stage.now) }
    ensures within { result.taken ≤ length piece.now }
    ensures all { IfNone result.event (result.taken ≡ length piece.now) }
    ensures step { Reaches (reader_of terms buffer.old stage.now) (take result.taken piece.now)
        result.event (reader_of result.terms buffer.new result.stage) }
    ensures sound { IsSound result.terms.fixed buffer.new result.stage }
    ensures progress { is_stuck (phase_of buffer.old stage.now) ≡ false → 0 < length piece.now → 0 < result.taken }
{
    match stage {
        Stage::Flags(held) => read_flags(terms, buffer, *held, piece),
        Stage::Option(held) => read_option(terms, buffer, *held, piece),
        Stage::Stuck(bad) => Advance {
            taken: 0,
            event: Some(HandEvent::Bad(*bad)),
            terms,
            stage: Stage::Stuck(*bad),
        },
        Stage::Asked(_) | Stage::Over(_) => unreachable!(),
    }
}

/// Takes bytes of the client's flags.
fn read_flags(terms: Terms, buffer: &mut [u8], held: usize, piece: &[u8]) -> Advance
    requires room { length buffer.old ≡ 65552 }
    requires sound { held < 4 }
    ensures within { result.taken ≤ length piece.now }
    ensures all { IfNone result.event (result.taken ≡ length piece.now) }
    ensures step { Reaches (reader_of terms buffer.old (Stage.Flags held)) (take result.taken piece.now)
        result.event (reader_of result.terms buffer.new result.stage) }
    ensures sound { IsSound result.terms.fixed buffer.new result.stage }
    ensures progress { 0 < length piece.now → 0 < result.taken }
{
    let taken = piece.len().min(FLAGS_BYTES - held);
    write_over(buffer, held, &piece[..taken]);
    if held + taken < FLAGS_BYTES {
        return Advance {
            taken,
            event: None,
            terms,
            stage: Stage::Flags(held + taken),
        };
    }
    end_flags(terms, buffer, taken)
}

/// What the client's flags tell, whose last bytes are the `taken` ones.
fn end_flags(terms: Terms, buffer: &[u8], taken: usize) -> Advance
    requires room { length buffer.now ≡ 65552 }
    ensures taken { result.taken ≡ taken }
    ensures event { result.event ≡ Some (flags_event (number32 buffer.now 0) (flags_of (number32 buffer.now 0))) }
    ensures behind { reader_of result.terms buffer.now result.stage
        ≡ behind_flags terms (number32 buffer.now 0) (flags_of (number32 buffer.now 0)) }
    ensures sound { IsSound result.terms.fixed buffer.now result.stage }
{
    let flags = u32_at(buffer, 0);
    match client_flags(flags) {
        Some(known) => Advance {
            taken,
            event: Some(HandEvent::Flags(flags)),
            terms: Terms {
                fixed: known.fixed,
                mode: Mode {
                    no_zeroes: known.no_zeroes,
                    structured: terms.mode.structured,
                },
            },
            stage: Stage::Option(0),
        },
        None => refused(terms, taken, SessionEnd::BadFlags(flags)),
    }
}

/// A refusal, behind so many bytes.
fn refused(terms: Terms, taken: usize, bad: SessionEnd) -> Advance
    ensures { result
        ≡ record { taken = taken; event = Some (HandEvent.Bad bad); terms = terms; stage = Stage.Stuck bad } }
{
    Advance {
        taken,
        event: Some(HandEvent::Bad(bad)),
        terms,
        stage: Stage::Stuck(bad),
    }
}

/// Takes bytes of an option: of its head, and then of its data.
fn read_option(terms: Terms, buffer: &mut [u8], held: usize, piece: &[u8]) -> Advance
    requires room { length buffer.old ≡ 65552 }
    requires sound { IsSound terms.fixed buffer.old (Stage.Option held) }
    ensures within { result.taken ≤ length piece.now }
    ensures all { IfNone result.event (result.taken ≡ length piece.now) }
    ensures step { Reaches (reader_of terms buffer.old (Stage.Option held)) (take result.taken piece.now)
        result.event (reader_of result.terms buffer.new result.stage) }
    ensures sound { IsSound result.terms.fixed buffer.new result.stage }
    ensures progress { 0 < length piece.now → 0 < result.taken }
{
    let first = fill(terms.fixed, buffer, held, piece);
    let second = fill(terms.fixed, buffer, held + first, &piece[first..]);
    let now = held + first + second;
    if now < option_end(terms.fixed, &buffer[..now]) {
        return Advance {
            taken: first + second,
            event: None,
            terms,
            stage: Stage::Option(now),
        };
    }
    end_option(terms, &buffer[..now], first + second)
}

/// Takes bytes of an option as far as the bytes held tell its end, and says how many.
fn fill(fixed: bool, buffer: &mut [u8], held: usize, piece: &[u8]) -> usize
    requires room { length buffer.old ≡ 65552 }
    requires front { held ≤ option_size fixed (take held buffer.old) }
    ensures within { result ≤ length piece.now }
    ensures room { length buffer.new ≡ 65552 }
    ensures bytes { take (held + result) buffer.new ≡ take held buffer.old ++ take result piece.now }
    ensures front { held + result ≤ option_size fixed (take (held + result) buffer.new) }
    ensures far { (result ≡ length piece.now) ⊎ (held + result ≡ option_size fixed (take held buffer.old)) }
{
    let end = option_end(fixed, &buffer[..held]);
    let taken = piece.len().min(end - held);
    write_over(buffer, held, &piece[..taken]);
    taken
}

/// How many bytes the option has that begins with these.
fn option_end(fixed: bool, bytes: &[u8]) -> usize
    ensures size { result ≡ option_size fixed bytes.now }
    ensures room { result ≤ 65552 }
{
    match option_head(bytes) {
        Some(head) => OPTION_HEAD_BYTES + data_len(fixed, &head),
        None => OPTION_HEAD_BYTES,
    }
}

/// How many bytes of data are read behind a head.
fn data_len(fixed: bool, head: &OptionHead) -> usize
    ensures size { result ≡ data_size (option_fault fixed head.now) head.now.length }
    ensures room { result ≤ 65536 }
{
    match head_fault(fixed, head) {
        Some(_) => 0,
        None => head.length as usize,
    }
}

/// What a whole option tells, or a refused head, whose last bytes are the `taken` ones.
fn end_option(terms: Terms, message: &[u8], taken: usize) -> Advance
    requires { 16 ≤ length message.now }
    ensures taken { result.taken ≡ taken }
    ensures event { result.event ≡ Some (option_event terms.fixed message.now) }
    ensures terms { result.terms ≡ terms }
    ensures phase { (buffer : List ℕ) → phase_of buffer result.stage ≡ option_phase terms.fixed message.now }
    ensures sound { (buffer : List ℕ) → IsSound terms.fixed buffer result.stage }
{
    let head = head_at(message);
    match head_fault(terms.fixed, &head) {
        Some(bad) => refused(terms, taken, bad),
        None => {
            let wish = read_wish(head.number, &message[OPTION_HEAD_BYTES..]);
            Advance {
                taken,
                event: Some(HandEvent::Wanted(wanted(&wish))),
                terms,
                stage: Stage::Asked(wish),
            }
        }
    }
}

/// The head that the first 16 bytes spell.
fn head_at(bytes: &[u8]) -> OptionHead
    requires { 16 ≤ length bytes.now }
    ensures { result ≡ option_head_of bytes.now }
{
    match option_head(bytes) {
        Some(head) => head,
        None => unreachable!(),
    }
}
