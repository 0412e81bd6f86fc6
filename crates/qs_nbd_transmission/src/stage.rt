ghost use Rattle.std.specs.Prelude.{◌≡◌, ◌<◌, ◌≤◌, Bool, false, [], length, take, IfNone, IsSome};
ghost use Rattle.qs_bytes.specs.Numbers.{number32};
ghost use Rattle.qs_nbd_wire.specs.Requests.{head_of, request_magic};
ghost use Rattle.qs_nbd_transmission.specs.Phases.{CanFeed, Reaches, InHead, Fills, Skips, is_stuck};
ghost use Rattle.qs_nbd_transmission.specs.Stages.{IsSound, phase_of};

use crate::event::{Room, WireEvent};
use crate::head::{ask, is_over_long, wants_body};
use qs_bytes::{Bytes, u32_at, write_into, write_over};
use qs_nbd_wire::{DISC, REQUEST_HEAD_BYTES, REQUEST_MAGIC, request_head};
use qs_status::SessionEnd;

/// What is held of the next request, beside the bytes of its head.
#[derive(Debug, Drop)]
pub enum Stage {
    /// So many bytes of the head.
    Head(usize),
    /// The head of a WRITE, whose data have no room yet.
    Wants,
    /// The head of a WRITE, a buffer for its data, and how many of them it has got.
    Fills { buffer: Vec<u8>, got: usize },
    /// The head of a WRITE whose data are passed over, of which so many are left.
    Skips { size: u64, left: u64 },
    /// A DISC came.
    Over,
    /// A refusal came.
    Stuck(SessionEnd),
}

/// How far a piece led: the bytes taken, the event at their end, and the stage there.
#[derive(Drop)]
pub struct Advance {
    pub taken: usize,
    pub event: Option<WireEvent>,
    pub stage: Stage,
}

/// Takes the piece as far as the stage goes, writing into `head` what is of a head.
pub fn take_piece(structured: bool, head: &mut [u8], stage: Stage, piece: &[u8]) -> Advance
    requires whole { length head.old ≡ 28 }
    requires sound { IsSound head.old stage }
    requires can { CanFeed (phase_of head.old stage) }
    ensures within { result.taken ≤ length piece.now }
    ensures all { IfNone result.event (result.taken ≡ length piece.now) }
    ensures step { Reaches structured (phase_of head.old stage) (take result.taken piece.now)
        result.event (phase_of head.new result.stage) }
    ensures sound { IsSound head.new result.stage }
    ensures progress { is_stuck (phase_of head.old stage) ≡ false → 0 < length piece.now → 0 < result.taken }
{
    match stage {
        Stage::Head(held) => read_head(structured, head, held, piece),
        Stage::Fills { buffer, got } => fill(head, buffer, got, piece),
        Stage::Skips { size, left } => skip(head, size, left, piece),
        Stage::Stuck(bad) => Advance {
            taken: 0,
            event: Some(WireEvent::Bad(bad)),
            stage: Stage::Stuck(bad),
        },
        Stage::Wants | Stage::Over => unreachable!(),
    }
}

/// Takes bytes of a head. A head that doesn't begin with the magic is refused at its fourth byte.
fn read_head(structured: bool, head: &mut [u8], held: usize, piece: &[u8]) -> Advance
    requires whole { length head.old ≡ 28 }
    requires sound { IsSound head.old (Stage.Head held) }
    ensures within { result.taken ≤ length piece.now }
    ensures all { IfNone result.event (result.taken ≡ length piece.now) }
    ensures step { Reaches structured (InHead (take held head.old)) (take result.taken piece.now)
        result.event (phase_of head.new result.stage) }
    ensures sound { IsSound head.new result.stage }
    ensures progress { 0 < length piece.now → 0 < result.taken }
{
    let taken = piece.len().min(REQUEST_HEAD_BYTES - held);
    write_over(head, held, &piece[..taken]);
    let now = held + taken;
    if now >= 4 {
        let found = u32_at(head, 0);
        if found != REQUEST_MAGIC {
            return refused(4 - held, SessionEnd::BadMagic(u64::from(found)));
        }
    }
    if now < REQUEST_HEAD_BYTES {
        return Advance {
            taken,
            event: None,
            stage: Stage::Head(now),
        };
    }
    end_head(structured, head, taken)
}

/// A refusal, behind so many bytes.
fn refused(taken: usize, bad: SessionEnd) -> Advance
    ensures { result ≡ record { taken = taken; event = Some (WireEvent.Bad bad); stage = Stage.Stuck bad } }
{
    Advance {
        taken,
        event: Some(WireEvent::Bad(bad)),
        stage: Stage::Stuck(bad),
    }
}

/// What a whole head, whose last bytes are the `taken` ones, tells.
fn end_head(structured: bool, head: &[u8], taken: usize) -> Advance
    requires whole { length head.now ≡ 28 }
    requires magic { number32 head.now 0 ≡ request_magic }
    ensures taken { result.taken ≡ taken }
    ensures step { Reaches structured (InHead []) head.now result.event (phase_of head.now result.stage) }
    ensures sound { IsSound head.now result.stage }
    ensures some { IsSome result.event }
{
    let found = request_head(head);
    if found.kind == DISC {
        return Advance {
            taken,
            event: Some(WireEvent::Disc),
            stage: Stage::Over,
        };
    }
    if is_over_long(&found) {
        return refused(taken, SessionEnd::TooLong(u64::from(found.size)));
    }
    let stage = if wants_body(&found) {
        Stage::Wants
    } else {
        Stage::Head(0)
    };
    Advance {
        taken,
        event: Some(WireEvent::Head(ask(structured, &found))),
        stage,
    }
}

/// Takes data into the buffer, which has `got` of them.
fn fill(head: &[u8], mut buffer: Vec<u8>, got: usize, piece: &[u8]) -> Advance
    requires sound { IsSound head.now (Stage.Fills buffer got) }
    ensures within { result.taken ≤ length piece.now }
    ensures all { IfNone result.event (result.taken ≡ length piece.now) }
    ensures step { (structured : Bool) → Reaches structured (Fills (head_of head.now) (take got buffer.items))
        (take result.taken piece.now) result.event (phase_of head.now result.stage) }
    ensures sound { IsSound head.now result.stage }
    ensures progress { 0 < length piece.now → 0 < result.taken }
{
    let size = buffer.len();
    let taken = piece.len().min(size - got);
    write_into(&mut buffer, got, &piece[..taken]);
    if got + taken < size {
        return Advance {
            taken,
            event: None,
            stage: Stage::Fills {
                buffer,
                got: got + taken,
            },
        };
    }
    Advance {
        taken,
        event: Some(WireEvent::Body(Room::Keep(Bytes::of(buffer)))),
        stage: Stage::Head(0),
    }
}

/// Passes over data, of which `left` are left.
fn skip(head: &[u8], size: u64, left: u64, piece: &[u8]) -> Advance
    requires sound { IsSound head.now (Stage.Skips size left) }
    ensures within { result.taken ≤ length piece.now }
    ensures all { IfNone result.event (result.taken ≡ length piece.now) }
    ensures step { (structured : Bool) → Reaches structured (Skips (head_of head.now) left)
        (take result.taken piece.now) result.event (phase_of head.now result.stage) }
    ensures sound { IsSound head.now result.stage }
    ensures progress { 0 < length piece.now → 0 < result.taken }
{
    let fed = piece.len() as u64;
    if fed < left {
        return Advance {
            taken: piece.len(),
            event: None,
            stage: Stage::Skips {
                size,
                left: left - fed,
            },
        };
    }
    Advance {
        taken: left as usize,
        event: Some(WireEvent::Body(Room::Drop(size))),
        stage: Stage::Head(0),
    }
}
