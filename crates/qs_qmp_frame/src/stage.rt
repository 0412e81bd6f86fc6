ghost use Rattle.std.specs.Prelude.{◌≡◌, ℕ, ◌≤◌, List, [], ◌∷◌, ◌++◌, false, vec_capacity};
ghost use Rattle.qs_qmp_frame.specs.Objects.{limit};
ghost use Rattle.qs_qmp_frame.specs.Phases.{HasStageRoom, IsFed, phase_after, begin, frame_event_of, go_on, is_refused, phase_of};

use crate::place::Place;

/// The most bytes of an object.
pub const LIMIT: usize = 1_048_576;

/// What stands at the end of the bytes that a framer took.
#[derive(Clone, Copy, Debug, PartialEq, Eq)]
pub enum FrameEvent {
    /// An object is whole.
    Object,
    /// This byte stands where an object or a blank would. Nothing more is read.
    NotObject(u8),
    /// 1,048,576 bytes hold no end of their object. Nothing more is read.
    TooLong,
}

/// What the kept bytes are.
#[derive(Clone, Copy, Debug, PartialEq, Eq)]
pub enum Stage {
    /// None count: an object is awaited.
    Gap,
    /// The beginning of an object, and where its next byte stands.
    Part(Place),
    /// An object.
    Whole,
    /// This byte stood in the place of an object.
    Wrong(u8),
    /// An object was too long.
    Long,
}

/// How far a piece led: the bytes taken, the event at their end, and the stage there.
#[derive(Drop)]
pub struct Advance {
    pub taken: usize,
    pub event: Option<FrameEvent>,
    pub stage: Stage,
}

impl Stage {
    /// The event that this stage is, where it is one.
    pub fn event(self) -> Option<FrameEvent>
        ensures { (kept : List ℕ) → result ≡ frame_event_of (phase_of self kept) }
    {
        match self {
            Stage::Gap | Stage::Part(_) => None,
            Stage::Whole => Some(FrameEvent::Object),
            Stage::Wrong(byte) => Some(FrameEvent::NotObject(byte)),
            Stage::Long => Some(FrameEvent::TooLong),
        }
    }
}

/// Takes a byte between objects.
fn begin(kept: &mut Vec<u8>, byte: u8) -> Stage
    requires capacity { limit ≤ vec_capacity kept.old }
    ensures after { phase_of result kept.new.items ≡ begin byte }
    ensures room { HasStageRoom result kept.new.items }
    ensures capacity { vec_capacity kept.new ≡ vec_capacity kept.old }
{
    kept.clear();
    match byte {
        b' ' | b'\t' | b'\n' | b'\r' => Stage::Gap,
        b'{' => {
            kept.push_reserved(byte);
            Stage::Part(Place::Outside(0))
        }
        _ => Stage::Wrong(byte),
    }
}

/// Takes a byte of an object.
fn go_on(place: Place, kept: &mut Vec<u8>, byte: u8) -> Stage
    requires room { HasStageRoom (Stage.Part place) kept.old.items }
    requires capacity { limit ≤ vec_capacity kept.old }
    ensures after { phase_of result kept.new.items ≡ go_on place (kept.old.items ++ byte ∷ []) byte }
    ensures room { HasStageRoom result kept.new.items }
    ensures capacity { vec_capacity kept.new ≡ vec_capacity kept.old }
{
    kept.push_reserved(byte);
    if place.ends(byte) {
        return Stage::Whole;
    }
    if kept.len() == LIMIT {
        return Stage::Long;
    }
    Stage::Part(place.next(byte))
}

/// Takes a byte.
fn step(stage: Stage, kept: &mut Vec<u8>, byte: u8) -> Stage
    requires room { HasStageRoom stage kept.old.items }
    requires capacity { limit ≤ vec_capacity kept.old }
    ensures after { phase_of result kept.new.items ≡ phase_after (phase_of stage kept.old.items) byte }
    ensures room { HasStageRoom result kept.new.items }
    ensures capacity { vec_capacity kept.new ≡ vec_capacity kept.old }
{
    match stage {
        Stage::Gap | Stage::Whole => begin(kept, byte),
        Stage::Part(place) => go_on(place, kept, byte),
        Stage::Wrong(_) | Stage::Long => stage,
    }
}

/// Takes bytes from the front of the piece, up to the first event.
pub fn take_piece(stage: Stage, kept: &mut Vec<u8>, piece: &[u8]) -> Advance
    requires room { HasStageRoom stage kept.old.items }
    requires capacity { limit ≤ vec_capacity kept.old }
    requires goes_on { is_refused (phase_of stage kept.old.items) ≡ false }
    ensures fed { IsFed (phase_of stage kept.old.items) piece.now result.taken result.event
        (phase_of result.stage kept.new.items) }
    ensures room { HasStageRoom result.stage kept.new.items }
    ensures capacity { vec_capacity kept.new ≡ vec_capacity kept.old }
{
    let mut stage = stage;
    let mut taken = 0;
    while taken < piece.len() {
        stage = step(stage, kept, piece[taken]);
        taken += 1;
        let event = stage.event();
        if event.is_some() {
            return Advance {
                taken,
                event,
                stage,
            };
        }
    }
    Advance {
        taken,
        event: None,
        stage,
    }
}
