ghost use Rattle.std.specs.Prelude.{◌≡◌, IfOk};
ghost use Rattle.qs_qmp_frame.specs.Phases.{Gap, IsFed, object_of};

use crate::stage::{Advance, FrameEvent, LIMIT, Stage, take_piece};
use qs_bytes::{Fed, Memory};
use std::alloc::Global;
use std::marker::Model;

/// Cuts JSON objects from a stream of bytes, which is fed to it in pieces of any size. Between
/// objects spaces, tabs, line feeds and carriage returns may stand.
#[derive(Debug, Drop)]
pub struct Framer {
    stage: Stage,
    /// The bytes of the object that comes, or has just come.
    kept: Vec<u8>,
}

impl Model for Framer {
    ghost use Rattle.std.specs.Prelude.{◌≤◌, vec_capacity};
    ghost use Rattle.qs_qmp_frame.specs.Objects.{limit};
    ghost use Rattle.qs_qmp_frame.specs.Phases.{Phase, phase_of, HasStageRoom};

    ghost Value = { Phase };

    ghost view = { λ f. phase_of f.stage f.kept.items };

    ghost invariant = { λ f. HasStageRoom f.stage f.kept.items × (limit ≤ vec_capacity f.kept) };
}

impl Framer {
    /// A framer that awaits the first object. It takes all the memory that it ever needs, 1,048,576
    /// bytes.
    pub fn new(alloc: Global) -> Result<Self, Memory>
        ensures { IfOk result (λ f. f ≡ Gap) }
    {
        Ok(Framer {
            stage: Stage::Gap,
            kept: Vec::with_capacity(alloc, LIMIT)?,
        })
    }

    /// Takes bytes from the front of the piece, up to the end of an object or to what is refused,
    /// and says what stands there. Without an event the whole piece was taken.
    ///
    /// A byte between objects that is neither blank nor `{` is refused, and an object whose first
    /// 1,048,576 bytes don't end it. After a refusal nothing is taken, and the refusal is told again.
    pub fn feed(&mut self, piece: &[u8]) -> Fed<FrameEvent>
        ensures { IsFed self.old piece.now result.taken result.event self.new }
    {
        if let Stage::Wrong(_) | Stage::Long = self.stage {
            return Fed {
                taken: 0,
                event: self.stage.event(),
            };
        }
        let Advance {
            taken,
            event,
            stage,
        } = take_piece(self.stage, &mut self.kept, piece);
        self.stage = stage;
        Fed { taken, event }
    }

    /// The object that ended at the last byte taken; no bytes where none ended there.
    pub fn object(&self) -> &[u8]
        ensures { result.now ≡ object_of self.now }
    {
        match self.stage {
            Stage::Whole => self.kept.as_slice(),
            _ => &[],
        }
    }
}
