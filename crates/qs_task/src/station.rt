ghost use Rattle.std.specs.Prelude.{◌≡◌};
ghost use Rattle.qs_part.specs.Histories.{call};
ghost use Rattle.qs_request_state.specs.declared.shape.Shape.{Shape as ImageShape};
ghost use Rattle.qs_request.specs.Operations.{MayReplyTo};
ghost use Rattle.qs_request.specs.Table.{FitsPart};
ghost use Rattle.qs_task.specs.Books.{Book, IsOperation, notes};

use qs_request::{PartReply, Todo};
use std::sync::Wait;

/// From where requests call the parts of a hall, one call at a time, each for the request with its number.
pub trait Station {
    /// Where the parts are.
    type Hall;

    ghost book: { Self → Book };

    ghost shape: { Self.Hall → ImageShape };

    ghost is_of: { Self.Hall → Self → Type 0 };

    ghost follows: { Self → Self → Type 0 };

    /// Does the operation on its part, for the request with this number, and gives the part's reply. It may wait for
    /// others that call the part. Exactly this call is noted in the book, and the reply is one that a part of the
    /// hall's shape may give by its table.
    fn call<R: Wait>(&mut self, rt: &R, hall: &Self::Hall, request: u64, todo: Todo) -> PartReply
        requires of { is_of hall.now self.old }
        requires operation { IsOperation todo }
        requires fits { FitsPart (shape hall.now) todo }
        ensures of { is_of hall.now self.new }
        ensures booked { book self.new ≡ notes (call request todo result) (book self.old) }
        ensures may { MayReplyTo (shape hall.now) todo result }
        ensures later { follows self.old self.new };

    ghost follows_self: { (s : Self) → follows s s };

    ghost follows_on: { (s t u : Self) → follows s t → follows t u → follows s u };
}
