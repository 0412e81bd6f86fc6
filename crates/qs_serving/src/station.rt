ghost use Rattle.std.specs.Prelude.{◌≡◌};
ghost use Rattle.qs_serving.specs.Graphs.{GraphMay, IsSessionOp, graph_noted};

use qs_part::graph::{GraphOp, GraphReply};
use qs_task::Station;
use std::sync::Wait;

/// A station at which a session makes its own calls of the graph too.
pub trait SessionStation: Station {
    /// Does the operation on the graph, for the session itself, and gives the graph's reply. It may wait for others
    /// that call the graph. Exactly this call is noted in the book, as number 0, and the reply is one of the graph's table.
    fn session_call<R: Wait>(&mut self, rt: &R, hall: &Self::Hall, op: GraphOp) -> GraphReply
        requires of { Self.is_of hall.now self.old }
        requires operation { IsSessionOp op }
        ensures of { Self.is_of hall.now self.new }
        ensures booked { Self.book self.new ≡ graph_noted op result (Self.book self.old) }
        ensures may { GraphMay op result }
        ensures later { Self.follows self.old self.new };
}
