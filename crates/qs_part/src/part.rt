ghost use Rattle.std.specs.Prelude.{◌≡◌, ◌↔◌, IsTrue};

/// A part of the daemon: a value that changes by single operations, each with one reply.
///
/// The tracker of requests, the graph of nodes, a throttle group and a stripe of the image are
/// parts. Which replies may come, and what they leave, is the relation `legal` of the part.
pub trait Part: Drop {
    /// What never changes about the part, and decides which operations fit it.
    type Fixed: Copy;

    /// An operation.
    type Op: Drop;

    /// What an operation is answered by.
    type Reply: Drop;

    ghost fixed_of: { Self → Self.Fixed };

    ghost can: { Self.Fixed → Self.Op → Type 0 };

    ghost legal: { Self → Self.Op → Self.Reply → Self → Type 0 };

    /// What never changes about this part.
    fn fixed(&self) -> Self::Fixed
        ensures { result ≡ fixed_of self.now };

    /// Whether the operation may be handed to a part with this `fixed`.
    fn fits(fixed: &Self::Fixed, op: &Self::Op) -> bool
        ensures { IsTrue result ↔ can fixed.now op.now };

    /// Does the operation and answers it, as the part's relation allows.
    fn step(&mut self, op: Self::Op) -> Self::Reply
        requires { can (fixed_of self.old) op }
        ensures legal { legal self.old op result self.new }
        ensures same { fixed_of self.new ≡ fixed_of self.old };
}
