//! Laws of the definitions, each the contract of a function with nothing to do.

ghost use Rattle.qs_qmp_frame.specs.Streams.{CutsStreams, JoinsPieces, RefusesAtOnce};

/// What is cut is blanks and objects, and then nothing, a beginning of an object, or what is
/// refused. And whatever is spelled so, is cut so.
pub fn streams()
    ensures { CutsStreams }
{}

/// However a stream's bytes are cut into pieces, the same objects are told.
pub fn any_cutting()
    ensures { JoinsPieces }
{}

/// A refusal comes at the byte that is refused.
pub fn refusals()
    ensures { RefusesAtOnce }
{}
