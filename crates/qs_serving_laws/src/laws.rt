//! A law of the definitions, the contract of a function with nothing to do.

ghost use Rattle.qs_serving_laws.specs.Stories.{ServingTells};

/// Whatever happens in a transmission phase: the calls of each number are the walk of its request, each once; the reader
/// tells its messages, each once and in order; requests have the numbers 1, 2 and on in the order of their heads; the bytes
/// put are the replies in the order of the answers; and the session leaves its export once, as the last that it does.
pub fn serving_tells()
    ensures { ServingTells }
{}
