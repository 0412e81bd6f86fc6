//! A law of the definitions, the contract of a function with nothing to do.

ghost use Rattle.qs_serving.specs.Scenes.{ServingJoins};

/// Events that went on behind others are events that went on.
pub fn serving_joins()
    ensures { ServingJoins }
{}
