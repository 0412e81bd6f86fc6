//! Laws of the definitions, each the contract of a function with nothing to do.

ghost use Rattle.qs_handshake_phase.specs.Scenes.{GreetingJoins};

/// Events that went on behind others are events that went on.
pub fn greeting_joins()
    ensures { GreetingJoins }
{}
