//! A law of the definitions, the contract of a function with nothing to do.

ghost use Rattle.qs_qmp_write.specs.Texts.{AreApart};

/// No message begins another: where two streams begin with messages and are equal, so are these messages.
pub fn messages()
    ensures { AreApart }
{}
