//! Laws of the definitions, each the contract of a function with nothing to do.

ghost use Rattle.qs_wire_stream.specs.Runs.{RunsJoin};

/// One run of calls and the next are a run of what both took and gave.
pub fn runs_join()
    ensures { RunsJoin }
{}
