ghost use Rattle.std.specs.Prelude.{ℕ, ◌<◌, List};
ghost use Rattle.qs_model.specs.Requests.{Req as Request};
ghost use Rattle.qs_request.specs.declared.whole_run.WholeRun.{WholeRun as Run};
ghost use Rattle.qs_request.specs.WholeRuns.{AreLoads, AreStores, IsReadingRun, IsWritingRun};

/// What a READ is behind a run of whole blocks is what it is behind their single loads, in order.
pub fn reading_run()
    ensures { (A : ℕ) (q : Request) (run : Run) (buf : List ℕ) → 0 < A → IsReadingRun A q run buf →
        AreLoads A q run buf }
{}

/// What a WRITE is behind a run of whole blocks is what it is behind their single stores, in order, each
/// with the body's bytes.
pub fn writing_run()
    ensures { (A : ℕ) (q : Request) (run : Run) → 0 < A → IsWritingRun A q run → AreStores A q run }
{}
