ghost use Rattle.std.specs.Prelude.{◌≡◌, ◌↔◌, ℕ, ◌<◌, ◌≤◌, true, List};
ghost use Rattle.qs_model.specs.Acts.{Element};
ghost use Rattle.qs_model.specs.Laws.{opening_world};
ghost use Rattle.qs_model.specs.Requests.{touches};
ghost use Rattle.qs_model.specs.Steps.{Runs};
ghost use Rattle.qs_model.specs.Worlds.{Opening};
ghost use Rattle.qs_verdicts.specs.Judged.{Judged};
ghost use Rattle.qs_verdicts.specs.Kept.{AlwaysKept};
ghost use Rattle.qs_verdicts.specs.Verdicts.{Meets, Own, OwnBytes, Verdicts};

/// Each answer of a request is the first line of the table of replies that applies: over its Ask, its
/// buffers, what the graph said of its way, and its own steps on blocks. It is EIO exactly where a disk
/// failed for it, and Dropped exactly where its session left. A request that did something to a block
/// isn't refused but for EIO, and one whose span was listed runs on to its last block.
pub fn verdicts()
    ensures { (A : ℕ) (o : Opening) (es : List Element) → 0 < A → Runs A (opening_world o) es → Verdicts A es }
{}

/// The model's test of whether the blocks from `first` to `final` reach stripe s passes exactly where one
/// of them is of that stripe.
pub fn stripes()
    ensures { (first final s : ℕ) → first ≤ final → s < 8 → (touches first final s ≡ true) ↔ Meets first final s }
{}

/// Each step of a request is with the client that asked it, but for its way, which the graph gave. A
/// request whose session has left doesn't enter, ask for its way or list a span, and a FLUSH doesn't sync
/// then. Beside a FLUSH only a WRITE or WRITE_ZEROES of some length with FUA syncs.
pub fn own()
    ensures { (A : ℕ) (o : Opening) (es : List Element) → 0 < A → Runs A (opening_world o) es → Own A es }
{}

/// Only a WRITE or WRITE_ZEROES writes, and only places that it covers: a WRITE its client's own bytes, a
/// WRITE_ZEROES zeros.
pub fn own_bytes()
    ensures { (A : ℕ) (o : Opening) (es : List Element) → 0 < A → Runs A (opening_world o) es → OwnBytes A es }
{}

/// What the core keeps at every position: of requests in flight and their places, of spans, syncs, holds
/// and kept bytes, and of the clients of each export.
pub fn kept()
    ensures { (A : ℕ) (o : Opening) (es : List Element) → 0 < A → Runs A (opening_world o) es →
        AlwaysKept A (opening_world o) es }
{}

/// These laws together.
pub fn judged()
    ensures { (A : ℕ) (o : Opening) (es : List Element) → 0 < A → Runs A (opening_world o) es →
        Judged A (opening_world o) es }
{}
