ghost use Rattle.std.specs.Prelude.{◌≡◌, ℕ, ◌<◌, List, [], ◌∷◌, ◌++◌, IsTrue};
ghost use Rattle.qs_model.specs.Acts.{Element};
ghost use Rattle.qs_model.specs.Laws.{opening_world};
ghost use Rattle.qs_model.specs.Steps.{Runs};
ghost use Rattle.qs_model.specs.Worlds.{Opening};
ghost use Rattle.qs_examples.specs.Examples.{small_opening};
ghost use Rattle.qs_durable.specs.Ages.{LeavesNoOlder};
ghost use Rattle.qs_durable.specs.Bounds.{IsBound};
ghost use Rattle.qs_durable.specs.Example.{acknowledged, asked_elements, flushed, lost};
ghost use Rattle.qs_durable.specs.Laws.{Durable, IsHandedInSettled, SinceOpening, SyncsBound};

/// In every run over settled disks that tell their content: of each byte a crash leaves nothing older
/// than any position before a sync of its stripe, also one that was skipped because the stripe was clean.
pub fn syncs()
    ensures { (A : ℕ) (o : Opening) (es : List Element) → 0 < A → IsTrue o.tells → IsHandedInSettled o →
        Runs A (opening_world o) es → SyncsBound A (opening_world o) es }
{}

/// In every run over settled disks that tell their content, with crashes among its steps: of each byte a
/// crash leaves nothing older than any FLUSH that is Fine found when it entered, nothing older than a
/// write of the byte that was acknowledged before that, and nothing older than its write by a request
/// with FUA that is Fine (NBD proto.md, FLUSH and FUA). Where a FLUSH ran alone, nothing is older than
/// its answer.
pub fn durable()
    ensures { (A : ℕ) (o : Opening) (es : List Element) → 0 < A → IsTrue o.tells → IsHandedInSettled o →
        Runs A (opening_world o) es → Durable A (opening_world o) es }
{}

/// Where the disks were handed in with nothing to be left but what their blocks hold, nothing that a crash
/// leaves is older than the opening.
pub fn since_opening()
    ensures { (A : ℕ) (o : Opening) (es : List Element) → 0 < A → IsTrue o.tells →
        ((b : ℕ) → o.past b ≡ o.now b ∷ []) → Runs A (opening_world o) es → SinceOpening A (opening_world o) es }
{}

/// A WRITE_ZEROES that is acknowledged, with no FLUSH behind it: a crash may leave the old block, which is
/// older than the acknowledgement.
pub fn unflushed()
    ensures runs { Runs 4 (opening_world small_opening) (acknowledged ++ lost ∷ []) }
    ensures older { LeavesNoOlder 4 (opening_world small_opening) 4 acknowledged acknowledged → ⊥ }
{}

/// And a FLUSH behind it that is Fine: that is a run, and its Enter bounds what a crash may leave; no run
/// goes on from there with a crash that leaves the old block.
pub fn flushed_write()
    ensures runs { Runs 4 (opening_world small_opening) flushed }
    ensures bound { IsBound 4 4 asked_elements flushed }
    ensures kept { Runs 4 (opening_world small_opening) (flushed ++ lost ∷ []) → ⊥ }
{}
