ghost use Rattle.std.specs.Prelude.{◌≡◌, ℕ, IsTrue};
ghost use Rattle.qs_model.specs.Acts.{Element};
ghost use Rattle.qs_model.specs.Events.{outcome_of};
ghost use Rattle.qs_model.specs.Guards.{CanCome};
ghost use Rattle.qs_model.specs.Histories.{IsOddStep};
ghost use Rattle.qs_model.specs.Steps.{happens};
ghost use Rattle.qs_model.specs.Worlds.{World};
ghost use Rattle.qs_determined.specs.Determined.{Alike, Input, IsGivenAlike, IsInput, IsUndisturbed};

/// The same input, which is an event, a planned failure, a crash with what it left or the making of an export,
/// leads from states that are alike to states that are alike, with one outcome: where no disk failed but by a plan,
/// memory was refused to both or to neither, and no answer was odd.
pub fn one_outcome()
    ensures { (A : ℕ) (w v : World) (input : Input) (e d : Element) → IsTrue w.tells → Alike w v →
        CanCome A w e → CanCome A v d → IsInput input e → IsInput input d → IsUndisturbed A w e → IsUndisturbed A v d →
        IsGivenAlike e d → (IsOddStep e → ⊥) → (IsOddStep d → ⊥) →
        (outcome_of A d ≡ outcome_of A e) × Alike (happens A w e) (happens A v d) }
{}
