ghost use Rattle.std.specs.Prelude.{◌≡◌, ℕ, ◌<◌, List, [], ◌∷◌, ◌++◌, IsTrue};
ghost use Rattle.qs_bytes.specs.declared.ask.Kind.TheVariants.{Flush};
ghost use Rattle.qs_bytes.specs.declared.ask.Verdict.{Verdict};
ghost use Rattle.qs_bytes.specs.declared.ask.Verdict.TheVariants.{Fine};
ghost use Rattle.qs_model.specs.Acts.{Element, Asked};
ghost use Rattle.qs_model.specs.Laws.{opening_world};
ghost use Rattle.qs_model.specs.Requests.{Client};
ghost use Rattle.qs_model.specs.Steps.{world_after};
ghost use Rattle.qs_model.specs.Worlds.{Opening, World};
ghost use Rattle.qs_verdicts.specs.Verdicts.{IsAnswered};
ghost use Rattle.qs_alone.specs.Alone.{IsAlone, routed_in};
ghost use Rattle.qs_remains.specs.Remains.{IsCleanSettled, IsSettled, Remains};

/// Whatever a crash may leave of a byte behind a request that was alone, it might leave before, or it is the byte as
/// it was, or the one that the request stores for its place.
pub fn remains()
    ensures { (A : ℕ) (o : Opening) (before : List Element) (r : ℕ) (c : Client) (front : List Element)
        (e : Element) (v : Verdict) → 0 < A → IsTrue (world_after A (opening_world o) before).tells →
        IsAlone A o before r c (front ++ e ∷ []) → IsAnswered r v e →
        Remains A (world_after A (opening_world o) before).image (routed_in (world_after A (opening_world o) before).graph c)
        (world_after A (opening_world o) (before ++ Asked r c ∷ (front ++ e ∷ []))).image }
{}

/// Where a crash leaves of each clean stripe what its blocks hold, it does so behind any steps.
pub fn clean_settled()
    ensures { (A : ℕ) (w : World) (es : List Element) → IsCleanSettled w.image →
        IsCleanSettled (world_after A w es).image }
{}

/// And behind a FLUSH that was alone and is Fine, it leaves of every block what it holds (NBD proto.md, FLUSH).
pub fn flushed()
    ensures { (A : ℕ) (o : Opening) (before : List Element) (r : ℕ) (c : Client) (front : List Element) (e : Element) →
        0 < A → IsTrue (world_after A (opening_world o) before).tells →
        IsCleanSettled (world_after A (opening_world o) before).image →
        c.ask.kind ≡ Flush →
        IsAlone A o before r c (front ++ e ∷ []) → IsAnswered r Fine e →
        IsSettled (world_after A (opening_world o) (before ++ Asked r c ∷ (front ++ e ∷ []))).image }
{}
