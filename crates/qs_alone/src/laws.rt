ghost use Rattle.std.specs.Prelude.{ℕ, ◌<◌, List, [], ◌∷◌, ◌++◌, take, drop};
ghost use Rattle.qs_bytes.specs.declared.ask.Verdict.{Verdict};
ghost use Rattle.qs_model.specs.Acts.{Element, Asked};
ghost use Rattle.qs_model.specs.Example.{padded_opening, padded, example_client};
ghost use Rattle.qs_model.specs.Laws.{opening_world, ComesBehind};
ghost use Rattle.qs_model.specs.Requests.{Client, no_route};
ghost use Rattle.qs_model.specs.Steps.{world_after};
ghost use Rattle.qs_model.specs.Worlds.{Opening};
ghost use Rattle.qs_verdicts.specs.Verdicts.{IsAnswered};
ghost use Rattle.qs_alone.specs.Alone.{IsAlone, IsServed, IsWaitStep};

/// A request alone never waits: no part answers it so that it has to ask again.
pub fn never_waits()
    ensures { (A : ℕ) (o : Opening) (before : List Element) (r : ℕ) (c : Client) (steps : List Element) → 0 < A →
        IsAlone A o before r c steps →
        (front : List Element) (e : Element) → ComesBehind front e steps → IsWaitStep e → ⊥ }
{}

/// A request alone is answered by the table of replies, over the way that the graph gives when it is asked, and what
/// its answer says of the bytes is so: a READ that is Got has the bytes that it covers, a write that is Fine wrote all
/// of its bytes, one that is EIO a front of them, and no other byte changes. EIO is answered only where a disk failed
/// for it. Afterwards no request is live, and sessions, exports and clients are as they were.
pub fn served()
    ensures { (A : ℕ) (o : Opening) (before : List Element) (r : ℕ) (c : Client) (front : List Element)
        (e : Element) (v : Verdict) → 0 < A → IsAlone A o before r c (front ++ e ∷ []) → IsAnswered r v e →
        IsServed A (world_after A (opening_world o) before) c (front ++ e ∷ []) v
        (world_after A (opening_world o) (before ++ Asked r c ∷ (front ++ e ∷ []))) }
{}

/// There are such requests: the padded write of the model's example is alone.
pub fn padded_alone()
    ensures { IsAlone 4 padded_opening (take 2 padded) 0 (example_client no_route) (drop 3 padded) }
{}
