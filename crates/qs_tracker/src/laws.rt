ghost use Rattle.std.specs.Prelude.{◌≡◌, ℕ, ◌-◌, ◌^◌, ◌≤◌, List};
ghost use Rattle.qs_part.specs.Histories.{Call};
ghost use Rattle.qs_part.specs.declared.tracker.TrackerOp.{TrackerOp};
ghost use Rattle.qs_part.specs.declared.tracker.TrackerReply.{TrackerReply};
ghost use Rattle.qs_part.specs.declared.tracker.TrackerOp.TheVariants.{Start};
ghost use Rattle.qs_part.specs.declared.tracker.TrackerReply.TheVariants.{Started};
ghost use Rattle.qs_tracker.specs.declared.seat.Listing.{Listing};
ghost use Rattle.qs_tracker.specs.Seats.{Conflict, IsClear};
ghost use Rattle.qs_tracker.specs.Table.{TrackerValue, numbered, May};
ghost use Rattle.qs_tracker.specs.History.{StandsForFresh, IsListed, IsListedStarted, IsLowest, Renumbered};

/// In every history of a fresh tracker no two spans that go conflict, and one that goes has no
/// listed conflicting span of a lower number.
pub fn apart()
    ensures apart { (first : ℕ) (cs : List (Call TrackerOp TrackerReply)) (v : TrackerValue) (j k : ℕ)
        (l m : Listing) → StandsForFresh first cs v → IsListedStarted v j l → IsListedStarted v k m → Conflict l m →
        j ≡ k }
    ensures clear { (first : ℕ) (cs : List (Call TrackerOp TrackerReply)) (v : TrackerValue) (k : ℕ)
        (l : Listing) → StandsForFresh first cs v → IsListedStarted v k l → IsClear v.seats l }
{}

/// In every history of a fresh tracker, where spans are listed, one has the lowest number, and its
/// request can start.
pub fn lowest()
    ensures one { (first : ℕ) (cs : List (Call TrackerOp TrackerReply)) (v : TrackerValue) (k : ℕ)
        (l : Listing) → StandsForFresh first cs v → IsListed v k l →
        (j : ℕ) × (m : Listing) × IsLowest v j m }
    ensures starts { (first : ℕ) (cs : List (Call TrackerOp TrackerReply)) (v : TrackerValue) (k : ℕ)
        (l : Listing) → StandsForFresh first cs v → IsLowest v k l → May v (Start k) Started }
{}

/// In every history of a fresh tracker, where the next number would be 2^64 - 1, the listed spans
/// are numbered 0, 1, 2 and so on, in their order, and nothing else about them changes.
pub fn renumbering()
    ensures { (first : ℕ) (cs : List (Call TrackerOp TrackerReply)) (v : TrackerValue) →
        StandsForFresh first cs v → 2 ^ 64 - 1 ≤ v.number → Renumbered v (numbered v) }
{}
