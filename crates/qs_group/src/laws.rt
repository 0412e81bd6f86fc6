ghost use Rattle.std.specs.Prelude.{◌≡◌, ℕ, ◌+◌, ◌-◌, ◌*◌, ◌≤◌, List, [], false, Some, IsTrue, max};
ghost use Rattle.qs_bucket.specs.Admissions.{window, units_of, last_units};
ghost use Rattle.qs_bucket.specs.Level.{IsOwedBy};
ghost use Rattle.qs_part.specs.Histories.{Call};
ghost use Rattle.qs_part.specs.declared.group.Dir.{Dir};
ghost use Rattle.qs_part.specs.declared.group.GroupOp.{GroupOp};
ghost use Rattle.qs_part.specs.declared.group.GroupOp.TheVariants.{Admit};
ghost use Rattle.qs_part.specs.declared.group.GroupReply.{GroupReply};
ghost use Rattle.qs_part.specs.declared.limits.Dim.TheVariants.{BpsTotal};
ghost use Rattle.qs_part.specs.Limits.{limit_of};
ghost use Rattle.qs_group.specs.declared.queue.Queued.{Queued};
ghost use Rattle.qs_group.specs.Budget.{has_pair, rate_of, capacity};
ghost use Rattle.qs_group.specs.Queue.{ticket_at};
ghost use Rattle.qs_group.specs.Levels.{Key, level_of};
ghost use Rattle.qs_group.specs.Table.{GroupValue, unlimited, fresh, May, after};
ghost use Rattle.qs_group.specs.History.{StandsForFresh, last_set, admissions, greatest_reading, ByAdmissions};
ghost use Rattle.qs_group.specs.Served.{ChangesGroup, WaitsIn, OneServed};

/// What a new group's limits admitted, in every history.
///
/// Each pair of a rate and a bucket that the limits set last have is that of a level, which holds
/// what the admissions since then owe at its rate; the other levels are no limit. Of these
/// admissions, any window admits at most the bucket, the rate times the time that passed, and one
/// request. The greatest of their readings is the one below which no reading counts; each request
/// that went is an admission of `BpsTotal`.
pub fn budget()
    ensures limits { (cs : List (Call GroupOp GroupReply)) (v : GroupValue) (key : Key) → StandsForFresh cs v →
        let level = level_of v.budget key in
        let limit = limit_of (last_set unlimited cs) key.dim in
        IsTrue (has_pair limit key.which) →
        (level.rate ≡ rate_of limit key.which) × (level.bucket ≡ capacity limit key.which) }
    ensures no_limit { (cs : List (Call GroupOp GroupReply)) (v : GroupValue) (key : Key) → StandsForFresh cs v →
        has_pair (limit_of (last_set unlimited cs) key.dim) key.which ≡ false →
        (level_of v.budget key).rate ≡ 0 }
    ensures size { (cs : List (Call GroupOp GroupReply)) (v : GroupValue) → StandsForFresh cs v →
        v.budget.iops_size ≡ (last_set unlimited cs).iops_size }
    ensures owed { (cs : List (Call GroupOp GroupReply)) (v : GroupValue) (key : Key) → StandsForFresh cs v →
        IsTrue (has_pair (limit_of (last_set unlimited cs) key.dim) key.which) →
        IsOwedBy (level_of v.budget key) (admissions key.dim fresh cs []) }
    ensures reading { (cs : List (Call GroupOp GroupReply)) (v : GroupValue) → StandsForFresh cs v →
        v.budget.reading ≡ greatest_reading (admissions BpsTotal fresh cs []) }
    ensures windows { (cs : List (Call GroupOp GroupReply)) (v : GroupValue) (key : Key) (t1 t2 : ℕ) →
        StandsForFresh cs v → t1 ≤ t2 →
        let limit = limit_of (last_set unlimited cs) key.dim in
        let inside = window t1 t2 (admissions key.dim fresh cs []) in
        IsTrue (has_pair limit key.which) →
        units_of inside ≤ capacity limit key.which + rate_of limit key.which * (t2 - t1) + last_units inside }
{}

/// In every history a request goes just where each pair of each limit that applies to it is owed at
/// most its bucket, and else waits as long as the limits ask for.
pub fn waits()
    ensures { (cs : List (Call GroupOp GroupReply)) (v : GroupValue) (t now : ℕ) (w : Queued)
        (reply : GroupReply) → StandsForFresh cs v →
        let reading = max now (greatest_reading (admissions BpsTotal fresh cs [])) in
        ticket_at v.waiting t ≡ Some w → May v (Admit t now) reply →
        ByAdmissions (last_set unlimited cs) (λ dim. admissions dim fresh cs []) w.dir reading reply }
{}

/// In every history just one ticket of a direction is served, if one waits.
pub fn turns()
    ensures { (cs : List (Call GroupOp GroupReply)) (v : GroupValue) (d : Dir) (t : ℕ) → StandsForFresh cs v →
        WaitsIn v d t → OneServed v d }
{}

/// In every history an operation has just one answer that may come, and only four answers change
/// the group.
pub fn answers()
    ensures answered { (cs : List (Call GroupOp GroupReply)) (v : GroupValue) (op : GroupOp) → StandsForFresh cs v →
        (reply : GroupReply) × May v op reply }
    ensures one { (cs : List (Call GroupOp GroupReply)) (v : GroupValue) (op : GroupOp)
        (first second : GroupReply) → StandsForFresh cs v → May v op first → May v op second → first ≡ second }
    ensures unchanged { (v : GroupValue) (op : GroupOp) (reply : GroupReply) → (ChangesGroup reply → ⊥) →
        after v op reply ≡ v }
{}
