ghost use Rattle.std.specs.Prelude.{◌≡◌, ◌≢◌, ℕ, ◌+◌, ◌-◌, ◌*◌, ◌≤◌, Option, List, [], ◌∷◌, ◌++◌};
ghost use Rattle.qs_bucket.specs.declared.bucket.Ask.{Ask};
ghost use Rattle.qs_bucket.specs.declared.bucket.Burst.{Burst};
ghost use Rattle.qs_bucket.specs.Admissions.{Admission, owed, window, units_of, last_units, AdmittedByRule};
ghost use Rattle.qs_bucket.specs.Level.{LevelValue, empty, effective, level_at, wait_at, level_added, Asked, IsOwedBy};
ghost use Rattle.qs_bucket.specs.Bucket.{BucketValue, BurstFits, opened_bucket, AskedOf, AsksBucket, wait_of, filled, Holds};

/// What a level holds is what its admissions owe, and by that alone a request goes or waits.
///
/// It is so of a new level, which has admitted nothing, and of a level that has counted one
/// admission more. A level that counts only what it let go admits by the rule of [`window_law`].
pub fn level_is_owed()
    ensures opening { (rate bucket : ℕ) → IsOwedBy (empty rate bucket) [] }
    ensures kept { (b : LevelValue) (xs : List Admission) (now units : ℕ) → b.rate ≢ 0 → IsOwedBy b xs →
        IsOwedBy (level_added b now units) (xs ++ record { reading = effective b now; units = units } ∷ []) }
    ensures asked { (b : LevelValue) (xs : List Admission) (now : ℕ) (answer : Ask) → IsOwedBy b xs →
        Asked b.rate b.bucket (level_at b (effective b now)) answer →
        Asked b.rate b.bucket (owed b.rate xs (effective b now)) answer }
    ensures ruled { (b : LevelValue) (xs : List Admission) (now units : ℕ) → b.rate ≢ 0 → IsOwedBy b xs →
        wait_at b now ≡ 0 →
        AdmittedByRule b.rate b.bucket xs →
        AdmittedByRule b.rate b.bucket (xs ++ record { reading = effective b now; units = units } ∷ []) }
{}

/// What both levels of a bucket hold is what the same admissions owe, each at its own rate, and by
/// that alone a request goes or waits.
///
/// It is so of a new bucket, and of one that has counted a request that it let go.
pub fn bucket_is_owed()
    ensures opening { (rate bucket : ℕ) (burst : Option Burst) → BurstFits rate burst →
        Holds (opened_bucket rate bucket burst) [] }
    ensures kept { (b : BucketValue) (xs : List Admission) (now units : ℕ) → Holds b xs →
        Holds (filled b now units) (xs ++ record { reading = effective b.first now; units = units } ∷ []) }
    ensures asked { (b : BucketValue) (xs : List Admission) (now : ℕ) (answer : Ask) → Holds b xs →
        AsksBucket b now answer →
        let t = effective b.first now in
        AskedOf b (owed b.first.rate xs t) (owed b.second.rate xs t) answer }
{}

/// Where each request was let go by what was owed before it, any window admits at most the bucket,
/// the rate times the time that passed, and one request.
pub fn window_law()
    ensures { (rate bucket : ℕ) (xs : List Admission) (t1 t2 : ℕ) → t1 ≤ t2 → AdmittedByRule rate bucket xs →
        units_of (window t1 t2 xs) ≤ bucket + rate * (t2 - t1) + last_units (window t1 t2 xs) }
{}
