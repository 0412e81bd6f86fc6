ghost use Rattle.std.specs.Prelude.{◌≡◌, ℕ, ◌<◌, true, List, [], ◌∷◌};
ghost use Rattle.std.specs.List.{filter_map};
ghost use Rattle.qs_model.specs.Example.{padded_opening, padded, example_outcomes};
ghost use Rattle.qs_model.specs.Events.{outcome_of};
ghost use Rattle.qs_model.specs.Acts.{Element};
ghost use Rattle.qs_model.specs.Worlds.{Opening};
ghost use Rattle.qs_model.specs.Steps.{world_after, Runs};
ghost use Rattle.qs_model.specs.Laws.{opening_world, Besides, Between, ReadsOnce, WritesOnce, Undivided, NeverOdd, NoStore, Writable, Tracked, InPlace, Evented, Headline};

/// A request is asked once, and whatever it does, its entries too, stands between its Ask and its
/// answer. So nothing that a session is told is older than what any session had been answered before
/// it asked.
pub fn between()
    ensures { (A : ℕ) (o : Opening) (es : List Element) → 0 < A →
        Runs A (opening_world o) es → Between es }
{}

/// Between two block entries of a request with a serialising span no block entry of another stands
/// on a block of its span aligned outward (QEMU block/io.c, serialising requests).
pub fn undivided()
    ensures { (A : ℕ) (o : Opening) (es : List Element) → 0 < A →
        Runs A (opening_world o) es → Undivided A es }
{}

/// A Hold or Store is never answered HeldBy or Taken; a request's List, Start, End and Free are
/// never Strange or NotHeld; a session's Detach is never NotAttached.
pub fn never_odd()
    ensures { (A : ℕ) (o : Opening) (es : List Element) → 0 < A →
        Runs A (opening_world o) es → NeverOdd es }
{}

/// A Store belongs to a request whose way is writable, and that way is the one that its Route gave.
pub fn writable()
    ensures { (A : ℕ) (o : Opening) (es : List Element) → 0 < A →
        Runs A (opening_world o) es → Writable es }
{}

/// Over a read-only file node nothing is stored: no request's Store is ever done or refused, and a crash
/// leaves the file node read-only.
pub fn read_only()
    ensures { (A : ℕ) (o : Opening) (es : List Element) → 0 < A → o.read_only ≡ true →
        Runs A (opening_world o) es → NoStore es }
{}

/// Of the started spans no two conflict, and of all listed spans the one of lowest number can start.
pub fn tracked()
    ensures { (A : ℕ) (o : Opening) (es : List Element) → 0 < A →
        Runs A (opening_world o) es → Tracked A (opening_world o) es }
{}

/// A READ that is Got has read each byte that it covers exactly once, and its reply has that value.
pub fn reads_once()
    ensures { (A : ℕ) (o : Opening) (es : List Element) → 0 < A →
        Runs A (opening_world o) es → ReadsOnce A es }
{}

/// A write that is Fine has written each byte that it covers exactly once, and no disk refused one
/// of its stores.
pub fn writes_once()
    ensures { (A : ℕ) (o : Opening) (es : List Element) → 0 < A →
        Runs A (opening_world o) es → WritesOnce A es }
{}

/// Requests in flight have distinct places of the tracker, each of these is taken, and no other place
/// is.
pub fn in_place()
    ensures { (A : ℕ) (o : Opening) (es : List Element) → 0 < A →
        Runs A (opening_world o) es → InPlace A (opening_world o) es }
{}

/// Every step but the making of an export, a planned failure and a crash is an event's, and has one
/// outcome.
pub fn evented()
    ensures { (A : ℕ) (o : Opening) (es : List Element) →
        Runs A (opening_world o) es → Evented A es }
{}

/// The headline, of every run from an opening, whichever actor is next and whatever the disks answer.
/// Where the disks tell their content, each byte's reads and writes form one legal history of a single
/// cell, and only a write that covers a byte changes it. A read is of no state older than what its
/// session had seen when it asked. A padded write is undivided.
pub fn headline()
    ensures { (A : ℕ) (o : Opening) (es : List Element) → 0 < A →
        Runs A (opening_world o) es → Headline A (opening_world o) es }
{}

/// What is kept besides, together.
pub fn besides()
    ensures { (A : ℕ) (o : Opening) (es : List Element) → 0 < A →
        Runs A (opening_world o) es → Besides A (opening_world o) es }
{}

/// The model isn't empty: a padded write of two bytes at the seam of two blocks is a run, its steps
/// answer what the request table says, and afterwards the two blocks have the bytes.
pub fn padded_write()
    ensures runs { Runs 4 (opening_world padded_opening) padded }
    ensures answers { filter_map (outcome_of 4) padded ≡ example_outcomes }
    ensures first { (world_after 4 (opening_world padded_opening) padded).image.now 0 ≡ 0 ∷ 0 ∷ 0 ∷ 7 ∷ [] }
    ensures second { (world_after 4 (opening_world padded_opening) padded).image.now 1 ≡ 8 ∷ 0 ∷ 0 ∷ 0 ∷ [] }
{}
