ghost use Rattle.std.specs.Prelude.{◌≡◌, true, [], ◌∷◌};
ghost use Rattle.std.specs.List.{filter_map};
ghost use Rattle.qs_model.specs.Events.{outcome_of};
ghost use Rattle.qs_model.specs.Laws.{opening_world};
ghost use Rattle.qs_model.specs.Steps.{world_after, Runs};
ghost use Rattle.qs_model.specs.Example.{zeros};
ghost use Rattle.qs_examples.specs.Examples.{small_opening, first_half, second, reading, reading_answers, failing, failing_answers, dropping, dropping_answers, refusing, refusing_answers};
ghost use Rattle.qs_examples.specs.OtherKinds.{dirty, flushing, flushing_answers, locked, trimming, trimming_answers, zeroing, zeroing_answers};

/// A READ of two bytes at the seam of two blocks loads both and is answered by these bytes.
pub fn read()
    ensures runs { Runs 4 (opening_world small_opening) reading }
    ensures answers { filter_map (outcome_of 4) reading ≡ reading_answers }
{}

/// A WRITE of these two bytes holds its first block, and the disk fails the load of its last one: the
/// hold is freed, the answer is EIO, and both blocks are as they were.
pub fn failed_write()
    ensures runs { Runs 4 (opening_world small_opening) failing }
    ensures answers { filter_map (outcome_of 4) failing ≡ failing_answers }
    ensures first_block { (world_after 4 (opening_world small_opening) failing).image.now 0 ≡ first_half }
    ensures second_block { (world_after 4 (opening_world small_opening) failing).image.now 1 ≡ second }
{}

/// A session leaves while its request has a place and no way yet: the request ends with no answer, and
/// then the session is detached.
pub fn dropped()
    ensures runs { Runs 4 (opening_world small_opening) dropping }
    ensures answers { filter_map (outcome_of 4) dropping ≡ dropping_answers }
{}

/// A READ that passes the end is answered by EINVAL once it has its way, and touches no block.
pub fn refused()
    ensures runs { Runs 4 (opening_world small_opening) refusing }
    ensures answers { filter_map (outcome_of 4) refusing ≡ refusing_answers }
{}

/// A FLUSH over an image where something was stored on stripe 0 since its last sync: that stripe is
/// synced, the other seven are clean, and then it is answered. The places that it names say nothing.
pub fn flushed()
    ensures runs { Runs 4 (opening_world dirty) flushing }
    ensures answers { filter_map (outcome_of 4) flushing ≡ flushing_answers }
    ensures clean { (world_after 4 (opening_world dirty) flushing).image.clean 0 ≡ true }
{}

/// A WRITE_ZEROES of the second block with FUA stores zeros, syncs the one stripe of its blocks, and is
/// answered then: a crash leaves nothing but the zeros.
pub fn zeroed()
    ensures runs { Runs 4 (opening_world small_opening) zeroing }
    ensures answers { filter_map (outcome_of 4) zeroing ≡ zeroing_answers }
    ensures left { (world_after 4 (opening_world small_opening) zeroing).image.past 1 ≡ zeros ∷ [] }
{}

/// A TRIM by an export of a read-only image, that isn't writable, is answered by EPERM.
pub fn trim_refused()
    ensures runs { Runs 4 (opening_world locked) trimming }
    ensures answers { filter_map (outcome_of 4) trimming ≡ trimming_answers }
{}
