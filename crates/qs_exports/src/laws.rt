ghost use Rattle.std.specs.Prelude.{◌≡◌, ◌≢◌, ℕ, Bool, List, Result};
ghost use Rattle.qs_exports.specs.declared.export.Export.{Export};
ghost use Rattle.qs_exports.specs.declared.export.NewExport.{NewExport};
ghost use Rattle.qs_exports.specs.declared.export.Refused.{Refused};
ghost use Rattle.qs_exports.specs.Attached.{StaysAt};
ghost use Rattle.qs_exports.specs.Changes.{AddsExport, Attaches, DeletesExport, Detaches};
ghost use Rattle.qs_exports.specs.Standing.{AreSeated};

/// While a client is attached at a place, its export stays there, whatever an operation answers, and has
/// no client less but by the leaving of one.
pub fn stays()
    ensures add { (old new : List Export) (made : NewExport) (result : Result ℕ Refused) (place : ℕ) →
        AddsExport old made result new → StaysAt 0 old new place }
    ensures attach { (old new : List Export) (name : List ℕ) (result : Result Export Refused) (place : ℕ) →
        AreSeated old → Attaches old name result new → StaysAt 0 old new place }
    ensures del { (old new : List Export) (id : List ℕ) (hard : Bool) (result : Result Unit Refused) (place : ℕ) →
        AreSeated old → DeletesExport old id hard result new → StaysAt 0 old new place }
    ensures detach { (old new : List Export) (left : ℕ) (result : Result Unit Refused) (place : ℕ) →
        AreSeated old → Detaches old left result new → StaysAt 1 old new place }
    ensures others { (old new : List Export) (left : ℕ) (result : Result Unit Refused) (place : ℕ) → left ≢ place →
        AreSeated old → Detaches old left result new → StaysAt 0 old new place }
{}
