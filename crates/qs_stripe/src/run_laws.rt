ghost use Rattle.std.specs.Prelude.{List};
ghost use Rattle.qs_part.specs.Histories.{Call, lawful, StandsFor};
ghost use Rattle.qs_part.specs.declared.runs.StripeAnswer.{StripeAnswer};
ghost use Rattle.qs_part.specs.declared.runs.StripeCall.{StripeCall};
ghost use Rattle.qs_stripe.specs.History.{HeldIn};
ghost use Rattle.qs_stripe.specs.Runs.{FitsCall, all_singles, call_answers};
ghost use Rattle.qs_stripe.specs.Table.{StripeValue, Fits, answers, geometry};

/// A history of calls, single ones and runs, is a history of single operations: a run is its blocks'
/// operations, one after the other, up to the first that isn't done.
pub fn runs_are_singles()
    ensures { (opening : StripeValue) (cs : List (Call StripeCall StripeAnswer)) (v : StripeValue) →
        StandsFor (lawful geometry FitsCall call_answers) opening cs v →
        StandsFor (lawful geometry Fits answers) opening (all_singles opening.disk.align cs) v }
{}

/// In every history of calls: between a hold of block `b` by place `k` and the store or free of `k` that
/// ends it, no store of `b` by another place is done or reaches the disk, runs included.
pub fn held_in_runs()
    ensures { (opening : StripeValue) (cs : List (Call StripeCall StripeAnswer)) (v : StripeValue) →
        StandsFor (lawful geometry FitsCall call_answers) opening cs v → HeldIn (all_singles opening.disk.align cs) }
{}
