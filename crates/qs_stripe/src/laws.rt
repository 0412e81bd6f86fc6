ghost use Rattle.std.specs.Prelude.{◌≡◌, List};
ghost use Rattle.qs_part.specs.Histories.{Call, lawful, StandsFor};
ghost use Rattle.qs_part.specs.declared.stripe.StripeOp.{StripeOp};
ghost use Rattle.qs_part.specs.declared.stripe.StripeReply.{StripeReply};
ghost use Rattle.qs_stripe.specs.History.{HeldIn, clean_after};
ghost use Rattle.qs_stripe.specs.Table.{StripeValue, Fits, answers, geometry};

/// In every history: between a hold of block `b` by place `k` and the store or free of `k` that ends
/// it, no store of `b` by another place is done or reaches the disk.
pub fn held()
    ensures { (opening : StripeValue) (cs : List (Call StripeOp StripeReply)) (v : StripeValue) →
        StandsFor (lawful geometry Fits answers) opening cs v → HeldIn cs }
{}

/// In every history: a stripe is clean exactly where no store was done or refused by the disk since the
/// last sync that was done, or since the opening where it was clean.
pub fn clean()
    ensures { (opening : StripeValue) (cs : List (Call StripeOp StripeReply)) (v : StripeValue) →
        StandsFor (lawful geometry Fits answers) opening cs v → v.clean ≡ clean_after opening.clean cs }
{}
