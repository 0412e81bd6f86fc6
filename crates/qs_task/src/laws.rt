ghost use Rattle.std.specs.Prelude.{◌≡◌, ◌↔◌, ℕ, true};
ghost use Rattle.qs_model.specs.Acts.{Wait};
ghost use Rattle.qs_model.specs.Requests.{Req as Request};
ghost use Rattle.qs_request.specs.declared.todo.PartReply.{PartReply};
ghost use Rattle.qs_request.specs.Rows.{IsWait};
ghost use Rattle.qs_request.specs.Table.{followed};
ghost use Rattle.qs_task.specs.Stories.{MergedWalks};
ghost use Rattle.qs_task.specs.Walks.{is_wait};

/// The answers for which a request has to wait are those that the model counts as waits, and they leave it as it is.
pub fn waits()
    ensures same { (reply : PartReply) → (is_wait reply ≡ true) ↔ ((wait : Wait) × IsWait reply wait) }
    ensures stays { (A : ℕ) (q : Request) (reply : PartReply) → is_wait reply ≡ true → followed A q reply ≡ q }
{}

/// Whatever happens to a crew, in whatever order its requests are polled: the calls of each number are the walk of its
/// request through the request table, each once, up to its answer or to where the request is now.
pub fn merged_walks()
    ensures { MergedWalks }
{}
