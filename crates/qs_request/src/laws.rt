ghost use Rattle.std.specs.Prelude.{ℕ};
ghost use Rattle.qs_model.specs.Requests.{Req as Request};
ghost use Rattle.qs_model.specs.Acts.{Act};
ghost use Rattle.qs_model.specs.Steps.{moved};
ghost use Rattle.qs_model.specs.Histories.{answer_of};
ghost use Rattle.qs_request_state.specs.declared.shape.Shape.{Shape};
ghost use Rattle.qs_request.specs.declared.todo.Todo.{Todo};
ghost use Rattle.qs_request.specs.declared.todo.PartReply.{PartReply};
ghost use Rattle.qs_request.specs.Operations.{MayReplyTo};
ghost use Rattle.qs_request.specs.Rows.{IsLed, IsRow};
ghost use Rattle.qs_request.specs.Table.{MayReply, Wants, followed};

/// The machine of a request is the model's: a reply, and the row of the model that it stands for,
/// lead to the same request. Where the model has answered, the request here is ready to give that
/// answer.
pub fn rows()
    ensures { (A : ℕ) (q : Request) (act : Act q.stage) (reply : PartReply) → IsRow reply act →
        IsLed (moved A q.client q.dropped q.pads act) (answer_of q.dropped act) (followed A q reply) }
{}

/// What a part of the shape may answer to the operation that a request gave, by the part's own
/// table, the request takes.
pub fn replies()
    ensures { (shape : Shape) (A : ℕ) (q : Request) (todo : Todo) (reply : PartReply) →
        Wants A q todo → MayReplyTo shape todo reply → MayReply shape q reply }
{}
