ghost use Rattle.std.specs.Prelude.{◌≡◌, ◌+◌, ◌≤◌, ◌++◌, ◌∷◌, [], Some};
ghost use Rattle.qs_serving.specs.Graphs.{IsSessionOp};
ghost use Rattle.qs_session_trials.specs.Trials.{op_of, session_reply, trial_book};

use qs_bytes::Name;
use qs_part::graph::{ExportInfo, GraphOp, GraphReply, Route};
use qs_part::table::ExportRow;
use qs_part::tracker::TrackerOp;
use qs_request::{PartReply, Todo};
use qs_request_state::Shape;
use qs_serving::SessionStation;
use qs_task::Station;
use qs_task_trials::copies::{todo_copy, wait_for_ever};
use qs_task_trials::station::answer;
use std::alloc::Global;
use std::sync::Wait;

/// What a session does for itself.
#[derive(Clone, Copy, Debug, PartialEq, Eq)]
pub enum OwnCall {
    List,
    Find(Name),
    Attach(Name),
    Detach(u8),
}

/// A call that was made: for a request, or for the session itself.
#[derive(Debug, Drop)]
pub enum TrialCall {
    ForRequest(u64, Todo, PartReply),
    ForSession(OwnCall),
}

/// The export that stands.
pub const INFO: ExportInfo = ExportInfo {
    e: 3,
    size: 4096,
    writable: true,
};

/// A station that answers as parts on which nobody else works, and keeps its calls. One export stands, if it has a
/// name, and each name means it. So many of the first tries to start are answered by NotYet.
#[derive(Debug, Drop)]
pub struct TrialStation {
    pub alloc: Global,
    pub stands: Option<Name>,
    pub way: Route,
    pub busy: u64,
    pub kept: Vec<TrialCall>,
}

/// Keeps a call. Where memory is refused it waits for ever.
fn keep<R: Wait>(rt: &R, kept: &mut Vec<TrialCall>, call: TrialCall)
    ensures { kept.new.items ≡ kept.old.items ++ call ∷ [] }
{
    match kept.push(call) {
        Ok(()) => {}
        Err(_) => wait_for_ever(rt),
    }
}

/// The call that this operation is. With a table that has rows it waits for ever.
fn own_call<R: Wait>(rt: &R, op: &GraphOp) -> OwnCall
    requires { IsSessionOp op.now }
    ensures { op_of result ≡ op.now }
{
    match op {
        GraphOp::Find { name } => OwnCall::Find(*name),
        GraphOp::Attach { name } => OwnCall::Attach(*name),
        GraphOp::Detach { e } => OwnCall::Detach(*e),
        GraphOp::ListExports { table } => {
            if !table.rows().is_empty() {
                wait_for_ever(rt);
            }
            OwnCall::List
        }
        _ => unreachable!(),
    }
}

/// What the graph answers a session with, where an export of this name stands.
fn standing_reply(name: Name, op: GraphOp) -> GraphReply
    ensures { result ≡ session_reply (Some name) op }
{
    match op {
        GraphOp::Detach { .. } => GraphReply::Detached,
        GraphOp::Find { .. } => GraphReply::Found(INFO),
        GraphOp::Attach { .. } => GraphReply::Attached(INFO),
        GraphOp::ListExports { mut table } => {
            table.clear();
            table.push(ExportRow {
                id: name,
                name,
                node: name,
                shutting: false,
            });
            GraphReply::Exports(table)
        }
        _ => GraphReply::NoExport,
    }
}

/// What the graph answers a session with.
fn session_reply(stands: Option<Name>, op: GraphOp) -> GraphReply
    ensures { result ≡ session_reply stands op }
{
    match stands {
        Some(name) => standing_reply(name, op),
        None => match op {
            GraphOp::Detach { .. } => GraphReply::Detached,
            GraphOp::ListExports { table } => GraphReply::Exports(table),
            _ => GraphReply::NoExport,
        },
    }
}

fn is_start(todo: &Todo) -> bool {
    matches!(todo, Todo::Tracker(TrackerOp::Start { .. }))
}

impl Station for TrialStation {
    type Hall = Shape;

    ghost book = { λ s. trial_book s.stands s.kept.items };

    ghost shape = { λ hall. hall };

    ghost is_of = { λ hall s. s.way.offset + s.way.size ≤ hall.size };

    ghost follows = { λ s t. Unit {0} };

    #[tactic(auto, using(crate::proofs::Trialled::kept_more, qs_task_trials::proofs::Keeping::answer_may))]
    fn call<R: Wait>(&mut self, rt: &R, hall: &Shape, request: u64, todo: Todo) -> PartReply {
        let _hall = *hall;
        let busy = self.busy > 0;
        if busy && is_start(&todo) {
            self.busy -= 1;
        }
        let same = todo_copy(rt, self.alloc, &todo);
        let kept = todo_copy(rt, self.alloc, &todo);
        let reply = answer(busy, self.way, same);
        keep(
            rt,
            &mut self.kept,
            TrialCall::ForRequest(request, kept, reply),
        );
        answer(busy, self.way, todo)
    }

    ghost follows_self = { λ s. tt };

    ghost follows_on = { λ s t u a b. tt };
}

impl SessionStation for TrialStation {
    #[tactic(auto, using(crate::proofs::Trialled::session_more, crate::proofs::Trialled::session_may))]
    fn session_call<R: Wait>(&mut self, rt: &R, _hall: &Shape, op: GraphOp) -> GraphReply {
        let own = own_call(rt, &op);
        keep(rt, &mut self.kept, TrialCall::ForSession(own));
        session_reply(self.stands, op)
    }
}
