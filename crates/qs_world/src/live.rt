ghost use Rattle.std.specs.Prelude.{◌≡◌, ◌<◌, ◌==◌, length, map, position, MatchOption};
ghost use Rattle.std.specs.List.{list_any, AllByRecursion};
ghost use Rattle.qs_world.specs.declared.live.Live.{Live as ALive};
ghost use Rattle.qs_model.specs.Requests.{Ready};
ghost use Rattle.qs_request.specs.Value.{IsReady};
ghost use Rattle.qs_request.specs.Table.{FitsPart, Wants};
ghost use Rattle.qs_world.specs.Follows.{Awaits, Follows, Offers, IsElement, IsFree, abandoned_of, is_live_of, moved_to, next_of};

use crate::spare::Spare;
use qs_bytes::Verdict;
use qs_part::event::{Note, Outcome};
use qs_request::{PartReply, Req, Todo};

/// A request that hasn't been answered, and its number. It stays where it is as others come and go.
#[derive(Debug, Drop)]
pub struct Live {
    pub number: u64,
    pub request: Box<Req>,
}

impl Live {
    /// What the request does next.
    pub fn next(&mut self, now: u64) -> Todo
        requires { IsFree self.old }
        ensures wants { Wants self.old.request.value.shape.align self.old.request.value.request result }
        ensures fits { FitsPart self.old.request.value.shape result }
        ensures gives { Offers self.old result self.new }
    {
        self.request.next(now)
    }
}

/// A session at the export at place `e`; `left` where it has left and hasn't been detached.
#[derive(Clone, Copy, Debug, PartialEq, Eq)]
pub struct Member {
    pub session: u32,
    pub e: u8,
    pub left: bool,
}

/// The index of the request with this number.
pub fn find_request(requests: &[Live], number: u64) -> Option<usize>
    ensures { result ≡ position (λ l. l.number == number) requests.now }
{
    requests.iter().position(|live| live.number == number)
}

/// The index of the session with this number.
pub fn find_member(sessions: &[Member], session: u32) -> Option<usize>
    ensures { result ≡ position (λ m. m.session == session) sessions.now }
{
    sessions.iter().position(|member| member.session == session)
}

/// Whether a request of this session hasn't been answered.
pub fn has_request(requests: &[Live], session: u32) -> bool
    ensures { result ≡ list_any (is_live_of session) requests.now }
{
    requests
        .iter()
        .any(|live| live.request.session() == session)
}

/// Abandons the request, if it is of this session.
fn abandon_if(live: &mut Live, session: u32)
    requires { IsFree live.old }
    ensures { live.new ≡ abandoned_of session live.old }
{
    if live.request.session() == session {
        live.request.abandon();
    }
}

/// Abandons each request of a session.
pub fn abandon_all(requests: &mut [Live], session: u32)
    requires { AllByRecursion IsFree requests.old }
    ensures { requests.new ≡ map (abandoned_of session) requests.old }
{
    for live in requests {
        abandon_if(live, session);
    }
}

/// Hands a part's reply to the request; its verdict, where that answers it.
fn answer(live: &mut Live, reply: PartReply) -> Option<Verdict>
    requires { Awaits live.old reply }
    ensures { MatchOption result
        ((IsReady (next_of live.old reply).stage → ⊥) × (live.new ≡ moved_to live.old (next_of live.old reply)))
        (λ v. (next_of live.old reply).stage ≡ Ready v) }
{
    live.request.after(reply);
    if !live.request.is_ready() {
        return None;
    }
    match live.request.next(0) {
        Todo::Answer(verdict) => Some(verdict),
        _ => unreachable!(),
    }
}

/// Hands a part's reply to the request at an index. Where that answers it, it is taken out, and its memory kept.
pub fn follow(
    requests: &mut Vec<Live>,
    spare: &mut Spare,
    at: usize,
    reply: PartReply,
    note: Note,
) -> Outcome
    requires inside { at < length requests.old.items }
    requires awaits { (l : ALive) → IsElement requests.old.items at l → Awaits l reply }
    ensures { (l : ALive) → IsElement requests.old.items at l →
        Follows l reply note at requests.old.items result requests.new.items }
{
    match answer(&mut requests[at], reply) {
        None => Outcome::Moved(note),
        Some(verdict) => {
            let live = requests.remove(at);
            spare.keep(live.request);
            Outcome::Answered(verdict, Some(note))
        }
    }
}
