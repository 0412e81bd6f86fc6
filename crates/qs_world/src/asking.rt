ghost use Rattle.std.specs.Prelude.{◌≡◌, ◌-◌, ◌^◌, ◌+◌, ◌<◌, ◌++◌, ◌∷◌, ◌⊎◌, [], length};
ghost use Rattle.std.specs.Option.{ForSome};
ghost use Rattle.std.specs.Vec.{vec_len, vec_capacity};
ghost use Rattle.qs_part.specs.declared.event.Event.TheVariants.{Ask as AskEvent};
ghost use Rattle.qs_part.specs.declared.event.Outcome.TheVariants.{Made};
ghost use Rattle.qs_request_state.specs.Shapes.{IsRoom};
ghost use Rattle.qs_world.specs.Bodies.{fitted};
ghost use Rattle.qs_world.specs.Cores.{Handles, value_of};
ghost use Rattle.qs_world.specs.Sound.{IsSound};

use crate::inner::Core;
use crate::live::{Live, find_member};
use crate::spare::Spare;
use qs_bytes::{Ask, Bytes, Kind};
use qs_outside::Disk;
use qs_part::event::Outcome;
use qs_request::Req;
use qs_request_state::Blocks;
use std::alloc::Global;

/// The body, if it is of the length that is asked for.
fn fitting(body: Option<Bytes>, length: u64) -> Option<Bytes>
    ensures { result ≡ fitted body length }
{
    match body {
        Some(bytes) => {
            if bytes.as_slice().len() as u64 == length {
                Some(bytes)
            } else {
                None
            }
        }
        None => None,
    }
}

/// The blocks that a request works in, spare ones if there are; none where it has no length or doesn't read or
/// store bytes, or memory is refused.
fn blocks_for(alloc: Global, spare: &mut Spare, ask: &Ask, align: u32) -> Option<Blocks>
    requires { (align ≡ 512) ⊎ (align ≡ 4096) }
    ensures { ForSome result (IsRoom align) }
{
    let works = matches!(ask.kind, Kind::Read | Kind::Write | Kind::Zero);
    if ask.length == 0 || !works {
        return None;
    }
    let kept = spare.take_blocks(align);
    if kept.is_some() {
        return kept;
    }
    match Blocks::new(alloc, align) {
        Ok(blocks) => Some(blocks),
        Err(_) => None,
    }
}

impl<D: Disk + Drop> Core<D> {
    /// Notes a request that was made, by the next number. There is room for it.
    fn make(&mut self, request: Box<Req>) -> Outcome
        requires room { vec_len self.old.requests < vec_capacity self.old.requests }
        requires number { self.old.next < 2 ^ 64 - 1 }
        ensures made { result ≡ Made self.old.next }
        ensures requests { self.new.requests.items ≡ self.old.requests.items
            ++ record { number = self.old.next; request = request } ∷ [] }
        ensures same { value_of self.new ≡ record
            (value_of self.old) { next = self.old.next + 1; requests = self.new.requests.items } }
    {
        let number = self.next;
        self.next = number + 1;
        match self.requests.push(Live { number, request }) {
            Ok(()) => Outcome::Made(number),
            Err(_) => unreachable!(),
        }
    }

    /// A session asks for something.
    pub fn ask(&mut self, session: u32, ask: Ask, body: Option<Bytes>) -> Outcome
        requires sound { IsSound D.seen (value_of self.old) }
        ensures { Handles D.seen (value_of self.old) (AskEvent session ask body) result (value_of self.new) }
    {
        let Some(at) = find_member(&self.sessions, session) else {
            return Outcome::NotNext;
        };
        let member = self.sessions[at];
        if member.left {
            return Outcome::NotNext;
        }
        if self.next == u64::MAX {
            return Outcome::NotNext;
        }
        match self.requests.reserve(1) {
            Ok(()) => {}
            Err(_) => return Outcome::Memory,
        }
        let blocks = blocks_for(self.alloc, &mut self.spare, &ask, self.shape.align);
        let body = fitting(body, ask.length);
        let request = Req::new(self.alloc, session, ask, member.e, body, blocks, self.shape);
        match self.spare.boxed(self.alloc, request) {
            Ok(request) => self.make(request),
            Err(_) => Outcome::Memory,
        }
    }
}
