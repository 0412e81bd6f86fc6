//! A session's pass as the place from where its requests call the parts.

use crate::parts::{SessionPass, Shared};
use qs_outside::Disk;
use qs_request::{PartReply, Todo};
use qs_task::Station;
use std::sync::Wait;

impl<D: Disk + Drop> Station for SessionPass<D> {
    type Hall = Shared<D>;

    ghost use Rattle.qs_shared.specs.Hall.{IsSessionPass};
    ghost use Rattle.qs_shared.specs.Passes.{FollowsAll, own_book};
    ghost use Rattle.qs_shared.specs.Following.{follows_itself, follows_both};

    ghost book = { own_book };

    ghost shape = { λ hall. hall.shape };

    ghost is_of = { IsSessionPass D.seen };

    ghost follows = { FollowsAll };

    fn call<R: Wait>(&mut self, rt: &R, hall: &Shared<D>, request: u64, todo: Todo) -> PartReply {
        hall.call(rt, self, request, todo)
    }

    ghost follows_self = { follows_itself };

    ghost follows_on = { follows_both };
}
