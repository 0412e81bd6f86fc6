//! Copies of operations, for a station that keeps them. Where memory is refused they wait for ever.
ghost use Rattle.std.specs.Prelude.{◌≡◌};
ghost use Rattle.qs_task.specs.Books.{IsOperation};

use qs_bytes::Bytes;
use qs_part::stripe::StripeOp;
use qs_request::Todo;
use std::alloc::Global;
use std::sync::Wait;

/// Never returns.
pub fn wait_for_ever<R: Wait>(rt: &R)
    ensures { ⊥ }
{
    for _ in rt.forever() {}
    unreachable!()
}

fn bytes<R: Wait>(rt: &R, alloc: Global, of: &Bytes) -> Bytes
    ensures { result ≡ of.now }
{
    match of.as_slice().to_vec(alloc) {
        Ok(copy) => Bytes::of(copy),
        Err(_) => {
            wait_for_ever(rt);
            unreachable!()
        }
    }
}

fn stripe_op<R: Wait>(rt: &R, alloc: Global, op: &StripeOp) -> StripeOp
    ensures { result ≡ op.now }
{
    match op {
        StripeOp::Load { b, k, buf } => StripeOp::Load {
            b: *b,
            k: *k,
            buf: bytes(rt, alloc, buf),
        },
        StripeOp::Hold { b, k, end, buf } => StripeOp::Hold {
            b: *b,
            k: *k,
            end: *end,
            buf: bytes(rt, alloc, buf),
        },
        StripeOp::Store { b, k, buf } => StripeOp::Store {
            b: *b,
            k: *k,
            buf: bytes(rt, alloc, buf),
        },
        StripeOp::Free { b, k } => StripeOp::Free { b: *b, k: *k },
        StripeOp::Sync => StripeOp::Sync,
    }
}

/// The same operation.
pub fn todo_copy<R: Wait>(rt: &R, alloc: Global, todo: &Todo) -> Todo
    requires { IsOperation todo.now }
    ensures { result ≡ todo.now }
{
    match todo {
        Todo::Tracker(op) => Todo::Tracker(*op),
        Todo::Route { e } => Todo::Route { e: *e },
        Todo::Stripe(s, op) => Todo::Stripe(*s, stripe_op(rt, alloc, op)),
        Todo::Answer(_) => unreachable!(),
    }
}
