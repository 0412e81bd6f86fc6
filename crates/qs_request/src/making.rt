ghost use Rattle.std.specs.Prelude.{◌≡◌, [], length, IsSome};
ghost use Rattle.std.specs.Option.{ForSome};
ghost use Rattle.qs_model.specs.Requests.{new_request};
ghost use Rattle.qs_request_state.specs.Shapes.{IsShape, IsRoom};
ghost use Rattle.qs_request.specs.Value.{client_for, given_bytes, has_buffers};
ghost use Rattle.qs_request.specs.Inside.{IsFree, first_stage, request_of};
ghost use Rattle.qs_request_state.specs.Kept.{no_pads};

use crate::machine::Machine;
use qs_bytes::{Ask, Bytes, Errno};
use qs_request_state::{
    Blocks, Ending, PadBuffer, Shape, Stage, brings_bytes, is_form_error, is_read, stores_bytes,
};
use std::alloc::Global;

fn first_stage(ask: Ask, buffered: bool) -> Stage
    ensures { result ≡ first_stage ask buffered }
{
    if is_form_error(ask) {
        Stage::Ready(Ending::Failed(Errno::Inval))
    } else if buffered {
        Stage::Entering
    } else {
        Stage::Ready(Ending::Failed(Errno::NoMem))
    }
}

fn given(alloc: Global, body: Option<Bytes>) -> Bytes
    ensures { result ≡ given_bytes body }
{
    match body {
        Some(bytes) => bytes,
        None => none(alloc),
    }
}

/// A buffer of no bytes, which takes no memory.
fn none(alloc: Global) -> Bytes
    ensures { result ≡ [] }
{
    Bytes::of(Vec::new(alloc))
}

/// The block to work in, and the pads.
fn parted(alloc: Global, blocks: Option<Blocks>, align: u32) -> (Bytes, PadBuffer)
    requires { ForSome blocks (IsRoom align) }
    ensures work { IsSome blocks → length result.0 ≡ align }
    ensures align { IsSome blocks → result.1.align ≡ align }
    ensures pads { result.1 ≡ no_pads result.1.align }
{
    match blocks {
        Some(Blocks { work, head, tail }) => (work, PadBuffer::new(head, tail, align as usize)),
        None => (none(alloc), PadBuffer::empty(alloc)),
    }
}

/// Whether a request has all the buffers that it wants.
fn is_buffered(ask: &Ask, body: &Option<Bytes>, blocks: &Option<Blocks>) -> bool
    ensures { result ≡ has_buffers ask.now body.now blocks.now }
{
    let reads = is_read(ask.kind);
    let wants_blocks = ask.length != 0 && (reads || stores_bytes(ask.kind));
    let wants_body = reads || brings_bytes(ask.kind);
    !wants_blocks || (blocks.is_some() && (body.is_some() || !wants_body))
}

impl Machine {
    pub fn new(
        alloc: Global,
        session: u32,
        ask: Ask,
        export: u8,
        body: Option<Bytes>,
        blocks: Option<Blocks>,
        shape: Shape,
    ) -> Self
        requires shape { IsShape shape }
        requires body { ForSome body (λ bytes. length bytes ≡ ask.length) }
        requires blocks { ForSome blocks (IsRoom shape.align) }
        ensures request { request_of result ≡ new_request (client_for session ask export body blocks) }
        ensures shape { result.shape ≡ shape }
        ensures free { IsFree result }
    {
        let buffered = is_buffered(&ask, &body, &blocks);
        let (work, pads) = parted(alloc, blocks, shape.align);
        Machine {
            session,
            export,
            ask,
            buffered,
            route: None,
            shape,
            dropped: false,
            stage: first_stage(ask, buffered),
            body: given(alloc, body),
            work,
            pads,
            waits: false,
            answered: false,
            alloc,
        }
    }
}
