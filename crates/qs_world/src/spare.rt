ghost use Rattle.std.specs.Prelude.{◌≡◌, IfOk};
ghost use Rattle.std.specs.Option.{ForSome};
ghost use Rattle.qs_request_state.specs.Shapes.{IsRoom};

use qs_bytes::{Bytes, Memory};
use qs_request::Req;
use qs_request_state::Blocks;
use std::alloc::Global;
use std::mem;

/// The memory of requests that were answered, for the ones that come: blocks to work in, and the last request with
/// the body that it brought.
#[derive(Debug, Drop)]
pub struct Spare {
    request: Option<Box<Req>>,
    blocks: Option<Blocks>,
}

impl Spare {
    /// Nothing is spare.
    pub fn new() -> Self {
        Spare {
            request: None,
            blocks: None,
        }
    }

    /// Keeps the memory of a request that was answered. Where it had no blocks, those of an earlier one stay.
    pub fn keep(&mut self, request: Box<Req>) {
        let mut done = request;
        let blocks = done.take_blocks();
        if blocks.is_some() {
            self.blocks = blocks;
        }
        self.request = Some(done);
    }

    /// Blocks of `align` bytes, if there are spare ones.
    pub fn take_blocks(&mut self, align: u32) -> Option<Blocks>
        ensures { ForSome result (IsRoom align) }
    {
        match mem::replace(&mut self.blocks, None) {
            Some(blocks) if blocks.are_of(align) => Some(blocks),
            _ => None,
        }
    }

    /// Puts a request behind a box, a spare one if there is.
    pub fn boxed(&mut self, alloc: Global, request: Req) -> Result<Box<Req>, Memory>
        ensures { IfOk result (λ b. b.value ≡ request) }
    {
        match mem::replace(&mut self.request, None) {
            Some(mut done) => {
                *done = request;
                Ok(done)
            }
            None => match Box::new(alloc, request) {
                Ok(made) => Ok(made),
                Err(_) => Err(Memory),
            },
        }
    }

    /// The body that the last answered request brought, if it has it still.
    pub fn take_body(&mut self) -> Option<Bytes> {
        match &mut self.request {
            Some(done) => Some(done.take_body()),
            None => None,
        }
    }
}
