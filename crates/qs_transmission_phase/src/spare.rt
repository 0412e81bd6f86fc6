ghost use Rattle.std.specs.Prelude.{◌≡◌, ◌⊎◌, length, IfSome};
ghost use Rattle.std.specs.Option.{ForSome};
ghost use Rattle.qs_request_state.specs.Shapes.{IsRoom};

use qs_bytes::{Bytes, Memory, Verdict};
use qs_request::Req;
use qs_request_state::Blocks;
use qs_task::MOST;
use std::alloc::Global;

/// Memory of answered requests, for those that come: as many buffers and blocks as there may be requests.
#[derive(Debug, Drop)]
pub struct SpareMemory {
    alloc: Global,
    buffers: Vec<Vec<u8>>,
    blocks: Vec<Blocks>,
}

impl SpareMemory {
    /// Nothing is kept yet.
    pub fn new(alloc: Global) -> Result<Self, Memory> {
        Ok(SpareMemory {
            alloc,
            buffers: Vec::with_capacity(alloc, MOST)?,
            blocks: Vec::with_capacity(alloc, MOST)?,
        })
    }

    /// The allocator.
    pub fn alloc(&self) -> Global {
        self.alloc
    }

    /// A buffer of so many bytes, whatever they are. `None` where memory is refused.
    pub fn take_buffer(&mut self, size: usize) -> Option<Bytes>
        ensures { IfSome result (λ buffer. length buffer ≡ size) }
    {
        let mut buffer = match self.buffers.pop() {
            Some(buffer) => buffer,
            None => Vec::new(self.alloc),
        };
        match buffer.resize(size, 0) {
            Ok(()) => Some(Bytes::of(buffer)),
            Err(_) => None,
        }
    }

    /// The blocks of a request to an image with blocks of `align` bytes. `None` where memory is refused.
    pub fn take_blocks(&mut self, align: u32) -> Option<Blocks>
        requires { (align ≡ 512) ⊎ (align ≡ 4096) }
        ensures { ForSome result (IsRoom align) }
    {
        match self.blocks.pop() {
            Some(blocks) if blocks.are_of(align) => Some(blocks),
            _ => Blocks::new(self.alloc, align).ok(),
        }
    }

    /// Keeps a buffer, where one is wanted.
    pub fn keep_buffer(&mut self, buffer: Bytes) {
        if !buffer.is_empty() && self.buffers.len() < self.buffers.capacity() {
            self.buffers.push_reserved(buffer.into_vec());
        }
    }

    /// Keeps the buffer of a READ's bytes.
    pub fn keep_verdict(&mut self, verdict: Verdict) {
        match verdict {
            Verdict::Got(bytes) => self.keep_buffer(bytes),
            _ => {}
        }
    }

    /// Keeps the memory of an answered request.
    pub fn keep_request(&mut self, mut request: Req) {
        match request.take_blocks() {
            Some(blocks) if self.blocks.len() < self.blocks.capacity() => {
                self.blocks.push_reserved(blocks);
            }
            _ => {}
        }
        self.keep_buffer(request.take_body());
    }
}
