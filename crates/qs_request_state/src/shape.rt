ghost use Rattle.std.specs.Prelude.{◌≡◌, ◌⊎◌, ◌↔◌, length, IfOk, IsTrue};
ghost use Rattle.qs_request_state.specs.Shapes.{IsRoom};

use qs_bytes::{Bytes, Memory};
use std::alloc::Global;

/// The image that requests go to: the bytes of a block, 512 or 4096, and those of the whole image.
#[derive(Clone, Copy, Debug, PartialEq, Eq)]
pub struct Shape {
    pub align: u32,
    pub size: u64,
}

/// The memory that a request of some length works in, three blocks. `work` is lent to each operation
/// on a block; a pad that was read so is kept by an exchange for `head` or `tail`.
#[derive(Debug, Drop)]
pub struct Blocks {
    pub work: Bytes,
    pub head: Bytes,
    pub tail: Bytes,
}

fn zeros(alloc: Global, count: usize) -> Result<Bytes, Memory>
    ensures { IfOk result (λ b. length b ≡ count) }
{
    let bytes = vec![in alloc; 0; count]?;
    Ok(Bytes::of(bytes))
}

impl Blocks {
    /// Whether each of the three has so many bytes.
    pub fn are_of(&self, align: u32) -> bool
        ensures { IsTrue result ↔ IsRoom align self.now }
    {
        let size = align as usize;
        self.work.len() == size && self.head.len() == size && self.tail.len() == size
    }

    /// The blocks for requests to an image with blocks of `align` bytes. Its only error is refused
    /// memory.
    pub fn new(alloc: Global, align: u32) -> Result<Blocks, Memory>
        requires { (align ≡ 512) ⊎ (align ≡ 4096) }
        ensures { IfOk result (IsRoom align) }
    {
        let size = align as usize;
        Ok(Blocks {
            work: zeros(alloc, size)?,
            head: zeros(alloc, size)?,
            tail: zeros(alloc, size)?,
        })
    }
}
