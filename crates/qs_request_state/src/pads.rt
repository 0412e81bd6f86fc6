ghost use Rattle.std.specs.Prelude.{◌≡◌, length};
ghost use Rattle.qs_model.specs.Requests.{keep, pad};
ghost use Rattle.qs_request_state.specs.Kept.{no_pads};

use qs_bytes::Bytes;
use qs_part::stripe::Side;
use std::alloc::Global;
use std::marker::Model;
use std::mem;

/// The blocks that the holds of a span's head and tail gave.
#[derive(Debug, Drop)]
pub struct PadBuffer {
    head: Bytes,
    tail: Bytes,
    align: usize,
    has_head: bool,
    has_tail: bool,
}

impl Model for PadBuffer {
    ghost use Rattle.std.specs.Prelude.{◌≡◌, [], length, if◌then◌else◌};
    ghost use Rattle.qs_request_state.specs.Kept.{KeptPads};

    ghost Value = { KeptPads };

    ghost view = { λ p. record {
      align = p.align;
      pads = record {
        head = if p.has_head then p.head else [];
        tail = if p.has_tail then p.tail else [];
      };
    } };

    ghost invariant = { λ p. (length p.head ≡ p.align) × (length p.tail ≡ p.align) };
}

impl PadBuffer {
    /// No pad, and room for two of `align` bytes.
    pub fn new(head: Bytes, tail: Bytes, align: usize) -> Self
        requires head { length head ≡ align }
        requires tail { length tail ≡ align }
        ensures { result ≡ no_pads align }
    {
        PadBuffer {
            head,
            tail,
            align,
            has_head: false,
            has_tail: false,
        }
    }

    /// No pad, and room for none. It takes no memory.
    pub fn empty(alloc: Global) -> Self
        ensures { result ≡ no_pads 0 }
    {
        let head = Bytes::of(Vec::new(alloc));
        let tail = Bytes::of(Vec::new(alloc));
        PadBuffer::new(head, tail, 0)
    }

    /// Keeps a block as the pad of this end, and gives another buffer of its length for it.
    pub fn keep(&mut self, side: Side, block: &mut Bytes)
        requires { length block.old ≡ self.old.align }
        ensures kept { self.new ≡ record self.old { pads = keep self.old.pads side block.old } }
        ensures other { length block.new ≡ length block.old }
    {
        match side {
            Side::Head => {
                mem::swap(&mut self.head, block);
                self.has_head = true;
            }
            Side::Tail => {
                mem::swap(&mut self.tail, block);
                self.has_tail = true;
            }
        }
    }

    /// The pad of this end, and no bytes where none is kept.
    pub fn kept(&self, side: Side) -> &[u8]
        ensures { result.now ≡ pad self.now.pads side }
    {
        match side {
            Side::Head if self.has_head => self.head.as_slice(),
            Side::Tail if self.has_tail => self.tail.as_slice(),
            _ => &[],
        }
    }

    /// The two buffers, whatever stands in them.
    pub fn into_buffers(self) -> (Bytes, Bytes)
        ensures head { length result.0 ≡ self.align }
        ensures tail { length result.1 ≡ self.align }
    {
        (self.head, self.tail)
    }
}
