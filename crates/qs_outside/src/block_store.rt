ghost use Rattle.std.specs.Prelude.{◌≡◌, ◌+◌, ◌*◌, ◌/◌, ◌<◌, ◌≤◌, length, replicate, IfOk};
ghost use Rattle.std.specs.Int.{div_ceil};
ghost use Rattle.qs_outside.specs.Blocks.{Fixed, Stored};
ghost use Rattle.qs_bytes.specs.Geometry.{stripe_of};
ghost use Rattle.qs_outside.specs.Held.{IsZeros, block_of, quiet_seen, holder_rank, zeros_of};

use qs_bytes::Memory;
use std::alloc::Global;
use std::marker::Model;

/// The blocks of one stripe, in memory.
#[derive(Debug, Drop)]
pub struct BlockStore {
    stripe: u8,
    align: u32,
    length: u64,
    bytes: Vec<u8>,
}

impl Model for BlockStore {
    ghost use Rattle.std.specs.Prelude.{◌≡◌, ℕ, ◌+◌, ◌*◌, ◌≤◌, vec_len};
    ghost use Rattle.qs_bytes.specs.Geometry.{stripe_of};
    ghost use Rattle.qs_outside.specs.Held.{Held, holder_rank};

    ghost Value = { Held };

    ghost view = { λ s. record { stripe = s.stripe; align = s.align; size = s.length; bytes = s.bytes.items } };

    ghost invariant = { λ s. (b : ℕ) → stripe_of b ≡ s.stripe → (b + 1) * s.align ≤ s.length →
        (holder_rank b + 1) * s.align ≤ vec_len s.bytes };
}

/// How many bytes the blocks of a stripe take, in whole rounds of the eight stripes.
fn room_for(align: u32, length: u64) -> usize
    requires { 0 < align }
    ensures { result ≡ div_ceil (length / align) 128 * 16 * align }
{
    let align = u64::from(align);
    let rounds = (length / align).div_ceil(128);
    (rounds * 16 * align) as usize
}

impl BlockStore {
    /// The blocks of a stripe of an image of `length` bytes, all zeros.
    pub fn new(alloc: Global, stripe: u8, align: u32, length: u64) -> Result<Self, Memory>
        requires { 0 < align }
        ensures zeros { IfOk result (λ s. IsZeros stripe align length (quiet_seen s)) }
        ensures exact { IfOk result (λ s. s ≡ zeros_of stripe align length) }
    {
        match vec![in alloc; 0u8; room_for(align, length)] {
            Ok(bytes) => Ok(BlockStore {
                stripe,
                align,
                length,
                bytes,
            }),
            Err(_) => Err(Memory),
        }
    }

    pub fn stripe(&self) -> u8
        ensures { result ≡ self.now.stripe }
    {
        self.stripe
    }

    pub fn align(&self) -> u32
        ensures { result ≡ self.now.align }
    {
        self.align
    }

    pub fn length(&self) -> u64
        ensures { result ≡ self.now.size }
    {
        self.length
    }

    /// The place of a block's first byte.
    fn place(&self, b: u64) -> usize
        requires here { stripe_of b ≡ self.now.stripe }
        requires inside { (b + 1) * self.now.align ≤ self.now.size }
        ensures place { result ≡ holder_rank b * self.now.align }
        ensures inside { result + self.now.align ≤ length self.now.bytes }
    {
        (b / 128 * 16 + b % 16) as usize * self.align as usize
    }

    /// Copies a block out.
    pub fn load(&self, b: u64, into: &mut [u8])
        requires here { stripe_of b ≡ self.now.stripe }
        requires inside { (b + 1) * self.now.align ≤ self.now.size }
        requires whole { length into.old ≡ self.now.align }
        ensures { into.new ≡ block_of self.now b }
    {
        let at = self.place(b);
        into.copy_from_slice(&self.bytes[at..at + self.align as usize]);
    }

    /// Writes a block over.
    pub fn store(&mut self, b: u64, bytes: &[u8])
        requires here { stripe_of b ≡ self.old.stripe }
        requires inside { (b + 1) * self.old.align ≤ self.old.size }
        requires whole { length bytes.now ≡ self.old.align }
        ensures stored { Stored b bytes.now (block_of self.old) (block_of self.new) }
        ensures fixed { Fixed (quiet_seen self.old) (quiet_seen self.new) }
        ensures room { length self.new.bytes ≡ length self.old.bytes }
    {
        let at = self.place(b);
        let end = at + self.align as usize;
        self.bytes[at..end].copy_from_slice(bytes);
    }

    /// Copies every block of another store of the same stripe and image.
    pub fn copy_from(&mut self, other: &BlockStore)
        requires fixed { Fixed (quiet_seen self.old) (quiet_seen other.now) }
        requires room { length self.old.bytes ≡ length other.now.bytes }
        ensures { self.new ≡ other.now }
    {
        self.bytes
            .as_mut_slice()
            .copy_from_slice(other.bytes.as_slice());
    }
}
