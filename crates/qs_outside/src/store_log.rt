ghost use Rattle.std.specs.Prelude.{◌≡◌, ◌==◌, ◌↔◌, ℕ, ◌<◌, ◌≤◌, ◌∷◌, ◌++◌, [], length, count_by, take, IfOk, IsTrue};
ghost use Rattle.qs_outside.specs.Blocks.{Fixed, Stored};
ghost use Rattle.qs_outside.specs.Crashes.{chosen, left_of};
ghost use Rattle.qs_outside.specs.Held.{block_of, quiet_seen};
ghost use Rattle.qs_outside.specs.Journal.{AreStoresOf, IsStoreOf, contents_of, store_at};

use crate::block_store::BlockStore;
use crate::crash::CrashChoice;
use qs_bytes::Memory;
use std::alloc::Global;
use std::marker::Model;

/// The stores that a disk keeps: the numbers of their blocks, and the blocks' bytes one after another.
#[derive(Debug, Drop)]
pub struct StoreLog {
    align: u32,
    room: u32,
    blocks: Vec<u64>,
    bytes: Vec<u8>,
}

impl Model for StoreLog {
    ghost use Rattle.std.specs.Prelude.{◌≡◌, ◌*◌, ◌≤◌, vec_len, vec_capacity};
    ghost use Rattle.qs_outside.specs.Journal.{KeptStores, kept_of};
    ghost use Rattle.qs_outside.specs.StoreLogs.{HasRoom};

    ghost Value = { KeptStores };

    ghost view = { λ s. record {
      align = s.align;
      room = s.room;
      stores = kept_of s.align s.blocks.items s.bytes.items;
    } };

    ghost invariant = { λ s. HasRoom s.align s.room (vec_len s.blocks) (vec_capacity s.blocks) (vec_len s.bytes)
        (vec_capacity s.bytes) };
}

/// How often a block is among these.
fn times(blocks: &[u64], b: u64) -> usize
    ensures { result ≡ count_by (λ c. c == b) blocks.now }
{
    blocks.iter().filter(|c| **c == b).count()
}

impl StoreLog {
    /// An empty list with memory for `room` stores, which is taken here; no later call takes memory.
    pub fn new(alloc: Global, align: u32, room: u32) -> Result<Self, Memory>
        ensures { IfOk result (λ s. s ≡ record { align = align; room = room; stores = [] }) }
    {
        let blocks = Vec::with_capacity(alloc, room as usize)?;
        let bytes = Vec::with_capacity(alloc, room as usize * align as usize)?;
        Ok(StoreLog {
            align,
            room,
            blocks,
            bytes,
        })
    }

    /// Whether there is no room for another store.
    pub fn is_full(&self) -> bool
        ensures { IsTrue result ↔ (self.now.room ≤ length self.now.stores) }
    {
        self.room as usize <= self.blocks.len()
    }

    /// Keeps a store.
    pub fn push(&mut self, b: u64, bytes: &[u8])
        requires room { length self.old.stores < self.old.room }
        requires whole { length bytes.now ≡ self.old.align }
        ensures { self.new ≡ record self.old {
          stores = self.old.stores ++ (record { block = b; bytes = bytes.now })
              ∷ [];
        } }
    {
        match self.blocks.push(b) {
            Ok(()) => {}
            Err(_) => unreachable!(),
        }
        match self.bytes.extend_from_slice(bytes) {
            Ok(()) => {}
            Err(_) => unreachable!(),
        }
    }

    /// The block of the `j`-th store.
    fn block_at(&self, j: usize) -> u64
        requires inside { j < length self.now.stores }
        ensures { result ≡ (store_at self.now.stores j).block }
    {
        self.blocks[j]
    }

    /// The bytes of the `j`-th store.
    fn bytes_at(&self, j: usize) -> &[u8]
        requires inside { j < length self.now.stores }
        ensures { result.now ≡ (store_at self.now.stores j).bytes }
    {
        let bytes = self.bytes.as_slice();
        let align = self.align as usize;
        let at = j * align;
        &bytes[at..at + align]
    }

    /// How many stores of a block stand before the `j`-th store.
    fn earlier(&self, j: usize, b: u64) -> usize
        requires inside { j < length self.now.stores }
        ensures { result ≡ length (contents_of b (take j self.now.stores)) }
    {
        times(&self.blocks[..j], b)
    }

    /// Writes a store's bytes over its block where these or a later content of the block are chosen.
    fn replay_at(&self, j: usize, choice: &CrashChoice, into: &mut BlockStore)
        requires inside { j < length self.now.stores }
        requires whole { IsStoreOf into.old (store_at self.now.stores j) }
        ensures taken { length (contents_of (store_at self.now.stores j).block (take j self.now.stores)) < chosen
            choice.now (store_at self.now.stores j).block →
            Stored (store_at self.now.stores j).block (store_at self.now.stores j).bytes (block_of into.old) (block_of into.new) }
        ensures passed { chosen choice.now (store_at self.now.stores j).block ≤ length
            (contents_of (store_at self.now.stores j).block (take j self.now.stores)) →
            into.new ≡ into.old }
        ensures fixed { Fixed (quiet_seen into.old) (quiet_seen into.new) }
        ensures room { length into.new.bytes ≡ length into.old.bytes }
    {
        let b = self.block_at(j);
        if (self.earlier(j, b) as u64) < choice.number(b) {
            into.store(b, self.bytes_at(j));
        }
    }

    /// Makes of the blocks at the last sync those that a crash leaves.
    pub fn replay(&self, choice: &CrashChoice, into: &mut BlockStore)
        requires whole { AreStoresOf into.old self.now.stores }
        ensures left { (b : ℕ) → block_of into.new b
            ≡ left_of (block_of into.old b ∷ contents_of b self.now.stores) (chosen choice.now b) }
        ensures fixed { Fixed (quiet_seen into.old) (quiet_seen into.new) }
        ensures room { length into.new.bytes ≡ length into.old.bytes }
    {
        for j in 0..self.blocks.len() {
            self.replay_at(j, choice, into);
        }
    }

    /// Forgets every store.
    pub fn clear(&mut self)
        ensures { self.new ≡ record self.old { stores = [] } }
    {
        self.blocks.clear();
        self.bytes.clear();
    }
}
