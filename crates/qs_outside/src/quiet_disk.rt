ghost use Rattle.std.specs.Prelude.{◌≡◌, ◌<◌, ◌∷◌, [], length, IfOk, IsOk, IsTrue, OnOk, OnErr, Contains};
ghost use Rattle.qs_outside.specs.Faults.{HasCause};
ghost use Rattle.qs_outside.specs.Blocks.{Fixed, IsBlock, MayLeave, Same, Stored, StoredOrNot, load_spent, store_spent, sync_spent};
ghost use Rattle.qs_outside.specs.Held.{IsZeros, quiet_seen};

use crate::block_store::BlockStore;
use crate::disk::Disk;
use crate::stream::Failed;
use qs_bytes::Memory;
use std::alloc::Global;
use std::marker::Model;

/// A disk in memory that writes through and never fails: a crash leaves what each block holds.
#[derive(Debug, Drop)]
pub struct QuietDisk {
    blocks: BlockStore,
}

impl Model for QuietDisk {
    ghost use Rattle.qs_outside.specs.Held.{Held};

    ghost Value = { Held };

    ghost view = { λ d. d.blocks };
}

impl QuietDisk {
    /// The disk of one stripe of an image of `length` bytes, all zeros. `align` is the bytes of a block.
    pub fn new(alloc: Global, stripe: u8, align: u32, length: u64) -> Result<Self, Memory>
        requires { 0 < align }
        ensures { IfOk result (λ d. IsZeros stripe align length (quiet_seen d)) }
    {
        match BlockStore::new(alloc, stripe, align, length) {
            Ok(blocks) => Ok(QuietDisk { blocks }),
            Err(refused) => Err(refused),
        }
    }
}

impl Disk for QuietDisk {
    ghost seen = { quiet_seen };

    fn stripe(&self) -> u8 {
        self.blocks.stripe()
    }

    fn align(&self) -> u32 {
        self.blocks.align()
    }

    fn length(&self) -> u64 {
        self.blocks.length()
    }

    fn load(&mut self, b: u64, into: &mut [u8]) -> Result<(), Failed>
        requires block { IsBlock (quiet_seen self.old) b }
        requires whole { length into.old ≡ self.old.align }
        ensures bytes { into.new ≡ (quiet_seen self.old).now b }
        ensures done { IsOk result }
        ensures same { self.new ≡ self.old }
    {
        self.blocks.load(b, into);
        Ok(())
    }

    fn store(&mut self, b: u64, bytes: &[u8]) -> Result<(), Failed>
        requires block { IsBlock (quiet_seen self.old) b }
        requires whole { length bytes.now ≡ self.old.align }
        ensures stored { Stored b bytes.now (quiet_seen self.old).now (quiet_seen self.new).now }
        ensures done { IsOk result }
        ensures fixed { Fixed (quiet_seen self.old) (quiet_seen self.new) }
    {
        self.blocks.store(b, bytes);
        Ok(())
    }

    fn sync(&mut self) -> Result<(), Failed>
        ensures done { IsOk result }
        ensures same { self.new ≡ self.old }
    {
        Ok(())
    }
}
