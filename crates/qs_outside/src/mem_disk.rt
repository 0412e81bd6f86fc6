ghost use Rattle.std.specs.Prelude.{◌≡◌, ◌≢◌, ◌↔◌, ◌⊎◌, ◌<◌, ◌≤◌, ◌∷◌, ◌++◌, [], false, length, IfOk, IsErr, IsSome, IsTrue, OnOk, OnErr, Some, None, Contains};
ghost use Rattle.qs_outside.specs.Blocks.{Fixed, IsBlock, MayLeave, Stored, StoredOrNot};
ghost use Rattle.qs_outside.specs.Crashes.{Crashes};
ghost use Rattle.qs_outside.specs.Faults.{HasCause};
ghost use Rattle.qs_outside.specs.Held.{IsZeros, block_of};
ghost use Rattle.qs_outside.specs.Journal.{journal_seen};
ghost use Rattle.qs_outside.specs.Rigged.{AsPlanned, counted_if, no_plans, planned_too};
ghost use Rattle.qs_outside.specs.Streams.{next_count};

use crate::block_store::BlockStore;
use crate::crash::CrashChoice;
use crate::disk::Disk;
use crate::rigged_disk::{Fail, Plans, RiggedDisk};
use crate::store_log::StoreLog;
use crate::stream::Failed;
use qs_bytes::Memory;
use std::alloc::Global;
use std::marker::Model;

/// A disk in memory that keeps each store since the last sync, so that a crash can be played. It has
/// room for so many stores; where it is full, a store fails. Failures can be planned.
#[derive(Debug, Drop)]
pub struct MemDisk {
    now: BlockStore,
    synced: BlockStore,
    log: StoreLog,
    faults: u64,
    planned: Plans,
}

impl Model for MemDisk {
    ghost use Rattle.std.specs.Prelude.{◌≡◌, ◌≤◌, ◌<◌, ◌^◌, length};
    ghost use Rattle.qs_outside.specs.Journal.{Journal, IsOneDisk};

    ghost Value = { Journal };

    ghost view = { λ d. record {
      now = d.now;
      synced = d.synced;
      stores = d.log.stores;
      room = d.log.room;
      faults = d.faults;
      planned = d.planned;
    } };

    ghost invariant = { λ d. IsOneDisk d.now d.synced d.log.align d.log.stores };
}

impl MemDisk {
    /// The disk of one stripe of an image of `length` bytes, all zeros, that keeps up to `room` stores.
    /// `align` is the bytes of a block. All memory is taken here; no later call takes any.
    pub fn new(
        alloc: Global,
        stripe: u8,
        align: u32,
        length: u64,
        room: u32,
    ) -> Result<Self, Memory>
        requires { 0 < align }
        ensures zeros { IfOk result (λ d. IsZeros stripe align length (journal_seen d)) }
        ensures empty { IfOk result (λ d. d.stores ≡ []) }
        ensures room { IfOk result (λ d. d.room ≡ room) }
        ensures planned { IfOk result (λ d. d.planned ≡ no_plans) }
    {
        let now = BlockStore::new(alloc, stripe, align, length)?;
        let synced = BlockStore::new(alloc, stripe, align, length)?;
        let log = StoreLog::new(alloc, align, room)?;
        Ok(MemDisk {
            now,
            synced,
            log,
            faults: 0,
            planned: Plans::NONE,
        })
    }

    fn is_full(&self) -> bool
        ensures { IsTrue result ↔ (self.entry.now.room ≤ length self.entry.now.stores) }
    {
        self.log.is_full()
    }

    fn count_fault(&mut self)
        ensures counted { self.new ≡ record self.old { faults = next_count self.old.faults } }
        ensures later { self.old.faults ≤ self.new.faults }
    {
        self.faults = self.faults.saturating_add(1);
    }

    fn spend_load(&mut self) -> bool
        ensures was { result ≡ self.old.planned.load }
        ensures spent { self.new ≡ record self.old { planned = record self.old.planned { load = false } } }
    {
        std::mem::replace(&mut self.planned.load, false)
    }

    fn spend_store(&mut self) -> Option<bool>
        ensures was { result ≡ self.old.planned.store }
        ensures spent { self.new ≡ record self.old { planned = record self.old.planned { store = None } } }
    {
        self.planned.store.take()
    }

    fn spend_sync(&mut self) -> bool
        ensures was { result ≡ self.old.planned.sync }
        ensures spent { self.new ≡ record self.old { planned = record self.old.planned { sync = false } } }
    {
        std::mem::replace(&mut self.planned.sync, false)
    }

    fn keep(&mut self, b: u64, bytes: &[u8])
        requires room { length self.old.stores < self.old.room }
        requires block { IsBlock (journal_seen self.old) b }
        requires whole { length bytes.now ≡ self.old.now.align }
        ensures { self.new ≡ record self.old {
          stores = self.old.stores ++ (record { block = b; bytes = bytes.now })
              ∷ [];
        } }
    {
        self.log.push(b, bytes);
    }

    fn write(&mut self, b: u64, bytes: &[u8])
        requires block { IsBlock (journal_seen self.old) b }
        requires whole { length bytes.now ≡ self.old.now.align }
        ensures stored { Stored b bytes.now (block_of self.old.now) (block_of self.new.now) }
        ensures fixed { Fixed (journal_seen self.old) (journal_seen self.new) }
        ensures rest { self.new ≡ record self.old { now = self.new.now } }
    {
        self.now.store(b, bytes);
    }

    fn settle(&mut self)
        ensures { self.new ≡ record self.old { synced = self.old.now; stores = [] } }
    {
        self.synced.copy_from(&self.now);
        self.log.clear();
    }
}

impl Disk for MemDisk {
    ghost seen = { journal_seen };

    fn stripe(&self) -> u8 {
        self.now.stripe()
    }

    fn align(&self) -> u32 {
        self.now.align()
    }

    fn length(&self) -> u64 {
        self.now.length()
    }

    fn load(&mut self, b: u64, into: &mut [u8]) -> Result<(), Failed>
        requires block { IsBlock (journal_seen self.old) b }
        requires whole { length into.old ≡ self.old.now.align }

        // It fails exactly where that is planned.
        ensures fails { IsErr result ↔ IsTrue self.old.planned.load }
        ensures bytes { OnOk result (into.new ≡ (journal_seen self.old).now b) }
        ensures counted { self.new.faults ≡ counted_if self.old.planned.load self.old.faults }
        ensures cause { HasCause self.old.faults self.new.faults result }
        ensures same { self.new ≡ record self.old {
          planned = record self.old.planned { load = false };
          faults = self.new.faults;
        } }
    {
        let planned = self.spend_load();
        if planned {
            self.count_fault();
            Err(Failed)
        } else {
            self.now.load(b, into);
            Ok(())
        }
    }

    fn store(&mut self, b: u64, bytes: &[u8]) -> Result<(), Failed>
        requires block { IsBlock (journal_seen self.old) b }
        requires whole { length bytes.now ≡ self.old.now.align }

        // It fails exactly where the disk is full or that is planned.
        ensures fails { IsErr result ↔ ((self.old.room ≤ length self.old.stores) ⊎ IsSome self.old.planned.store) }
        ensures faulted { OnErr result (self.new.faults ≡ next_count self.old.faults) }
        ensures unfaulted { OnOk result (self.new.faults ≡ self.old.faults) }
        ensures cause { HasCause self.old.faults self.new.faults result }
        ensures planned { self.new.planned ≡ record self.old.planned { store = None } }

        // Where it is full nothing else changes.
        ensures full { self.old.room ≤ length self.old.stores →
            (self.new.now ≡ self.old.now) × (self.new.stores ≡ self.old.stores) }

        // Else these bytes are kept behind the other stores, also where a failure is planned; and the
        // block has them, but where the planned failure leaves the old content.
        ensures kept { length self.old.stores < self.old.room →
            self.new.stores ≡ self.old.stores ++ (record { block = b; bytes = bytes.now }) ∷ [] }
        ensures reached { length self.old.stores < self.old.room → self.old.planned.store ≢ Some false →
            Stored b bytes.now (block_of self.old.now) (block_of self.new.now) }
        ensures lost { self.old.planned.store ≡ Some false → self.new.now ≡ self.old.now }
        ensures stored { OnOk result (Stored b bytes.now (block_of self.old.now) (block_of self.new.now)) }
        ensures refused { OnErr result (StoredOrNot b bytes.now (block_of self.old.now) (block_of self.new.now)) }
        ensures synced { self.new.synced ≡ self.old.synced }
        ensures room { self.new.room ≡ self.old.room }
        ensures fixed { Fixed (journal_seen self.old) (journal_seen self.new) }

        ensures as_planned { AsPlanned b bytes.now (journal_seen self.old) (journal_seen self.new) }

        // So a crash leaves one of the contents from before, or these bytes.
        ensures past { MayLeave b bytes.now (journal_seen self.old).past (journal_seen self.new).past }
        ensures past_now { Contains ((journal_seen self.old).past b) ((journal_seen self.old).now b) →
            Contains ((journal_seen self.new).past b) ((journal_seen self.new).now b) }
    {
        let planned = self.spend_store();
        if self.is_full() {
            self.count_fault();
            return Err(Failed);
        }
        self.keep(b, bytes);
        match planned {
            None => {
                self.write(b, bytes);
                Ok(())
            }
            Some(true) => {
                self.write(b, bytes);
                self.count_fault();
                Err(Failed)
            }
            Some(false) => {
                self.count_fault();
                Err(Failed)
            }
        }
    }

    fn sync(&mut self) -> Result<(), Failed>
        // It fails exactly where that is planned.
        ensures fails { IsErr result ↔ IsTrue self.old.planned.sync }
        ensures counted { self.new.faults ≡ counted_if self.old.planned.sync self.old.faults }
        ensures cause { HasCause self.old.faults self.new.faults result }
        ensures unsettled { OnErr result (self.new
            ≡ record self.old { planned = record self.old.planned { sync = false }; faults = self.new.faults }) }
        ensures settled { OnOk result (self.new ≡ record self.old {
          synced = self.old.now;
          stores = [];
          planned = record self.old.planned { sync = false };
          faults = self.new.faults;
        }) }
    {
        let planned = self.spend_sync();
        if planned {
            self.count_fault();
            Err(Failed)
        } else {
            self.settle();
            Ok(())
        }
    }
}

impl RiggedDisk for MemDisk {
    fn plan(&mut self, fail: Fail)
        ensures { self.new ≡ record self.old { planned = planned_too fail self.old.planned } }
    {
        self.planned = self.planned.with(fail);
    }

    fn crash(&mut self, choice: &CrashChoice)
        ensures crashes { Crashes choice.now (journal_seen self.old) (journal_seen self.new) }

        // All the room for stores is free again.
        ensures emptied { self.new.stores ≡ [] }
        ensures settled { self.new.synced ≡ self.new.now }
        ensures room { self.new.room ≡ self.old.room }
    {
        self.log.replay(choice, &mut self.synced);
        self.now.copy_from(&self.synced);
        self.log.clear();
        self.planned = Plans::NONE;
    }
}
