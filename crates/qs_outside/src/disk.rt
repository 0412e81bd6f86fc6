ghost use Rattle.std.specs.Prelude.{◌≡◌, ℕ, ◌*◌, ◌∷◌, [], length, IsTrue, MatchResult, OnOk, OnErr, Contains};
ghost use Rattle.qs_outside.specs.Faults.{HasCause};
ghost use Rattle.qs_outside.specs.Rigged.{AsPlanned, MayLoad, MayStore, MaySync};
ghost use Rattle.qs_outside.specs.Blocks.{Seen, IsBlock, Fixed, Same, Stored, StoredOrNot, MayLeave, load_spent, store_spent, sync_spent};
ghost use Rattle.qs_outside.specs.Runs.{InOrder, IsRun, LoadsAt, LoadsEnd, StoresAt, StoresEnd};

use crate::failed_at::FailedAt;
use crate::stream::Failed;

/// One of the eight disks that hold an image: the blocks of one stripe.
///
/// `seen` is all that a disk means. Where it tells its content, `now` is what each block holds and
/// `past` what a crash may leave of it. A block is `align` bytes; block `b` is of stripe `(b / 16) % 8`.
pub trait Disk {
    ghost seen: { Self → Seen };

    /// The number of this disk's stripe.
    fn stripe(&self) -> u8
        ensures { result ≡ (seen self.now).stripe };

    /// The bytes of a block.
    fn align(&self) -> u32
        ensures { result ≡ (seen self.now).align };

    /// The bytes of the whole image.
    fn length(&self) -> u64
        ensures { result ≡ (seen self.now).size };

    /// Reads block `b`. Either way nothing but the count of faults and the plans changes. Where a failure
    /// is planned it fails.
    fn load(&mut self, b: u64, into: &mut [u8]) -> Result<(), Failed>
        requires block { IsBlock (seen self.old) b }
        requires whole { length into.old ≡ (seen self.old).align }
        ensures bytes { IsTrue (seen self.old).tells → OnOk result (into.new ≡ (seen self.old).now b) }
        ensures fixed { Fixed (seen self.old) (seen self.new) }
        ensures now { IsTrue (seen self.old).tells → Same (seen self.old).now (seen self.new).now }
        ensures past { IsTrue (seen self.old).tells → Same (seen self.old).past (seen self.new).past }
        ensures works { OnOk result (MayLoad (seen self.old)) }
        ensures planned { (seen self.new).planned ≡ load_spent (seen self.old).planned }
        ensures full { (seen self.new).full ≡ (seen self.old).full }
        ensures cause { HasCause (seen self.old).faults (seen self.new).faults result };

    /// Writes block `b`. A refused store left the old content or the new; other blocks stay. Where a
    /// failure is planned it fails: a disk that isn't full then does what the plan says, and a crash may
    /// leave the bytes all the same; a full one stores nothing.
    fn store(&mut self, b: u64, bytes: &[u8]) -> Result<(), Failed>
        requires block { IsBlock (seen self.old) b }
        requires whole { length bytes.now ≡ (seen self.old).align }
        ensures stored { IsTrue (seen self.old).tells →
            OnOk result (Stored b bytes.now (seen self.old).now (seen self.new).now) }
        ensures refused { IsTrue (seen self.old).tells →
            OnErr result (StoredOrNot b bytes.now (seen self.old).now (seen self.new).now) }
        ensures past { IsTrue (seen self.old).tells → MayLeave b bytes.now (seen self.old).past (seen self.new).past }
        ensures past_now { IsTrue (seen self.old).tells → Contains ((seen self.old).past b) ((seen self.old).now b) →
            Contains ((seen self.new).past b) ((seen self.new).now b) }
        ensures fixed { Fixed (seen self.old) (seen self.new) }
        ensures works { OnOk result (MayStore (seen self.old)) }
        ensures as_planned { AsPlanned b bytes.now (seen self.old) (seen self.new) }
        ensures planned { (seen self.new).planned ≡ store_spent (seen self.old).planned }
        ensures cause { HasCause (seen self.old).faults (seen self.new).faults result };

    /// Makes each block's content the one that a crash leaves. A failed sync changes nothing but the
    /// count of faults and the plans. Where a failure is planned it fails.
    fn sync(&mut self) -> Result<(), Failed>
        ensures settled { IsTrue (seen self.old).tells →
            OnOk result (Same (λ b. (seen self.old).now b ∷ []) (seen self.new).past) }
        ensures unsettled { IsTrue (seen self.old).tells →
            OnErr result (Same (seen self.old).past (seen self.new).past) }
        ensures now { IsTrue (seen self.old).tells → Same (seen self.old).now (seen self.new).now }
        ensures fixed { Fixed (seen self.old) (seen self.new) }
        ensures works { OnOk result (MaySync (seen self.old)) }
        ensures planned { (seen self.new).planned ≡ sync_spent (seen self.old).planned }
        ensures full { OnErr result ((seen self.new).full ≡ (seen self.old).full) }
        ensures cause { HasCause (seen self.old).faults (seen self.new).faults result };

    /// Reads `n` blocks from `b` on, as many single loads in order would. Where one fails, those behind it
    /// aren't read.
    fn load_run(&mut self, b: u64, n: u8, into: &mut [u8]) -> Result<(), FailedAt>
        requires run { IsRun (seen self.old) b n }
        requires whole { length into.old ≡ n * (seen self.old).align }
        ensures fixed { Fixed (seen self.old) (seen self.new) }
        ensures loads { MatchResult result
            (λ _. InOrder (LoadsAt (seen self.old).align b into.new) n (seen self.old) (seen self.new))
            (λ e. LoadsEnd (seen self.old).align b n into.new e.done (seen self.old) (seen self.new)) }
    {
        self.load_each(b, n, into)
    }

    /// Writes `n` blocks from `b` on, as many single stores in order would. Where one fails, those behind
    /// it aren't written.
    fn store_run(&mut self, b: u64, n: u8, bytes: &[u8]) -> Result<(), FailedAt>
        requires run { IsRun (seen self.old) b n }
        requires whole { length bytes.now ≡ n * (seen self.old).align }
        ensures fixed { Fixed (seen self.old) (seen self.new) }
        ensures stores { MatchResult result
            (λ _. InOrder (StoresAt (seen self.old).align b bytes.now) n (seen self.old) (seen self.new))
            (λ e. StoresEnd (seen self.old).align b n bytes.now e.done (seen self.old) (seen self.new)) }
    {
        self.store_each(b, n, bytes)
    }

    /// `load_run`, by a load of each block.
    fn load_each(&mut self, b: u64, n: u8, into: &mut [u8]) -> Result<(), FailedAt>
        requires run { IsRun (seen self.old) b n }
        requires whole { length into.old ≡ n * (seen self.old).align }
        ensures fixed { Fixed (seen self.old) (seen self.new) }
        ensures loads { MatchResult result
            (λ _. InOrder (LoadsAt (seen self.old).align b into.new) n (seen self.old) (seen self.new))
            (λ e. LoadsEnd (seen self.old).align b n into.new e.done (seen self.old) (seen self.new)) }
    {
        let align = self.align() as usize;
        for i in 0..n {
            let at = usize::from(i) * align;
            match self.load(b + u64::from(i), &mut into[at..at + align]) {
                Ok(()) => {}
                Err(Failed) => return Err(FailedAt { done: i }),
            }
        }
        Ok(())
    }

    /// `store_run`, by a store of each block.
    fn store_each(&mut self, b: u64, n: u8, bytes: &[u8]) -> Result<(), FailedAt>
        requires run { IsRun (seen self.old) b n }
        requires whole { length bytes.now ≡ n * (seen self.old).align }
        ensures fixed { Fixed (seen self.old) (seen self.new) }
        ensures stores { MatchResult result
            (λ _. InOrder (StoresAt (seen self.old).align b bytes.now) n (seen self.old) (seen self.new))
            (λ e. StoresEnd (seen self.old).align b n bytes.now e.done (seen self.old) (seen self.new)) }
    {
        let align = self.align() as usize;
        for i in 0..n {
            let at = usize::from(i) * align;
            match self.store(b + u64::from(i), &bytes[at..at + align]) {
                Ok(()) => {}
                Err(Failed) => return Err(FailedAt { done: i }),
            }
        }
        Ok(())
    }
}
