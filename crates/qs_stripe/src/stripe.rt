ghost use Rattle.std.specs.Prelude.{◌≡◌, length, MatchResult};
ghost use Rattle.qs_outside.specs.Blocks.{IsBlock};
ghost use Rattle.qs_outside.specs.Crashes.{Crashes};
ghost use Rattle.qs_outside.specs.Rigged.{planned_too, plans_of};
ghost use Rattle.qs_stripe.specs.Runs.{FitsCall, call_answers};
ghost use Rattle.qs_stripe.specs.Table.{Fits, IsContent, IsSettled, IsStored, IsUnsettled, IsWhole, MayBeStored, Opened, Reads, Refuses, Syncs, Writes, answers, geometry, value_of};

use crate::geometry::Geometry;
use crate::holds::Holds;
use qs_bytes::Bytes;
use qs_outside::{CrashChoice, Disk, Fail, Failed, RiggedDisk};
use qs_part::part::Part;
use qs_part::runs::{StripeAnswer, StripeCall};
use qs_part::stripe::{Side, StripeOp, StripeReply};
use std::alloc::Global;
use std::marker::Model;

/// Reads a block. The buffer comes back either way.
fn read<D: Disk>(disk: &mut D, b: u64, buf: Bytes) -> Result<Bytes, Bytes>
    requires block { IsBlock (D.seen disk.old) b }
    requires whole { length buf ≡ (D.seen disk.old).align }
    ensures reads { Reads (D.seen disk.old) (D.seen disk.new) }
    ensures content { MatchResult result (λ got. IsContent (D.seen disk.old) (D.seen disk.new) b got)
        (λ back. Refuses (D.seen disk.old) (D.seen disk.new) back) }
{
    let mut bytes = buf.into_vec();
    match disk.load(b, bytes.as_mut_slice()) {
        Ok(()) => Ok(Bytes::of(bytes)),
        Err(Failed) => Err(Bytes::of(bytes)),
    }
}

/// Writes a block. The buffer comes back either way.
fn write<D: Disk>(disk: &mut D, b: u64, buf: Bytes) -> Result<Bytes, Bytes>
    requires block { IsBlock (D.seen disk.old) b }
    requires whole { length buf ≡ (D.seen disk.old).align }
    ensures writes { Writes b buf (D.seen disk.old) (D.seen disk.new) }
    ensures stored { MatchResult result
        (λ back. IsStored b buf (D.seen disk.old) (D.seen disk.new) × (back ≡ buf))
        (λ back. MayBeStored b buf (D.seen disk.old) (D.seen disk.new) × (back ≡ buf)) }
{
    match disk.store(b, buf.as_slice()) {
        Ok(()) => Ok(buf),
        Err(Failed) => Err(buf),
    }
}

/// Syncs the disk.
fn settle<D: Disk>(disk: &mut D) -> Result<(), Failed>
    ensures syncs { Syncs (D.seen disk.old) (D.seen disk.new) }
    ensures settled { MatchResult result (λ done. IsSettled (D.seen disk.old) (D.seen disk.new))
        (λ failed. IsUnsettled (D.seen disk.old) (D.seen disk.new)) }
{
    disk.sync()
}

/// A stripe of the image: every eighth run of sixteen blocks, on a disk of its own.
///
/// A request that writes a part of a block holds the block, so that nobody else writes it between
/// its read and its write. A request is known by its place, and has two places for holds, one for
/// the head of its span and one for the tail.
#[derive(Debug, Drop)]
pub struct Stripe<D> {
    disk: D,
    holds: Holds,
    /// No store reached the disk since the last sync.
    clean: bool,
}

impl<D> Model for Stripe<D> {
    ghost use Rattle.qs_stripe.specs.Table.{StripeState};

    ghost Value = { StripeState D };

    ghost view = { λ s. record { disk = s.disk; places = s.holds; clean = s.clean } };
}

impl<D: Disk + Drop> Stripe<D> {
    /// The stripe of this disk, clean and with no block held. It takes all the memory that it ever needs; for
    /// want of it the disk comes back.
    pub fn new(alloc: Global, disk: D) -> Result<Stripe<D>, D>
        ensures { MatchResult result (λ s. (s.disk ≡ disk) × Opened (value_of D.seen s)) (λ back. back ≡ disk) }
    {
        match Holds::new(alloc) {
            Ok(holds) => Ok(Stripe {
                disk,
                holds,
                clean: true,
            }),
            Err(_) => Err(disk),
        }
    }

    /// The disk, with what it holds now.
    pub fn into_disk(self) -> D
        ensures { result ≡ self.disk }
    {
        self.disk
    }

    fn load(&mut self, b: u64, k: u8, buf: Bytes) -> StripeReply
        requires { IsWhole (geometry (value_of D.seen self.old)) b buf }
        ensures row { answers (value_of D.seen self.old) (StripeOp.Load b k buf) result (value_of D.seen self.new) }
        ensures same { geometry (value_of D.seen self.new) ≡ geometry (value_of D.seen self.old) }
    {
        match read(&mut self.disk, b, buf) {
            Ok(got) => StripeReply::Filled(got),
            Err(back) => StripeReply::Fault(Some(back)),
        }
    }

    fn hold(&mut self, b: u64, k: u8, end: Side, buf: Bytes) -> StripeReply
        requires { IsWhole (geometry (value_of D.seen self.old)) b buf }
        ensures row { answers (value_of D.seen self.old) (StripeOp.Hold b k end buf) result (value_of D.seen self.new) }
        ensures same { geometry (value_of D.seen self.new) ≡ geometry (value_of D.seen self.old) }
    {
        if let Some(j) = self.holds.holder(b) {
            return StripeReply::HeldBy(j, buf);
        }
        if let Some(c) = self.holds.at(k, end) {
            return StripeReply::Taken(c, buf);
        }
        match read(&mut self.disk, b, buf) {
            Ok(got) => {
                self.holds.take(k, end, b);
                StripeReply::Filled(got)
            }
            Err(back) => StripeReply::Fault(Some(back)),
        }
    }

    fn store(&mut self, b: u64, k: u8, buf: Bytes) -> StripeReply
        requires { IsWhole (geometry (value_of D.seen self.old)) b buf }
        ensures row { answers (value_of D.seen self.old) (StripeOp.Store b k buf) result (value_of D.seen self.new) }
        ensures same { geometry (value_of D.seen self.new) ≡ geometry (value_of D.seen self.old) }
    {
        if let Some(j) = self.holds.other_holder(b, k) {
            return StripeReply::HeldBy(j, buf);
        }
        self.holds.let_go(k, b);
        self.clean = false;
        match write(&mut self.disk, b, buf) {
            Ok(back) => StripeReply::Done(back),
            Err(back) => StripeReply::Fault(Some(back)),
        }
    }

    fn free(&mut self, b: u64, k: u8) -> StripeReply
        ensures row { answers (value_of D.seen self.old) (StripeOp.Free b k) result (value_of D.seen self.new) }
        ensures same { geometry (value_of D.seen self.new) ≡ geometry (value_of D.seen self.old) }
    {
        if self.holds.has(k, b) {
            self.holds.let_go(k, b);
            StripeReply::Freed
        } else {
            StripeReply::NotHeld
        }
    }

    fn sync(&mut self) -> StripeReply
        ensures row { answers (value_of D.seen self.old) StripeOp.Sync result (value_of D.seen self.new) }
        ensures same { geometry (value_of D.seen self.new) ≡ geometry (value_of D.seen self.old) }
    {
        if self.clean {
            return StripeReply::Clean;
        }
        match settle(&mut self.disk) {
            Ok(()) => {
                self.clean = true;
                StripeReply::Synced
            }
            Err(Failed) => StripeReply::Fault(None),
        }
    }

    /// Does a single operation and answers it.
    pub fn one(&mut self, op: StripeOp) -> StripeReply
        requires { Fits (geometry (value_of D.seen self.old)) op }
        ensures row { answers (value_of D.seen self.old) op result (value_of D.seen self.new) }
        ensures same { geometry (value_of D.seen self.new) ≡ geometry (value_of D.seen self.old) }
    {
        match op {
            StripeOp::Load { b, k, buf } => self.load(b, k, buf),
            StripeOp::Hold { b, k, end, buf } => self.hold(b, k, end, buf),
            StripeOp::Store { b, k, buf } => self.store(b, k, buf),
            StripeOp::Free { b, k } => self.free(b, k),
            StripeOp::Sync => self.sync(),
        }
    }
}

impl<D: RiggedDisk + Drop> Stripe<D> {
    /// Plans a failure of the disk, once. Nothing else changes.
    pub fn plan(&mut self, fail: Fail)
        ensures holds { self.new.places ≡ self.old.places }
        ensures clean { self.new.clean ≡ self.old.clean }
        ensures disk { D.Disk.seen self.new.disk ≡ record (D.Disk.seen self.old.disk) {
          planned = Some (planned_too fail (plans_of (D.Disk.seen self.old.disk).planned));
        } }
    {
        self.disk.plan(fail);
    }

    /// The disk crashes: each block holds what is chosen of what a crash may leave. No block is held any more, and
    /// the stripe is clean, since another crash leaves just what each block holds.
    pub fn crash(&mut self, choice: &CrashChoice)
        ensures disk { Crashes choice.now (D.Disk.seen self.old.disk) (D.Disk.seen self.new.disk) }
        ensures opened { Opened (value_of D.Disk.seen self.new) }
    {
        self.disk.crash(choice);
        self.holds.clear();
        self.clean = true;
    }
}

impl<D: Disk + Drop> Part for Stripe<D> {
    type Fixed = Geometry;

    type Op = StripeCall;

    type Reply = StripeAnswer;

    ghost fixed_of = { λ s. geometry (value_of D.seen s) };

    ghost can = { FitsCall };

    ghost legal = { λ old call answer new. call_answers (value_of D.seen old) call answer (value_of D.seen new) };

    fn fixed(&self) -> Geometry {
        Geometry {
            stripe: self.disk.stripe(),
            align: self.disk.align(),
            size: self.disk.length(),
        }
    }

    fn fits(fixed: &Geometry, call: &StripeCall) -> bool {
        fixed.fits_call(call)
    }

    fn step(&mut self, call: StripeCall) -> StripeAnswer {
        match call {
            StripeCall::One(op) => StripeAnswer::One(self.one(op)),
            StripeCall::Run(op) => StripeAnswer::Run(self.run(op)),
        }
    }
}

mod runs;
#[cfg(test)]
mod tests;
