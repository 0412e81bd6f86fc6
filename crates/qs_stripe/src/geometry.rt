ghost use Rattle.std.specs.Prelude.{◌≡◌, ◌↔◌, length, IsTrue};
ghost use Rattle.qs_stripe.specs.Runs.{FitsCall, FitsRun, IsWholeRun};
ghost use Rattle.qs_stripe.specs.Table.{Fits, IsBlockOf, IsWhole};

use qs_bytes::{Bytes, stripe_of};
use qs_part::runs::{RunOp, StripeCall};
use qs_part::stripe::StripeOp;

/// What never changes about a stripe.
#[derive(Clone, Copy, Debug, PartialEq, Eq)]
pub struct Geometry {
    /// The stripe's number.
    pub stripe: u8,
    /// The bytes of a block.
    pub align: u32,
    /// The bytes of the whole image.
    pub size: u64,
}

impl Geometry {
    fn has_block(&self, b: u64) -> bool
        ensures { IsTrue result ↔ IsBlockOf self.now b }
    {
        let here = stripe_of(b) == self.stripe;
        let end = (u128::from(b) + 1) * u128::from(self.align);
        here && end <= u128::from(self.size)
    }

    fn has_whole(&self, b: u64, buf: &Bytes) -> bool
        ensures { IsTrue result ↔ IsWhole self.now b buf.now }
    {
        self.has_block(b) && buf.len() == self.align as usize
    }

    /// Whether an operation is on a block of the stripe inside the image, with a buffer of one block, or
    /// is on the whole stripe.
    pub fn fits(&self, op: &StripeOp) -> bool
        ensures { IsTrue result ↔ Fits self.now op.now }
    {
        match op {
            StripeOp::Load { b, buf, .. } => self.has_whole(*b, buf),
            StripeOp::Hold { b, buf, .. } => self.has_whole(*b, buf),
            StripeOp::Store { b, buf, .. } => self.has_whole(*b, buf),
            StripeOp::Free { b, .. } => self.has_block(*b),
            StripeOp::Sync => true,
        }
    }

    fn has_run(&self, b: u64, n: u8, at: u64, buf: &Bytes) -> bool
        ensures { IsTrue result ↔ IsWholeRun self.now b n at buf.now }
    {
        let here = stripe_of(b) == self.stripe;
        let group = 1 <= n && b % 16 + u64::from(n) <= 16;
        let end = (u128::from(b) + u128::from(n)) * u128::from(self.align);
        let bytes = u128::from(at) + u128::from(n) * u128::from(self.align);
        here && group && end <= u128::from(self.size) && bytes <= buf.len() as u128
    }

    /// Whether a run is of one block or more, of one group of sixteen of the stripe and inside the image,
    /// with a buffer that has the run's bytes from its place on.
    pub fn fits_run(&self, op: &RunOp) -> bool
        ensures { IsTrue result ↔ FitsRun self.now op.now }
    {
        match op {
            RunOp::Load { b, n, at, buf, .. } => self.has_run(*b, *n, *at, buf),
            RunOp::Store { b, n, at, buf, .. } => self.has_run(*b, *n, *at, buf),
        }
    }

    /// Whether a single operation or a run fits.
    pub fn fits_call(&self, call: &StripeCall) -> bool
        ensures { IsTrue result ↔ FitsCall self.now call.now }
    {
        match call {
            StripeCall::One(op) => self.fits(op),
            StripeCall::Run(op) => self.fits_run(op),
        }
    }
}
