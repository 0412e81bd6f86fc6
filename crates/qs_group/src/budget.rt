ghost use Rattle.std.specs.Prelude.{◌≡◌, ◌≤◌, ◌<◌, ◌^◌, max, None};
ghost use Rattle.qs_part.specs.Limits.{first_broken};
ghost use Rattle.qs_bucket.specs.Bucket.{BurstFits};
ghost use Rattle.qs_group.specs.Budget.{First, IsGood, capacity, burst_for, bucket_for, sides_for, side_wait, charged_side, op_units, budget_for, wait_for, reading_at, charged};

use qs_bucket::bucket::{Bucket, Burst};
use qs_part::group::Dir;
use qs_part::limits::{Limit, Limits};

/// The nano-units of one byte or one operation.
const NANO: u128 = 1_000_000_000;

/// The limits of bytes or of operations: of all, of reads and of writes.
#[derive(Debug, Drop)]
pub struct Sides {
    pub total: Bucket,
    pub read: Bucket,
    pub write: Bucket,
}

/// What a group has admitted under its limits.
#[derive(Debug, Drop)]
pub struct Budget {
    pub bytes: Sides,
    pub ops: Sides,
    /// The bytes that count as one operation. 0 counts each request as one.
    pub iops_size: u64,
    /// The greatest reading at which a request went, in nanoseconds.
    pub reading: u64,
}

/// A tenth of a second at the rate `avg`, or a whole burst at the rate `max`, as in QEMU's
/// util/throttle.c.
fn capacity(limit: Limit) -> u128
    requires { IsGood limit }
    ensures capacity { result ≡ capacity limit First }
    ensures bound { result ≤ 10 ^ 27 }
{
    if limit.max == 0 {
        u128::from(limit.avg) * (NANO / 10)
    } else {
        u128::from(limit.max) * u128::from(limit.burst_length) * NANO
    }
}

/// Bursts of more than a second are held to the rate `max`, with a tenth of a second of it at once.
fn burst(limit: Limit) -> Option<Burst>
    requires { IsGood limit }
    ensures burst { result ≡ burst_for limit }
    ensures fits { BurstFits limit.avg result }
{
    if limit.burst_length > 1 {
        Some(Burst {
            rate: limit.max,
            bucket: u128::from(limit.max) * (NANO / 10),
        })
    } else {
        None
    }
}

fn bucket(limit: Limit) -> Bucket
    requires { IsGood limit }
    ensures { result ≡ bucket_for limit }
{
    Bucket::new(limit.avg, capacity(limit), burst(limit))
}

impl Sides {
    fn new(total: Limit, read: Limit, write: Limit) -> Self
        requires total { IsGood total }
        requires read { IsGood read }
        requires write { IsGood write }
        ensures { result ≡ sides_for total read write }
    {
        Sides {
            total: bucket(total),
            read: bucket(read),
            write: bucket(write),
        }
    }

    fn wait(&self, dir: Dir, reading: u64) -> u128
        ensures { result ≡ side_wait self.now dir reading }
    {
        let own = match dir {
            Dir::Read => self.read.wait(reading),
            Dir::Write => self.write.wait(reading),
        };
        self.total.wait(reading).max(own)
    }

    fn charge(&mut self, dir: Dir, reading: u64, units: u128)
        requires go { side_wait self.old dir reading ≡ 0 }
        requires units { units ≤ 2 ^ 94 }
        ensures { self.new ≡ charged_side self.old dir reading units }
    {
        self.total.add(reading, units);
        match dir {
            Dir::Read => self.read.add(reading, units),
            Dir::Write => self.write.add(reading, units),
        }
    }
}

impl Budget {
    /// Nothing admitted yet under these limits.
    pub fn new(limits: &Limits) -> Self
        requires { first_broken limits.now ≡ None }
        ensures { result ≡ budget_for limits.now }
    {
        Budget {
            bytes: Sides::new(limits.bps_total, limits.bps_read, limits.bps_write),
            ops: Sides::new(limits.iops_total, limits.iops_read, limits.iops_write),
            iops_size: limits.iops_size,
            reading: 0,
        }
    }

    /// The nanoseconds that a request of this direction has to wait; 0 lets it go.
    pub fn wait(&self, dir: Dir, now: u64) -> u128
        ensures { result ≡ wait_for self.now dir (reading_at self.now now) }
    {
        let reading = now.max(self.reading);
        self.bytes
            .wait(dir, reading)
            .max(self.ops.wait(dir, reading))
    }

    /// Counts a request that goes.
    pub fn charge(&mut self, dir: Dir, bytes: u64, now: u64)
        requires { wait_for self.old dir (reading_at self.old now) ≡ 0 }
        ensures { self.new ≡ charged self.old dir bytes (reading_at self.old now) }
    {
        let reading = now.max(self.reading);
        let op_units = self.op_units(bytes);
        self.bytes.charge(dir, reading, u128::from(bytes) * NANO);
        self.ops.charge(dir, reading, op_units);
        self.reading = reading;
    }
    /// The nano-units of a request's operation: of one whole operation, and of one for each
    /// `iops_size` bytes, if that is more.
    fn op_units(&self, bytes: u64) -> u128
        ensures units { result ≡ op_units self.now bytes }
        ensures bound { result ≤ 2 ^ 94 }
    {
        if self.iops_size == 0 {
            return NANO;
        }
        let units = u128::from(bytes) * NANO;
        NANO.max(units.div_ceil(u128::from(self.iops_size)))
    }
}
