ghost use Rattle.std.specs.Prelude.{◌≡◌, ◌≤◌, ◌^◌};
ghost use Rattle.qs_bucket.specs.Bucket.{BurstFits, opened_bucket, burst_level, wait_of, filled, AsksBucket};

use crate::level::Level;
use std::marker::Model;

/// Whether a request may go.
#[derive(Clone, Copy, Debug, PartialEq, Eq)]
pub enum Ask {
    Go,
    /// The nanoseconds that it has to wait.
    Wait(u128),
}

/// What a bucket admits while a burst lasts.
#[derive(Clone, Copy, Debug, PartialEq, Eq)]
pub struct Burst {
    /// The nano-units that leak in a nanosecond.
    pub rate: u64,
    /// The nano-units that are let go at once.
    pub bucket: u128,
}

/// A leaky bucket, after QEMU's util/throttle.c: what was admitted leaks at a rate, and a request
/// goes where what is left is at most the bucket.
///
/// With a burst there is a second level, which counts the same admissions and leaks at the burst's
/// rate; a request goes where each level is at most its bucket. Readings are nanoseconds, and what
/// is admitted is counted in nano-units: 10^9 of them are one byte or one operation. A reading
/// below that of the last admission counts as that one.
#[derive(Debug, Drop)]
pub struct Bucket {
    first: Level,
    /// Of rate 0, which is no limit, where there is no burst.
    second: Level,
}

impl Model for Bucket {
    ghost use Rattle.std.specs.Prelude.{◌≡◌};
    ghost use Rattle.qs_bucket.specs.Bucket.{BucketValue};

    ghost Value = { BucketValue };

    ghost view = { λ b. record { first = b.first; second = b.second } };

    ghost invariant = { λ b. b.first.rate ≡ 0 → b.second.rate ≡ 0 };
}

fn burst_level(burst: Option<Burst>) -> Level
    requires { BurstFits 1 burst }
    ensures { result ≡ burst_level burst }
{
    match burst {
        Some(burst) => Level::new(burst.rate, burst.bucket),
        None => Level::new(0, 0),
    }
}

impl Bucket {
    /// A bucket of `bucket` nano-units, which leaks `rate` nano-units a nanosecond, that is `rate`
    /// units a second. Rate 0 is no limit, and has no burst.
    pub fn new(rate: u64, bucket: u128, burst: Option<Burst>) -> Self
        requires rate { rate ≤ 10 ^ 15 }
        requires bucket { bucket ≤ 10 ^ 27 }
        requires burst { BurstFits rate burst }
        ensures { result ≡ opened_bucket rate bucket burst }
    {
        Bucket {
            first: Level::new(rate, bucket),
            second: burst_level(burst),
        }
    }

    /// Whether a request may go at this reading, and if not, how long it has to wait.
    #[tactic(auto, using(crate::proofs::Ceil::none_of_ceil))]
    pub fn ask(&self, now: u64) -> Ask
        ensures asks { AsksBucket self.now now result }
        ensures go { result ≡ Ask.Go → wait_of self.now now ≡ 0 }
        ensures no_limit { self.now.first.rate ≡ 0 → result ≡ Ask.Go }
    {
        match self.wait(now) {
            0 => Ask::Go,
            wait => Ask::Wait(wait),
        }
    }

    /// How many nanoseconds a request has to wait at this reading; 0 lets it go.
    ///
    /// Where the first level is above its bucket, this is until it no longer is; else the same of
    /// the second.
    pub fn wait(&self, now: u64) -> u128
        ensures wait { result ≡ wait_of self.now now }
        ensures no_limit { self.now.first.rate ≡ 0 → result ≡ 0 }
    {
        match self.first.wait(now) {
            0 => self.second.wait(now),
            wait => wait,
        }
    }

    /// Counts a request of so many nano-units, which goes at this reading.
    pub fn add(&mut self, now: u64, units: u128)
        requires go { wait_of self.old now ≡ 0 }
        requires units { units ≤ 2 ^ 94 }
        ensures { self.new ≡ filled self.old now units }
    {
        self.first.add(now, units);
        self.second.add(now, units);
    }
}

#[cfg(test)]
mod tests {
    use super::*;
    use std::test::Fail;

    #[test]
    fn level_leaks_to_the_nanosecond(rt: HostRuntime) -> Result<(), Fail> {
        let mut bucket = Bucket::new(1000, 100_000_000_000, None);
        assert_eq!(rt; bucket.ask(0), Ask::Go);
        bucket.add(0, 100_000_000_000);
        assert_eq!(rt; bucket.ask(0), Ask::Go, "at the bucket");
        bucket.add(0, 1_000_000_000);
        assert_eq!(rt; bucket.ask(0), Ask::Wait(1_000_000));
        assert_eq!(rt; bucket.ask(999_999), Ask::Wait(1));
        assert_eq!(rt; bucket.ask(1_000_000), Ask::Go);
        bucket.add(1_000_000, 1_000_000_000);
        assert_eq!(rt; bucket.ask(5), Ask::Wait(1_000_000), "the clock goes back");
        Ok(())
    }

    #[test]
    fn burst_holds_back_what_the_long_run_lets_go(rt: HostRuntime) -> Result<(), Fail> {
        let burst = Burst {
            rate: 2000,
            bucket: 200_000_000_000,
        };
        let mut bucket = Bucket::new(1000, 6_000_000_000_000, Some(burst));
        bucket.add(0, 200_000_000_000);
        assert_eq!(rt; bucket.ask(0), Ask::Go, "at the burst's bucket");
        bucket.add(0, 1_000_000_000);
        assert_eq!(rt; bucket.ask(0), Ask::Wait(500_000));
        assert_eq!(rt; bucket.ask(499_999), Ask::Wait(1));
        assert_eq!(rt; bucket.ask(500_000), Ask::Go);
        bucket.add(500_000, 6_000_000_000_000);
        assert_eq!(rt;
            bucket.ask(0),
            Ask::Wait(200_500_000),
            "both are above their buckets"
        );
        Ok(())
    }

    #[test]
    fn greatest_values_fit(rt: HostRuntime) -> Result<(), Fail> {
        let units = 1 << 94;
        let rate = 1_000_000_000_000_000;
        let size = 1_000_000_000_000_000_000_000_000_000;
        let mut bucket = Bucket::new(rate, size, Some(Burst { rate, bucket: size }));
        assert_eq!(rt; bucket.ask(u64::MAX), Ask::Go);
        bucket.add(u64::MAX, units);
        assert_eq!(rt; bucket.ask(0), Ask::Wait(18_807_040_628_567));
        let mut slow = Bucket::new(rate, size, Some(Burst { rate: 1, bucket: 0 }));
        slow.add(0, size);
        assert_eq!(rt; slow.ask(0), Ask::Wait(size), "the second level alone");
        assert_eq!(rt; slow.ask(u64::MAX), Ask::Wait(size - u128::from(u64::MAX)));
        let mut unlimited = Bucket::new(0, 0, None);
        assert_eq!(rt; unlimited.ask(0), Ask::Go);
        unlimited.add(0, units);
        assert_eq!(rt; unlimited.ask(0), Ask::Go, "no limit");
        Ok(())
    }
}
