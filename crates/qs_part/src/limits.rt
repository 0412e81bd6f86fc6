ghost use Rattle.std.specs.Prelude.{◌≡◌, find};
ghost use Rattle.std.specs.Result.{result_err};
ghost use Rattle.qs_part.specs.Limits.{limit_of, is_set, passes_greatest, passes_greatest_burst, has_part, breaks, first_broken};

/// The greatest value that a limit may have.
pub const GREATEST: u64 = 1_000_000_000_000_000;

/// One of the six limits of a throttle group.
#[derive(Clone, Copy, Debug, PartialEq, Eq)]
pub enum Dim {
    BpsTotal,
    BpsRead,
    BpsWrite,
    IopsTotal,
    IopsRead,
    IopsWrite,
}

/// One limit: bytes or operations a second.
///
/// The words are those of QEMU's `ThrottleLimits`.
#[derive(Clone, Copy, Debug, PartialEq, Eq)]
pub struct Limit {
    /// The rate in the long run, a second. 0 is no limit.
    pub avg: u64,
    /// The rate while a burst lasts, a second. 0 is none of its own.
    pub max: u64,
    /// How many seconds a burst may last.
    pub burst_length: u64,
}

/// The limits of a throttle group.
#[derive(Clone, Copy, Debug, PartialEq, Eq)]
pub struct Limits {
    pub bps_total: Limit,
    pub bps_read: Limit,
    pub bps_write: Limit,
    pub iops_total: Limit,
    pub iops_read: Limit,
    pub iops_write: Limit,
    /// The bytes that count as one operation. 0 counts each request as one.
    pub iops_size: u64,
}

/// A rule that limits have to keep, and the limit that it is about.
#[derive(Clone, Copy, Debug, PartialEq, Eq)]
pub enum Rule {
    /// No value of a limit passes [`GREATEST`].
    TooGreat(Dim),
    /// A total isn't set beside a limit of reads or of writes.
    TotalAndPart(Dim),
    /// A limit with a `max` has an `avg`.
    MaxWithoutAvg(Dim),
    /// A `max` isn't below the `avg`.
    MaxBelowAvg(Dim),
    /// A burst lasts at least a second.
    BurstZero(Dim),
    /// A burst of more than a second has a `max`.
    BurstWithoutMax(Dim),
    /// What a burst admits, `max` times `burst_length`, doesn't pass [`GREATEST`].
    BurstTooGreat(Dim),
}

const RULES: [Rule; 42] = [
    Rule::TooGreat(Dim::BpsTotal),
    Rule::TooGreat(Dim::BpsRead),
    Rule::TooGreat(Dim::BpsWrite),
    Rule::TooGreat(Dim::IopsTotal),
    Rule::TooGreat(Dim::IopsRead),
    Rule::TooGreat(Dim::IopsWrite),
    Rule::TotalAndPart(Dim::BpsTotal),
    Rule::TotalAndPart(Dim::BpsRead),
    Rule::TotalAndPart(Dim::BpsWrite),
    Rule::TotalAndPart(Dim::IopsTotal),
    Rule::TotalAndPart(Dim::IopsRead),
    Rule::TotalAndPart(Dim::IopsWrite),
    Rule::MaxWithoutAvg(Dim::BpsTotal),
    Rule::MaxWithoutAvg(Dim::BpsRead),
    Rule::MaxWithoutAvg(Dim::BpsWrite),
    Rule::MaxWithoutAvg(Dim::IopsTotal),
    Rule::MaxWithoutAvg(Dim::IopsRead),
    Rule::MaxWithoutAvg(Dim::IopsWrite),
    Rule::MaxBelowAvg(Dim::BpsTotal),
    Rule::MaxBelowAvg(Dim::BpsRead),
    Rule::MaxBelowAvg(Dim::BpsWrite),
    Rule::MaxBelowAvg(Dim::IopsTotal),
    Rule::MaxBelowAvg(Dim::IopsRead),
    Rule::MaxBelowAvg(Dim::IopsWrite),
    Rule::BurstZero(Dim::BpsTotal),
    Rule::BurstZero(Dim::BpsRead),
    Rule::BurstZero(Dim::BpsWrite),
    Rule::BurstZero(Dim::IopsTotal),
    Rule::BurstZero(Dim::IopsRead),
    Rule::BurstZero(Dim::IopsWrite),
    Rule::BurstWithoutMax(Dim::BpsTotal),
    Rule::BurstWithoutMax(Dim::BpsRead),
    Rule::BurstWithoutMax(Dim::BpsWrite),
    Rule::BurstWithoutMax(Dim::IopsTotal),
    Rule::BurstWithoutMax(Dim::IopsRead),
    Rule::BurstWithoutMax(Dim::IopsWrite),
    Rule::BurstTooGreat(Dim::BpsTotal),
    Rule::BurstTooGreat(Dim::BpsRead),
    Rule::BurstTooGreat(Dim::BpsWrite),
    Rule::BurstTooGreat(Dim::IopsTotal),
    Rule::BurstTooGreat(Dim::IopsRead),
    Rule::BurstTooGreat(Dim::IopsWrite),
];

impl Limit {
    /// No limit.
    pub const NONE: Limit = Limit {
        avg: 0,
        max: 0,
        burst_length: 1,
    };

    /// Whether the limit has a rate, in the long run or for a burst.
    pub fn is_set(&self) -> bool
        ensures { result ≡ is_set self.now }
    {
        self.avg != 0 || self.max != 0
    }

    fn is_too_great(&self) -> bool
        ensures { result ≡ passes_greatest self.now }
    {
        self.avg > GREATEST || self.max > GREATEST || self.burst_length > GREATEST
    }

    fn has_too_great_a_burst(&self) -> bool
        ensures { result ≡ passes_greatest_burst self.now }
    {
        self.max != 0 && u128::from(self.max) * u128::from(self.burst_length) > u128::from(GREATEST)
    }
}

impl Limits {
    /// No limit at all.
    pub const NONE: Limits = Limits {
        bps_total: Limit::NONE,
        bps_read: Limit::NONE,
        bps_write: Limit::NONE,
        iops_total: Limit::NONE,
        iops_read: Limit::NONE,
        iops_write: Limit::NONE,
        iops_size: 0,
    };

    /// The limit that `dim` names.
    pub fn limit(&self, dim: Dim) -> Limit
        ensures { result ≡ limit_of self.now dim }
    {
        match dim {
            Dim::BpsTotal => self.bps_total,
            Dim::BpsRead => self.bps_read,
            Dim::BpsWrite => self.bps_write,
            Dim::IopsTotal => self.iops_total,
            Dim::IopsRead => self.iops_read,
            Dim::IopsWrite => self.iops_write,
        }
    }

    fn has_part(&self, total: Dim) -> bool
        ensures { result ≡ has_part self.now total }
    {
        match total {
            Dim::BpsTotal => self.bps_read.is_set() || self.bps_write.is_set(),
            Dim::IopsTotal => self.iops_read.is_set() || self.iops_write.is_set(),
            _ => false,
        }
    }

    fn breaks(&self, rule: Rule) -> bool
        ensures { result ≡ breaks self.now rule }
    {
        match rule {
            Rule::TooGreat(dim) => self.limit(dim).is_too_great(),
            Rule::TotalAndPart(dim) => self.limit(dim).is_set() && self.has_part(dim),
            Rule::MaxWithoutAvg(dim) => self.limit(dim).max != 0 && self.limit(dim).avg == 0,
            Rule::MaxBelowAvg(dim) => {
                self.limit(dim).max != 0 && self.limit(dim).max < self.limit(dim).avg
            }
            Rule::BurstZero(dim) => self.limit(dim).burst_length == 0,
            Rule::BurstWithoutMax(dim) => {
                self.limit(dim).burst_length > 1 && self.limit(dim).max == 0
            }
            Rule::BurstTooGreat(dim) => self.limit(dim).has_too_great_a_burst(),
        }
    }

    /// Whether a throttle group can have these limits; if not, the first rule that they break.
    ///
    /// The rules come in the order of [`Rule`], each for the six limits in the order of [`Dim`].
    /// They are those of QEMU's `throttle_is_valid`.
    pub fn check(&self) -> Result<(), Rule>
        ensures { result_err result ≡ first_broken self.now }
    {
        match self.first_broken(&RULES) {
            Some(rule) => Err(rule),
            None => Ok(()),
        }
    }

    fn first_broken(&self, rules: &[Rule]) -> Option<Rule>
        ensures { result ≡ find (breaks self.now) rules.now }
    {
        rules.iter().copied().find(|rule| self.breaks(*rule))
    }
}

#[cfg(test)]
mod tests {
    use super::*;
    use std::test::Fail;

    fn limit(avg: u64, max: u64, burst_length: u64) -> Limit {
        Limit {
            avg,
            max,
            burst_length,
        }
    }

    #[test]
    fn first_broken_rule_is_told(rt: HostRuntime) -> Result<(), Fail> {
        let one = limit(1, 0, 1);
        let greatest = limit(GREATEST, GREATEST, 1);
        let none = Limits::NONE;
        let rows = [
            (none, Ok(())),
            (
                Limits {
                    bps_read: greatest,
                    bps_write: greatest,
                    iops_total: greatest,
                    ..none
                },
                Ok(()),
            ),
            (
                Limits {
                    bps_read: one,
                    bps_total: one,
                    ..none
                },
                Err(Rule::TotalAndPart(Dim::BpsTotal)),
            ),
            (
                Limits {
                    iops_total: limit(0, 5, 1),
                    iops_write: limit(GREATEST + 1, 0, 1),
                    ..none
                },
                Err(Rule::TooGreat(Dim::IopsWrite)),
            ),
            (
                Limits {
                    iops_read: limit(0, 5, 1),
                    ..none
                },
                Err(Rule::MaxWithoutAvg(Dim::IopsRead)),
            ),
            (
                Limits {
                    bps_write: limit(6, 5, 0),
                    ..none
                },
                Err(Rule::MaxBelowAvg(Dim::BpsWrite)),
            ),
        ];
        for (limits, answer) in rows.iter() {
            assert_eq!(rt; limits.check(), *answer, "{limits:?}");
        }
        Ok(())
    }

    #[test]
    fn first_broken_rule_of_bursts_is_told(rt: HostRuntime) -> Result<(), Fail> {
        let none = Limits::NONE;
        let rows = [
            (
                Limits {
                    bps_write: limit(0, 0, 0),
                    iops_total: limit(1, 0, 2),
                    ..none
                },
                Err(Rule::BurstZero(Dim::BpsWrite)),
            ),
            (
                Limits {
                    bps_total: limit(GREATEST, GREATEST, 2),
                    iops_total: limit(1, 0, 2),
                    ..none
                },
                Err(Rule::BurstWithoutMax(Dim::IopsTotal)),
            ),
            (
                Limits {
                    iops_read: limit(1, GREATEST / 2, 2),
                    iops_write: limit(1, 333_333_333_333_334, 3),
                    ..none
                },
                Err(Rule::BurstTooGreat(Dim::IopsWrite)),
            ),
            (
                Limits {
                    bps_total: limit(1000, 2000, 3),
                    iops_read: limit(1, 1, GREATEST),
                    iops_size: u64::MAX,
                    ..none
                },
                Ok(()),
            ),
        ];
        for (limits, answer) in rows.iter() {
            assert_eq!(rt; limits.check(), *answer, "{limits:?}");
        }
        Ok(())
    }
}
