use crate::CheckedLimits;
use qs_part::limits::{Dim, Limit, Limits, Rule};
use std::test::Fail;

#[test]
fn limits_are_checked(rt: HostRuntime) -> Result<(), Fail> {
    let slow = Limits {
        bps_read: Limit {
            avg: 1,
            max: 5,
            burst_length: 2,
        },
        ..Limits::NONE
    };
    let bad = Limits {
        iops_total: Limit {
            avg: 2,
            max: 1,
            burst_length: 1,
        },
        ..Limits::NONE
    };
    match CheckedLimits::of(slow) {
        Ok(checked) => assert_eq!(rt; checked.limits(), slow),
        Err(_) => assert!(rt; false),
    }
    assert_eq!(rt;
        CheckedLimits::of(bad).err(),
        Some(Rule::MaxBelowAvg(Dim::IopsTotal))
    );
    Ok(())
}
