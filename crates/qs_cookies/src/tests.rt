use crate::UsedCookies;
use std::test::Fail;

/// Cookies by session, in an order in which runs begin, grow at both ends and become one.
const USED: [(u32, u64); 10] = [
    (0, 5),
    (0, 7),
    (1, 6),
    (0, 6),
    (0, 4),
    (2, u64::MAX),
    (2, u64::MAX - 1),
    (0, 0),
    (0, 9),
    (0, 6),
];

#[test]
fn has_what_was_used_alone(rt: HostRuntime) -> Result<(), Fail> {
    let mut cookies = UsedCookies::new(rt.alloc());
    for (session, cookie) in USED {
        cookies.insert(session, cookie)?;
    }
    for (session, cookie, used) in [
        (0, 0, true),
        (0, 1, false),
        (0, 3, false),
        (0, 4, true),
        (0, 5, true),
        (0, 6, true),
        (0, 7, true),
        (0, 8, false),
        (0, 9, true),
        (0, 10, false),
        (0, u64::MAX, false),
        (1, 5, false),
        (1, 6, true),
        (1, 7, false),
        (2, 0, false),
        (2, u64::MAX - 2, false),
        (2, u64::MAX - 1, true),
        (2, u64::MAX, true),
        (3, 6, false),
    ] {
        assert_eq!(rt; cookies.contains(session, cookie), used);
    }
    Ok(())
}
