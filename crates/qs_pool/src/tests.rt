ghost use Rattle.qs_pool.specs.Lines.{IsOfPool};

use crate::{Pool, PoolPass, ROOM};
use std::sync::Wait;
use std::test::Fail;
use std::thread::{self, join};

/// Puts the numbers from `first` on, `count` of them, and waits where there is no room.
fn put_all<R: Wait>(
    rt: &R,
    pool: &Pool<u64>,
    mut pass: PoolPass<u64>,
    first: u64,
    count: u64,
) -> PoolPass<u64>
    requires { IsOfPool pool.now pass }
    ensures { IsOfPool pool.now result }
{
    let mut next = 0;
    for _ in rt.forever() {
        if next >= count {
            break;
        }
        match pool.put(rt, &mut pass, first.wrapping_add(next)) {
            Ok(()) => next += 1,
            Err(_) => thread::yield_now(),
        }
    }
    pass
}

/// Takes `count` numbers, and answers their sum and whether each was greater than the one before.
fn take_all<R: Wait>(
    rt: &R,
    pool: &Pool<u64>,
    mut pass: PoolPass<u64>,
    count: u64,
) -> (u64, bool, PoolPass<u64>)
    requires { IsOfPool pool.now pass }
    ensures { IsOfPool pool.now result.2 }
{
    let (mut taken, mut sum, mut last, mut rising) = (0, 0_u64, 0, true);
    for _ in rt.forever() {
        if taken >= count {
            break;
        }
        match pool.take(rt, &mut pass) {
            Some(link) => {
                rising = rising && last < link;
                last = link;
                sum = sum.wrapping_add(link);
                taken += 1;
            }
            None => thread::yield_now(),
        }
    }
    (sum, rising, pass)
}

#[test]
fn a_full_pool_gives_the_link_back(rt: HostRuntime) -> Result<(), Fail> {
    let pool: Pool<u64> = Pool::new(rt.alloc())?;
    let mut pass = pool.pass();
    assert_eq!(rt; pool.take(&rt, &mut pass), None);
    let mut pass = put_all(&rt, &pool, pass, 1, ROOM as u64);
    assert_eq!(rt; pool.put(&rt, &mut pass, 99), Err(99));
    let (sum, rising, mut pass) = take_all(&rt, &pool, pass, ROOM as u64);
    assert_eq!(rt; sum, 64 * 65 / 2);
    assert!(rt; rising);
    assert_eq!(rt; pool.take(&rt, &mut pass), None);
    Ok(())
}

/// What one thread puts another takes, each once and in order. The joined pass is told so.
#[test]
fn links_go_from_thread_to_thread(rt: HostRuntime) -> Result<(), Fail> {
    let pool: Pool<u64> = Pool::new(rt.alloc())?;
    let (mine, theirs) = (pool.pass(), pool.pass());
    let shared = &pool;
    let (mut mine, (sum, rising, theirs)) = join(
        &rt,
        move || -> PoolPass<u64>
            requires { IsOfPool shared.now mine }
            ensures { IsOfPool shared.entry.now result }
        { put_all(&rt, shared, mine, 1, 1000) },
        move || -> (u64, bool, PoolPass<u64>)
            requires { IsOfPool shared.now theirs }
            ensures { IsOfPool shared.entry.now result.2 }
        { take_all(&rt, shared, theirs, 1000) },
    );
    pool.join(&mut mine, theirs);
    pool.tell(&mut mine);
    assert_eq!(rt; sum, 500_500);
    assert!(rt; rising);
    Ok(())
}

/// Two threads take: none is lost, and none is taken twice.
#[test]
fn two_workers_share_what_is_put(rt: HostRuntime) -> Result<(), Fail> {
    let pool: Pool<u64> = Pool::new(rt.alloc())?;
    let (mine, one, two) = (pool.pass(), pool.pass(), pool.pass());
    let shared = &pool;
    let (sums, _mine) = join(
        &rt,
        move || -> (u64, u64)
            requires { IsOfPool shared.now one × IsOfPool shared.now two }
        {
            let (first, second) = join(
                &rt,
                move || -> (u64, bool, PoolPass<u64>)
                    requires { IsOfPool shared.now one }
                { take_all(&rt, shared, one, 500) },
                move || -> (u64, bool, PoolPass<u64>)
                    requires { IsOfPool shared.now two }
                { take_all(&rt, shared, two, 500) },
            );
            (first.0, second.0)
        },
        move || -> PoolPass<u64>
            requires { IsOfPool shared.now mine }
        { put_all(&rt, shared, mine, 1, 1000) },
    );
    assert_eq!(rt; sums.0.wrapping_add(sums.1), 500_500);
    Ok(())
}
