use super::*;
use std::test::Fail;

/// A set by the letters of its permissions.
fn perms(read: bool, write: bool, resize: bool) -> Perms {
    Perms {
        read,
        write,
        resize,
    }
}

fn taker(taken: Perms) -> UserPerms {
    UserPerms {
        taken,
        shared: Perms::all(),
    }
}

fn keeper(shared: Perms) -> UserPerms {
    UserPerms {
        taken: Perms::none(),
        shared,
    }
}

#[test]
fn first_pair_is_told(rt: HostRuntime) -> Result<(), Fail> {
    let reader = UserPerms::export(false, true);
    let writer = UserPerms::export(true, true);
    let lone = UserPerms::export(true, false);
    let resizer = taker(perms(false, false, true));
    let idle = UserPerms::idle();
    let rows: [(&[UserPerms], Result<(), (usize, usize)>); 11] = [
        (&[], Ok(())),
        (&[lone], Ok(())),
        (&[writer, reader, writer], Ok(())),
        (&[lone, reader], Ok(())),
        (&[lone, writer], Err((0, 1))),
        (&[writer, lone], Err((0, 1))),
        (&[reader, lone, idle, writer, lone], Err((1, 3))),
        (&[reader, writer, reader, lone], Err((1, 3))),
        (&[idle, resizer, idle], Ok(())),
        (&[resizer, idle, reader], Err((0, 2))),
        (&[keeper(perms(false, true, true)), reader], Err((0, 1))),
    ];
    for (users, answer) in rows.iter() {
        assert_eq!(rt; check(users), *answer);
    }
    Ok(())
}

#[test]
fn node_takes_the_union_and_shares_the_intersection(rt: HostRuntime) -> Result<(), Fail> {
    let reader = UserPerms::export(false, false);
    let writer = UserPerms::export(true, true);
    let resizer = taker(perms(false, false, true));
    let rows: [(&[UserPerms], Perms, Perms); 5] = [
        (&[], Perms::none(), Perms::all()),
        (
            &[writer],
            perms(true, true, false),
            perms(true, true, false),
        ),
        (
            &[reader, writer],
            perms(true, true, false),
            perms(true, false, false),
        ),
        (
            &[resizer, reader],
            perms(true, false, true),
            perms(true, false, false),
        ),
        (&[resizer, resizer], perms(false, false, true), Perms::all()),
    ];
    for (users, taken, shared) in rows.iter() {
        let joined = join_all(users);
        assert_eq!(rt; joined.taken, *taken);
        assert_eq!(rt; joined.shared, *shared);
    }
    Ok(())
}
