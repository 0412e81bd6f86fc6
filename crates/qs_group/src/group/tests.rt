use super::*;
use qs_part::limits::{Dim, GREATEST, Limit, Rule};
use std::process::Abort;
use std::test::Fail;

fn limit(avg: u64, max: u64) -> Limit {
    burst(avg, max, 1)
}

fn burst(avg: u64, max: u64, burst_length: u64) -> Limit {
    Limit {
        avg,
        max,
        burst_length,
    }
}

fn queue(member: u8, dir: Dir, bytes: u64) -> GroupOp {
    GroupOp::Queue { member, dir, bytes }
}

fn admit(t: u8, now: u64) -> GroupOp {
    GroupOp::Admit { t, now }
}

fn run(rt: &impl Abort, group: &mut Group, script: &[(GroupOp, GroupReply)]) {
    for (op, reply) in script.iter() {
        assert!(rt; Group::fits(&group.fixed(), op));
        assert_eq!(rt; group.step(*op), *reply);
    }
}

#[test]
fn limit_of_bytes_lets_go_to_the_nanosecond(rt: HostRuntime) -> Result<(), Fail> {
    let limits = Limits {
        bps_total: limit(1000, 0),
        ..Limits::NONE
    };
    let mut group = Group::new(rt.alloc())?;
    let script = [
        (GroupOp::Set { limits }, GroupReply::Set),
        (queue(1, Dir::Write, 100), GroupReply::Ticket(0)),
        (queue(1, Dir::Write, 1), GroupReply::Ticket(1)),
        (queue(1, Dir::Write, 1), GroupReply::Ticket(2)),
        (admit(1, 0), GroupReply::Behind(0)),
        (admit(0, 0), GroupReply::Go),
        (admit(1, 0), GroupReply::Go),
        (admit(2, 0), GroupReply::Wait(1_000_000)),
        (admit(2, 999_999), GroupReply::Wait(1)),
        (admit(2, 1_000_000), GroupReply::Go),
        (queue(1, Dir::Read, 1), GroupReply::Ticket(0)),
        (admit(0, 5), GroupReply::Wait(1_000_000)),
    ];
    run(&rt, &mut group, &script);
    Ok(())
}

#[test]
fn burst_goes_at_its_own_rate(rt: HostRuntime) -> Result<(), Fail> {
    let limits = Limits {
        bps_total: burst(1000, 2000, 3),
        ..Limits::NONE
    };
    let mut group = Group::new(rt.alloc())?;
    let script = [
        (GroupOp::Set { limits }, GroupReply::Set),
        (queue(1, Dir::Write, 200), GroupReply::Ticket(0)),
        (queue(1, Dir::Write, 1), GroupReply::Ticket(1)),
        (queue(1, Dir::Write, 1), GroupReply::Ticket(2)),
        (admit(0, 0), GroupReply::Go),
        (admit(1, 0), GroupReply::Go),
        (admit(2, 0), GroupReply::Wait(500_000)),
        (admit(2, 500_000), GroupReply::Go),
    ];
    run(&rt, &mut group, &script);
    Ok(())
}

#[test]
fn large_operations_count_as_more_than_one(rt: HostRuntime) -> Result<(), Fail> {
    let limits = Limits {
        iops_total: limit(10, 0),
        iops_size: 4096,
        ..Limits::NONE
    };
    let mut group = Group::new(rt.alloc())?;
    let script = [
        (GroupOp::Set { limits }, GroupReply::Set),
        (queue(1, Dir::Write, 10_000), GroupReply::Ticket(0)),
        (queue(1, Dir::Read, 1), GroupReply::Ticket(1)),
        (admit(0, 0), GroupReply::Go),
        (admit(1, 0), GroupReply::Wait(144_140_625)),
        (admit(1, 144_140_625), GroupReply::Go),
        (queue(1, Dir::Read, 1), GroupReply::Ticket(0)),
        (admit(0, 144_140_625), GroupReply::Wait(100_000_000)),
    ];
    run(&rt, &mut group, &script);
    Ok(())
}

#[test]
fn turns_go_round_the_members(rt: HostRuntime) -> Result<(), Fail> {
    let mut group = Group::new(rt.alloc())?;
    let script = [
        (queue(1, Dir::Write, 1), GroupReply::Ticket(0)),
        (admit(0, 0), GroupReply::Go),
        (queue(1, Dir::Write, 1), GroupReply::Ticket(0)),
        (queue(2, Dir::Write, 1), GroupReply::Ticket(1)),
        (queue(1, Dir::Read, 1), GroupReply::Ticket(2)),
        (admit(0, 0), GroupReply::TurnOf(2)),
        (admit(2, 0), GroupReply::Go),
        (admit(1, 0), GroupReply::Go),
        (queue(63, Dir::Write, 1), GroupReply::Ticket(1)),
        (admit(0, 0), GroupReply::TurnOf(63)),
        (admit(1, 0), GroupReply::Go),
        (admit(1, 0), GroupReply::Strange),
        (admit(0, 0), GroupReply::Go),
    ];
    run(&rt, &mut group, &script);
    Ok(())
}

#[test]
fn limits_are_set_where_nobody_waits(rt: HostRuntime) -> Result<(), Fail> {
    let good = Limits {
        iops_read: limit(GREATEST, GREATEST),
        bps_read: limit(GREATEST, GREATEST),
        ..Limits::NONE
    };
    let bad = Limits {
        bps_read: limit(1, 0),
        bps_total: limit(1, 0),
        ..Limits::NONE
    };
    let both = Rule::TotalAndPart(Dim::BpsTotal);
    let mut group = Group::new(rt.alloc())?;
    let script = [
        (queue(0, Dir::Read, 7), GroupReply::Ticket(0)),
        (GroupOp::Set { limits: bad }, GroupReply::Waiting(0)),
        (GroupOp::Withdraw { t: 0 }, GroupReply::Withdrawn),
        (GroupOp::Withdraw { t: 0 }, GroupReply::Strange),
        (GroupOp::Set { limits: bad }, GroupReply::Bad(both)),
        (GroupOp::Set { limits: good }, GroupReply::Set),
        (queue(0, Dir::Read, u64::MAX), GroupReply::Ticket(0)),
        (admit(0, u64::MAX), GroupReply::Go),
        (queue(0, Dir::Read, 0), GroupReply::Ticket(0)),
        (admit(0, 0), GroupReply::Wait(18_445_744_073_710)),
        (queue(0, Dir::Write, u64::MAX), GroupReply::Ticket(1)),
        (admit(1, 0), GroupReply::Go),
    ];
    run(&rt, &mut group, &script);
    group.reset();
    run(
        &rt,
        &mut group,
        &[
            (queue(0, Dir::Read, 1), GroupReply::Ticket(0)),
            (admit(0, 0), GroupReply::Go),
        ],
    );
    Ok(())
}

#[test]
fn bursts_have_a_length_and_a_rate(rt: HostRuntime) -> Result<(), Fail> {
    let half = burst(GREATEST / 2, GREATEST / 2, 2);
    let rows = [
        (
            burst(1, 0, 2),
            GroupReply::Bad(Rule::BurstWithoutMax(Dim::IopsRead)),
        ),
        (
            burst(1, 0, 0),
            GroupReply::Bad(Rule::BurstZero(Dim::IopsRead)),
        ),
        (half, GroupReply::Set),
    ];
    let mut group = Group::new(rt.alloc())?;
    for (iops_read, reply) in rows.iter() {
        let limits = Limits {
            iops_read: *iops_read,
            bps_write: half,
            iops_size: 1,
            ..Limits::NONE
        };
        run(&rt, &mut group, &[(GroupOp::Set { limits }, *reply)]);
    }
    for dir in [Dir::Read, Dir::Write] {
        let script = [
            (queue(0, dir, u64::MAX), GroupReply::Ticket(0)),
            (admit(0, u64::MAX), GroupReply::Go),
            (queue(0, dir, 0), GroupReply::Ticket(0)),
            (admit(0, 0), GroupReply::Wait(36_891_488_147_420)),
            (GroupOp::Withdraw { t: 0 }, GroupReply::Withdrawn),
        ];
        run(&rt, &mut group, &script);
    }
    Ok(())
}

#[test]
fn tickets_run_out(rt: HostRuntime) -> Result<(), Fail> {
    let mut group = Group::new(rt.alloc())?;
    for t in 0..=u8::MAX {
        run(
            &rt,
            &mut group,
            &[(queue(t % 64, Dir::Write, 1), GroupReply::Ticket(t))],
        );
    }
    let script = [
        (queue(0, Dir::Read, 1), GroupReply::Full),
        (GroupOp::Withdraw { t: 77 }, GroupReply::Withdrawn),
        (queue(0, Dir::Read, 1), GroupReply::Ticket(77)),
    ];
    run(&rt, &mut group, &script);
    Ok(())
}
