use crate::limits::{Limits, Rule};

/// What a request does.
#[derive(Clone, Copy, Debug, PartialEq, Eq)]
pub enum Dir {
    Read,
    Write,
}

/// An operation of a throttle group.
#[derive(Clone, Copy, Debug, PartialEq, Eq)]
pub enum GroupOp {
    /// A request of a member, of `bytes` bytes, takes a ticket.
    Queue { member: u8, dir: Dir, bytes: u64 },
    /// The request with ticket `t` asks to go, at the clock's reading `now` in nanoseconds.
    Admit { t: u8, now: u64 },
    /// The request with ticket `t` gives it back.
    Withdraw { t: u8 },
    /// The group gets new limits and begins anew.
    Set { limits: Limits },
}

/// What a throttle group answers.
#[derive(Clone, Copy, Debug, PartialEq, Eq)]
pub enum GroupReply {
    /// Queue: the ticket.
    Ticket(u8),
    /// Queue: all tickets are out.
    Full,
    /// Admit and Withdraw: no request waits with that ticket.
    Strange,
    /// Admit: this earlier ticket of the same member and direction waits.
    Behind(u8),
    /// Admit: it is this member's turn.
    TurnOf(u8),
    /// Admit: the request has to wait for so many nanoseconds.
    Wait(u128),
    /// Admit: the request goes, and its ticket is free.
    Go,
    /// Withdraw: the ticket is free.
    Withdrawn,
    /// Set: this ticket waits.
    Waiting(u8),
    /// Set: the first rule that the limits break.
    Bad(Rule),
    /// Set: the group has these limits.
    Set,
}
