ghost use Rattle.std.specs.Prelude.{◌≡◌, ◌<◌, ◌≤◌, ◌⊎◌, ℕ, [], length, vec_capacity, find, position, not, All, IfSome, MatchOption};
ghost use Rattle.qs_group.specs.Queue.{InRange, ShowsTickets, ticket_at, queue_without, is_queued_by, Queues, earliest, round, IsTurn, IsLowestFree, IsLowestWaiting};

use qs_part::group::Dir;

/// How many requests can wait in a group.
pub const TICKETS: usize = 256;

/// How many members a group can have.
pub const MEMBERS: u8 = 64;

/// A request that waits in a group.
#[derive(Clone, Copy, Debug, PartialEq, Eq)]
pub struct Queued {
    pub ticket: u8,
    pub member: u8,
    pub dir: Dir,
    pub bytes: u64,
}

fn seek(waiting: &[Queued], ticket: u8) -> Option<Queued>
    ensures { result ≡ ticket_at waiting.now ticket }
{
    waiting.iter().copied().find(|w| w.ticket == ticket)
}

fn first_of(waiting: &[Queued], member: u8, dir: Dir) -> Option<Queued>
    ensures { result ≡ find (is_queued_by member dir) waiting.now }
{
    waiting
        .iter()
        .copied()
        .find(|w| w.member == member && w.dir == dir)
}

/// The request with this ticket.
pub fn ticket_at(waiting: &[Queued], ticket: u8) -> Option<Queued>
    ensures found { result ≡ ticket_at waiting.now ticket }
    ensures queues { IfSome result (λ w. Queues waiting.now w.dir w.member) }
    ensures in_range { All InRange waiting.now → IfSome result InRange }
{
    seek(waiting, ticket)
}

/// Takes out the request with this ticket.
pub fn remove(waiting: &mut Vec<Queued>, ticket: u8)
    ensures items { waiting.new.items ≡ queue_without waiting.old.items ticket }
    ensures capacity { vec_capacity waiting.new ≡ vec_capacity waiting.old }
    ensures fewer { length waiting.new.items ≤ length waiting.old.items }
    ensures in_range { All InRange waiting.old.items → All InRange waiting.new.items }
{
    waiting.retain(|w| w.ticket != ticket);
}

/// The ticket of the earliest request of this one's member and direction.
pub fn earliest(waiting: &[Queued], w: Queued) -> u8
    ensures { result ≡ earliest waiting.now w }
{
    match first_of(waiting, w.member, w.dir) {
        Some(first) => first.ticket,
        None => w.ticket,
    }
}

fn round(turn: u8, member: u8) -> u8
    requires turn { turn < 64 }
    requires member { member < 64 }
    ensures { result ≡ round turn member }
{
    if turn <= member {
        member - turn
    } else {
        member + MEMBERS - turn
    }
}

fn nearer(turn: u8, first: u8, second: u8) -> u8
    requires turn { turn < 64 }
    requires first { first < 64 }
    requires second { second < 64 }
    ensures one { (result ≡ first) ⊎ (result ≡ second) }
    ensures to_first { round turn result ≤ round turn first }
    ensures to_second { round turn result ≤ round turn second }
{
    if round(turn, second) < round(turn, first) {
        second
    } else {
        first
    }
}

/// Whose turn it is: the first member, from `turn` on and going round, that has a request of this
/// direction, as `member` has.
pub fn turn_member(waiting: &[Queued], dir: Dir, turn: u8, member: u8) -> u8
    requires turn { turn < 64 }
    requires in_range { All InRange waiting.now }
    requires member { member < 64 }
    requires queues { Queues waiting.now dir member }
    ensures { IsTurn waiting.now turn dir result }
{
    let mut nearest = member;
    for w in waiting {
        if w.dir == dir {
            nearest = nearer(turn, nearest, w.member);
        }
    }
    nearest
}

/// Which tickets are out.
fn taken(waiting: &[Queued]) -> [bool; TICKETS]
    ensures { ShowsTickets result waiting.now }
{
    let mut taken = [false; TICKETS];
    for w in waiting {
        taken[usize::from(w.ticket)] = true;
    }
    taken
}

fn first_free(taken: &[bool]) -> Option<usize>
    ensures { result ≡ position not taken.now }
{
    taken.iter().position(|out| !*out)
}

fn first_out(taken: &[bool]) -> Option<usize>
    ensures { result ≡ position (λ out. out) taken.now }
{
    taken.iter().position(|out| *out)
}

/// The lowest ticket that isn't out.
pub fn lowest_free(waiting: &[Queued]) -> u8
    requires { length waiting.now < 256 }
    ensures { IsLowestFree waiting.now result }
{
    match first_free(&taken(waiting)) {
        Some(ticket) => ticket as u8,
        None => unreachable!(),
    }
}

/// The lowest ticket that is out.
pub fn lowest_waiting(waiting: &[Queued]) -> Option<u8>
    requires { All InRange waiting.now }
    ensures { MatchOption result (waiting.now ≡ []) (IsLowestWaiting waiting.now) }
{
    let ticket = first_out(&taken(waiting))?;
    Some(ticket as u8)
}
