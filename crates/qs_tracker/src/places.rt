ghost use Rattle.std.specs.Prelude.{◌≡◌, ◌<◌, ◌≤◌, ℕ, length, count_by, position, IfSome, MatchOption};
ghost use Rattle.qs_tracker.specs.Seats.{IsClear, IsLowestBefore, VacantFrom, lower_of, is_vacant, is_in, is_listed, rank, ranked, renumbered};

use crate::seat::{Listing, Seat};

/// How many places there are.
pub const PLACES: usize = 256;

/// The lowest free place.
pub fn first_vacant(seats: &[Seat]) -> Option<usize>
    ensures first { result ≡ position is_vacant seats.now }
    ensures inside { IfSome result (λ k. k < length seats.now) }
{
    seats.iter().position(|seat| seat.is_vacant())
}

/// The lowest place that a request has.
pub fn first_in(seats: &[Seat]) -> Option<usize>
    ensures first { result ≡ position is_in seats.now }
    ensures inside { IfSome result (λ k. k < length seats.now) }
{
    seats.iter().position(|seat| seat.is_in())
}

/// How many places there are up to the last one that a request has.
pub fn top_of(seats: &[Seat]) -> usize
    ensures inside { result ≤ length seats.now }
    ensures rest { VacantFrom result seats.now }
    ensures least { (n : ℕ) → VacantFrom n seats.now → result ≤ n }
{
    match seats.iter().rposition(|seat| seat.is_in()) {
        Some(k) => k + 1,
        None => 0,
    }
}

fn lower(first: Option<u64>, second: Option<u64>) -> Option<u64>
    ensures { result ≡ lower_of first second }
{
    match (first, second) {
        (Some(n), Some(m)) => Some(n.min(m)),
        (Some(n), None) => Some(n),
        (None, other) => other,
    }
}

/// The lowest number of a listed span that `own` has to wait for.
pub fn lowest_before(seats: &[Seat], own: &Listing) -> Option<u64>
    ensures { MatchOption result (IsClear seats.now own.now) (IsLowestBefore seats.now own.now) }
{
    let mut lowest = None;
    for seat in seats {
        lowest = lower(lowest, seat.number_before(own));
    }
    lowest
}

/// How many spans are listed.
pub fn count_listed(seats: &[Seat]) -> usize
    ensures { result ≡ count_by is_listed seats.now }
{
    seats.iter().filter(|seat| seat.is_listed()).count()
}

fn rank(seats: &[Seat], n: u64) -> usize
    ensures { result ≡ rank seats.now n }
{
    seats.iter().filter(|seat| seat.is_listed_below(n)).count()
}

fn ranked(seats: &[Seat], seat: Seat) -> Seat
    ensures { result ≡ ranked seats.now seat }
{
    match seat {
        Seat::Has(listing) => Seat::Has(Listing {
            number: rank(seats, listing.number) as u64,
            ..listing
        }),
        other => other,
    }
}

/// Numbers the listed spans 0, 1, 2 and so on, in their order.
#[cold]
pub fn renumber(seats: &mut [Seat])
    requires { length seats.old ≡ 256 }
    ensures { seats.new ≡ renumbered seats.old }
{
    let mut old = [Seat::Vacant; PLACES];
    old.copy_from_slice(seats);
    for seat in seats {
        *seat = ranked(&old, *seat);
    }
}
