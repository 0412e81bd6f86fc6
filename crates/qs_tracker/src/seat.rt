ghost use Rattle.std.specs.Prelude.{◌≡◌, ◌↔◌, IsTrue, MatchOption};
ghost use Rattle.qs_tracker.specs.Seats.{Conflict, Precedes, seat_number, is_vacant, is_in, is_listed, is_listed_below};

use qs_bytes::Span;

/// A listed span: whole blocks in bytes, whether it is serialising, its number in the order of
/// listing, and whether its request goes.
#[derive(Clone, Copy, Debug, PartialEq, Eq)]
pub struct Listing {
    pub span: Span,
    pub serial: bool,
    pub number: u64,
    pub started: bool,
}

/// A place of the tracker: free, taken by a request, or taken by one that listed its span.
#[derive(Clone, Copy, Debug, PartialEq, Eq)]
pub enum Seat {
    Vacant,
    Present,
    Has(Listing),
}

impl Listing {
    /// Whether the spans overlap and one of them is serialising (QEMU block/io.c).
    pub fn conflicts(&self, other: &Listing) -> bool
        ensures { IsTrue result ↔ Conflict self.now other.now }
    {
        self.span.overlaps(&other.span) && (self.serial || other.serial)
    }
}

impl Seat {
    /// Whether no request is here.
    pub fn is_vacant(&self) -> bool
        ensures { result ≡ is_vacant self.now }
    {
        matches!(self, Seat::Vacant)
    }

    /// Whether a request is here.
    pub fn is_in(&self) -> bool
        ensures { result ≡ is_in self.now }
    {
        !self.is_vacant()
    }

    /// Whether a span is listed here.
    pub fn is_listed(&self) -> bool
        ensures { result ≡ is_listed self.now }
    {
        matches!(self, Seat::Has(_))
    }

    /// Whether a span of a number below `n` is listed here.
    pub fn is_listed_below(&self, n: u64) -> bool
        ensures { result ≡ is_listed_below n self.now }
    {
        match self {
            Seat::Has(listing) => listing.number < n,
            _ => false,
        }
    }

    /// The number of the span that is listed here, if `own` has to wait for it.
    pub fn number_before(&self, own: &Listing) -> Option<u64>
        ensures { MatchOption result (Precedes self.now own.now → ⊥)
            (λ n. Precedes self.now own.now × (n ≡ seat_number self.now)) }
    {
        match self {
            Seat::Has(listing) if listing.number < own.number && listing.conflicts(own) => {
                Some(listing.number)
            }
            _ => None,
        }
    }
}
