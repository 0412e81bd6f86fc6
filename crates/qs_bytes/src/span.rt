ghost use Rattle.std.specs.Prelude.{◌≡◌, ◌+◌, ◌%◌, ◌^◌, ◌<◌, ◌≤◌, ◌↔◌, ◌⊎◌, IsTrue};
ghost use Rattle.std.specs.Option.{SomeIff};
ghost use Rattle.qs_bytes.specs.Spans.{Overlap, aligned_out, rounded_up};

use std::marker::Model;

/// The places from `lo` up to and without `hi`, which isn't below `lo`. Places are bytes.
#[derive(Clone, Copy, Debug, PartialEq, Eq)]
pub struct Span {
    lo: u64,
    hi: u64,
}

impl Model for Span {
    ghost use Rattle.std.specs.Prelude.{◌≤◌};
    ghost use Rattle.qs_bytes.specs.Spans.{Places};

    ghost Value = { Places };

    ghost view = { λ s. record { lo = s.lo; hi = s.hi } };

    ghost invariant = { λ s. s.lo ≤ s.hi };

    ghost inverse = { λ p. record { lo = p.lo; hi = p.hi } };
}

impl Span {
    /// The span of `length` bytes from `offset` on; `None` exactly where its end passes 2^64 - 1.
    pub fn of(offset: u64, length: u64) -> Option<Self>
        ensures { SomeIff result (offset + length < 2 ^ 64) (record { lo = offset; hi = offset + length }) }
    {
        match offset.checked_add(length) {
            Some(hi) => Some(Span { lo: offset, hi }),
            None => None,
        }
    }

    /// The first place.
    pub fn lo(&self) -> u64
        ensures lo { result ≡ self.now.lo }
        ensures ordered { self.now.lo ≤ self.now.hi }
    {
        self.lo
    }

    /// The place behind the last one.
    pub fn hi(&self) -> u64
        ensures hi { result ≡ self.now.hi }
        ensures ordered { self.now.lo ≤ self.now.hi }
    {
        self.hi
    }

    /// Whether some place is in both.
    pub fn overlaps(&self, other: &Span) -> bool
        ensures { IsTrue result ↔ Overlap self.now other.now }
    {
        self.lo.max(other.lo) < self.hi.min(other.hi)
    }

    /// Whether both ends are multiples of `align`.
    pub fn is_aligned(&self, align: u32) -> bool
        requires { 0 < align }
        ensures { IsTrue result ↔ ((self.now.lo % align ≡ 0) × (self.now.hi % align ≡ 0)) }
    {
        let align = u64::from(align);
        self.lo % align == 0 && self.hi % align == 0
    }

    /// The whole blocks of `align` bytes that the span reaches; `None` exactly where the end of the
    /// last one passes 2^64 - 1.
    pub fn align_out(&self, align: u32) -> Option<Self>
        requires some { self.now.lo < self.now.hi }
        requires align { (align ≡ 512) ⊎ (align ≡ 4096) }
        ensures { SomeIff result (rounded_up self.now.hi align < 2 ^ 64) (aligned_out self.now align) }
    {
        let align = u64::from(align);
        let lo = self.lo / align * align;
        let blocks = self.hi.div_ceil(align);
        match blocks.checked_mul(align) {
            Some(hi) => Some(Span { lo, hi }),
            None => None,
        }
    }
}
