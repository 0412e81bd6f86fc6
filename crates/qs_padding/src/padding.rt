ghost use Rattle.std.specs.Prelude.{◌≡◌, ◌≢◌, ◌↔◌, IsTrue, false, ℕ, ◌^◌, ◌+◌, ◌*◌, ◌<◌, ◌≤◌, ◌⊎◌, [], length};
ghost use Rattle.std.specs.Option.{SomeIff};
ghost use Rattle.std.specs.List.{slice_index_or};
ghost use Rattle.qs_bytes.specs.Spans.{aligned_out};
ghost use Rattle.qs_padding.specs.Padding.{first_block, last_block, CoversBlock, merged_at};

use crate::planned::Plan;
use qs_bytes::Span;

/// Whether the span covers block `b` wholly.
fn covers_block(span: &Span, align: u64, b: u64) -> bool
    requires { b * align + align < 2 ^ 64 }
    ensures { IsTrue result ↔ CoversBlock span.now align b }
{
    let start = b * align;
    span.lo() <= start && start + align <= span.hi()
}

fn unless(covered: bool, b: u64) -> Option<u64>
    ensures { SomeIff result (covered ≡ false) b }
{
    if covered { None } else { Some(b) }
}

/// The whole blocks that a span reaches, and those that it covers only in part.
pub fn plan(span: &Span, align: u32) -> Plan
    requires some { span.now.lo < span.now.hi }
    requires size { span.now.hi ≤ 2 ^ 40 }
    requires align { (align ≡ 512) ⊎ (align ≡ 4096) }
    ensures whole { result.whole ≡ aligned_out span.now align }
    ensures head { SomeIff result.head (CoversBlock span.now align (first_block span.now align) → ⊥)
        (first_block span.now align) }
    ensures tail { SomeIff result.tail ((CoversBlock span.now align (last_block span.now align) → ⊥)
        × (last_block span.now align ≢ first_block span.now align)) (last_block span.now align) }
{
    let size = u64::from(align);
    let first = span.lo() / size;
    let last = (span.hi() - 1) / size;
    let Some(whole) = span.align_out(align) else {
        unreachable!()
    };
    Plan {
        whole,
        head: unless(covers_block(span, size, first), first),
        tail: unless(last == first || covers_block(span, size, last), last),
    }
}

/// Writes the span's bytes over the places of block `b` that the span covers; the other bytes of
/// the block stay. A block has as many bytes as `block`.
pub fn merge(block: &mut [u8], b: u64, span: &Span, bytes: &[u8])
    requires { span.now.lo + length bytes.now ≡ span.now.hi }
    ensures { (i : ℕ) → i < length block.old →
        slice_index_or block.new i 0 ≡ merged_at span.now bytes.now (b * length block.old + i)
        (slice_index_or block.old i 0) }
{
    let lo = span.lo();
    let hi = span.hi();
    let size = block.len() as u64;
    let Some(start) = b.checked_mul(size) else {
        return;
    };
    let from = lo.max(start);
    let to = hi.min(start.saturating_add(size));
    if from < to {
        let piece = &bytes[(from - lo) as usize..(to - lo) as usize];
        block[(from - start) as usize..(to - start) as usize].copy_from_slice(piece);
    }
}

/// Writes zeros over the places of block `b` that the span covers; the other bytes of the block stay.
/// A block has as many bytes as `block`.
pub fn clear(block: &mut [u8], b: u64, span: &Span)
    ensures { (i : ℕ) → i < length block.old →
        slice_index_or block.new i 0 ≡ merged_at span.now [] (b * length block.old + i) (slice_index_or block.old i 0) }
{
    let lo = span.lo();
    let hi = span.hi();
    let size = block.len() as u64;
    let Some(start) = b.checked_mul(size) else {
        return;
    };
    let first = lo.max(start);
    let last = hi.min(start.saturating_add(size));
    if first < last {
        block[(first - start) as usize..(last - start) as usize].fill(0);
    }
}
