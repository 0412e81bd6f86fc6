ghost use Rattle.std.specs.Prelude.{◌≡◌, ℕ, ◌+◌, ◌*◌, ◌<◌, ◌==◌, if◌then◌else◌, [], length};
ghost use Rattle.std.specs.List.{slice_index_or};
ghost use Rattle.qs_padding.specs.Padding.{merged_at};

use qs_bytes::{Bytes, Span};
use qs_padding::padding::{clear, merge};

/// Puts the pad over the block, if there is one.
fn pad_over(block: &mut [u8], pad: &[u8])
    ensures { block.new ≡ (if length pad.now == length block.old then pad.now else block.old) }
{
    if pad.len() == block.len() {
        block.copy_from_slice(pad);
    }
}

/// The same over the bytes of a vector.
fn pad_into(block: &mut Vec<u8>, pad: &[u8])
    ensures { block.new.items ≡ (if length pad.now == length block.old.items then pad.now else block.old.items) }
{
    pad_over(block.as_mut_slice(), pad);
}

/// Merges the covered bytes of block `b` into the bytes of a vector.
fn merge_into(block: &mut Vec<u8>, b: u64, span: &Span, bytes: &[u8])
    requires { span.now.lo + length bytes.now ≡ span.now.hi }
    ensures len { length block.new.items ≡ length block.old.items }
    ensures merged { (i : ℕ) → i < length block.old.items →
        slice_index_or block.new.items i 0 ≡ merged_at span.now bytes.now (b * length block.old.items + i)
        (slice_index_or block.old.items i 0) }
{
    merge(block.as_mut_slice(), b, span, bytes);
}

/// The block with the pad over it and the covered bytes merged.
pub fn merged(work: Bytes, pad: &[u8], b: u64, span: &Span, bytes: &[u8]) -> Bytes
    requires { span.now.lo + length bytes.now ≡ span.now.hi }
    ensures len { length result ≡ length work }
    ensures merged { (i : ℕ) → i < length work →
        slice_index_or result i 0 ≡ merged_at span.now bytes.now (b * length work + i)
        (slice_index_or (if length pad.now == length work then pad.now else work) i 0) }
{
    let mut block = work.into_vec();
    pad_into(&mut block, pad);
    merge_into(&mut block, b, span, bytes);
    Bytes::of(block)
}

/// Clears the covered bytes of block `b` in the bytes of a vector.
fn clear_in(block: &mut Vec<u8>, b: u64, span: &Span)
    ensures len { length block.new.items ≡ length block.old.items }
    ensures cleared { (i : ℕ) → i < length block.old.items →
        slice_index_or block.new.items i 0 ≡ merged_at span.now [] (b * length block.old.items + i)
        (slice_index_or block.old.items i 0) }
{
    clear(block.as_mut_slice(), b, span);
}

/// The block with the pad over it and the covered bytes cleared.
pub fn cleared(work: Bytes, pad: &[u8], b: u64, span: &Span) -> Bytes
    ensures len { length result ≡ length work }
    ensures cleared { (i : ℕ) → i < length work →
        slice_index_or result i 0 ≡ merged_at span.now [] (b * length work + i)
        (slice_index_or (if length pad.now == length work then pad.now else work) i 0) }
{
    let mut block = work.into_vec();
    pad_into(&mut block, pad);
    clear_in(&mut block, b, span);
    Bytes::of(block)
}
