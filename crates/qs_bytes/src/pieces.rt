ghost use Rattle.std.specs.Prelude.{◌≡◌, ◌+◌, ◌≤◌, length, vec_len};
ghost use Rattle.qs_bytes.specs.Pieces.{overlay};

/// Writes a piece over the bytes, from the place `at` on.
#[tactic(auto, unfolding(crate::specs::Pieces::overlay))]
pub fn write_over(bytes: &mut [u8], at: usize, piece: &[u8])
    requires { at + length piece.now ≤ length bytes.old }
    ensures { bytes.new ≡ overlay bytes.old at piece.now }
{
    bytes[at..at + piece.len()].copy_from_slice(piece);
}

/// The same over the bytes of a vector.
pub fn write_into(bytes: &mut Vec<u8>, at: usize, piece: &[u8])
    requires { at + length piece.now ≤ length bytes.old.items }
    ensures items { bytes.new.items ≡ overlay bytes.old.items at piece.now }
    ensures len { vec_len bytes.new ≡ vec_len bytes.old }
{
    write_over(bytes.as_mut_slice(), at, piece);
}
