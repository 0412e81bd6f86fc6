ghost use Rattle.std.specs.Prelude.{◌≡◌};
ghost use Rattle.qs_bytes.specs.Geometry.{stripe_of};

/// How many stripes an image is cut into. Each is a disk of its own.
pub const STRIPES: u8 = 8;

/// The stripe of a block: every eighth run of 16 blocks.
pub fn stripe_of(b: u64) -> u8
    ensures { result ≡ stripe_of b }
{
    (b / 16 % 8) as u8
}
