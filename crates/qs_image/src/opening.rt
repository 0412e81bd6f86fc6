ghost use Rattle.std.specs.Prelude.{◌≡◌, ◌<◌, ◌↔◌, length, map, IsTrue};
ghost use Rattle.qs_image.specs.Opening.{IsAlike, Opens, SizeFaults};

use qs_outside::Disk;
use qs_status::OpenBad;

/// How many disks an image has.
const STRIPES: usize = qs_bytes::STRIPES as usize;

/// The longest image, in bytes.
const LONGEST: u64 = 1 << 40;

/// The first rule of an image that the disks break, if they break one: there are 8 of them; each is
/// of its stripe, and of the first one's alignment and length; the alignment is 512 or 4096 bytes;
/// the length is a multiple of it, and at most 2^40 bytes.
pub fn open_fault<D: Disk>(disks: &[D]) -> Option<OpenBad>
    ensures { Opens (map D.seen disks.now) result }
{
    if disks.len() != STRIPES {
        return Some(OpenBad::Count(disks.len()));
    }
    for k in 0..STRIPES {
        if !is_alike(disks, k) {
            return Some(OpenBad::Different(k));
        }
    }
    size_fault(disks[0].align(), disks[0].length())
}

/// Whether disk `k` is of stripe `k`, and of the first one's alignment and length.
fn is_alike<D: Disk>(disks: &[D], k: usize) -> bool
    requires { k < length disks.now }
    ensures { IsTrue result ↔ IsAlike (map D.seen disks.now) k }
{
    disks[k].align() == disks[0].align()
        && disks[k].length() == disks[0].length()
        && usize::from(disks[k].stripe()) == k
}

/// The first rule on sizes that is broken.
fn size_fault(align: u32, size: u64) -> Option<OpenBad>
    ensures { SizeFaults align size result }
{
    if align != 512 && align != 4096 {
        return Some(OpenBad::Align(align));
    }
    if size % u64::from(align) != 0 {
        return Some(OpenBad::Length(size));
    }
    if size > LONGEST {
        return Some(OpenBad::TooLarge(size));
    }
    None
}
