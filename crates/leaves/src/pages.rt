// Leaves one after the other in bytes.
ghost use Rattle.std.specs.Prelude.{◌≡◌};
ghost use Rattle.std.specs.Simd.{first_chunks};
ghost use Rattle.leaves.specs.Pages.{leaves_used};

use crate::leaf::LEAF;
use journal::MAX_ENTRIES;

// The first `used` leaves in these bytes, or all whole ones if they are fewer, and no more than a journal can use.
pub(crate) fn leaves_in(bytes: &[u8], used: usize) -> &[[u8; LEAF]]
    ensures { result.now ≡ first_chunks 160 (leaves_used used bytes.now) bytes.now }
{
    let (leaves, _) = bytes.as_chunks::<LEAF>();
    &leaves[..used.min(leaves.len()).min(MAX_ENTRIES)]
}
