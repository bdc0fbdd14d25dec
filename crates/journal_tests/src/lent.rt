// What the lender's memory holds once a roll or a journal over it is gone.
ghost use Rattle.std.specs.Prelude.{◌≡◌, is_ok, if◌then◌else◌, slice_set};
ghost use Rattle.journal.specs.Entries.{posted};
ghost use Rattle.journal.specs.Filing.{filing};
ghost use Rattle.leaves.specs.Leaf.{leaf_of};
ghost use Rattle.leaves.specs.Pages.{leaf_put, whole_leaves};

use journal::{Entry, FilingRefusal, Journal};
use leaves::Leaves;
use roll::Roll;

// Pushes two items. The first two cells hold them afterwards, and all others are as they were.
pub fn push_two(cells: &mut [u32], first: u32, second: u32)
    ensures { cells.new ≡ slice_set (slice_set cells.old 0 first) 1 second }
{
    let mut roll = Roll::new(cells);
    let _ = roll.push(first);
    let _ = roll.push(second);
}

// Files one entry. The first leaf is its leaf afterwards, and all other bytes are as they were.
pub fn file_on_leaves(bytes: &mut [u8], e: &Entry) -> Result<(), FilingRefusal>
    ensures answer { result ≡ filing e.now 0 0 (whole_leaves bytes.old) }
    ensures bytes { bytes.new ≡ (if is_ok result then leaf_put bytes.old 0 (leaf_of (posted e.now)) else bytes.old) }
{
    let mut journal = Leaves::new(bytes);
    journal.file(0, e)
}
