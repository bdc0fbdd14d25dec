// The postings and order lines of a batch, held for reading.
ghost use Rattle.std.specs.Prelude.{◌≡◌, ℕ, ◌≤◌, true, slice_index};
ghost use Rattle.batch_table.specs.InOrder.{in_order};
ghost use Rattle.batch_table.specs.TableSource.{before};

use batch::{OrderLine, Posting};

// One more than the houses, since the postings of a house end where those of the next begin.
pub(crate) const STARTS: usize = 17;

// The postings of up to 16 houses and their order lines, as a batch gives them. Whatever it holds is in order.
#[derive(Debug, Drop)]
pub struct BatchTable<'a> {
    pub(crate) houses: u8,
    pub(crate) postings: &'a [Posting],
    pub(crate) lines: &'a [OrderLine],
    // For each house, how many postings stand before its own: counted once, and of one size, so that no heap is needed.
    pub(crate) starts: [usize; STARTS],
    ghost few: { houses ≤ 16 },
    ghost good: { in_order houses postings.now lines.now ≡ true },
    ghost begun: { (house : ℕ) → house ≤ 16 → slice_index starts house ≡ before house postings.now },
}
