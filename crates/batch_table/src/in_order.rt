// Which records a batch can give.
ghost use Rattle.std.specs.Prelude.{◌≡◌, ◌≤◌, Decides};
ghost use Rattle.batch_table.specs.Given.{Given, FilledTablesPass};
ghost use Rattle.batch_table.specs.InOrder.{unbegun, ends_at, allows as allows_in, reached_with, records_in_order, from_a_batch};
ghost use Rattle.batch_table.specs.Orderly.{Orderly};

use crate::order_lines::lines_in_range;
use batch::{MOST_HOUSES, MOST_LINES, MOST_POSTINGS, OrderLine, Posting};

// How far records of postings are in order.
#[derive(Clone, Copy, Debug, PartialEq, Eq)]
pub struct Reached {
    // The house of the last record, and how many records of it have come.
    pub house: u8,
    pub here: usize,
    // Where the order lines of the last record begin.
    pub first: usize,
    // How many it may have: none before the first record. A count and no `Option`, so that no test has a case for the
    // start.
    pub most: usize,
}

impl Reached {
    fn start() -> Self
        ensures { result ≡ unbegun }
    {
        Reached {
            house: 0,
            here: 0,
            first: 0,
            most: 0,
        }
    }

    // Whether the order lines of the last record may end here.
    fn may_end(&self, end: usize) -> bool
        ensures { result ≡ ends_at self.now end }
    {
        self.first <= end && end - self.first <= self.most
    }

    // One more record.
    fn with(&self, posting: Posting) -> Self
        requires { self.now.here ≤ 4096 }
        ensures { result ≡ reached_with self.now posting }
    {
        let here = if posting.house == self.house {
            self.here + 1
        } else {
            1
        };
        Reached {
            house: posting.house,
            here,
            first: posting.first,
            most: MOST_LINES,
        }
    }

    // Whether a record may come next.
    fn allows(&self, posting: Posting, houses: u8) -> bool
        requires { self.now.here ≤ 4096 }
        ensures { result ≡ allows_in houses self.now posting }
    {
        self.may_end(posting.first)
            && self.house <= posting.house
            && posting.house < houses
            && self.with(posting).here <= MOST_POSTINGS
    }
}

// Whether each record may come after those before it, and the last one's order lines end here. A loop, since each record is
// tested against what is known of those before it.
fn records_in_order(houses: u8, postings: &[Posting], end: usize) -> bool
    ensures { result ≡ records_in_order houses postings.now end }
{
    let mut reached = Reached::start();
    for posting in postings {
        if !reached.allows(*posting, houses) {
            return false;
        }
        reached = reached.with(*posting);
    }
    reached.may_end(end)
}

// The tests of records, one after the other.
fn passes(houses: u8, postings: &[Posting], lines: &[OrderLine]) -> bool
    ensures { result ≡ from_a_batch houses postings.now lines.now }
{
    (1..=MOST_HOUSES).contains(&houses)
        && records_in_order(houses, postings, lines.len())
        && lines_in_range(lines)
}

// Whether some batch, however long, gives this number of houses, these postings and these order lines.
// What the reader fills from an accepted batch always passes.
pub fn is_from_a_batch(houses: u8, postings: &[Posting], lines: &[OrderLine]) -> bool
    ensures test { result ≡ from_a_batch houses postings.now lines.now }
    ensures orderly { Decides result (Orderly houses postings.now lines.now) }
    ensures given { Decides result (Given houses postings.now lines.now) }
    ensures filled { FilledTablesPass }
{
    passes(houses, postings, lines)
}
