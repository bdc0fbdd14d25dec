// Journals that keep whole records, in whatever memory: their reading stands here once.
ghost use Rattle.std.specs.Prelude.{◌≡◌, ℕ, ◌≤◌, List, map, length};
ghost use Rattle.journal.specs.Entries.{posted};

use crate::entry::{Entry, Pair, PostingId};
use crate::journals::Reading;

// A store of entries as records. What does not exist is none, as in every reading.
pub trait Records {
    ghost use Rattle.journal.specs.declared.entry.Entry.{Entry};

    ghost records: { Self → List Entry };

    ghost most: { Self → ℕ };

    // The records filed so far, in their order.
    fn records(&self) -> &[Entry]
        ensures { result.now ≡ records self.now };

    // How many it can hold, at most 4,096.
    fn most(&self) -> usize
        ensures value { result ≡ most self.now }
        ensures holds { length (records self.now) ≤ result }
        ensures small { result ≤ 4096 };
}

impl<T: Records> Reading for T {
    ghost entries = { λ t. map posted (T.Records.records t) };

    ghost size = { T.Records.most };

    fn length(&self) -> usize {
        self.records().len()
    }

    fn size(&self) -> usize {
        self.most()
    }

    fn identity(&self, k: usize) -> Option<PostingId> {
        self.records().get(k).map(|e| e.id())
    }

    fn void(&self, k: usize) -> Option<bool> {
        self.records().get(k).map(|e| e.void)
    }

    fn hand(&self, k: usize) -> Option<i64> {
        self.records().get(k).map(|e| e.hand)
    }

    fn count(&self, k: usize) -> Option<usize> {
        self.records().get(k).map(|e| e.counted_pairs().len())
    }

    fn pair(&self, k: usize, j: usize) -> Option<Pair> {
        self.records().get(k)?.counted_pairs().get(j).copied()
    }

    fn given(&self, k: usize, account: u8) -> Option<i64> {
        self.records().get(k)?.value_for(account)
    }
}
