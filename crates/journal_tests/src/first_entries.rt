// The first entries of another reading.
ghost use Rattle.std.specs.Prelude.{◌≡◌, ◌<◌, ◌≤◌, min, take, MatchOption};

use journal::{Pair, PostingId, Reading};

// A reading of the first `most` entries of another, or of all if they are fewer.
#[derive(Debug, Drop)]
pub struct FirstEntries<'a, R> {
    pub reading: &'a R,
    pub most: usize,
}

impl<'a, R: Reading> FirstEntries<'a, R> {
    // The other reading, to ask it of an entry that is among the first.
    fn keeping(&self, k: usize) -> Option<&'a R>
        ensures { MatchOption result (self.now.most ≤ k) (λ r. (r.now ≡ self.now.reading.now) × (k < self.now.most)) }
    {
        (k < self.most).then_some(self.reading)
    }
}

impl<'a, R: Reading> Reading for FirstEntries<'a, R> {
    ghost entries = { λ f. take f.most (R.Reading.entries f.reading.now) };

    ghost size = { λ f. min f.most (R.Reading.size f.reading.now) };

    fn length(&self) -> usize {
        self.most.min(self.reading.length())
    }

    fn size(&self) -> usize {
        self.most.min(self.reading.size())
    }

    fn identity(&self, k: usize) -> Option<PostingId> {
        self.keeping(k)?.identity(k)
    }

    fn void(&self, k: usize) -> Option<bool> {
        self.keeping(k)?.void(k)
    }

    fn hand(&self, k: usize) -> Option<i64> {
        self.keeping(k)?.hand(k)
    }

    fn count(&self, k: usize) -> Option<usize> {
        self.keeping(k)?.count(k)
    }

    fn pair(&self, k: usize, j: usize) -> Option<Pair> {
        self.keeping(k)?.pair(k, j)
    }

    fn given(&self, k: usize, account: u8) -> Option<i64> {
        self.keeping(k)?.given(k, account)
    }
}
