// What every journal can be asked, and how an entry is filed in one.
ghost use Rattle.std.specs.Prelude.{◌≡◌, ℕ, ◌≤◌, Bool, List, length};
ghost use Rattle.journal.specs.Entries.{Posted};
ghost use Rattle.journal.specs.Readings.{id_at, void_at, hand_at, count_at, pair_in, given_at};
ghost use Rattle.journal.specs.Filing.{filing, filed, filing_number};
ghost use Rattle.journal.specs.declared.journals.FilingRefusal.TheVariants.{Full};

use crate::entry::{Entry, Pair, PostingId, is_entry};

// The most entries that a journal can hold.
pub const MAX_ENTRIES: usize = 4096;

// The reading part of a journal. It means a list of entries, counted from 0, and a size that bounds the list.
// No question alters anything, and what does not exist is none.
pub trait Reading {
    ghost entries: { Self → List Posted };

    ghost size: { Self → ℕ };

    // How many entries stand in it.
    fn length(&self) -> usize
        ensures { result ≡ length (entries self.now) };

    // How many entries it can hold, at most 4,096.
    fn size(&self) -> usize
        ensures value { result ≡ size self.now }
        ensures holds { length (entries self.now) ≤ result }
        ensures small { result ≤ 4096 };

    // The house and the number of the posting that entry `k` is of.
    fn identity(&self, k: usize) -> Option<PostingId>
        ensures { result ≡ id_at (entries self.now) k };

    // Whether entry `k` is void.
    fn void(&self, k: usize) -> Option<bool>
        ensures { result ≡ void_at (entries self.now) k };

    // The hand that entry `k` closes with.
    fn hand(&self, k: usize) -> Option<i64>
        ensures { result ≡ hand_at (entries self.now) k };

    // How many pairs entry `k` has.
    fn count(&self, k: usize) -> Option<usize>
        ensures { result ≡ count_at (entries self.now) k };

    // Pair `j` of entry `k`.
    fn pair(&self, k: usize, j: usize) -> Option<Pair>
        ensures { result ≡ pair_in (entries self.now) k j };

    // The value that entry `k` gives the account.
    fn given(&self, k: usize, account: u8) -> Option<i64>
        ensures { result ≡ given_at (entries self.now) k account };
}

// Why an entry was not filed, in the order of the tests, each with its number. The journal is then as it was.
#[derive(Clone, Copy, Debug, PartialEq, Eq)]
pub enum FilingRefusal {
    // The record is no entry.
    NotAnEntry = 61,
    // The place is not the journal's length.
    NotAtTheEnd = 62,
    // The journal has as many entries as its size.
    Full = 63,
}

impl From<FilingRefusal> for u8 {
    ghost from_gives = { λ refusal number. number ≡ filing_number refusal };

    fn from(refusal: FilingRefusal) -> u8 {
        refusal as u8
    }
}

// A journal over a roll is full where the roll is.
impl From<roll::Full> for FilingRefusal {
    ghost from_gives = { λ full refusal. refusal ≡ Full };

    fn from(_full: roll::Full) -> FilingRefusal {
        FilingRefusal::Full
    }
}

// A journal: a reading part that can also file an entry.
pub trait Journal: Reading {
    // Whether this entry can be filed at this place, or the first of the reasons why not.
    fn can_file(&self, place: usize, e: &Entry) -> Result<(), FilingRefusal>
        ensures { result ≡ filing e.now place (length (Self.Reading.entries self.now)) (Self.Reading.size self.now) }
    {
        if !is_entry(e) {
            return Err(FilingRefusal::NotAnEntry);
        }
        if place != self.length() {
            return Err(FilingRefusal::NotAtTheEnd);
        }
        if place >= self.size() {
            return Err(FilingRefusal::Full);
        }
        Ok(())
    }

    // Files exactly this entry at the end, which the place has to name.
    fn file(&mut self, place: usize, e: &Entry) -> Result<(), FilingRefusal>
        ensures answer { result ≡ filing e.now place (length (Self.Reading.entries self.old)) (Self.Reading.size self.old) }
        ensures entries { Self.Reading.entries self.new ≡ filed result e.now (Self.Reading.entries self.old) }
        ensures size { Self.Reading.size self.new ≡ Self.Reading.size self.old };
}
