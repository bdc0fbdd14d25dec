// A journal in bytes files an entry by writing its leaf.
ghost use Rattle.std.specs.Prelude.{◌≡◌, ◌*◌, ◌/◌, [], length, take, is_ok, if◌then◌else◌};
ghost use Rattle.std.specs.Option.{option_map};
ghost use Rattle.std.specs.List.{slice_get};
ghost use Rattle.journal.specs.Entries.{posted};
ghost use Rattle.journal.specs.Filing.{filing, filed};
ghost use Rattle.leaves.specs.Leaf.{entry_on, leaf_of};
ghost use Rattle.leaves.specs.Pages.{whole_leaves, leaf_put, entries_on, GoodBook};
ghost use Rattle.leaves.specs.Stores.{leaf_entries, leaf_size};

use crate::byte_journal::Leaves;
use crate::leaf::{LEAF, count_on, encode, given_on, hand_on, identity_on, pair_on, void_on};
use crate::pages::leaves_in;
use journal::{Entry, FilingRefusal, Journal, MAX_ENTRIES, Pair, PostingId, Reading};

impl<'a> Leaves<'a> {
    // An empty journal over these bytes. A part of a leaf at their end is left alone.
    pub fn new(bytes: &'a mut [u8]) -> Self
        ensures entries { leaf_entries result ≡ [] }
        ensures size { leaf_size result ≡ whole_leaves bytes.old }
        ensures bytes { result.bytes.now ≡ bytes.old }
        ensures lender { result.bytes.ghost_name ≡ bytes.entry.ghost_name }
    {
        Leaves { bytes, used: 0 }
    }

    // The leaf of entry `k`.
    fn leaf(&self, k: usize) -> Option<&[u8; LEAF]>
        ensures { option_map (λ leaf. entry_on leaf.now) result ≡ slice_get (leaf_entries self.now) k }
    {
        leaves_in(self.bytes, self.used).get(k)
    }

    // The leaves in use, as they can be kept or sent: a closed book of the same entries.
    pub fn as_bytes(&self) -> &[u8]
        ensures value { result.now ≡ take (160 * length (leaf_entries self.now)) self.now.bytes.now }
        ensures entries { entries_on (length result.now / 160) result.now ≡ leaf_entries self.now }
        ensures good { GoodBook result.now }
    {
        let end = LEAF * self.length();
        &self.bytes[..end]
    }
}

// The same answers stand in `book_reading`: a crate may not implement the trait of another for all types with leaves, and
// as a store of `Records` each question would decode the whole leaf.
impl<'a> Reading for Leaves<'a> {
    ghost entries = { leaf_entries };

    ghost size = { leaf_size };

    fn length(&self) -> usize {
        leaves_in(self.bytes, self.used).len()
    }

    fn size(&self) -> usize {
        leaves_in(self.bytes, MAX_ENTRIES).len()
    }

    fn identity(&self, k: usize) -> Option<PostingId> {
        self.leaf(k).map(identity_on)
    }

    fn void(&self, k: usize) -> Option<bool> {
        self.leaf(k).map(void_on)
    }

    fn hand(&self, k: usize) -> Option<i64> {
        self.leaf(k).map(hand_on)
    }

    fn count(&self, k: usize) -> Option<usize> {
        self.leaf(k).map(count_on)
    }

    fn pair(&self, k: usize, j: usize) -> Option<Pair> {
        self.leaf(k).and_then(|leaf| pair_on(leaf, j))
    }

    fn given(&self, k: usize, account: u8) -> Option<i64> {
        self.leaf(k).and_then(|leaf| given_on(leaf, account))
    }
}

impl<'a> Journal for Leaves<'a> {
    fn file(&mut self, place: usize, e: &Entry) -> Result<(), FilingRefusal>
        ensures answer { result ≡ filing e.now place (length (leaf_entries self.old)) (leaf_size self.old) }
        ensures entries { leaf_entries self.new ≡ filed result e.now (leaf_entries self.old) }
        ensures size { leaf_size self.new ≡ leaf_size self.old }
        ensures bytes { self.new.bytes.now ≡ (if is_ok result then leaf_put self.old.bytes.now (length (leaf_entries self.old)) (leaf_of (posted e.now)) else self.old.bytes.now) }
        ensures lender { self.new.bytes.ghost_name ≡ self.old.bytes.ghost_name }
    {
        self.can_file(place, e)?;
        let from = LEAF * place;
        self.bytes[from..from + LEAF].copy_from_slice(&encode(e));
        self.used = place + 1;
        Ok(())
    }
}
