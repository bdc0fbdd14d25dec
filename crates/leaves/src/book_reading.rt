// A closed book has the reading part of a journal alone.
ghost use Rattle.std.specs.Prelude.{◌≡◌, length};
ghost use Rattle.std.specs.Option.{option_map};
ghost use Rattle.std.specs.List.{slice_get};
ghost use Rattle.leaves.specs.Leaf.{entry_on};
ghost use Rattle.leaves.specs.Pages.{Kept, BookOpened};
ghost use Rattle.leaves.specs.Stores.{book_entries};

use crate::book_check::check_book;
use crate::closed_book::ClosedBook;
use crate::leaf::{LEAF, count_on, given_on, hand_on, identity_on, pair_on, void_on};
use crate::pages::leaves_in;
use journal::{MAX_ENTRIES, Pair, PostingId, Reading};

// The bytes if they are a closed book, else none of them.
fn checked(bytes: &[u8]) -> &[u8]
    ensures { Kept bytes.now result.now }
{
    check_book(bytes).map_or(&[], |()| bytes)
}

impl<'a> ClosedBook<'a> {
    // The book of these leaves; an empty one if `check_book` refuses them.
    pub fn open(bytes: &'a [u8]) -> Self
        ensures { BookOpened bytes.now (book_entries result) }
    {
        ClosedBook {
            bytes: checked(bytes),
        }
    }

    // The leaf of entry `k`.
    fn leaf(&self, k: usize) -> Option<&[u8; LEAF]>
        ensures { option_map (λ leaf. entry_on leaf.now) result ≡ slice_get (book_entries self.now) k }
    {
        leaves_in(self.bytes, MAX_ENTRIES).get(k)
    }
}

// The same answers stand in `byte_filing`: a crate may not implement the trait of another for all types with leaves, and
// as a store of `Records` each question would decode the whole leaf.
impl<'a> Reading for ClosedBook<'a> {
    ghost entries = { book_entries };

    ghost size = { λ b. length (book_entries b) };

    fn length(&self) -> usize {
        leaves_in(self.bytes, MAX_ENTRIES).len()
    }

    fn size(&self) -> usize {
        self.length()
    }

    fn identity(&self, k: usize) -> Option<PostingId> {
        self.leaf(k).map(identity_on)
    }

    fn void(&self, k: usize) -> Option<bool> {
        self.leaf(k).map(void_on)
    }

    fn hand(&self, k: usize) -> Option<i64> {
        self.leaf(k).map(hand_on)
    }

    fn count(&self, k: usize) -> Option<usize> {
        self.leaf(k).map(count_on)
    }

    fn pair(&self, k: usize, j: usize) -> Option<Pair> {
        self.leaf(k).and_then(|leaf| pair_on(leaf, j))
    }

    fn given(&self, k: usize, account: u8) -> Option<i64> {
        self.leaf(k).and_then(|leaf| given_on(leaf, account))
    }
}
