// The check of a closed book.
ghost use Rattle.std.specs.Prelude.{◌≡◌};
ghost use Rattle.leaves.specs.Pages.{book_number, book_leaf, BookChecked};

use crate::leaf::{LEAF, is_leaf};
use journal::MAX_ENTRIES;

// Why bytes are no closed book, in the order of the tests.
#[derive(Clone, Copy, Debug, PartialEq, Eq)]
pub enum BookRefusal {
    // The bytes are not whole leaves, or more than 4,096 of them.
    NotWholeLeaves,
    // The first leaf that is the leaf of no entry, counted from 0.
    BrokenLeaf(usize),
}

impl From<BookRefusal> for u8 {
    ghost from_gives = { λ refusal number. number ≡ book_number refusal };

    fn from(refusal: BookRefusal) -> u8 {
        match refusal {
            BookRefusal::NotWholeLeaves => 51,
            BookRefusal::BrokenLeaf(_) => 52,
        }
    }
}

impl BookRefusal {
    // The broken leaf, or 0 where none is told: an `Option` would be turned back into 0 wherever it is printed.
    pub fn leaf(self) -> usize
        ensures { result ≡ book_leaf self }
    {
        match self {
            BookRefusal::NotWholeLeaves => 0,
            BookRefusal::BrokenLeaf(leaf) => leaf,
        }
    }
}

// Whether bytes are a closed book: whole leaves, at most 4,096, each the leaf of some entry.
pub fn check_book(bytes: &[u8]) -> Result<(), BookRefusal>
    ensures { BookChecked bytes.now result }
{
    let (leaves, rest) = bytes.as_chunks::<LEAF>();
    if !rest.is_empty() || leaves.len() > MAX_ENTRIES {
        return Err(BookRefusal::NotWholeLeaves);
    }
    leaves
        .iter()
        .position(|leaf| !is_leaf(leaf))
        .map_or(Ok(()), |k| Err(BookRefusal::BrokenLeaf(k)))
}
