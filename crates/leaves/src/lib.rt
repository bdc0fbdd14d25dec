// Journals in bytes: a leaf of 160 bytes for each entry, filed in or held for reading.
#![tactic(auto)]

mod book_check;
mod book_reading;
mod byte_filing;
mod byte_journal;
mod closed_book;
mod leaf;
mod pages;

pub use book_check::{BookRefusal, check_book};
pub use byte_journal::Leaves;
pub use closed_book::ClosedBook;
pub use leaf::{LEAF, leaf_laws};
