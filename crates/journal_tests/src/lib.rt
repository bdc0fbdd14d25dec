// A customer's own journal and reading, and the tests of rolls and journals.
#![tactic(auto)]

mod first_entries;
mod heap;
mod heap_journal;
mod lent;
#[cfg(test)]
mod samples;
#[cfg(test)]
mod test_balances;
#[cfg(test)]
mod test_books;
#[cfg(test)]
mod test_filing;
#[cfg(test)]
mod test_lines;
#[cfg(test)]
mod test_rolls;

pub use first_entries::FirstEntries;
pub use heap::HeapJournal;
pub use lent::{file_on_leaves, push_two};
