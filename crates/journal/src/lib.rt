// Journals: lists of entries that only grow, what can be asked of them, and one journal, in the host's records.
#![tactic(auto)]

mod balances;
mod cells;
mod entry;
mod journals;
mod line_buffer;
mod lines;
mod records;

pub use balances::{ACCOUNTS, BalanceRefusal, Given, balance, last_given};
pub use cells::Cells;
pub use entry::{Entry, LAST_ACCOUNT, MAX_PAIRS, MOST_CENTS, Pair, PostingId, in_range, is_entry};
pub use journals::{FilingRefusal, Journal, MAX_ENTRIES, Reading};
pub use lines::{LONGEST_LINE, LineRefusal, entry_line, longest_line};
pub use records::Records;
