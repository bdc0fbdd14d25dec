// Batch tables: the tables that a batch fills as a source of postings, and which records a batch can give.
#![tactic(auto)]

mod in_order;
mod order_lines;
mod table;
mod table_source;

pub use in_order::is_from_a_batch;
pub use table::BatchTable;
