// Batches: the text that says what is to be posted, the plan and the tables that it fills, and its reader.
#![tactic(auto)]

mod cutting;
mod filling;
mod items;
mod judging;
mod laws;
mod noting;
mod numbers;
mod plan;
mod progress;
mod reading;
mod records;

pub use filling::read_batch;
pub use items::BatchRefusal;
pub use laws::batch_laws;
pub use plan::Plan;
pub use records::{MOST_HOUSES, MOST_LINES, MOST_POSTINGS, OrderLine, Posting, Run};
