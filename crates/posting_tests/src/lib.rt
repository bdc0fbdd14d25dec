// A customer's own source of postings, and the tests of sources and of drafting.
#![tactic(auto)]

mod copies;
#[cfg(test)]
mod test_copies;
#[cfg(test)]
mod test_orders;
#[cfg(test)]
mod test_standing;

pub use copies::Copies;
