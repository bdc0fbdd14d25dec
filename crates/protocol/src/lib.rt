// The rules of the office, as definitions over what sources and journals mean, and what holds of every office that follows them.
#![tactic(auto)]

mod laws;
mod refusals;
mod told;

pub use laws::last_kind;
pub use refusals::{HouseRefusal, OpeningRefusal, RunRefusal, TurnRefusal};
pub use told::{HouseTold, RunTold};
