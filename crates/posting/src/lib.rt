// Postings: what sources of postings say, and what a posting worked alone gives.
#![tactic(auto)]

mod balances;
mod drafting;
mod order;
mod sheet;
mod sources;
mod standing_order;
mod standing_orders;
mod standing_source;

pub use drafting::draft;
pub use order::{Order, next_hand};
pub use sheet::Draft;
pub use sources::{Question, Source};
pub use standing_order::{StandingOrder, StandingRefusal, check_orders};
pub use standing_orders::StandingOrders;
