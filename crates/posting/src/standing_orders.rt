// A table of standing orders, held for reading.
ghost use Rattle.std.specs.Prelude.{◌≡◌, ℕ, ◌≤◌, true, length};
ghost use Rattle.posting.specs.Standing.{good_order, order_at};

use crate::standing_order::StandingOrder;

// Standing orders, one record for each house. Whatever it holds passed its check.
// By ghost fields: of a struct with an `impl Model`, a method that reads no field, as `longest_posting`, learns nothing.
#[derive(Debug, Drop)]
pub struct StandingOrders<'a> {
    pub(crate) orders: &'a [StandingOrder],
    ghost few: { length orders.now ≤ 16 },
    ghost good: { (house : ℕ) → good_order (order_at orders.now house) ≡ true },
}
