// Standing orders as a source of postings.
ghost use Rattle.std.specs.Prelude.{◌≡◌, ◌≤◌, true};
ghost use Rattle.journal.specs.Entries.{InRange};
ghost use Rattle.posting.specs.Moves.{AlwaysMoves};
ghost use Rattle.posting.specs.Sources.{OrderKept};
ghost use Rattle.posting.specs.Standing.{good_order, orders_kept, order_at, line_order, line_found, standing};

use crate::order::{Order, next_hand};
use crate::sources::{Question, Source};
use crate::standing_order::{StandingOrder, check_orders};
use crate::standing_orders::StandingOrders;
use journal::in_range;

const STANDING_LINES: usize = 5;

// What there is for a house without a record.
const NO_POSTINGS: StandingOrder = StandingOrder {
    from: 0,
    to: 0,
    floor: 0,
    times: 0,
};

// The records if the check accepts them, else none of them.
fn kept(orders: &[StandingOrder]) -> &[StandingOrder]
    ensures { result.now ≡ orders_kept orders.now }
{
    check_orders(orders).map_or(&[], |()| orders)
}

// The order that a line gives: what is above the floor moves from one account to the other.
fn line_order(o: StandingOrder, line: usize, hand: i64) -> Order
    requires { (good_order o ≡ true) × (InRange hand) }
    ensures value { result ≡ line_order o line hand }
    ensures kept { OrderKept result }
{
    // A match, since every source is asked for a line by its number, and a table would make all five orders for each.
    match line {
        0 => Order::Read { account: o.from },
        1 => {
            if hand <= o.floor {
                Order::Done
            } else {
                Order::Write {
                    account: o.from,
                    value: o.floor,
                }
            }
        }
        2 => Order::go_on(hand - o.floor),
        3 => Order::Read { account: o.to },
        _ => Order::Write {
            account: o.to,
            value: hand,
        },
    }
}

// The next hand where a line finds a value; lines by their numbers, as in `line_order`. Hands and values stay `i64`, with
// their range in the contract, since a source is also asked out of range.
fn line_found(line: usize, hand: i64, value: i64) -> Option<i64>
    requires { (InRange hand) × (InRange value) }
    ensures { result ≡ line_found line hand value }
{
    match line {
        0 => Some(value),
        3 => next_hand(hand + value),
        _ => None,
    }
}

impl<'a> StandingOrders<'a> {
    // The source of these records; one without houses if `check_orders` refuses them. Each of its postings moves what an account
    // has above the floor.
    #[tactic(auto, using(crate::proofs::Checked::kept_good, crate::proofs::Moving::always_moves))]
    pub fn new(orders: &'a [StandingOrder]) -> Self
        ensures orders { result.orders.now ≡ orders_kept orders.now }
        ensures moves { AlwaysMoves (orders_kept orders.now) }
    {
        StandingOrders {
            orders: kept(orders),
        }
    }

    // The record of a house; one without postings, where there is no such house.
    fn order_at(&self, house: u8) -> StandingOrder
        ensures value { result ≡ order_at self.now.orders.now house }
        ensures good { good_order result ≡ true }
    {
        self.orders
            .get(house as usize)
            .copied()
            .unwrap_or(NO_POSTINGS)
    }
}

impl<'a> Source for StandingOrders<'a> {
    const LONGEST: usize = STANDING_LINES;

    ghost meaning = { λ s. standing s.orders.now };

    #[tactic(auto, using(crate::proofs::StandingLimits::standing_limits))]
    fn longest_posting(&self) -> usize {
        Self::LONGEST
    }

    fn houses(&self) -> u8 {
        self.orders.len() as u8
    }

    fn postings(&self, house: u8) -> u32 {
        self.order_at(house).times
    }

    fn order(&self, question: Question) -> Order {
        if !self.is_asked(question) {
            return Order::Void;
        }
        line_order(
            self.order_at(question.posting.house),
            question.line,
            question.hand,
        )
    }

    fn found(&self, question: Question, value: i64) -> Option<i64> {
        if !self.is_asked(question) || !in_range(value) {
            return None;
        }
        line_found(question.line, question.hand, value)
    }
}
