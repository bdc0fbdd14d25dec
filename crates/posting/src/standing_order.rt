// Standing orders and the check of a table of them.
ghost use Rattle.std.specs.Prelude.{◌≡◌};
ghost use Rattle.posting.specs.Standing.{good_order, standing_number, standing_record, orders_checked};

use journal::{LAST_ACCOUNT, in_range};

const MAX_HOUSES: usize = 16;

const MAX_POSTINGS: u32 = 4096;

// The standing order of a house: so many times, what an account has above the floor moves to another account.
#[derive(Clone, Copy, Debug, PartialEq, Eq)]
pub struct StandingOrder {
    pub from: u8,
    pub to: u8,
    pub floor: i64,
    pub times: u32,
}

// Why a table of standing orders was refused, in the order of the tests.
#[derive(Clone, Copy, Debug, PartialEq, Eq)]
pub enum StandingRefusal {
    // There is no record, or there are more than 16.
    NotOneToSixteen,
    // The first record with an account above 63, a floor out of range or more than 4,096 times, counted from 0.
    BadRecord(usize),
}

impl From<StandingRefusal> for u8 {
    ghost from_gives = { λ refusal number. number ≡ standing_number refusal };

    fn from(refusal: StandingRefusal) -> u8 {
        match refusal {
            StandingRefusal::NotOneToSixteen => 71,
            StandingRefusal::BadRecord(_) => 72,
        }
    }
}

impl StandingRefusal {
    // The bad record, or 0 where none is told: an `Option` would be turned back into 0 wherever it is printed.
    pub fn place(self) -> usize
        ensures { result ≡ standing_record self }
    {
        match self {
            StandingRefusal::NotOneToSixteen => 0,
            StandingRefusal::BadRecord(k) => k,
        }
    }
}

fn is_good(order: &StandingOrder) -> bool
    ensures { result ≡ good_order order.now }
{
    order.from <= LAST_ACCOUNT
        && order.to <= LAST_ACCOUNT
        && in_range(order.floor)
        && order.times <= MAX_POSTINGS
}

// Whether a table of standing orders will do: one record for each of 1 to 16 houses, each within its limits.
pub fn check_orders(orders: &[StandingOrder]) -> Result<(), StandingRefusal>
    ensures { result ≡ orders_checked orders.now }
{
    if orders.is_empty() || orders.len() > MAX_HOUSES {
        return Err(StandingRefusal::NotOneToSixteen);
    }
    orders
        .iter()
        .position(|order| !is_good(order))
        .map_or(Ok(()), |k| Err(StandingRefusal::BadRecord(k)))
}
