// The order that one line of a posting gives.
ghost use Rattle.std.specs.Prelude.{◌≡◌};
ghost use Rattle.posting.specs.Sources.{OrderKept, HandKept};
ghost use Rattle.posting.specs.Standing.{go_on as order_to_go_on, next_hand};

use journal::in_range;

// Accounts are numbered from 0 to 63. Values and the hand, which is the value that a house carries from line to line
// and from posting to posting, are whole cents within 10^15 of 0.
// The ranges stand in contracts and are no fact of the type, since anyone may write an order.
#[derive(Clone, Copy, Debug, PartialEq, Eq)]
pub enum Order {
    // Find the value of an account; the source then tells the next hand.
    Read { account: u8 },
    // Give an account a value.
    Write { account: u8, value: i64 },
    // Take up another hand.
    GoOn { hand: i64 },
    // The posting ends here.
    Done,
    // The posting is void: it gives no account a value.
    Void,
}

impl Order {
    // The order to take up this hand, or void if it is out of range.
    pub fn go_on(hand: i64) -> Order
        ensures value { result ≡ order_to_go_on hand }
        ensures kept { OrderKept result }
    {
        next_hand(hand).map_or(Order::Void, |hand| Order::GoOn { hand })
    }
}

// This hand, or none if it is out of range.
pub fn next_hand(hand: i64) -> Option<i64>
    ensures value { result ≡ next_hand hand }
    ensures kept { HandKept result }
{
    in_range(hand).then_some(hand)
}
