// What order lines do.
ghost use Rattle.std.specs.Prelude.{◌≡◌, true};
ghost use Rattle.journal.specs.Entries.{InRange};
ghost use Rattle.posting.specs.Sources.{OrderKept, HandKept};
ghost use Rattle.batch_table.specs.OrderLines.{order_for, hand_for, line_in_range, lines_in_range};

use batch::OrderLine;
use journal::{LAST_ACCOUNT, in_range};
use posting::{Order, next_hand};

fn line_in_range(line: OrderLine) -> bool
    ensures { result ≡ line_in_range line }
{
    match line {
        OrderLine::Take(account) | OrderLine::Join(account) | OrderLine::Write(account) => {
            account <= LAST_ACCOUNT
        }
        // Arms of their own: where one pattern of a match joins accounts and another joins cents, the check gives no
        // proof.
        OrderLine::Set(cents) => in_range(cents),
        OrderLine::Raise(cents) => in_range(cents),
        OrderLine::Need(cents) => in_range(cents),
    }
}

// Whether every order line names one of the 64 accounts, or cents in range.
pub(crate) fn lines_in_range(lines: &[OrderLine]) -> bool
    ensures { result ≡ lines_in_range lines.now }
{
    lines.iter().all(|line| line_in_range(*line))
}

// The order that a line gives at this hand.
pub(crate) fn order_for(line: OrderLine, hand: i64) -> Order
    requires { (line_in_range line ≡ true) × (InRange hand) }
    ensures value { result ≡ order_for line hand }
    ensures kept { OrderKept result }
{
    match line {
        OrderLine::Take(account) | OrderLine::Join(account) => Order::Read { account },
        OrderLine::Set(cents) => Order::GoOn { hand: cents },
        OrderLine::Raise(cents) => Order::go_on(hand + cents),
        OrderLine::Need(cents) => {
            if cents <= hand {
                Order::GoOn { hand }
            } else {
                Order::Void
            }
        }
        OrderLine::Write(account) => Order::Write {
            account,
            value: hand,
        },
    }
}

// The next hand where a line finds a value.
pub(crate) fn hand_for(line: OrderLine, hand: i64, value: i64) -> Option<i64>
    requires { (InRange hand) × (InRange value) }
    ensures value { result ≡ hand_for line hand value }
    ensures kept { HandKept result }
{
    match line {
        OrderLine::Take(_) => Some(value),
        OrderLine::Join(_) => next_hand(hand + value),
        _ => None,
    }
}
