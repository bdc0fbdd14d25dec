// A posting worked alone, for any source over any reading of a journal.
ghost use Rattle.std.specs.Prelude.{◌≡◌, ◌≤◌};
ghost use Rattle.posting.specs.Alone.{balances_after, balances_of, line_of, outcome, alone, Local, Enterable};

use crate::balances::Balances;
use crate::order::Order;
use crate::sheet::{Draft, Ending, Sheet};
use crate::sources::{Question, Source};
use journal::{ACCOUNTS, PostingId, Reading};
use std::ops::ControlFlow::{self, Break, Continue};

// Carries out one line of a posting.
fn work_line<S: Source, R: Reading>(
    source: &S,
    balances: &Balances<'_, R>,
    posting: PostingId,
    line: usize,
    sheet: &mut Sheet,
) -> ControlFlow<Ending>
    ensures { (result, sheet.new) ≡ line_of (S.Source.meaning source.now) posting.house posting.number (balances_of R.Reading.entries balances.now) line sheet.old }
{
    let question = Question {
        posting,
        line,
        hand: sheet.hand,
    };
    match source.order(question) {
        Order::Read { account } => {
            let value = sheet.find(account, balances);
            sheet.take_up(source.found(question, value))
        }
        Order::Write { account, value } => {
            sheet.written[account as usize] = Some(value);
            Continue(())
        }
        Order::GoOn { hand } => {
            sheet.hand = hand;
            Continue(())
        }
        Order::Done => Break(Ending::Closed),
        Order::Void => Break(Ending::Voided),
    }
}

// A posting worked alone on the balances after the first `k` entries, or after all where there are fewer, from the hand at
// its start. It depends on the balances only at its reads, and makes a lawful entry.
pub fn draft<S: Source, R: Reading>(
    source: &S,
    journal: &R,
    openings: &[i64; ACCOUNTS],
    k: usize,
    posting: PostingId,
    start: i64,
) -> Draft
    ensures value { outcome result ≡ alone (S.Source.meaning source.now) (balances_after (R.Reading.entries journal.now) openings.now k) posting.house posting.number start }
    ensures counted { result.count ≤ 16 }
    ensures local { Local (S.Source.meaning source.now) }
    ensures enterable { Enterable (S.Source.meaning source.now) }
{
    let balances = Balances {
        journal,
        openings,
        k,
    };
    let mut sheet = Sheet::blank(start);
    let lines = source.longest_posting();
    // A loop, since a closure that works on the sheet would need a contract over its states.
    for line in 0..lines {
        match work_line(source, &balances, posting, line, &mut sheet) {
            Continue(()) => {}
            Break(Ending::Closed) => break,
            Break(Ending::Voided) => return sheet.spoil(start),
        }
    }
    sheet.close()
}
