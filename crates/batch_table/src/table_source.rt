// The postings of a batch as a source of postings.
ghost use Rattle.std.specs.Prelude.{◌≡◌, ℕ, ◌<◌, ◌≤◌, true, length, slice_index, IfSome};
ghost use Rattle.std.specs.List.{slice_get};
ghost use Rattle.batch.specs.Texts.{between};
ghost use Rattle.batch_table.specs.InOrder.{in_order};
ghost use Rattle.batch_table.specs.OrderLines.{line_in_range};
ghost use Rattle.batch_table.specs.Orderly.{posting_at, end_at, StandsAt};
ghost use Rattle.batch_table.specs.TableMeaning.{table_meaning};
ghost use Rattle.batch_table.specs.TableSource.{postings_of, lines_of, before as before_in, table_source, batch_source};

use crate::in_order::is_from_a_batch;
use crate::order_lines::{hand_for, order_for};
use crate::table::{BatchTable, STARTS};
use batch::{MOST_LINES, OrderLine, Posting};
use journal::{PostingId, in_range};
use posting::{Order, Question, Source};
use std::array;

// How many postings have a lower house. A sum, since `filter` and `count` take several times the instructions.
fn before(postings: &[Posting], house: u8) -> usize
    ensures { result ≡ before_in house postings.now }
{
    postings
        .iter()
        .map(|posting| usize::from(posting.house < house))
        .sum()
}

// Where the postings of each house begin, and after the last house where they end.
fn starts(postings: &[Posting]) -> [usize; STARTS]
    ensures { (house : ℕ) → house ≤ 16 → slice_index result house ≡ before_in house postings.now }
{
    array::from_fn(|house| before(postings, house as u8))
}

impl<'a> BatchTable<'a> {
    // The table of records that are in order.
    fn of(houses: u8, postings: &'a [Posting], lines: &'a [OrderLine]) -> Self
        requires { (houses ≤ 16) × (in_order houses postings.now lines.now ≡ true) }
        ensures { table_meaning result ≡ table_source houses postings.now lines.now }
    {
        BatchTable {
            houses,
            postings,
            lines,
            starts: starts(postings),
        }
    }

    // The source of these records; one without houses if no batch gives them.
    #[tactic(auto, using(crate::proofs::TableLimits::none_in_order))]
    pub fn new(houses: u8, postings: &'a [Posting], lines: &'a [OrderLine]) -> Self
        ensures { table_meaning result ≡ batch_source houses postings.now lines.now }
    {
        if is_from_a_batch(houses, postings, lines) {
            BatchTable::of(houses, postings, lines)
        } else {
            BatchTable::of(0, &[], &[])
        }
    }

    // How many postings a house has.
    fn count(&self, house: u8) -> usize
        ensures value { result ≡ length (postings_of house self.now.postings.now self.now.lines.now) }
        ensures few { result ≤ 4096 }
    {
        if house >= self.houses {
            return 0;
        }
        let place = house as usize;
        self.starts[place + 1] - self.starts[place]
    }

    // Where the order lines of the posting at this place end.
    fn end_of(&self, place: usize) -> usize
        requires { place < length self.now.postings.now }
        ensures { result ≡ end_at self.now.postings.now self.now.lines.now place }
    {
        self.postings
            .get(place + 1)
            .map_or(self.lines.len(), |next| next.first)
    }

    // Where the record of a posting stands.
    fn place(&self, posting: PostingId) -> usize
        requires house { posting.house < self.now.houses }
        requires some { 1 ≤ posting.number }
        requires few { posting.number ≤ length (postings_of posting.house self.now.postings.now self.now.lines.now) }
        ensures { StandsAt posting.house posting.number result self.now.postings.now self.now.lines.now }
    {
        self.starts[posting.house as usize] + (posting.number as usize - 1)
    }

    // The order lines of the posting at this place.
    fn lines_at(&self, place: usize) -> &[OrderLine]
        requires from { (posting_at self.now.postings.now place).first ≤ end_at self.now.postings.now self.now.lines.now place }
        requires to { end_at self.now.postings.now self.now.lines.now place ≤ length self.now.lines.now }
        requires within { place < length self.now.postings.now }
        ensures { result.now ≡ between (posting_at self.now.postings.now place).first (end_at self.now.postings.now self.now.lines.now place) self.now.lines.now }
    {
        &self.lines[self.postings[place].first..self.end_of(place)]
    }

    // A line of a posting, or none past its last.
    fn line_at(&self, posting: PostingId, line: usize) -> Option<OrderLine>
        requires house { posting.house < self.now.houses }
        requires some { 1 ≤ posting.number }
        requires few { posting.number ≤ length (postings_of posting.house self.now.postings.now self.now.lines.now) }
        ensures value { result ≡ slice_get (lines_of posting.house posting.number self.now.postings.now self.now.lines.now) line }
        ensures ranged { IfSome result (λ o. line_in_range o ≡ true) }
    {
        self.lines_at(self.place(posting)).get(line).copied()
    }
}

impl<'a> Source for BatchTable<'a> {
    const LONGEST: usize = MOST_LINES;

    ghost meaning = { table_meaning };

    #[tactic(auto, using(crate::proofs::TableLimits::table_limits))]
    fn longest_posting(&self) -> usize {
        Self::LONGEST
    }

    fn houses(&self) -> u8 {
        self.houses
    }

    fn postings(&self, house: u8) -> u32 {
        self.count(house) as u32
    }

    fn order(&self, question: Question) -> Order {
        if !self.is_asked(question) {
            return Order::Void;
        }
        self.line_at(question.posting, question.line)
            .map_or(Order::Done, |line| order_for(line, question.hand))
    }

    fn found(&self, question: Question, value: i64) -> Option<i64> {
        if !self.is_asked(question) || !in_range(value) {
            return None;
        }
        self.line_at(question.posting, question.line)
            .and_then(|line| hand_for(line, question.hand, value))
    }
}
