// What every source of postings can be asked.
ghost use Rattle.std.specs.Prelude.{◌≡◌, ◌≤◌};
ghost use Rattle.posting.specs.Sources.{Meaning, asked, Limits, OrderKept, HandKept};

use crate::order::Order;
use journal::{PostingId, in_range};

// What a source is asked about: a line of a posting, reached with this hand. Postings count from 1, lines from 0.
#[derive(Clone, Copy, Debug, PartialEq, Eq)]
pub struct Question {
    pub posting: PostingId,
    pub line: usize,
    pub hand: i64,
}

// A source of postings. Its meaning is told by one record of functions, within the limits that `longest_posting` promises.
// No question alters anything, and a question out of range is void.
pub trait Source {
    // The most lines of a posting, 1 to 16. `longest_posting` answers it, since no clause can cite it at a type with a
    // lifetime.
    const LONGEST: usize;

    ghost meaning: { Self → Meaning };

    // The constant above, which bounds the work on a posting.
    fn longest_posting(&self) -> usize
        ensures value { result ≡ (meaning self.now).longest }
        ensures limits { Limits (meaning self.now) };

    // How many houses have postings, at most 16.
    fn houses(&self) -> u8
        ensures value { result ≡ (meaning self.now).houses }
        ensures few { result ≤ 16 };

    // How many postings a house has, at most 4,096: none where there is no such house.
    fn postings(&self, house: u8) -> u32
        ensures value { result ≡ (meaning self.now).postings house }
        ensures few { result ≤ 4096 };

    // Whether a question is in range: there is such a house, posting and line, and such a hand.
    fn is_asked(&self, question: Question) -> bool
        ensures { result ≡ asked (meaning self.now) question.posting.house question.posting.number question.line question.hand }
    {
        let PostingId { house, number } = question.posting;
        house < self.houses()
            && (1..=self.postings(house)).contains(&number)
            && question.line < self.longest_posting()
            && in_range(question.hand)
    }

    // The order that the line gives.
    fn order(&self, question: Question) -> Order
        ensures value { result ≡ (meaning self.now).order question.posting.house question.posting.number question.line question.hand }
        ensures kept { OrderKept result };

    // The next hand where that order reads and finds this value; none if that is void, or the order reads nothing.
    fn found(&self, question: Question, value: i64) -> Option<i64>
        ensures value { result ≡ (meaning self.now).found question.posting.house question.posting.number question.line question.hand value }
        ensures kept { HandKept result };
}
