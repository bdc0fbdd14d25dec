// A source of postings that a customer writes.
ghost use Rattle.posting_tests.specs.Copying.{copying};

use journal::in_range;
use posting::{Order, Question, Source};

const LINES: usize = 2;

const MAX_POSTINGS: u32 = 4096;

const ORIGINAL: u8 = 1;

const COPY: u8 = 2;

// One house, with so many postings, at most 4,096, that copy the balance of account 1 to account 2.
#[derive(Clone, Copy, Debug, PartialEq, Eq)]
pub struct Copies {
    pub times: u32,
}

impl Source for Copies {
    const LONGEST: usize = LINES;

    ghost meaning = { λ s. copying s.times };

    #[tactic(auto, using(crate::proofs::CopyLimits::copying_limits))]
    fn longest_posting(&self) -> usize {
        Self::LONGEST
    }

    fn houses(&self) -> u8 {
        1
    }

    fn postings(&self, house: u8) -> u32 {
        if house == 0 {
            self.times.min(MAX_POSTINGS)
        } else {
            0
        }
    }

    fn order(&self, question: Question) -> Order {
        if !self.is_asked(question) {
            return Order::Void;
        }
        if question.line == 0 {
            return Order::Read { account: ORIGINAL };
        }
        Order::Write {
            account: COPY,
            value: question.hand,
        }
    }

    fn found(&self, question: Question, value: i64) -> Option<i64> {
        let is_found = question.line == 0 && in_range(value) && self.is_asked(question);
        is_found.then_some(value)
    }
}
