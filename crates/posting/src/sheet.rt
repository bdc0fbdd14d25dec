// What is noted while a posting is worked, and what it comes to.
ghost use Rattle.std.specs.Prelude.{◌≡◌, ◌+◌, ◌<◌, ◌≤◌, true, [], ◌∷◌, ◌++◌, length, None, slice_index_or};
ghost use Rattle.journal.specs.Entries.{posted, is_entry, Lawful};
ghost use Rattle.posting.specs.Alone.{outcome, listed, blank, balances_of, sought, noted, told, pairs_from, closed, voided, entry_for, posted_for};

use crate::balances::Balances;
use journal::{ACCOUNTS, Entry, MAX_PAIRS, Pair, PostingId, Reading};
use std::ops::ControlFlow::{self, Break, Continue};

// A posting that is being worked, account by account. Its tables stay two, since a draft takes the first over as it is.
#[derive(Clone, Copy, Debug)]
pub struct Sheet {
    // The present hand.
    pub hand: i64,
    // Whether the balance of an account was read.
    pub reads: [bool; ACCOUNTS],
    // The value that the posting has given an account.
    pub written: [Option<i64>; ACCOUNTS],
}

// How a posting ends.
#[derive(Clone, Copy, Debug, PartialEq, Eq)]
pub enum Ending {
    // With the present hand and all that was written.
    Closed,
    // Void.
    Voided,
}

// What a posting worked alone comes to.
#[derive(Clone, Copy, Debug, PartialEq, Eq)]
pub struct Draft {
    // Whether the posting read the balance of an account.
    pub reads: [bool; ACCOUNTS],
    // A void posting gives no account a value. A mark beside the pairs, as in the entry that takes both over.
    pub void: bool,
    // The hand that the posting leaves its house with.
    pub hand: i64,
    // How many of the pairs count; the others are padding. A length beside fixed memory, as in the entry. It is in the
    // contracts and no fact of the type, since anyone may make a draft.
    pub count: u8,
    pub pairs: [Pair; MAX_PAIRS],
}

impl Sheet {
    // Nothing is read or written yet.
    pub(crate) fn blank(hand: i64) -> Sheet
        ensures { result ≡ blank hand }
    {
        Sheet {
            hand,
            reads: [false; ACCOUNTS],
            written: [None; ACCOUNTS],
        }
    }

    // The value that a read of an account finds: what this posting has written, or else the balance, which joins the
    // reads. A match, since a closure that notes the read would have to say what it leaves.
    pub(crate) fn find<R: Reading>(&mut self, account: u8, balances: &Balances<'_, R>) -> i64
        requires { account ≤ 63 }
        ensures value { result ≡ sought (slice_index_or self.old.written account None) (balances_of R.Reading.entries balances.now account) }
        ensures sheet { self.new ≡ noted (slice_index_or self.old.written account None) account self.old }
    {
        match self.written[account as usize] {
            Some(value) => value,
            None => {
                self.reads[account as usize] = true;
                balances.of(account)
            }
        }
    }

    // Takes up the hand that the source tells for a value that was found.
    pub(crate) fn take_up(&mut self, hand: Option<i64>) -> ControlFlow<Ending>
        ensures { (result, self.new) ≡ told hand self.old }
    {
        let Some(hand) = hand else {
            return Break(Ending::Voided);
        };
        self.hand = hand;
        Continue(())
    }

    // An end with the present hand and all that was written.
    pub(crate) fn close(&self) -> Draft
        requires { length (pairs_from 0 self.now.written) ≤ 16 }
        ensures value { outcome result ≡ closed self.now }
        ensures counted { result.count ≤ 16 }
    {
        let mut draft = Draft::without_pairs(self.reads, false, self.hand);
        for (account, value) in self.written.iter().enumerate() {
            if let Some(value) = *value {
                draft.add(account as u8, value);
            }
        }
        draft
    }

    // A void end: the hand at the start, and nothing written.
    pub(crate) fn spoil(&self, start: i64) -> Draft
        ensures value { outcome result ≡ voided start self.now }
        ensures counted { result.count ≤ 16 }
    {
        Draft::without_pairs(self.reads, true, start)
    }
}

impl Draft {
    fn without_pairs(reads: [bool; ACCOUNTS], void: bool, hand: i64) -> Draft
        ensures value { outcome result ≡ record { reads = reads; void = void; hand = hand; pairs = [] } }
        ensures count { result.count ≡ 0 }
        ensures room { length result.pairs ≡ 16 }
    {
        let padding = Pair {
            account: 0,
            value: 0,
        };
        Draft {
            reads,
            void,
            hand,
            count: 0,
            pairs: [padding; MAX_PAIRS],
        }
    }

    // Adds the pair of an account.
    fn add(&mut self, account: u8, value: i64)
        requires { (self.old.count < 16) × (length self.old.pairs ≡ 16) }
        ensures value { outcome self.new ≡ record { reads = self.old.reads; void = self.old.void; hand = self.old.hand; pairs = listed self.old ++ record { account = account; value = value } ∷ [] } }
        ensures count { self.new.count ≡ self.old.count + 1 }
        ensures room { length self.new.pairs ≡ 16 }
    {
        self.pairs[self.count as usize] = Pair { account, value };
        self.count += 1;
    }

    // The record that the draft makes for its posting, field by field: an entry holds the posting's parts and no `Draft`.
    fn record_for(&self, posting: PostingId) -> Entry
        ensures { result ≡ entry_for self.now posting.house posting.number }
    {
        Entry {
            house: posting.house,
            number: posting.number,
            void: self.void,
            hand: self.hand,
            count: self.count,
            pairs: self.pairs,
        }
    }

    // The entry that the draft makes for its posting: it says what the draft comes to, and is an entry if that is lawful.
    #[tactic(auto, using(crate::proofs::Entered::entry_lawful))]
    pub fn entry_for(&self, posting: PostingId) -> Entry
        ensures value { result ≡ entry_for self.now posting.house posting.number }
        ensures says { posted result ≡ posted_for (outcome self.now) posting.house posting.number }
        ensures lawful { self.now.count ≤ 16 → Lawful (posted_for (outcome self.now) posting.house posting.number) → is_entry result ≡ true }
    {
        self.record_for(posting)
    }
}
