// The records of the tables that a batch fills.

pub const MOST_HOUSES: u8 = 16;

// Of one house.
pub const MOST_POSTINGS: usize = 4096;

// Of one posting.
pub const MOST_LINES: usize = 16;

// A posting: its house, and the place of its first order line in the table of order lines.
// Its order lines end where those of the next posting begin, or with the table. A place, since the host lends the two
// tables apart.
#[derive(Clone, Copy, Debug, PartialEq, Eq)]
pub struct Posting {
    pub house: u8,
    pub first: usize,
}

// One order of a posting, on the hand that the house carries: an account from 0 to 63, or cents from -10^15 to 10^15.
#[derive(Clone, Copy, Debug, PartialEq, Eq)]
pub enum OrderLine {
    // T: the hand becomes the account's value.
    Take(u8),
    // U: the account's value is added to the hand.
    Join(u8),
    // S: the hand becomes these cents.
    Set(i64),
    // A: these cents are added to the hand.
    Raise(i64),
    // N: the posting is void if the hand is lower.
    Need(i64),
    // W: the account gets the hand as its value.
    Write(u8),
}

// A run of turns: which worker, and how many turns, from 1 to 10,000.
#[derive(Clone, Copy, Debug, PartialEq, Eq)]
pub struct Run {
    pub worker: u8,
    pub count: u16,
}
