// The entry: what a posting leaves in the journal.
ghost use Rattle.std.specs.Prelude.{◌≡◌, ◌≤◌, length, Decides};
ghost use Rattle.journal.specs.Entries.{posted, in_range, fits, rises, is_entry, IsEntry};
ghost use Rattle.journal.specs.Readings.{id_of, given_in};

// The most pairs that an entry can have.
pub const MAX_PAIRS: usize = 16;

const LAST_HOUSE: u8 = 15;

const LAST_NUMBER: u32 = 4096;

// Accounts are numbered from 0.
pub const LAST_ACCOUNT: u8 = 63;

// How far from 0 a value or a hand may lie.
pub const MOST_CENTS: u64 = 1_000_000_000_000_000;

// An account, from 0 to 63, and the value in cents that it is given.
#[derive(Clone, Copy, Debug, PartialEq, Eq)]
pub struct Pair {
    pub account: u8,
    pub value: i64,
}

// Which posting. A house, from 0 to 15, is a client whose money is kept: to the journal it is a process, which runs
// transactions one after the other. A posting is one such transaction; a house's postings are numbered from 1.
#[derive(Clone, Copy, Debug, PartialEq, Eq)]
pub struct PostingId {
    pub house: u8,
    pub number: u32,
}

// A record of the host's memory. It may hold what is no entry, which no journal files.
#[derive(Clone, Copy, Debug, PartialEq, Eq)]
pub struct Entry {
    pub house: u8,
    pub number: u32,
    // A void posting gives no account a value. The mark is a field of its own, since a record may claim both: that is no
    // entry.
    pub void: bool,
    // The hand is the value that a house carries from one posting to its next, here as this posting leaves it.
    pub hand: i64,
    // How many of the pairs count; the others are padding, since a record of the host's memory has one size.
    pub count: u8,
    pub pairs: [Pair; MAX_PAIRS],
}

impl Entry {
    // Which posting it is of, field by field: a record has both as fields of its own.
    pub fn id(&self) -> PostingId
        ensures { result ≡ id_of (posted self.now) }
    {
        PostingId {
            house: self.house,
            number: self.number,
        }
    }

    // The pairs that count.
    pub fn counted_pairs(&self) -> &[Pair]
        ensures value { result.now ≡ (posted self.now).pairs }
        ensures few { length result.now ≤ 16 }
    {
        self.pairs
            .get(..usize::from(self.count))
            .unwrap_or(&self.pairs)
    }

    // The value that it gives the account.
    pub fn value_for(&self, account: u8) -> Option<i64>
        ensures { result ≡ given_in (posted self.now).pairs account }
    {
        self.counted_pairs()
            .iter()
            .find(|pair| pair.account == account)
            .map(|pair| pair.value)
    }
}

// Whether a value or a hand is within 10^15 cents of 0.
pub fn in_range(cents: i64) -> bool
    ensures { result ≡ in_range cents }
{
    cents.unsigned_abs() <= MOST_CENTS
}

fn pair_fits(pair: &Pair, least: u8) -> bool
    ensures { result ≡ fits least pair.now }
{
    (least..=LAST_ACCOUNT).contains(&pair.account) && in_range(pair.value)
}

// Each pair is tested against the one before it. A loop says that plainer than a fold that stops, and `is_sorted_by` would
// go over the pairs a second time.
fn pairs_rise(pairs: &[Pair]) -> bool
    ensures { result ≡ rises 0 pairs.now }
{
    let mut least = 0;
    for pair in pairs {
        if !pair_fits(pair, least) {
            return false;
        }
        least = pair.account + 1;
    }
    true
}

// The tests of an entry, one after the other.
fn passes(e: &Entry) -> bool
    ensures { result ≡ is_entry e.now }
{
    let Some(pairs) = e.pairs.get(..usize::from(e.count)) else {
        return false;
    };
    e.house <= LAST_HOUSE
        && (1..=LAST_NUMBER).contains(&e.number)
        && in_range(e.hand)
        && (!e.void || pairs.is_empty())
        && pairs_rise(pairs)
}

// Whether the record is an entry: house 0 to 15, number 1 to 4,096, hand and values within 10^15 cents of 0,
// at most 16 pairs with accounts 0 to 63 strictly rising, and none if it is void.
#[tactic(auto, using(crate::proofs::Lawfulness::entry_decided))]
pub fn is_entry(e: &Entry) -> bool
    ensures test { result ≡ is_entry e.now }
    ensures decides { Decides result (IsEntry e.now) }
{
    passes(e)
}
