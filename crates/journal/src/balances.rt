// Balances, over any reading.
ghost use Rattle.std.specs.Prelude.{◌≡◌, length};
ghost use Rattle.journal.specs.Balances.{balance_number, last_given, IsLast, balanced};

use crate::journals::Reading;

// Accounts are numbered from 0 to 63.
pub const ACCOUNTS: usize = 64;

// The value that an entry gives an account, and the place of that entry.
#[derive(Clone, Copy, Debug, PartialEq, Eq)]
pub struct Given {
    pub place: usize,
    pub value: i64,
}

// Why no balance was told, in the order of the tests, each with its number.
#[derive(Clone, Copy, Debug, PartialEq, Eq)]
pub enum BalanceRefusal {
    // The account is above 63.
    NoSuchAccount = 41,
    // There are fewer entries than were to be counted.
    PastTheEnd = 42,
}

impl From<BalanceRefusal> for u8 {
    ghost from_gives = { λ refusal number. number ≡ balance_number refusal };

    fn from(refusal: BalanceRefusal) -> u8 {
        refusal as u8
    }
}

// The last of the first `k` entries, or of all where there are fewer, that gives the account a value.
// It goes back from the end and stops there, by a loop: as a `find_map` its proof did not close, by the check alone or by
// `grind` on each of the three facts that it comes to.
pub fn last_given<R: Reading>(journal: &R, account: u8, k: usize) -> Option<Given>
    ensures value { result ≡ last_given (R.Reading.entries journal.now) account k }
    ensures last { IsLast (R.Reading.entries journal.now) account k result }
{
    let end = k.min(journal.length());
    for place in (0..end).rev() {
        if let Some(value) = journal.given(place, account) {
            return Some(Given { place, value });
        }
    }
    None
}

// The balance of an account after the first `k` entries: what the last of them that gives it gives, else its opening value.
pub fn balance<R: Reading>(
    journal: &R,
    openings: &[i64; ACCOUNTS],
    account: u8,
    k: usize,
) -> Result<i64, BalanceRefusal>
    ensures { result ≡ balanced (R.Reading.entries journal.now) openings.now account k }
{
    let opening = openings
        .get(usize::from(account))
        .copied()
        .ok_or(BalanceRefusal::NoSuchAccount)?;
    if k > journal.length() {
        return Err(BalanceRefusal::PastTheEnd);
    }
    Ok(last_given(journal, account, k).map_or(opening, |given| given.value))
}
