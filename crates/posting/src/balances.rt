// The balances that a posting is worked on.
ghost use Rattle.std.specs.Prelude.{◌≡◌, ◌≤◌};
ghost use Rattle.posting.specs.Alone.{balances_of};

use journal::{ACCOUNTS, Reading, last_given};

// The balances after the first `k` entries of a journal, or after all where there are fewer.
#[derive(Drop)]
pub(crate) struct Balances<'a, R> {
    pub(crate) journal: &'a R,
    pub(crate) openings: &'a [i64; ACCOUNTS],
    pub(crate) k: usize,
}

impl<'a, R: Reading> Balances<'a, R> {
    // The balance of an account.
    pub(crate) fn of(&self, account: u8) -> i64
        requires { account ≤ 63 }
        ensures { result ≡ balances_of R.Reading.entries self.now account }
    {
        last_given(self.journal, account, self.k).map_or(
            self.openings[account as usize],
            |given| given.value,
        )
    }
}
