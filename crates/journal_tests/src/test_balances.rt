// Balances, at the edges of accounts and of the entries that are counted.
use crate::first_entries::FirstEntries;
use crate::heap::HeapJournal;
use crate::samples::{Edit, edited, number_of, told};
use journal::{Journal, Reading, balance, last_given};
use std::array;
use std::test::Fail;

// Account 5 is given 7, then nothing by a void entry, then 7 again; account 63 is given -1, and -9 by the last entry.
static FILED: [Edit; 3] = [Edit::Nothing, Edit::Void(0), Edit::Second(63, -9)];

// An account, how many entries to count, the refusal or 0, the balance, and the place of the entry that gave it.
static BALANCES: [(u8, usize, u8, i64, Option<usize>); 17] = [
    (5, 0, 0, 50, None),
    (5, 1, 0, 7, Some(0)),
    (5, 2, 0, 7, Some(0)),
    (5, 3, 0, 7, Some(2)),
    (5, 4, 42, 0, Some(2)),
    (63, 0, 0, 630, None),
    (63, 1, 0, -1, Some(0)),
    (63, 2, 0, -1, Some(0)),
    (63, 3, 0, -9, Some(2)),
    (63, 4, 42, 0, Some(2)),
    (0, 0, 0, 0, None),
    (0, 3, 0, 0, None),
    (1, 3, 0, 10, None),
    (62, 3, 0, 620, None),
    (64, 3, 41, 0, None),
    (64, 4, 41, 0, None),
    (255, 4, 41, 0, None),
];

// Each account opens with ten times its number.
fn openings() -> [i64; 64] {
    array::from_fn(|account| 10 * account as i64)
}

fn balance_told<R: Reading>(reading: &R, account: u8, k: usize) -> (u8, i64) {
    told(balance(reading, &openings(), account, k))
}

#[test]
fn balances(rt: HostRuntime) -> Result<(), Fail> {
    let mut journal = HeapJournal::with_room(rt.alloc(), 3)?;
    for (place, edit) in FILED.iter().enumerate() {
        assert_eq!(rt; number_of(journal.file(place, &edited(*edit))), 0);
    }
    for row in &BALANCES {
        let (account, k, refusal, value, place) = *row;
        let given = last_given(&journal, account, k).map(|given| given.place);
        assert_eq!(rt;
            (balance_told(&journal, account, k), given),
            ((refusal, value), place)
        );
    }
    let two = FirstEntries {
        reading: &journal,
        most: 2,
    };
    let last = balance_told(&two, 63, 2);
    assert_eq!(rt; (last, balance_told(&two, 63, 3)), ((0, -1), (42, 0)));
    Ok(())
}
