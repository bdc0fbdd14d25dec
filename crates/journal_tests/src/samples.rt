// Entries that the tests file, and what a reading has to answer for them.
use journal::{Entry, MAX_PAIRS, Pair, PostingId, Reading};
use std::process::Abort;

// The greatest value and hand, in cents.
pub(crate) const MOST: i64 = 1_000_000_000_000_000;

// Padding, which no journal may keep or tell.
const PADDING: Pair = Pair {
    account: 5,
    value: 99,
};

// Two pairs count. The place of the second pair is where most edits are made.
pub(crate) const SAMPLE: Entry = Entry {
    house: 3,
    number: 300,
    void: false,
    hand: -2,
    count: 2,
    pairs: [
        Pair {
            account: 5,
            value: 7,
        },
        Pair {
            account: 63,
            value: -1,
        },
        PADDING,
        PADDING,
        PADDING,
        PADDING,
        PADDING,
        PADDING,
        PADDING,
        PADDING,
        PADDING,
        PADDING,
        PADDING,
        PADDING,
        PADDING,
        PADDING,
    ],
};

// Each field as long as it can be written.
pub(crate) const LONGEST: Entry = Entry {
    house: 15,
    number: 4096,
    void: false,
    hand: -MOST,
    count: 16,
    pairs: SIXTEEN,
};

const SIXTEEN: [Pair; MAX_PAIRS] = [
    Pair {
        account: 48,
        value: -MOST,
    },
    Pair {
        account: 49,
        value: -MOST,
    },
    Pair {
        account: 50,
        value: -MOST,
    },
    Pair {
        account: 51,
        value: -MOST,
    },
    Pair {
        account: 52,
        value: -MOST,
    },
    Pair {
        account: 53,
        value: -MOST,
    },
    Pair {
        account: 54,
        value: -MOST,
    },
    Pair {
        account: 55,
        value: -MOST,
    },
    Pair {
        account: 56,
        value: -MOST,
    },
    Pair {
        account: 57,
        value: -MOST,
    },
    Pair {
        account: 58,
        value: -MOST,
    },
    Pair {
        account: 59,
        value: -MOST,
    },
    Pair {
        account: 60,
        value: -MOST,
    },
    Pair {
        account: 61,
        value: -MOST,
    },
    Pair {
        account: 62,
        value: -MOST,
    },
    Pair {
        account: 63,
        value: -MOST,
    },
];

// One change of a sample.
#[derive(Clone, Copy, Debug)]
pub(crate) enum Edit {
    Nothing,
    House(u8),
    Number(u32),
    Hand(i64),
    // The second pair.
    Second(u8, i64),
    // The longest sample with another count.
    Counting(u8),
    // A void one with this count.
    Void(u8),
}

pub(crate) fn edited(edit: Edit) -> Entry {
    let e = SAMPLE;
    match edit {
        Edit::Nothing => e,
        Edit::House(house) => Entry { house, ..e },
        Edit::Number(number) => Entry { number, ..e },
        Edit::Hand(hand) => Entry { hand, ..e },
        Edit::Second(account, value) => with_second(Pair { account, value }),
        Edit::Counting(count) => Entry { count, ..LONGEST },
        Edit::Void(count) => Entry {
            void: true,
            count,
            ..e
        },
    }
}

fn with_second(pair: Pair) -> Entry {
    let mut pairs = SAMPLE.pairs;
    pairs[1] = pair;
    Entry { pairs, ..SAMPLE }
}

// 0 where the call did what it was asked, else the number of the refusal.
pub(crate) fn number_of<E: Into<u8>>(answer: Result<(), E>) -> u8 {
    told(answer).0
}

// The number of the refusal or 0, and what was answered or 0.
pub(crate) fn told<T: Default, E: Into<u8>>(answer: Result<T, E>) -> (u8, T) {
    match answer {
        Ok(value) => (0, value),
        Err(refusal) => (refusal.into(), T::default()),
    }
}

// The posting, the void mark, the hand and the count that a reading tells of entry `k`.
type Head = (Option<PostingId>, Option<bool>, Option<i64>, Option<usize>);

fn head_of<R: Reading>(reading: &R, k: usize) -> Head {
    (
        reading.identity(k),
        reading.void(k),
        reading.hand(k),
        reading.count(k),
    )
}

// Every question about entry `k` has this entry's answer.
pub(crate) fn reads_back<R: Reading>(rt: &impl Abort, reading: &R, k: usize, e: &Entry) {
    let pairs = e.counted_pairs();
    assert_eq!(rt;
        head_of(reading, k),
        (Some(e.id()), Some(e.void), Some(e.hand), Some(pairs.len()))
    );
    reads_pairs(rt, reading, k, pairs);
}

// No question about entry `k` has an answer.
pub(crate) fn reads_none<R: Reading>(rt: &impl Abort, reading: &R, k: usize) {
    assert_eq!(rt; head_of(reading, k), (None, None, None, None));
    reads_pairs(rt, reading, k, &[]);
}

// Entry `k` has these pairs and no others: there is none at a later place or for another account.
fn reads_pairs<R: Reading>(rt: &impl Abort, reading: &R, k: usize, pairs: &[Pair]) {
    for n in 0..=255u8 {
        let pair = pairs.get(usize::from(n)).copied();
        let with_account = pairs.iter().find(|pair| pair.account == n);
        assert_eq!(rt; reading.pair(k, usize::from(n)), pair);
        assert_eq!(rt; reading.given(k, n), with_account.map(|pair| pair.value));
    }
}
