// Standing orders drafted on the opening values, and once more after the entry that this makes.
use journal::{Cells, Journal, PostingId};
use leaves::ClosedBook;
use posting::{Draft, Source, StandingOrder, StandingOrders, draft};

const FIRST: PostingId = PostingId {
    house: 0,
    number: 1,
};

const FROM_9_TO_4: StandingOrder = StandingOrder {
    from: 9,
    to: 4,
    floor: 100,
    times: 1,
};

// The first posting of these orders with this much on account 9, over a journal without entries.
fn first_with(orders: &[StandingOrder], cents: i64) -> Draft {
    let mut openings = [0; 64];
    openings[9] = cents;
    draft(
        &StandingOrders::new(orders),
        &ClosedBook::open(&[]),
        &openings,
        0,
        FIRST,
        0,
    )
}

fn houses_of(orders: &[StandingOrder]) -> u8 {
    let source = StandingOrders::new(orders);
    source.houses()
}

// The constant is what the method answers, of which alone a contract can speak.
#[test]
fn longest(rt: HostRuntime) {
    let source = StandingOrders::new(&[FROM_9_TO_4]);
    assert_eq!(rt; (StandingOrders::LONGEST, source.longest_posting()), (5, 5));
}

#[test]
fn at_the_floor(rt: HostRuntime) {
    let d = first_with(&[FROM_9_TO_4], 100);
    assert_eq!(rt; (d.void, d.hand, d.count), (false, 100, 0));
    assert_eq!(rt; (d.reads[9], d.reads[4]), (true, false));
}

#[test]
fn above_the_floor(rt: HostRuntime) {
    let d = first_with(&[FROM_9_TO_4], 101);
    assert_eq!(rt; (d.void, d.hand, d.count), (false, 1, 2));
    assert_eq!(rt; (d.pairs[0].account, d.pairs[0].value), (4, 1));
    assert_eq!(rt; (d.pairs[1].account, d.pairs[1].value), (9, 100));
    assert_eq!(rt; (d.reads[9], d.reads[4]), (true, true));
}

// Line 3 finds the posting's own write: the floor, to which the rest is added again.
#[test]
fn from_an_account_to_itself(rt: HostRuntime) {
    let order = StandingOrder {
        to: 9,
        ..FROM_9_TO_4
    };
    let d = first_with(&[order], 150);
    assert_eq!(rt; (d.void, d.hand, d.count), (false, 150, 1));
    assert_eq!(rt; (d.pairs[0].account, d.pairs[0].value), (9, 150));
}

// A hand out of range is void, and what was read stays among the reads.
#[test]
fn out_of_range(rt: HostRuntime) {
    let order = StandingOrder {
        floor: -1,
        ..FROM_9_TO_4
    };
    let d = first_with(&[order], 1_000_000_000_000_000);
    assert_eq!(rt; (d.void, d.hand, d.count), (true, 0, 0));
    assert_eq!(rt; (d.reads[9], d.reads[4]), (true, false));
}

#[test]
fn refused_orders_have_no_houses(rt: HostRuntime) {
    let order = StandingOrder {
        to: 64,
        ..FROM_9_TO_4
    };
    assert_eq!(rt; houses_of(&[FROM_9_TO_4]), 1);
    assert_eq!(rt; houses_of(&[FROM_9_TO_4, order]), 0);
    let d = first_with(&[FROM_9_TO_4, order], 150);
    assert_eq!(rt; (d.void, d.hand, d.count, d.reads[9]), (true, 0, 0, false));
}

#[test]
fn entered_and_drafted_again(rt: HostRuntime) {
    let orders = [StandingOrder {
        times: 2,
        ..FROM_9_TO_4
    }];
    let source = StandingOrders::new(&orders);
    let mut openings = [0; 64];
    openings[9] = 101;
    let blank = first_with(&[], 0).entry_for(FIRST);
    let mut cells = [blank; 1];
    let mut journal = Cells::new(&mut cells);
    let entry = draft(&source, &journal, &openings, 0, FIRST, 0).entry_for(FIRST);
    assert!(rt; journal.file(0, &entry).is_ok());
    let second = PostingId {
        house: 0,
        number: 2,
    };
    let d = draft(&source, &journal, &openings, 1, second, 1);
    assert_eq!(rt; (d.void, d.hand, d.count), (false, 100, 0));
    let before = draft(&source, &journal, &openings, 0, second, 1);
    assert_eq!(rt; (before.void, before.hand, before.count), (false, 1, 2));
}
