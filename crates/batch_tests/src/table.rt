// What the order lines of a table come to, at the edges of every kind.
use batch::{OrderLine, Posting};
use batch_table::{BatchTable, is_from_a_batch};
use journal::{Cells, PostingId};
use posting::{Draft, Source, draft};

const MOST: i64 = 1_000_000_000_000_000;

const FIRST: PostingId = PostingId {
    house: 0,
    number: 1,
};

const ALONE: [Posting; 1] = [Posting { house: 0, first: 0 }];

// The one posting of one house with these order lines, from hand 0 over an empty journal, with 7 on account 3.
fn drafted(lines: &[OrderLine]) -> Draft {
    let mut openings = [0; 64];
    openings[3] = 7;
    let table = BatchTable::new(1, &ALONE, lines);
    draft(&table, &Cells::new(&mut []), &openings, 0, FIRST, 0)
}

#[test]
fn sums(rt: HostRuntime) {
    let most = drafted(&[OrderLine::Set(MOST), OrderLine::Raise(0)]);
    assert_eq!(rt; (most.void, most.hand), (false, MOST));
    let above = drafted(&[OrderLine::Set(MOST), OrderLine::Raise(1)]);
    assert_eq!(rt; (above.void, above.hand), (true, 0));
    let joined = drafted(&[OrderLine::Set(MOST), OrderLine::Join(3)]);
    assert_eq!(rt; (joined.void, joined.reads[3]), (true, true));
}

#[test]
fn needs(rt: HostRuntime) {
    let met = drafted(&[OrderLine::Need(0)]);
    assert_eq!(rt; (met.void, met.hand), (false, 0));
    let unmet = drafted(&[OrderLine::Set(-1), OrderLine::Need(0)]);
    assert_eq!(rt; (unmet.void, unmet.hand), (true, 0));
}

#[test]
fn writes(rt: HostRuntime) {
    let d = drafted(&[
        OrderLine::Set(1),
        OrderLine::Write(5),
        OrderLine::Set(2),
        OrderLine::Write(5),
    ]);
    assert_eq!(rt; (d.void, d.hand, d.count), (false, 2, 1));
    assert_eq!(rt; (d.pairs[0].account, d.pairs[0].value), (5, 2));
}

#[test]
fn reads(rt: HostRuntime) {
    let d = drafted(&[
        OrderLine::Take(3),
        OrderLine::Write(7),
        OrderLine::Take(7),
        OrderLine::Join(7),
    ]);
    assert_eq!(rt; (d.void, d.hand, d.count), (false, 14, 1));
    assert_eq!(rt; (d.reads[3], d.reads[7]), (true, false));
}

#[test]
fn records(rt: HostRuntime) {
    let second = Posting { house: 1, first: 1 };
    let lines = [OrderLine::Set(1), OrderLine::Set(2)];
    assert_eq!(rt; is_from_a_batch(2, &[ALONE[0], second], &lines), true);
    assert_eq!(rt; is_from_a_batch(2, &[second, ALONE[0]], &lines), false);
    assert_eq!(rt; is_from_a_batch(1, &[ALONE[0], second], &lines), false);
    assert_eq!(rt; is_from_a_batch(1, &[], &lines), false);
    assert_eq!(rt; is_from_a_batch(0, &[], &[]), false);
    assert_eq!(rt; is_from_a_batch(16, &[], &[]), true);
}

#[test]
fn order_lines(rt: HostRuntime) {
    assert_eq!(rt; is_from_a_batch(1, &ALONE, &[OrderLine::Set(1); 16]), true);
    assert_eq!(rt; is_from_a_batch(1, &ALONE, &[OrderLine::Set(1); 17]), false);
    assert_eq!(rt; is_from_a_batch(1, &ALONE, &[OrderLine::Take(64)]), false);
}

// How many houses a table of these postings without order lines has, and how many postings its house 1.
fn counts(houses: u8, postings: &[Posting]) -> (u8, u32) {
    let table = BatchTable::new(houses, postings, &[]);
    (table.houses(), table.postings(1))
}

#[test]
fn houses(rt: HostRuntime) {
    let second = Posting { house: 1, first: 0 };
    assert_eq!(rt; counts(2, &[ALONE[0], second, second]), (2, 2));
    assert_eq!(rt; counts(1, &[ALONE[0], second, second]), (0, 0));
}
