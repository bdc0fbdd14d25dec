// The bytes of a leaf, and closed books, good and broken.
use crate::samples::{Edit, LONGEST, MOST, SAMPLE, edited, number_of, reads_back, reads_none};
use journal::{Entry, Journal, Pair, Reading};
use leaves::{ClosedBook, Leaves, check_book};
use std::process::Abort;
use std::test::Fail;

// The leaf of the sample: house 3, number 300, hand -2, and the pairs (5, 7) and (63, -1).
static SAMPLE_LEAF: [u8; 160] = [
    3, 0, 2, 0, 0, 0, 1, 44, 255, 255, 255, 255, 255, 255, 255, 254, 5, 63, 0, 0, 0, 0, 0, 0, 0, 0,
    0, 0, 0, 0, 0, 0, 0, 0, 0, 0, 0, 0, 0, 7, 255, 255, 255, 255, 255, 255, 255, 255, 0, 0, 0, 0,
    0, 0, 0, 0, 0, 0, 0, 0, 0, 0, 0, 0, 0, 0, 0, 0, 0, 0, 0, 0, 0, 0, 0, 0, 0, 0, 0, 0, 0, 0, 0, 0,
    0, 0, 0, 0, 0, 0, 0, 0, 0, 0, 0, 0, 0, 0, 0, 0, 0, 0, 0, 0, 0, 0, 0, 0, 0, 0, 0, 0, 0, 0, 0, 0,
    0, 0, 0, 0, 0, 0, 0, 0, 0, 0, 0, 0, 0, 0, 0, 0, 0, 0, 0, 0, 0, 0, 0, 0, 0, 0, 0, 0, 0, 0, 0, 0,
    0, 0, 0, 0, 0, 0, 0, 0, 0, 0, 0, 0,
];

// A place on the third leaf, a byte to put there, and what the check then answers.
static BYTES: [(u8, u8, u8); 29] = [
    (0, 15, 0),
    (0, 16, 52),
    (1, 1, 52),
    (1, 2, 52),
    (2, 1, 52),
    (2, 3, 52),
    (2, 17, 52),
    (3, 1, 52),
    (4, 1, 52),
    (6, 0, 52),
    (6, 1, 0),
    (7, 1, 52),
    (8, 128, 52),
    (14, 127, 0),
    (15, 1, 52),
    (16, 62, 0),
    (16, 63, 52),
    (17, 4, 52),
    (17, 5, 52),
    (17, 6, 0),
    (17, 64, 52),
    (18, 64, 52),
    (31, 1, 52),
    (32, 1, 52),
    (39, 1, 52),
    (46, 127, 52),
    (47, 1, 0),
    (48, 1, 52),
    (159, 1, 52),
];

// The first so many bytes of a book of four leaves, what the check answers, and the entries of the book opened on them.
static LENGTHS: [(usize, u8, usize); 8] = [
    (0, 0, 0),
    (1, 51, 0),
    (159, 51, 0),
    (160, 0, 1),
    (161, 51, 0),
    (480, 0, 3),
    (639, 51, 0),
    (640, 0, 4),
];

// The number of the posting, the hand and the values as great as they can be.
fn at_the_limits() -> Entry {
    let mut pairs = SAMPLE.pairs;
    pairs[0] = Pair {
        account: 5,
        value: MOST,
    };
    pairs[1] = Pair {
        account: 63,
        value: -MOST,
    };
    Entry {
        number: 4096,
        hand: MOST,
        pairs,
        ..SAMPLE
    }
}

fn samples() -> [Entry; 4] {
    [SAMPLE, edited(Edit::Void(0)), at_the_limits(), LONGEST]
}

// Four entries, filed on these bytes.
fn file_four(rt: &impl Abort, bytes: &mut [u8]) {
    let mut journal = Leaves::new(bytes);
    for (k, e) in samples().iter().enumerate() {
        assert_eq!(rt; number_of(journal.file(k, e)), 0);
    }
    let bytes = journal.as_bytes();
    assert_eq!(rt; (bytes.len(), told(bytes)), (640, (0, 0)));
}

// The number of the refusal, or 0, and the broken leaf.
fn told(bytes: &[u8]) -> (u8, usize) {
    let refusal = check_book(bytes).err();
    refusal.map_or((0, 0), |refusal| (refusal.into(), refusal.leaf()))
}

// The length and the size of the book opened on these bytes.
fn opened(bytes: &[u8]) -> (usize, usize) {
    let book = ClosedBook::open(bytes);
    (book.length(), book.size())
}

fn put(bytes: &mut [u8], at: usize, byte: u8) {
    if let Some(old) = bytes.get_mut(at) {
        *old = byte;
    }
}

#[test]
fn leaf_of_the_sample(rt: HostRuntime) {
    let mut bytes = [0x55u8; 320];
    let mut journal = Leaves::new(&mut bytes);
    assert_eq!(rt; journal.as_bytes().len(), 0);
    assert_eq!(rt; number_of(journal.file(0, &SAMPLE)), 0);
    assert_eq!(rt; journal.as_bytes(), &SAMPLE_LEAF[0..160]);
}

#[test]
fn good_books(rt: HostRuntime) {
    let mut bytes = [0u8; 640];
    file_four(&rt, &mut bytes);
    for row in &LENGTHS {
        let (length, refusal, entries) = *row;
        assert!(rt; length <= 640);
        let part = &bytes[0..length];
        assert_eq!(rt;
            (told(part), opened(part)),
            ((refusal, 0), (entries, entries))
        );
    }
    let book = ClosedBook::open(&bytes);
    for (k, e) in samples().iter().enumerate() {
        reads_back(&rt, &book, k, e);
    }
    reads_none(&rt, &book, 4);
}

// Breaks the third of four leaves, byte by byte.
fn break_bytes(rt: &impl Abort, bytes: &mut [u8]) {
    assert!(rt; bytes.len() == 640);
    for row in &BYTES {
        let (place, byte, refusal) = *row;
        let at = 320 + place as usize;
        let kept = bytes[at];
        bytes[at] = byte;
        let (leaf, entries) = if refusal == 0 { (0, 4) } else { (2, 0) };
        assert_eq!(rt;
            (told(bytes), opened(bytes)),
            ((refusal, leaf), (entries, entries)),
            "{}",
            place
        );
        bytes[at] = kept;
    }
}

// A place in a book of four leaves, a byte to put there besides those before, and the first broken leaf.
static BREAKS: [(usize, u8, usize); 3] = [(483, 1, 3), (323, 1, 2), (161, 2, 1)];

fn break_leaves(rt: &impl Abort, bytes: &mut [u8]) {
    for row in &BREAKS {
        let (at, byte, leaf) = *row;
        put(bytes, at, byte);
        assert_eq!(rt; told(bytes), (52, leaf));
    }
    assert!(rt; bytes.len() == 640);
    assert_eq!(rt; told(&bytes[0..639]), (51, 0));
}

#[test]
fn broken_books(rt: HostRuntime) {
    let mut bytes = [0u8; 640];
    file_four(&rt, &mut bytes);
    break_bytes(&rt, &mut bytes);
    break_leaves(&rt, &mut bytes);
}

#[test]
fn largest_book(rt: HostRuntime) -> Result<(), Fail> {
    let mut bytes = Vec::new(rt.alloc());
    for _ in 0..4097 {
        bytes.extend_from_slice(&SAMPLE_LEAF)?;
    }
    assert_eq!(rt;
        (bytes.len(), told(&bytes), opened(&bytes)),
        (655_520, (51, 0), (0, 0))
    );
    bytes.truncate(655_360);
    assert_eq!(rt; (told(&bytes), opened(&bytes)), ((0, 0), (4096, 4096)));
    Ok(())
}
