// Filing, at the edges of entries, places and sizes.
use crate::first_entries::FirstEntries;
use crate::heap::HeapJournal;
use crate::samples::{Edit, LONGEST, MOST, SAMPLE, edited, number_of, reads_back, reads_none};
use journal::{Cells, Entry, Journal, Reading, entry_line};
use leaves::Leaves;
use std::alloc::Global;
use std::process::Abort;
use std::test::Fail;

// An entry, the place to file it at, the answer, and the length afterwards.
static FILINGS: [(Edit, usize, u8, usize); 35] = [
    (Edit::Number(0), 0, 61, 0),
    (Edit::Number(1), 0, 0, 1),
    (Edit::Number(4096), 1, 0, 2),
    (Edit::Number(4097), 2, 61, 2),
    (Edit::House(15), 2, 0, 3),
    (Edit::House(16), 3, 61, 3),
    (Edit::Hand(MOST), 3, 0, 4),
    (Edit::Hand(MOST + 1), 4, 61, 4),
    (Edit::Hand(-MOST), 4, 0, 5),
    (Edit::Hand(-MOST - 1), 5, 61, 5),
    (Edit::Hand(i64::MIN), 5, 61, 5),
    (Edit::Second(63, MOST), 5, 0, 6),
    (Edit::Second(63, MOST + 1), 6, 61, 6),
    (Edit::Second(63, -MOST), 6, 0, 7),
    (Edit::Second(63, -MOST - 1), 7, 61, 7),
    (Edit::Second(64, 0), 7, 61, 7),
    (Edit::Second(5, 0), 7, 61, 7),
    (Edit::Second(4, 0), 7, 61, 7),
    (Edit::Counting(16), 7, 0, 8),
    (Edit::Counting(17), 8, 61, 8),
    (Edit::Counting(255), 8, 61, 8),
    (Edit::Counting(0), 8, 0, 9),
    (Edit::Void(0), 9, 0, 10),
    (Edit::Void(1), 10, 61, 10),
    (Edit::Nothing, 9, 62, 10),
    (Edit::Nothing, 11, 62, 10),
    (Edit::Nothing, usize::MAX, 62, 10),
    (Edit::House(16), 9, 61, 10),
    (Edit::Nothing, 10, 0, 11),
    (Edit::Nothing, 11, 63, 11),
    (Edit::Nothing, 10, 62, 11),
    (Edit::Nothing, 12, 62, 11),
    (Edit::House(16), 11, 61, 11),
    (Edit::House(16), 10, 61, 11),
    (Edit::House(16), 12, 61, 11),
];

// All filings, over a journal of eleven entries.
fn file_all<J: Journal>(rt: &impl Abort, journal: &mut J) {
    for filing in &FILINGS {
        let (edit, place, answer, length) = *filing;
        let e = edited(edit);
        let told = number_of(journal.file(place, &e));
        assert_eq!(rt;
            (told, journal.length(), journal.size()),
            (answer, length, 11)
        );
        if answer == 0 {
            reads_back(rt, &*journal, place, &e);
        }
    }
}

// What `file_all` filed, and nothing past the first `most` entries.
fn reads_filed<R: Reading>(rt: &impl Abort, reading: &R, most: usize) {
    assert_eq!(rt; reading.length(), most);
    for filing in &FILINGS {
        let (edit, place, answer, _) = *filing;
        if answer == 0 && place < most {
            reads_back(rt, reading, place, &edited(edit));
        } else if place >= most {
            reads_none(rt, reading, place);
        }
    }
}

fn files_and_reads<J: Journal>(rt: &impl Abort, journal: &mut J) {
    file_all(rt, &mut *journal);
    let reading = &*journal;
    for most in [0, 6, 11, 99] {
        reads_filed(rt, &FirstEntries { reading, most }, most.min(11));
    }
}

#[test]
fn filing_in_cells(rt: HostRuntime) {
    let mut records = [LONGEST; 11];
    files_and_reads(&rt, &mut Cells::new(&mut records));
}

#[test]
fn filing_on_leaves(rt: HostRuntime) {
    let mut bytes = [0x55u8; 1919];
    files_and_reads(&rt, &mut Leaves::new(&mut bytes));
    for byte in bytes.iter().skip(1760) {
        assert_eq!(rt; *byte, 0x55);
    }
}

#[test]
fn filing_on_the_heap(rt: HostRuntime) -> Result<(), Fail> {
    let mut journal = HeapJournal::with_room(rt.alloc(), 11)?;
    files_and_reads(&rt, &mut journal);
    Ok(())
}

// How many records are lent, and the size of a journal over them.
static RECORDS: [(usize, usize); 4] = [(0, 0), (1, 1), (4096, 4096), (4097, 4096)];

// How many bytes are lent, the size of a journal over them, and how many of them its leaves take.
static BYTES: [(usize, usize, usize); 7] = [
    (0, 0, 0),
    (159, 0, 0),
    (160, 1, 160),
    (319, 1, 160),
    (655_359, 4095, 655_200),
    (655_360, 4096, 655_360),
    (655_520, 4096, 655_360),
];

// Files the longest entry at every place of a journal of this size, and then tries one more.
fn fill<J: Journal>(rt: &impl Abort, journal: &mut J, size: usize) {
    for place in 0..size {
        assert_eq!(rt; number_of(journal.file(place, &LONGEST)), 0);
    }
    let more = number_of(journal.file(size, &LONGEST));
    let no_entry = number_of(journal.file(size, &edited(Edit::House(16))));
    let elsewhere = number_of(journal.file(usize::MAX, &LONGEST));
    assert_eq!(rt; (more, no_entry, elsewhere), (63, 61, 62));
    assert_eq!(rt; (journal.length(), journal.size()), (size, size));
}

// The first records hold the longest entry, and all others the sample.
fn hold_longest(rt: &impl Abort, records: &[Entry], first: usize) {
    for (k, record) in records.iter().enumerate() {
        let hand = if k < first { LONGEST.hand } else { SAMPLE.hand };
        assert_eq!(rt; record.hand, hand);
    }
}

#[test]
fn full_cells(rt: HostRuntime) -> Result<(), Fail> {
    for row in &RECORDS {
        let (records, size) = *row;
        let mut cells = vec![in rt.alloc(); SAMPLE; records]?;
        fill(&rt, &mut Cells::new(&mut cells), size);
        hold_longest(&rt, &cells, size);
    }
    Ok(())
}

#[test]
fn full_leaves(rt: HostRuntime) -> Result<(), Fail> {
    for row in &BYTES {
        let (length, size, taken) = *row;
        let mut bytes = vec![in rt.alloc(); 0x55u8; length]?;
        fill(&rt, &mut Leaves::new(&mut bytes), size);
        for byte in bytes.iter().skip(taken) {
            assert_eq!(rt; *byte, 0x55);
        }
    }
    Ok(())
}

// The length of the last line of 4,096, or the number of its refusal.
fn last_line<R: Reading>(reading: &R, out: &mut [u8]) -> usize {
    entry_line(reading, 4095, out).unwrap_or_else(|refusal| usize::from(u8::from(refusal)))
}

#[test]
fn full_heap(rt: HostRuntime) -> Result<(), Fail> {
    let mut empty = HeapJournal::with_room(rt.alloc(), 0)?;
    fill(&rt, &mut empty, 0);
    let mut journal = HeapJournal::with_room(rt.alloc(), usize::MAX)?;
    fill(&rt, &mut journal, 4096);
    let short = last_line(&journal, &mut [0; 371]);
    let whole = last_line(&journal, &mut [0; 372]);
    assert_eq!(rt; (short, whole), (45, 372));
    Ok(())
}
