// The lines of entries, and the room that they need.
use crate::first_entries::FirstEntries;
use crate::heap::HeapJournal;
use crate::samples::{Edit, MOST, edited, number_of, told};
use journal::{Journal, Reading, entry_line};
use std::process::Abort;
use std::test::Fail;

// Entries and their lines, in the order of their places.
static LINES: [(Edit, &str); 6] = [
    (Edit::Nothing, "0,3,300,0,-2,2,5,7,63,-1\n"),
    (Edit::Void(0), "1,3,300,1,-2,0\n"),
    (Edit::Hand(MOST), "2,3,300,0,1000000000000000,2,5,7,63,-1\n"),
    (Edit::Second(10, 0), "3,3,300,0,-2,2,5,7,10,0\n"),
    (Edit::House(0), "4,0,300,0,-2,2,5,7,63,-1\n"),
    (
        Edit::Counting(16),
        "5,15,4096,0,-1000000000000000,16,48,-1000000000000000,49,-1000000000000000,50,-1000000000000000,51,-1000000000000000,52,-1000000000000000,53,-1000000000000000,54,-1000000000000000,55,-1000000000000000,56,-1000000000000000,57,-1000000000000000,58,-1000000000000000,59,-1000000000000000,60,-1000000000000000,61,-1000000000000000,62,-1000000000000000,63,-1000000000000000\n",
    ),
];

// The line, and then bytes as they were.
fn begins_with(rt: &impl Abort, out: &[u8], line: &[u8]) {
    for (place, byte) in out.iter().enumerate() {
        assert_eq!(rt; *byte, line.get(place).copied().unwrap_or(b'#'));
    }
}

// What is told and written of entry `k` where the first `room` of these bytes are lent. Nothing is written for a refusal.
fn writes<R: Reading>(
    rt: &impl Abort,
    reading: &R,
    k: usize,
    out: &mut [u8],
    room: usize,
    refusal: u8,
    line: &[u8],
) {
    assert!(rt; room <= out.len());
    assert_eq!(rt;
        told(entry_line(reading, k, &mut out[0..room])),
        (refusal, line.len())
    );
    begins_with(rt, out, line);
}

// The line of entry `k` in every room, from none to more than enough; an empty line where there is no such entry.
fn writes_line<R: Reading>(rt: &impl Abort, reading: &R, k: usize, line: &[u8]) {
    for room in 0..=400 {
        let (refusal, written) = if line.is_empty() {
            (44, line)
        } else if room < line.len() {
            (45, &line[0..0])
        } else {
            (0, line)
        };
        writes(rt, reading, k, &mut [b'#'; 400], room, refusal, written);
    }
}

// The first `most` lines, and none past them.
fn writes_lines<R: Reading>(rt: &impl Abort, reading: &R, most: usize) {
    for (k, row) in LINES.iter().enumerate() {
        let line = if k < most { row.1 } else { "" };
        writes_line(rt, reading, k, line.as_bytes());
    }
    writes_line(rt, reading, LINES.len(), b"");
}

#[test]
fn lines(rt: HostRuntime) -> Result<(), Fail> {
    let mut journal = HeapJournal::with_room(rt.alloc(), LINES.len())?;
    for (k, row) in LINES.iter().enumerate() {
        assert_eq!(rt; number_of(journal.file(k, &edited(row.0))), 0);
    }
    writes_lines(&rt, &journal, 6);
    let reading = &journal;
    writes_lines(&rt, &FirstEntries { reading, most: 5 }, 5);
    Ok(())
}
