// The line of an entry, over any reading.
ghost use Rattle.std.specs.Prelude.{◌≡◌, length, Some};
ghost use Rattle.journal.specs.Readings.{count_at};
ghost use Rattle.journal.specs.Lines.{line_number, commaed, pair_fields, line_answer, line_written, LongestLine};
ghost use Rattle.journal.specs.Writing.{Wrote, pairs_at, line_put};

use crate::journals::Reading;
use crate::line_buffer::LineBuffer;

// The longest line that an entry can have: no lawful entry's line at a place below 4,096 is longer.
pub const LONGEST_LINE: usize = 372;

// Why no line was written, in the order of the tests, each with its number. The caller's bytes are then as they were.
#[derive(Clone, Copy, Debug, PartialEq, Eq)]
pub enum LineRefusal {
    // There is no entry at that place.
    NoSuchEntry = 44,
    // The line with its line feed is longer than the slice.
    DoesNotFit = 45,
}

impl From<LineRefusal> for u8 {
    ghost from_gives = { λ refusal number. number ≡ line_number refusal };

    fn from(refusal: LineRefusal) -> u8 {
        refusal as u8
    }
}

fn put_pairs<R: Reading>(line: &mut LineBuffer<'_>, journal: &R, k: usize, count: usize)
    requires { count_at (R.Reading.entries journal.now) k ≡ Some count }
    ensures { Wrote (commaed (pair_fields (pairs_at (R.Reading.entries journal.now) k))) line.old line.new }
{
    for j in 0..count {
        if let Some(pair) = journal.pair(k, j) {
            line.put_pair(pair);
        }
    }
}

// The whole line, from the front of the slice on, and its length; none if there is no such entry.
fn put_line<R: Reading>(out: &mut [u8], journal: &R, k: usize) -> Option<usize>
    ensures { (result, out.new) ≡ line_put (R.Reading.entries journal.now) k out.old }
{
    let id = journal.identity(k)?;
    let void = journal.void(k)?;
    let hand = journal.hand(k)?;
    let count = journal.count(k)?;
    let mut line = LineBuffer::new(out);
    line.put_head(k, id, void, hand, count);
    put_pairs(&mut line, journal, k, count);
    line.put(b'\n');
    Some(line.at)
}

// Writes the line of entry `k` to the front of `out` and tells its length.
// Bytes past the line stay, and a refusal writes nothing.
pub fn entry_line<R: Reading>(journal: &R, k: usize, out: &mut [u8]) -> Result<usize, LineRefusal>
    ensures answer { result ≡ line_answer (R.Reading.entries journal.now) k (length out.old) }
    ensures bytes { out.new ≡ line_written (R.Reading.entries journal.now) k out.old }
{
    let length = put_line(&mut [], journal, k).ok_or(LineRefusal::NoSuchEntry)?;
    if length > out.len() {
        return Err(LineRefusal::DoesNotFit);
    }
    put_line(out, journal, k);
    Ok(length)
}

// A slice of this length has room for every line of a lawful journal.
#[tactic(auto, using(crate::proofs::Widths::longest_line_lem))]
pub fn longest_line() -> usize
    ensures value { result ≡ 372 }
    ensures suffices { LongestLine }
{
    LONGEST_LINE
}
