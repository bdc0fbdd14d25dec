// A line that is being written into a slice.
ghost use Rattle.std.specs.Prelude.{◌≡◌, [], ◌∷◌, ◌++◌};
ghost use Rattle.std.specs.Fmt.{signed_decimal};
ghost use Rattle.journal.specs.Lines.{commaed, pair_fields};
ghost use Rattle.journal.specs.Writing.{state, Wrote, head_text};

use crate::entry::{Pair, PostingId};
use itoa::{Buffer, Integer};

// Bytes inside the slice are stored, and those past its end only counted, so over no bytes at all a line is measured.
// `at` is the place after the last byte, and stops at the greatest `usize`, which no slice reaches. The bytes are the
// caller's, so the place stands beside them.
#[derive(Drop)]
pub(crate) struct LineBuffer<'a> {
    pub(crate) out: &'a mut [u8],
    pub(crate) at: usize,
}

impl<'a> LineBuffer<'a> {
    // From the front of the slice on.
    pub(crate) fn new(out: &'a mut [u8]) -> Self
        ensures start { state result ≡ (0, out.old) }
        ensures lender { result.out.ghost_name ≡ out.entry.ghost_name }
    {
        LineBuffer { out, at: 0 }
    }

    pub(crate) fn put(&mut self, byte: u8)
        ensures { Wrote (byte ∷ []) self.old self.new }
    {
        // A test and an index: with `get_mut` the proof of what the bytes hold afterwards did not close.
        if self.at < self.out.len() {
            self.out[self.at] = byte;
        }
        self.at = self.at.saturating_add(1);
    }

    fn put_all(&mut self, bytes: &[u8])
        ensures { Wrote bytes.now self.old self.new }
    {
        for byte in bytes {
            self.put(*byte);
        }
    }

    // Not by `write!`: what is promised of it says nothing where it answers an error, and a line that has room must be put.
    fn put_number<N: Integer>(&mut self, number: N)
        ensures { Wrote (N.text number) self.old self.new }
    {
        let mut digits = Buffer::new();
        self.put_all(digits.format(number).as_bytes());
    }

    // A comma, then the number.
    fn put_field<N: Integer>(&mut self, number: N)
        ensures { Wrote (commaed (N.text number ∷ [])) self.old self.new }
    {
        self.put(b',');
        self.put_number(number);
    }

    // What stands before the pairs.
    pub(crate) fn put_head(&mut self, k: usize, id: PostingId, void: bool, hand: i64, count: usize)
        ensures { Wrote (head_text k id void hand count) self.old self.new }
    {
        self.put_number(k);
        self.put_field(id.house);
        self.put_field(id.number);
        self.put_field(u8::from(void));
        self.put_field(hand);
        self.put_field(count);
    }

    pub(crate) fn put_pair(&mut self, pair: Pair)
        ensures { Wrote (commaed (pair_fields (pair ∷ []))) self.old self.new }
    {
        self.put_field(pair.account);
        self.put_field(pair.value);
    }
}
