// A whole text, judged line by line.
ghost use Rattle.std.specs.Prelude.{◌≡◌};
ghost use Rattle.batch.specs.Reading.{batch, answered};

use crate::items::BatchRefusal;
use crate::judging::Reader;
use crate::progress::Sizes;

pub const MOST_BYTES: usize = 32_768;

// What reading the text into tables of these sizes answers.
pub(crate) fn check(sizes: Sizes, text: &[u8]) -> Result<(), BatchRefusal>
    ensures { result ≡ answered (batch sizes text.now) }
{
    if text.is_empty() || text.len() > MOST_BYTES {
        return Err(BatchRefusal::Size);
    }
    let mut reader = Reader::new(sizes, text);
    // Counted here and not by an iterator of judged lines, which was tried: lines `P` took a third longer and more.
    let mut line = 0;
    while !reader.rest.is_empty() {
        line += 1;
        // A match, since by `map_err` and `?` lines `P` take longer.
        match reader.judge() {
            Ok(judged) => reader.enter(judged),
            Err(fault) => return Err(fault.at(line)),
        }
    }
    if !text.ends_with(b"\n") || reader.known.seen != reader.known.houses {
        return Err(BatchRefusal::End(line));
    }
    Ok(())
}
