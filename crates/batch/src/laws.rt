// What holds of every batch.
ghost use Rattle.std.specs.Prelude.{◌≡◌};
ghost use Rattle.batch.specs.Texts.{WritesBack, ReadsBack, OneWay};

use crate::reading::MOST_BYTES;

// The most bytes that a batch has. An accepted text is what its plan and tables write, what lawful lines write is read back
// as those lines, and no two plans share a text.
pub fn batch_laws() -> usize
    ensures bytes { result ≡ 32768 }
    ensures writes { WritesBack }
    ensures reads { ReadsBack }
    ensures one_way { OneWay }
{
    MOST_BYTES
}
