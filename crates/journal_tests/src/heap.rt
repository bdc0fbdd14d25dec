// Entries on the heap.
ghost use Rattle.std.specs.Prelude.{◌≤◌, vec_len, vec_capacity};

use journal::Entry;

// A journal on the heap. Its room is reserved when it is made, so that filing needs no memory.
#[derive(Debug, Drop)]
pub struct HeapJournal {
    pub(crate) entries: Vec<Entry>,
    pub(crate) size: usize,
    ghost filed: { vec_len entries ≤ size },
    ghost room: { size ≤ vec_capacity entries },
    ghost small: { size ≤ 4096 },
}
