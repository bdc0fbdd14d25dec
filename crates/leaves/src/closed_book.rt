// Leaves held for reading.
ghost use Rattle.leaves.specs.Pages.{whole_leaves, LeavesOfEntries};

// A closed book: the leaves of a journal that takes no more entries. Whatever it holds passed its check,
// so each leaf says an entry and is the leaf of that entry.
#[derive(Clone, Copy, Debug)]
pub struct ClosedBook<'a> {
    pub(crate) bytes: &'a [u8],
    pub ghost good: { LeavesOfEntries (whole_leaves bytes.now) bytes.now },
}
