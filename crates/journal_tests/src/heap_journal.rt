// A journal on the heap, as a customer writes it.
ghost use Rattle.std.specs.Prelude.{◌≡◌, ◌≤◌, min, [], length, IfOk, vec_items};
ghost use Rattle.journal_tests.specs.Customer.{heap_entries, heap_size};

use crate::heap::HeapJournal;
use journal::{Entry, FilingRefusal, Journal, MAX_ENTRIES, Records};
use std::alloc::{AllocError, Global};

impl HeapJournal {
    // An empty journal with room for this many entries, or for 4,096 if that is less.
    pub fn with_room(heap: Global, entries: usize) -> Result<Self, AllocError>
        ensures { IfOk result (λ h. (heap_entries h ≡ []) × (heap_size h ≡ min entries 4096)) }
    {
        let size = entries.min(MAX_ENTRIES);
        let entries = Vec::with_capacity(heap, size)?;
        Ok(HeapJournal { entries, size })
    }
}

impl Records for HeapJournal {
    ghost records = { λ h. vec_items h.entries };

    ghost most = { heap_size };

    fn records(&self) -> &[Entry] {
        &self.entries
    }

    fn most(&self) -> usize {
        self.size
    }
}

impl Journal for HeapJournal {
    fn file(&mut self, place: usize, e: &Entry) -> Result<(), FilingRefusal> {
        self.can_file(place, e)?;
        self.entries.push_reserved(*e);
        Ok(())
    }
}
