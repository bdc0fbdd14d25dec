// A journal in records of the host's memory.
ghost use Rattle.std.specs.Prelude.{◌≡◌, min, [], length, is_ok, if◌then◌else◌, slice_set};
ghost use Rattle.roll.specs.Rolls.{cells_of};
ghost use Rattle.journal.specs.Filing.{filing, filed};
ghost use Rattle.journal.specs.Stores.{records, cell_entries, cell_size};

use crate::entry::Entry;
use crate::journals::{FilingRefusal, Journal, MAX_ENTRIES};
use crate::records::Records;
use roll::Roll;

// A journal in records of the host's memory: the first 4,096 of them, or all if they are fewer.
#[derive(Debug, Drop)]
pub struct Cells<'a> {
    roll: Roll<'a, Entry>,
}

impl<'a> Cells<'a> {
    // An empty journal over these records.
    pub fn new(cells: &'a mut [Entry]) -> Self
        ensures entries { cell_entries result ≡ [] }
        ensures size { cell_size result ≡ min (length cells.old) 4096 }
        ensures cells { cells_of result.roll ≡ cells.old }
        ensures lender { result.roll.cells.ghost_name ≡ cells.entry.ghost_name }
    {
        Cells {
            roll: Roll::new(cells),
        }
    }
}

impl<'a> Records for Cells<'a> {
    ghost records = { records };

    ghost most = { cell_size };

    fn records(&self) -> &[Entry] {
        let filed = self.roll.as_slice();
        &filed[..MAX_ENTRIES.min(filed.len())]
    }

    fn most(&self) -> usize {
        self.roll.capacity().min(MAX_ENTRIES)
    }
}

impl<'a> Journal for Cells<'a> {
    fn file(&mut self, place: usize, e: &Entry) -> Result<(), FilingRefusal>
        ensures answer { result ≡ filing e.now place (length (cell_entries self.old)) (cell_size self.old) }
        ensures entries { cell_entries self.new ≡ filed result e.now (cell_entries self.old) }
        ensures size { cell_size self.new ≡ cell_size self.old }
        ensures cells { cells_of self.new.roll ≡ (if is_ok result then slice_set (cells_of self.old.roll) (length (cell_entries self.old)) e.now else cells_of self.old.roll) }
        ensures lender { self.new.roll.cells.ghost_name ≡ self.old.roll.cells.ghost_name }
    {
        self.can_file(place, e)?;
        self.roll.push(*e)?;
        Ok(())
    }
}
