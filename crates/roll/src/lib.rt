// A roll: a bounded list that only grows, over cells that its maker lends it.
#![tactic(auto)]

ghost use Rattle.std.specs.Prelude.{◌≡◌, ◌≤◌, [], ◌∷◌, ◌++◌, length, drop, is_ok, if◌then◌else◌, slice_set};
ghost use Rattle.std.specs.Option.{option_map};
ghost use Rattle.std.specs.List.{slice_get};

// Every cell is used, so nothing was pushed.
#[derive(Clone, Copy, Debug, PartialEq, Eq)]
pub struct Full;

// The first `used` cells hold the list. The memory is the lender's, so how much of it is used stands beside it.
#[derive(Debug, Drop)]
pub struct Roll<'a, T> {
    cells: &'a mut [T],
    used: usize,
    ghost within: { used ≤ length cells.now },
}

impl<'a, T: Copy> Roll<'a, T> {
    ghost use Rattle.roll.specs.Rolls.{cells_of, items, unused, capacity_of, pushing};

    // An empty roll over these cells.
    pub fn new(cells: &'a mut [T]) -> Self
        ensures items { items result ≡ [] }
        ensures unused { unused result ≡ cells.old }
        ensures cells { cells_of result ≡ cells.old }
        ensures lender { result.cells.ghost_name ≡ cells.entry.ghost_name }
    {
        Roll { cells, used: 0 }
    }

    // How many items it holds.
    pub fn len(&self) -> usize
        ensures { result ≡ length (items self.now) }
    {
        self.as_slice().len()
    }

    // How many items it can hold in all.
    pub fn capacity(&self) -> usize
        ensures { result ≡ capacity_of self.now }
    {
        self.cells.len()
    }

    // How many more items it can take.
    pub fn room(&self) -> usize
        ensures { result ≡ length (unused self.now) }
    {
        self.capacity() - self.len()
    }

    // One more item at the end. A full roll stays as it is.
    pub fn push(&mut self, item: T) -> Result<(), Full>
        ensures answer { result ≡ pushing (length (items self.old)) (capacity_of self.old) }
        ensures items { items self.new ≡ (if is_ok result then items self.old ++ item ∷ [] else items self.old) }
        ensures unused { unused self.new ≡ (if is_ok result then drop 1 (unused self.old) else unused self.old) }
        ensures cells { cells_of self.new ≡ (if is_ok result then slice_set (cells_of self.old) (length (items self.old)) item else cells_of self.old) }
        ensures capacity { capacity_of self.new ≡ capacity_of self.old }
        ensures lender { self.new.cells.ghost_name ≡ self.old.cells.ghost_name }
    {
        // A test and an index: with `get_mut` the proof of what the cells hold afterwards did not close.
        if self.used >= self.cells.len() {
            return Err(Full);
        }
        self.cells[self.used] = item;
        self.used += 1;
        Ok(())
    }

    // An empty roll over the same cells.
    pub fn clear(&mut self)
        ensures items { items self.new ≡ [] }
        ensures unused { unused self.new ≡ cells_of self.old }
        ensures cells { cells_of self.new ≡ cells_of self.old }
        ensures capacity { capacity_of self.new ≡ capacity_of self.old }
        ensures lender { self.new.cells.ghost_name ≡ self.old.cells.ghost_name }
    {
        self.used = 0;
    }

    // The items, in the order of their pushes.
    pub fn as_slice(&self) -> &[T]
        ensures { result.now ≡ items self.now }
    {
        &self.cells[..self.used]
    }

    // The item at this place, counted from 0, or none.
    pub fn get(&self, place: usize) -> Option<&T>
        ensures { option_map (λ x. x.now) result ≡ slice_get (items self.now) place }
    {
        self.as_slice().get(place)
    }
}
